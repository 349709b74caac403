//! Why a file was refused: the end of the second line, after the name of the file.

use std::alloc::AllocError;
use std::{fmt, io};

/// Why a file was refused.
#[derive(Clone, Copy)]
pub enum Reason {
    /// Only the name is shown: the first line has the reason.
    NameOnly,
    /// An allocation failed: the first line has this reason, and no file caused it.
    Memory,
    /// The system's error of this number.
    Os(i32),
    /// The output file cannot have the owner, group and mode that it should, with the system's
    /// error, if there was one.
    OwnershipNotKept(Option<i32>),
    /// The length in bytes is not legal. The first text names the legal lengths, and the second one
    /// is a hint.
    Length(u64, &'static str, Option<&'static str>),
    /// The length in bytes is more than the last number. The text names what has this limit.
    TooLong(u64, &'static str, usize),
    /// More than this number of bytes.
    MoreThan(usize),
    /// The length of a KEK is not legal. The text is a hint.
    KekLength(u64, Option<&'static str>),
    /// The file has this number of hex digits.
    HexDigits(u64),
    /// The file is not in this notation. The text is a hint.
    NotIn(&'static str, Option<&'static str>),
    /// The file is not a valid wrapped key of this kind. The text is a hint.
    NotValid(&'static str, Option<&'static str>),
    /// The file has this number of lines, all of one length, and was read as one key.
    EqualLines(u64),
    /// This text.
    Text(&'static str),
}

impl Reason {
    /// Returns the reason for the system's error of this number. Without it only the name is shown.
    pub fn from_os_error(number: Option<i32>) -> Reason {
        number.map_or(Reason::NameOnly, Reason::Os)
    }
}

impl From<io::Error> for Reason {
    fn from(error: io::Error) -> Reason {
        Reason::from_os_error(error.raw_os_error())
    }
}

impl From<AllocError> for Reason {
    fn from(_error: AllocError) -> Reason {
        Reason::Memory
    }
}

impl fmt::Display for Reason {
    fn fmt<W: fmt::Write>(&self, f: &mut fmt::Formatter<W>) -> fmt::Result {
        match *self {
            Reason::NameOnly | Reason::Memory => Ok(()),
            Reason::Os(number) => write!(f, ": {}", io::Error::from_raw_os_error(number)),
            Reason::OwnershipNotKept(Some(number)) => {
                write!(f, "{NOT_KEPT}: {}", io::Error::from_raw_os_error(number))
            }
            Reason::OwnershipNotKept(None) => {
                write!(f, "{NOT_KEPT}: the file system has one for all")
            }
            Reason::Length(bytes, legal, None) => {
                write!(f, ": {bytes} {}; {legal}", unit(bytes))
            }
            Reason::Length(bytes, legal, Some(hint)) => {
                write!(f, ": {bytes} {}; {legal}; {hint}", unit(bytes))
            }
            Reason::TooLong(bytes, what, most) => {
                write!(f, ": {bytes} bytes; {what} has {most} at most")
            }
            Reason::MoreThan(most) => write!(f, ": more than {most} bytes"),
            Reason::KekLength(bytes, None) => write!(f, ": {bytes} {} of KEK", unit(bytes)),
            Reason::KekLength(bytes, Some(hint)) => {
                write!(f, ": {bytes} {} of KEK; {hint}", unit(bytes))
            }
            Reason::HexDigits(digits) => write!(f, ": {digits} hex digits"),
            Reason::NotIn(notation, None) => write!(f, ": not {notation}"),
            Reason::NotIn(notation, Some(hint)) => write!(f, ": not {notation}: {hint}"),
            Reason::NotValid(kind, None) => write!(f, ": not a valid {kind}"),
            Reason::NotValid(kind, Some(hint)) => write!(f, ": not a valid {kind}; {hint}"),
            Reason::EqualLines(lines) => {
                write!(
                    f,
                    ": {lines} lines of one length are read as one; --lines reads each"
                )
            }
            Reason::Text(text) => write!(f, ": {text}"),
        }
    }
}

const NOT_KEPT: &str = ": owner, group or mode can't be kept";

fn unit(bytes: u64) -> &'static str {
    if bytes == 1 { "byte" } else { "bytes" }
}
