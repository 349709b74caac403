//! Why a file could not be read or written.

ghost use Rattle.std.specs.Prelude.{◌≡◌};
ghost use Rattle.key_files.specs.declared.fault.FileFault.TheVariants as FileFaults;
ghost use Rattle.key_files.specs.declared.fault.HexWriteFault.TheVariants as HexWriteFaults;

use std::alloc::AllocError;
use thiserror::Error;

/// Why a file could not be read or decoded.
#[derive(Clone, Copy, Debug, PartialEq, Eq, Error)]
pub enum FileFault {
    /// A read failed, even if it was only interrupted.
    #[error("cannot be read")]
    Read,
    /// The file has more bytes than the limit.
    #[error("too long")]
    TooLong,
    /// The byte at offset `at`, counted from 0 over all bytes, is the first that is not a hex
    /// digit, nor an allowed space, tab, CR or LF.
    #[error("no hex digit at byte {at}")]
    BadDigit { at: usize },
    /// The number of hex digits is odd.
    #[error("odd number of hex digits")]
    OddDigits,
    /// The byte at offset `at` is the first that is not a character of the text's base64 alphabet
    /// (RFC 4648, sections 4 and 5), not padding, and not an allowed space, tab, CR or LF.
    #[error("no base64 character at byte {at}")]
    BadCharacter { at: usize },
    /// The byte at offset `at` is the first byte after the base64 padding that is not padding.
    #[error("base64 goes on after its padding at byte {at}")]
    BehindPadding { at: usize },
    /// The number of base64 characters, with the padding, does not encode whole bytes.
    #[error("length is not that of base64")]
    BadBase64Length,
    /// The last base64 character has non-zero bits after the last byte.
    #[error("last base64 character has bits of no byte")]
    TrailingBits,
    /// An allocation failed.
    #[error("out of memory")]
    Memory,
}

/// A writer that failed, or took none of the remaining bytes.
#[derive(Clone, Copy, Debug, PartialEq, Eq, Error)]
#[error("refused after {written} bytes")]
pub struct WriteFault {
    /// The number of bytes that were written.
    pub written: usize,
}

/// Why a hex text was not written whole.
#[derive(Clone, Copy, Debug, PartialEq, Eq, Error)]
pub enum HexWriteFault {
    /// An allocation failed, and nothing was written.
    #[error("{}", FileFault::Memory)]
    Memory,
    /// The writer failed, or took none of the remaining bytes.
    #[error("{}", WriteFault {written: *written})]
    Write {
        /// The number of bytes of the text that were written.
        written: usize,
    },
}

impl From<AllocError> for FileFault {
    ghost from_gives = { λ _ fault. fault ≡ FileFaults.Memory };

    fn from(_error: AllocError) -> FileFault {
        FileFault::Memory
    }
}

impl From<AllocError> for HexWriteFault {
    ghost from_gives = { λ _ fault. fault ≡ HexWriteFaults.Memory };

    fn from(_error: AllocError) -> HexWriteFault {
        HexWriteFault::Memory
    }
}

impl From<WriteFault> for HexWriteFault {
    ghost from_gives = { λ write fault. fault ≡ HexWriteFaults.Write write.written };

    fn from(fault: WriteFault) -> HexWriteFault {
        HexWriteFault::Write {
            written: fault.written,
        }
    }
}
