//! Why a run stops.

ghost use Rattle.std.specs.Prelude.{◌≡◌};
ghost use Rattle.key_lines.specs.LineAnswers.{line_fault_of};
ghost use Rattle.key_lines.specs.declared.fault.LineFault.TheVariants as LineFaults;

use key_files::FileFault;
use std::alloc::AllocError;
use std::fmt;

/// Why a line or its bytes were refused.
#[derive(Clone, Copy, Debug, PartialEq)]
pub enum LineFault<R> {
    /// The line cannot be read or decoded.
    Input(FileFault),
    /// The bytes of the line were refused.
    Refused(R),
    /// An allocation failed.
    Memory,
    /// The line is past the largest number of lines of a run, 2^64 - 2.
    TooManyLines,
}

/// A line of the input that was refused.
#[derive(Clone, Copy, Debug, PartialEq)]
pub struct RefusedLine<R> {
    /// The line, counted from 1.
    pub line: u64,
    /// Why it was refused.
    pub fault: LineFault<R>,
}

/// Why a run stopped, or not all of its answers were written.
#[derive(Drop, PartialEq)]
pub enum RunFault<R> {
    /// The lines before this line were answered, and this line was not.
    AtLine(RefusedLine<R>),
    /// The writer took all but the last bytes of the answers.
    Write {
        /// The number of lines that were answered.
        answered: u64,
        /// The number of bytes of their answers that were not written.
        unsent: usize,
    },
}

impl<R> From<AllocError> for LineFault<R> {
    ghost from_gives = { λ _ fault. fault ≡ LineFaults.Memory };

    fn from(_error: AllocError) -> LineFault<R> {
        LineFault::Memory
    }
}

// Returns the fault of a line for a fault of its text.
pub(crate) fn line_fault<R>(fault: FileFault) -> LineFault<R>
    ensures { result ≡ line_fault_of fault }
{
    match fault {
        FileFault::Memory => LineFault::Memory,
        fault => LineFault::Input(fault),
    }
}

impl<R: fmt::Display> fmt::Display for RefusedLine<R> {
    fn fmt<W: fmt::Write>(&self, f: &mut fmt::Formatter<W>) -> fmt::Result {
        let line = self.line;
        match &self.fault {
            LineFault::Input(fault) => write!(f, "line {line}: {fault}"),
            LineFault::Refused(refusal) => write!(f, "line {line}: {refusal}"),
            LineFault::Memory => write!(f, "line {line}: {}", FileFault::Memory),
            LineFault::TooManyLines => write!(f, "line {line}: too many lines"),
        }
    }
}
