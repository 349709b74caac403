//! The faults of the program, with their lines on standard error and their exit statuses.

ghost use Rattle.std.specs.Prelude.{◌≡◌, ◌≢◌, ◌↔◌, ◌⊎◌};
ghost use Rattle.keywrap_cli.specs.Faults.{hex_fault_of, vectors_fault_of, drill_status, program_status, job_status, line_status};
ghost use Rattle.keywrap_cli.specs.declared.fault.ProgramFault.TheVariants as ProgramFaults;

use crate::drilling::DrillFault;
use crate::initial_value::IvFault;
use crate::outcome::JobFault;
use crate::statuses;
use crate::vector_report::VectorsFault;
use key_files::{FileFault, HexWriteFault, WriteFault};
use key_lines::{LineFault, RefusedLine};
use key_wrap_core::Refusal;
use thiserror::Error;

/// A fault of the program, other than one of its arguments. Its message is its line on standard
/// error.
#[derive(Debug, Drop, Error)]
pub enum ProgramFault {
    #[error("keywrap: --iv {0}")]
    Iv(IvFault),
    #[error("keywrap: --new-iv {0}")]
    NewIv(IvFault),
    #[error("keywrap: key file: cannot be opened")]
    KekOpen,
    #[error("keywrap: new key file: cannot be opened")]
    NewKekOpen,
    #[error("keywrap: input: cannot be opened")]
    InputOpen,
    /// The output file can't be made, or must not be replaced.
    #[error("keywrap: output: cannot be opened")]
    OutputOpen,
    #[error("keywrap: output: raw bytes do not go to a terminal; redirect it or use --output")]
    RawToTerminal,
    #[error("keywrap: {0}")]
    Job(JobFault),
    #[error("keywrap: {0}")]
    Line(RefusedLine<Refusal>),
    #[error("keywrap: no lines")]
    NoLines,
    #[error("keywrap: {0}")]
    Drill(DrillFault),
    /// The help, the vectors or the answer of the drill could not be written.
    #[error("keywrap: {}", JobFault::Write {written: *written})]
    Write { written: usize },
    /// The answers to `answered` lines were written but for their last `unsent` bytes.
    #[error("keywrap: output: refused {unsent} bytes before the end of line {answered}")]
    Unsent { answered: u64, unsent: usize },
    /// Standard output can't be flushed, or the new file can't be renamed.
    #[error("keywrap: output: cannot be flushed")]
    Flush,
    #[error("keywrap: {}", JobFault::Memory)]
    Memory,
}

impl ProgramFault {
    /// Returns the exit status.
    pub fn status(&self) -> u8
        ensures status { result ≡ program_status self.now }
        ensures failed { result ≢ 0 }
    {
        match self {
            ProgramFault::Iv(_) | ProgramFault::NewIv(_) | ProgramFault::RawToTerminal =>
                statuses::USAGE,
            ProgramFault::KekOpen
            | ProgramFault::NewKekOpen
            | ProgramFault::InputOpen
            | ProgramFault::OutputOpen
            | ProgramFault::Write { .. }
            | ProgramFault::Unsent { .. }
            | ProgramFault::Flush => statuses::INPUT_OUTPUT,
            ProgramFault::Job(fault) => job_status(fault),
            ProgramFault::Line(refused) => line_status(refused.fault),
            ProgramFault::NoLines => statuses::BAD_LENGTH,
            ProgramFault::Drill(fault) => drill_status(fault),
            ProgramFault::Memory => statuses::MEMORY,
        }
    }
}

fn job_status(fault: &JobFault) -> u8
    ensures status { result ≡ job_status fault.now }
    ensures failed { result ≢ 0 }
    ensures kek { (result ≡ 3) ↔ ((fault.now ≡ JobFault.KekLength)
        ⊎ (fault.now ≡ JobFault.NewKekLength)) }
    ensures length { (result ≡ 4) ↔ ((fault.now ≡ JobFault.BadLength)
        ⊎ (fault.now ≡ JobFault.KeyNotPlain)) }
    ensures integrity { (result ≡ 5) ↔ (fault.now ≡ JobFault.Integrity) }
    ensures memory { (result ≡ 7) ↔ (fault.now ≡ JobFault.Memory) }
{
    match fault {
        JobFault::KekLength | JobFault::NewKekLength => statuses::KEK_LENGTH,
        JobFault::BadLength | JobFault::KeyNotPlain => statuses::BAD_LENGTH,
        JobFault::Integrity => statuses::FAILED,
        JobFault::KekFile(_)
        | JobFault::NewKekFile(_)
        | JobFault::InputFile(_)
        | JobFault::Write { .. } => statuses::INPUT_OUTPUT,
        JobFault::Memory => statuses::MEMORY,
    }
}

pub(crate) fn line_status(fault: LineFault<Refusal>) -> u8
    ensures status { result ≡ line_status fault }
    ensures failed { result ≢ 0 }
{
    match fault {
        LineFault::Refused(Refusal::BadLength | Refusal::KeyNotPlain) => { statuses::BAD_LENGTH }
        LineFault::Refused(Refusal::Integrity) => statuses::FAILED,
        LineFault::Memory | LineFault::Input(FileFault::Memory) => statuses::MEMORY,
        LineFault::TooManyLines
        | LineFault::Input(
            FileFault::Read
            | FileFault::TooLong
            | FileFault::BadDigit { .. }
            | FileFault::OddDigits
            | FileFault::BadCharacter { .. }
            | FileFault::BehindPadding { .. }
            | FileFault::BadBase64Length
            | FileFault::TrailingBits,
        ) => statuses::INPUT_OUTPUT,
    }
}

fn drill_status(fault: &DrillFault) -> u8
    ensures status { result ≡ drill_status fault.now }
    ensures failed { result ≢ 0 }
{
    match fault {
        DrillFault::BadLength => statuses::BAD_LENGTH,
        DrillFault::Integrity => statuses::FAILED,
        DrillFault::TooLong | DrillFault::BadDigit { .. } | DrillFault::OddDigits => {
            statuses::INPUT_OUTPUT
        }
        DrillFault::Memory => statuses::MEMORY,
    }
}

impl From<VectorsFault> for ProgramFault {
    ghost from_gives = { λ vectors fault. fault ≡ vectors_fault_of vectors };

    fn from(fault: VectorsFault) -> ProgramFault {
        match fault {
            VectorsFault::Memory => ProgramFault::Memory,
            VectorsFault::Write { written } => ProgramFault::Write { written },
        }
    }
}

impl From<HexWriteFault> for ProgramFault {
    ghost from_gives = { λ write fault. fault ≡ hex_fault_of write };

    fn from(fault: HexWriteFault) -> ProgramFault {
        match fault {
            HexWriteFault::Memory => ProgramFault::Memory,
            HexWriteFault::Write { written } => ProgramFault::Write { written },
        }
    }
}

impl From<WriteFault> for ProgramFault {
    ghost from_gives = { λ write fault. fault ≡ ProgramFaults.Write write.written };

    fn from(fault: WriteFault) -> ProgramFault {
        ProgramFault::Write {
            written: fault.written,
        }
    }
}
