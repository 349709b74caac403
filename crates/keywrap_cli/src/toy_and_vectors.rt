//! The commands without files: they write their answer, flush it, and return the exit status.

ghost use Rattle.std.specs.Prelude.{◌≡◌, ◌↔◌, ◌⊎◌, List, ℕ, Err, IfErr, IfOk, true, false};
ghost use Rattle.std.specs.Io.KnownBytes.{Appends, Keeps};
ghost use Rattle.key_files.specs.declared.fault.FileFault.TheVariants as FileFaults;
ghost use Rattle.test_vectors.specs.Published.{published_vectors};
ghost use Rattle.keywrap_cli.specs.ToyAndVectors.{IsDrillLine, drill_meaning, IsCutOff, IsDrillFault, IsVectorsFault, WritesReport};
ghost use Rattle.keywrap_cli.specs.VectorReport.{IsVerdictOnAll};
ghost use Rattle.keywrap_cli.specs.declared.drilling.DrillFault.TheVariants as DrillFaults;

use crate::drilling::drill;
use crate::fault::ProgramFault;
use crate::job::Direction;
use crate::statuses;
use crate::vector_check::VectorCalls;
use crate::vector_report::vectors;
use key_files::{write_hex, write_raw};
use key_wrap_core::Form;
use std::alloc::Global;
use std::io::Write;

/// Writes the answer of [`drill`], on one line of hex digits.
pub fn run_drill<W: Write>(
    alloc: Global,
    form: Form,
    direction: Direction,
    text: &str,
    out: &mut W,
) -> Result<u8, ProgramFault>
    ensures done { IfOk result (λ status. status ≡ 0) }
    ensures line { IfOk result (λ status. (line : List ℕ)
        × IsDrillLine direction form text.now line
        × Appends (W.contents out.old) (W.contents out.new) line) }
    ensures fault { IfErr result (λ fault. IsDrillFault direction form text.now
        (W.contents out.old) (W.contents out.new) fault) }
    ensures too_long { (result ≡ Err (ProgramFault.Drill DrillFaults.TooLong))
        ↔ (drill_meaning text.now ≡ Err FileFaults.TooLong) }
    ensures bad_digit { (at : ℕ) → (result ≡ Err (ProgramFault.Drill (DrillFaults.BadDigit at)))
        ↔ (drill_meaning text.now ≡ Err (FileFaults.BadDigit at)) }
    ensures odd_digits { (result ≡ Err (ProgramFault.Drill DrillFaults.OddDigits))
        ↔ (drill_meaning text.now ≡ Err FileFaults.OddDigits) }
{
    let bytes = match drill(alloc, form, direction, text) {
        Ok(bytes) => bytes,
        Err(fault) => return Err(ProgramFault::Drill(fault)),
    };
    write_hex(alloc, out, &bytes)?;
    flush(out, statuses::DONE)
}

/// Writes the lines of [`vectors`]. The status is 0 if every vector is right, else 5.
pub fn run_vectors<C: VectorCalls, W: Write>(alloc: Global, out: &mut W) -> Result<u8, ProgramFault>
    ensures verdict { IfOk result (λ status.
        ((status ≡ 0) × IsVerdictOnAll C.gave published_vectors true)
        ⊎ ((status ≡ 5) × IsVerdictOnAll C.gave published_vectors false)) }
    ensures report { IfOk result (λ status.
        WritesReport C.gave (W.contents out.old) (W.contents out.new) status) }
    ensures fault { IfErr result (λ fault.
        IsVectorsFault C.gave (W.contents out.old) (W.contents out.new) fault) }
{
    if vectors::<C, W>(alloc, out)? {
        flush(out, statuses::DONE)
    } else {
        flush(out, statuses::FAILED)
    }
}

/// Writes the help or the version.
pub fn write_help<W: Write>(text: &str, out: &mut W) -> Result<u8, ProgramFault>
    ensures done { IfOk result (λ status. status ≡ 0) }
    ensures text { IfOk result (λ status.
        Appends (W.contents out.old) (W.contents out.new) text.now) }
    ensures fault { IfErr result (λ fault.
        IsCutOff text.now (W.contents out.old) (W.contents out.new) fault) }
{
    write_raw(out, text.as_bytes())?;
    flush(out, statuses::DONE)
}

// Flushes the output, and returns this status if that succeeds.
fn flush<W: Write>(out: &mut W, status: u8) -> Result<u8, ProgramFault>
    ensures status { IfOk result (λ answer. answer ≡ status) }
    ensures fault { IfErr result (λ fault. fault ≡ ProgramFault.Flush) }
    ensures kept { Keeps (W.contents out.old) (W.contents out.new) }
{
    match out.flush() {
        Ok(()) => Ok(status),
        Err(_) => Err(ProgramFault::Flush),
    }
}
