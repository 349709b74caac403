//! A run over one input: reads it, runs a job on it, and writes the answer.

ghost use Rattle.std.specs.Prelude.{◌≡◌};
ghost use Rattle.keywrap_cli.specs.JobAnswers.{done_of};
ghost use Rattle.keywrap_cli.specs.Operation.{RunsInput, WritesAnswer, job_fault_of};

use crate::files::{Notation, input_fault, read_file};
use crate::outcome::{Done, JobFault};
use key_files::write_raw;
use key_lines::{LineFault, LineJob, Note};
use key_wrap_core::Refusal;
use std::alloc::Global;
use std::io::{Read, Write};

/// Reads the input, and writes the answer of the job for this input. Nothing is written before the
/// whole output is made, and the call does not flush.
pub fn run_input<J: LineJob<Refusal = Refusal>, R: Read, W: Write>(
    alloc: Global,
    notation: Notation,
    job: &J,
    input: &mut R,
    out: &mut W,
) -> Result<Done, JobFault>
    ensures { RunsInput notation (J.answers job.now) (J.may_lack_memory job.now)
        (R.remaining input.old) (R.remaining input.new)
        (W.contents out.old) (W.contents out.new) result }
{
    match read_file(alloc, notation, input) {
        Ok(mut bytes) => write_answer(alloc, job, &mut bytes, out),
        Err(fault) => Err(input_fault(fault)),
    }
}

// Makes the whole answer for the bytes, and then writes it.
fn write_answer<J: LineJob<Refusal = Refusal>, W: Write>(
    alloc: Global,
    job: &J,
    bytes: &mut Vec<u8>,
    out: &mut W,
) -> Result<Done, JobFault>
    ensures { WritesAnswer (J.answers job.now) (J.may_lack_memory job.now) bytes.old.items
        (W.contents out.old) (W.contents out.new) result }
{
    let mut output = Vec::new(alloc);
    let note = match job.answer(bytes, &mut output) {
        Ok(note) => note,
        Err(fault) => return Err(job_fault(fault)),
    };
    match write_raw(out, &output) {
        Ok(()) => Ok(done_of(note)),
        Err(fault) => Err(JobFault::Write {
            written: fault.written,
        }),
    }
}

// Returns the outcome for an answer with this note.
fn done_of(note: Note) -> Done
    ensures { result ≡ done_of note }
{
    match note {
        Note::None | Note::AlreadyNew => Done::Written,
        Note::NoKey => Done::Neither,
    }
}

// Returns the fault of a run for the fault of its job. Input and TooManyLines cannot occur: the job
// got decoded bytes.
fn job_fault(fault: LineFault<Refusal>) -> JobFault
    ensures { result ≡ job_fault_of fault }
{
    match fault {
        LineFault::Refused(Refusal::BadLength) => JobFault::BadLength,
        LineFault::Refused(Refusal::Integrity) => JobFault::Integrity,
        LineFault::Refused(Refusal::KeyNotPlain) => JobFault::KeyNotPlain,
        LineFault::Input(_) | LineFault::Memory | LineFault::TooManyLines => JobFault::Memory,
    }
}
