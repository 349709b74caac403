//! The calls for one key over readers and a writer: a job, a plain job under an initial value, and
//! a rewrap.

ghost use Rattle.std.specs.Prelude.{◌≡◌, IsOk, Result, false};
ghost use Rattle.key_wrap_core.specs.Forms.{by_default};
ghost use Rattle.key_wrap_core.specs.Plain.{default_iv};
ghost use Rattle.keywrap_cli.specs.Job.{fault_without_cause, what_of, without_cause};
ghost use Rattle.keywrap_cli.specs.JobAnswers.{conversion};
ghost use Rattle.keywrap_cli.specs.JobReading.{one_kek, two_keks};
ghost use Rattle.keywrap_cli.specs.Operation.{RunsOperation, WritesTheAnswer};
ghost use Rattle.key_wrap_core.specs.declared.agreed_form.AgreedForm.TheVariants as AgreedForms;
ghost use Rattle.keywrap_cli.specs.declared.what.What.TheVariants as Whats;

use crate::files::Notation;
use crate::kek_file::{read_kek, read_keks};
use crate::outcome::{Done, JobFault};
use crate::what::{Conversion, What};
use key_wrap_core::{AgreedForm, Form, InitialValue, RewrapForms};
use std::alloc::Global;
use std::io::{Read, Write};

/// Which way a conversion goes.
#[derive(Clone, Copy)]
pub enum Direction {
    /// From a key to its wrapping.
    Wrap,
    /// From a wrapped key to the key.
    Unwrap,
}

impl Direction {
    /// Returns the conversion in a form.
    pub fn conversion(self, form: AgreedForm) -> Conversion
        ensures { result ≡ conversion self form }
    {
        match self {
            Direction::Wrap => Conversion::Wrap(form),
            Direction::Unwrap => Conversion::Unwrap(form),
        }
    }
}

/// The kind of a job.
#[derive(Clone, Copy)]
pub enum Job {
    /// The input is a key, and the output its wrapping.
    Wrap,
    /// The input is a wrapped key, and the output the key.
    Unwrap,
    /// The input is a wrapped key, and the output a line with its form and the length of its key.
    Check,
}

/// A job, with the form of the wrapping and the notations of its files.
#[derive(Clone, Copy)]
pub struct Task {
    pub job: Job,
    /// The form of the wrapping. `Check` tries both forms.
    pub form: Form,
    /// The notation of the input, and of the output unless this is a `Check`.
    pub input: Notation,
    pub kek: Notation,
}

impl Task {
    /// Returns what the job does, with the default initial value.
    pub fn what(self) -> What
        ensures { result ≡ what_of self.job self.form }
    {
        let form = AgreedForm::by_default(self.form);
        match self.job {
            Job::Wrap => What::Convert(Conversion::Wrap(form)),
            Job::Unwrap => What::Convert(Conversion::Unwrap(form)),
            Job::Check => What::Check(InitialValue::default()),
        }
    }
}

/// Runs a job: reads the KEK and the input, and writes the answer in the notation of the input.
///
/// Returns the first error that applies: KekFile, KekLength, InputFile, BadLength, Memory for the
/// answer, Integrity, Memory for the hex output or the line of a check, Write. If memory runs out
/// while a file is read, the error is Memory instead of this file's error. The input is not read
/// after an error of the KEK file or the KEK. Nothing is written before the whole output is made,
/// and the call does not flush.
pub fn run_job<K: Read, R: Read, W: Write>(
    alloc: Global,
    task: Task,
    kek: &mut K,
    input: &mut R,
    out: &mut W,
) -> Result<Done, JobFault>
    ensures run { RunsOperation (what_of task.job task.form) task.input
        (one_kek task.kek (K.remaining kek.old)) (one_kek task.kek (K.remaining kek.new))
        (R.remaining input.old) (R.remaining input.new)
        (W.contents out.old) (W.contents out.new) result }
    // A key is written only if the input is the standard's wrapping of this key, and of no other.
    ensures headline { IsOk result → WritesTheAnswer (what_of task.job task.form) task.input
        (one_kek task.kek (K.remaining kek.old)) (one_kek task.kek (K.remaining kek.new))
        (R.remaining input.old) (R.remaining input.new)
        (W.contents out.old) (W.contents out.new) }
{
    read_kek(alloc, task.kek, kek)?.run(alloc, task.what(), task.input, input, out)
}

/// Does what `run_job` does, for a plain wrapping or unwrapping under this initial value.
pub fn run_with<K: Read, R: Read, W: Write>(
    alloc: Global,
    iv: &InitialValue,
    direction: Direction,
    input_notation: Notation,
    kek_notation: Notation,
    kek: &mut K,
    input: &mut R,
    out: &mut W,
) -> Result<Done, JobFault>
    ensures run { RunsOperation (Whats.Convert (conversion direction (AgreedForms.Plain iv.now)))
        input_notation (one_kek kek_notation (K.remaining kek.old))
        (one_kek kek_notation (K.remaining kek.new))
        (R.remaining input.old) (R.remaining input.new)
        (W.contents out.old) (W.contents out.new) result }
    // A key is written only if the input is its wrapping with this value, and no other key's.
    ensures headline { IsOk result
        → WritesTheAnswer (Whats.Convert (conversion direction (AgreedForms.Plain iv.now)))
        input_notation (one_kek kek_notation (K.remaining kek.old))
        (one_kek kek_notation (K.remaining kek.new))
        (R.remaining input.old) (R.remaining input.new)
        (W.contents out.old) (W.contents out.new) }
{
    let what = What::Convert(direction.conversion(AgreedForm::Plain(*iv)));
    read_kek(alloc, kek_notation, kek)?.run(alloc, what, input_notation, input, out)
}

/// Reads the old KEK, the new KEK and a wrapped key under the old one, and writes the wrapping of
/// the same key under the new one, in the notation of the input. The key itself is never written.
///
/// Returns the first error that applies: KekFile, KekLength, NewKekFile, NewKekLength, InputFile,
/// BadLength for the wrapped key, Integrity, BadLength for the key, Memory for the output, Write.
/// If memory runs out while a file is read, the error is Memory instead of this file's error. A
/// file is read only if there was no error before it. Nothing is written before the whole output
/// is made, and the call does not flush.
pub fn run_rewrap<K: Read, N: Read, R: Read, W: Write>(
    alloc: Global,
    old_form: Form,
    new_form: Form,
    input_notation: Notation,
    kek_notation: Notation,
    old_kek: &mut K,
    new_kek: &mut N,
    input: &mut R,
    out: &mut W,
) -> Result<Done, JobFault>
    ensures run { (answer : Result Done JobFault) × RunsOperation
        (Whats.Rewrap (RewrapForms.Changed (by_default old_form) (by_default new_form)) false)
        input_notation
        (two_keks kek_notation (K.remaining old_kek.old) (N.remaining new_kek.old))
        (two_keks kek_notation (K.remaining old_kek.new) (N.remaining new_kek.new))
        (R.remaining input.old) (R.remaining input.new)
        (W.contents out.old) (W.contents out.new) answer × (result ≡ without_cause answer) }
    // The output wraps exactly the key that the input wrapped.
    ensures headline { IsOk result → WritesTheAnswer
        (Whats.Rewrap (RewrapForms.Changed (by_default old_form) (by_default new_form)) false)
        input_notation
        (two_keks kek_notation (K.remaining old_kek.old) (N.remaining new_kek.old))
        (two_keks kek_notation (K.remaining old_kek.new) (N.remaining new_kek.new))
        (R.remaining input.old) (R.remaining input.new)
        (W.contents out.old) (W.contents out.new) }
{
    let what = What::Rewrap {
        forms: RewrapForms::by_default(old_form, new_form),
        pass_new: false,
    };
    match read_keks(alloc, kek_notation, old_kek, new_kek) {
        Ok(ciphers) => match ciphers.run(alloc, what, input_notation, input, out) {
            Ok(done) => Ok(done),
            Err(fault) => Err(without_cause(fault)),
        },
        Err(fault) => Err(without_cause(fault)),
    }
}

// Returns BadLength for KeyNotPlain, too: the calls here name one cause for both lengths, of the
// wrapped key and of its key.
fn without_cause(fault: JobFault) -> JobFault
    ensures { result ≡ fault_without_cause fault }
{
    match fault {
        JobFault::KeyNotPlain => JobFault::BadLength,
        fault => fault,
    }
}
