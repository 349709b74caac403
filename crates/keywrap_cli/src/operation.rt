//! An operation on an input, whole or line by line, under KEKs from files.

ghost use Rattle.std.specs.Prelude.{◌≡◌, IfOk, IsOk};
ghost use Rattle.fips197.specs.Cipher.{cipher_by};
ghost use Rattle.keywrap_cli.specs.Operation.{AnswersAllLines, AnswersWhole, EndsWell, RunsOperation, RunsOperationLines, RunsUnder, TellsSameKek, WritesTheAnswer, WritesTheLines, result_of};
ghost use Rattle.keywrap_cli.specs.JobReading.{known_keks, last_kek};

use crate::files::{Notation, line_notation};
use crate::kek_file::{Aes, Ciphers, Keks};
use crate::key_job::KeyJob;
use crate::outcome::{Done, JobFault, Outcome};
use crate::what::What;
use crate::whole_input::run_input;
use key_lines::{LineRun, LineSource, RefusalLog, RunFault, RunOptions, RunSummary};
use key_wrap_core::Refusal;
use std::alloc::Global;
use std::io::{Read, Write};

/// What is done with an input, and the KEKs: the names of their files, or open files.
#[derive(Drop)]
pub struct Operation<K> {
    pub what: What,
    pub keks: Keks<K>,
}

impl<K: Read> Operation<K> {
    /// Runs the operation on the whole input.
    pub fn run<I: Read, W: Write>(
        &mut self,
        alloc: Global,
        notation: Notation,
        input: &mut I,
        out: &mut W,
    ) -> Result<Outcome<Done>, JobFault>
        ensures run { RunsOperation self.old.what notation (known_keks K.remaining self.old.keks)
            (known_keks K.remaining self.new.keks) (I.remaining input.old) (I.remaining input.new)
            (W.contents out.old) (W.contents out.new) (result_of result) }
        // The input belongs to only one key. The output is this key, its wrapping, or the line of a
        // check.
        ensures headline { IsOk result → WritesTheAnswer self.old.what notation
            (known_keks K.remaining self.old.keks) (known_keks K.remaining self.new.keks)
            (I.remaining input.old) (I.remaining input.new)
            (W.contents out.old) (W.contents out.new) }
        // If the run ends with status 0, it was done: see [`done_status`].
        ensures ends_well { IfOk result (λ outcome. outcome.result ≡ Done.Written
            → AnswersWhole self.old.what notation (known_keks K.remaining self.old.keks)
            (known_keks K.remaining self.new.keks)
            (I.remaining input.old) (I.remaining input.new)) }
        ensures same_kek { IfOk result (λ outcome. TellsSameKek
            (known_keks K.remaining self.old.keks) (known_keks K.remaining self.new.keks)
            outcome.same_kek) }
        ensures same_task { (self.new.what ≡ self.old.what)
            × (self.new.keks.notation ≡ self.old.keks.notation) }
    {
        let ciphers = match self.keks.read(alloc) {
            Ok(ciphers) => ciphers,
            Err(fault) => return Err(fault),
        };
        let same_kek = ciphers.same;
        match ciphers.run(alloc, self.what, notation, input, out) {
            Ok(result) => Ok(Outcome { result, same_kek }),
            Err(fault) => Err(fault),
        }
    }

    /// Runs the operation on each line of the input, as [`LineRun::run`] does.
    ///
    /// The outer `Err` is the fault of a KEK file: then the input was not read, and nothing was
    /// written. `noted` in the summary counts answers that are `none` or a copied wrapped key.
    pub fn run_lines<L: RefusalLog<Refusal>, I: LineSource, W: Write>(
        &mut self,
        alloc: Global,
        options: RunOptions,
        log: &mut L,
        input: &mut I,
        out: &mut W,
    ) -> Result<Outcome<Result<RunSummary<Refusal>, RunFault<Refusal>>>, JobFault>
        ensures run { RunsOperationLines self.old.what options
            (known_keks K.remaining self.old.keks) (known_keks K.remaining self.new.keks)
            (I.remaining input.old) (I.remaining input.new)
            (W.contents out.old) (W.contents out.new)
            (L.received log.old) (L.received log.new) (result_of result) }
        // The output has the answers to the first lines, in order, each under the KEKs that the
        // KEK files denote.
        ensures headline { IfOk result (λ outcome. WritesTheLines self.old.what options
            (known_keks K.remaining self.old.keks) (known_keks K.remaining self.new.keks)
            (I.remaining input.old) (W.contents out.old) (W.contents out.new) outcome.result) }
        // If the run ends with status 0, each line was answered: see [`lines_status`].
        ensures ends_well { IfOk result (λ outcome. IfOk outcome.result (λ summary.
            EndsWell self.old.what summary → AnswersAllLines self.old.what options.notation
            (known_keks K.remaining self.old.keks) (known_keks K.remaining self.new.keks)
            (I.remaining input.old) (W.contents out.old) (W.contents out.new))) }
        ensures same_kek { IfOk result (λ outcome. TellsSameKek
            (known_keks K.remaining self.old.keks) (known_keks K.remaining self.new.keks)
            outcome.same_kek) }
        ensures same_task { (self.new.what ≡ self.old.what)
            × (self.new.keks.notation ≡ self.old.keks.notation) }
    {
        let ciphers = match self.keks.read(alloc) {
            Ok(ciphers) => ciphers,
            Err(fault) => return Err(fault),
        };
        let same_kek = ciphers.same;
        let notation = line_notation(options.notation);
        let job = ciphers.job(alloc, self.what, notation);
        let result = LineRun { options, job }.run(alloc, log, input, out);
        Ok(Outcome { result, same_kek })
    }
}

impl Ciphers {
    /// Runs an operation on the whole input.
    pub fn run<I: Read, W: Write>(
        self,
        alloc: Global,
        what: What,
        notation: Notation,
        input: &mut I,
        out: &mut W,
    ) -> Result<Done, JobFault>
        ensures { RunsUnder what notation (cipher_by self.kek)
            (cipher_by (last_kek self.kek self.new_kek)) (I.remaining input.old)
            (I.remaining input.new) (W.contents out.old) (W.contents out.new) result }
    {
        let job = self.job(alloc, what, notation);
        run_input(alloc, notation, &job, input, out)
    }

    // Returns the job for each input.
    fn job(self, alloc: Global, what: What, notation: Notation) -> KeyJob<Aes>
        ensures { (result.what ≡ what) × (result.notation ≡ notation) × (result.pair ≡ self.kek)
            × (result.new_pair ≡ self.new_kek) }
    {
        KeyJob {
            alloc,
            what,
            notation,
            pair: self.kek,
            new_pair: self.new_kek,
        }
    }
}
