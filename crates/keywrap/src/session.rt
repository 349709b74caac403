//! A run on files: opens them, runs the operation, and keeps or discards the output.

ghost use Rattle.std.specs.Prelude.{◌≡◌, ◌≢◌, ◌⊎◌, ◌↔◌, IfErr, IfOk, IsTrue, MatchResult, None, Ok, Err, Some};
ghost use Rattle.keywrap_cli.specs.Faults.{program_status};
ghost use Rattle.keywrap_cli.specs.JobReading.{known_keks, known_new};
ghost use Rattle.keywrap_io.specs.Places.{KeepsFiles, KeepsOthers, place};
ghost use Rattle.keywrap.specs.Session.{AnswersRun, Begins, CannotCreateOutput, Commits, Ends, EndsRun, EndsWhole, IsDone, IsRefused, IsRefusedOperation, IsUnsaved, ReadsNew, WritesRawToTerminal, ending_of, fault_of, name_of, open_fault_of};

use crate::command::Run;
use crate::explain::{Cause, fault_cause, open_fault, print_cause, print_fault};
use crate::lines::{LineCommand, RunOutcome};
use crate::prompt::prompt;
use crate::system::System;
use crate::warnings::warn;
use keywrap_cli::{
    Conversion, How, Keks, Notation, Operation, Outcome, ProgramFault, What, done_status,
};
use keywrap_io::{
    Access, Disk, FileId, FileRole, Inspected, Inspection, LostStream, Protected, Reason,
    StreamKind, Streams,
};
use std::alloc::Global;
use std::io::{Read, Write};

/// A run on files, with all that its steps need.
#[derive(Drop)]
pub struct Session<'a, R> {
    rt: &'a R,
    run: &'a Run<'a>,
    streams: Streams,
    // Whether a refusal has a second line, and warnings are printed.
    explains: bool,
}

// Why a run was refused, and the file that caused it.
#[derive(Drop)]
struct Refused {
    fault: ProgramFault,
    cause: Option<Cause>,
}

impl<'a, R: System> Session<'a, R> {
    /// Makes a session for a run. Nothing is opened.
    pub fn new(rt: &'a R, run: &'a Run<'a>, streams: Streams) -> Self
        ensures run { result.run ≡ run.entry }
        ensures streams { result.streams ≡ streams }
    {
        Session {
            rt,
            run,
            streams,
            explains: run.verbose || streams.error.is_terminal(),
        }
    }

    /// Does the run, reports on standard error, and returns the exit status.
    ///
    /// The first of these faults is reported: RawToTerminal, a closed stream whose place cannot be
    /// taken, KekOpen, NewKekOpen, InputOpen, OutputOpen or Memory for a new file, the faults of
    /// the operation, Flush.
    pub fn run<D: Disk>(&self, disk: &mut D) -> u8
        ensures ends { let run = self.now.run.now in Ends (D.holds disk.old) (D.holds disk.new)
            (λ status. IsDone (D.reads disk.old) (D.holds disk.old) (D.holds disk.new) run status)
            (λ fault. IsRefused (D.reads disk.old) (D.holds disk.old) (D.holds disk.new)
            (D.cannot_read disk.old) (D.cannot_create disk.old) (D.cannot_occupy disk.old)
            run self.now.streams.output fault)
            result }
        ensures raw { WritesRawToTerminal self.now.run.now self.now.streams.output
            → result ≡ program_status ProgramFault.RawToTerminal }
        ensures others { KeepsOthers (D.holds disk.old) (D.holds disk.new)
            (place self.now.run.now.output) }
    {
        match self.attempt(disk) {
            Ok(status) => status,
            Err(refused) => self.refuse(&refused),
        }
    }

    // Returns the status of a run that was done.
    fn attempt<D: Disk>(&self, disk: &mut D) -> Result<u8, Refused>
        ensures ends { let run = self.now.run.now in MatchResult result
            (λ status. IsDone (D.reads disk.old) (D.holds disk.old) (D.holds disk.new) run status)
            (λ refused. IsRefused (D.reads disk.old) (D.holds disk.old) (D.holds disk.new)
            (D.cannot_read disk.old) (D.cannot_create disk.old) (D.cannot_occupy disk.old)
            run self.now.streams.output refused.fault) }
        ensures kept { IfErr result (λ refused. refused.fault ≢ ProgramFault.Flush
            → KeepsFiles (D.holds disk.old) (D.holds disk.new)) }
        ensures raw { WritesRawToTerminal self.now.run.now self.now.streams.output
            → MatchResult result (λ _. ⊥)
            (λ refused. refused.fault ≡ ProgramFault.RawToTerminal) }
        ensures others { KeepsOthers (D.holds disk.old) (D.holds disk.new)
            (place self.now.run.now.output) }
    {
        if self.writes_raw_to_terminal() {
            return Err(Refused::without_file(ProgramFault::RawToTerminal));
        }
        match disk.occupy_closed(self.streams) {
            Ok(_occupied) => self.open_and_run(disk),
            // No file of the run causes such a fault.
            Err(LostStream::Input) => Err(Refused::without_file(ProgramFault::InputOpen)),
            Err(LostStream::Output) => Err(Refused::without_file(ProgramFault::OutputOpen)),
        }
    }

    // Whether the output is raw bytes, and a terminal would show them.
    fn writes_raw_to_terminal(&self) -> bool
        ensures { IsTrue result
            ↔ WritesRawToTerminal self.now.run.now self.now.streams.output }
    {
        match (self.run.output, self.streams.output) {
            (None, StreamKind::Terminal) => self.run.writes_raw(),
            _ => false,
        }
    }

    fn open_and_run<D: Disk>(&self, disk: &mut D) -> Result<u8, Refused>
        ensures ends { let run = self.now.run.now in MatchResult result
            (λ status. IsDone (D.reads disk.old) (D.holds disk.old) (D.holds disk.new) run status)
            (λ refused. IsRefused (D.reads disk.old) (D.holds disk.old) (D.holds disk.new)
            (D.cannot_read disk.old) (D.cannot_create disk.old) (D.cannot_occupy disk.old)
            run self.now.streams.output refused.fault) }
        ensures kept { IfErr result (λ refused. refused.fault ≢ ProgramFault.Flush
            → KeepsFiles (D.holds disk.old) (D.holds disk.new)) }
        ensures others { KeepsOthers (D.holds disk.old) (D.holds disk.new)
            (place self.now.run.now.output) }
    {
        let kek = self.open(disk, FileRole::Kek)?;
        let new_kek = self.open_new_kek(disk)?;
        let mut operation = Operation {
            what: self.run.operation.what,
            keks: Keks {
                notation: self.run.operation.keks.notation,
                kek,
                new_kek,
            },
        };
        let mut input = self.open(disk, FileRole::Input)?;
        let mut output = self.open_output(disk, &operation, &input)?;
        prompt(self.rt, self.run, self.streams);
        self.operate_and_commit(disk, &mut operation, &mut input, &mut output)
    }

    fn open<D: Disk>(&self, disk: &D, role: FileRole) -> Result<Inspected<D::Source>, Refused>
        ensures { MatchResult result
            (λ opened. D.reads disk.now (place (name_of self.now.run.now role))
            (D.Source.remaining opened.file))
            (λ refused. (refused.fault ≡ open_fault_of role)
            × D.cannot_read disk.now (place (name_of self.now.run.now role))) }
    {
        match disk.open(self.run.file_name(role)) {
            Ok(file) => {
                // The bytes of an input of lines are not counted: no reason needs them.
                let has_lines = matches!((role, self.run.how), (FileRole::Input, How::Lines(_)));
                Ok(Inspected::new(file, self.explains && !has_lines))
            }
            Err(error) => Err(Refused::by_file(role, Reason::from(error))),
        }
    }

    // Opens the file of the new KEK, if the run has one.
    fn open_new_kek<D: Disk>(&self, disk: &D) -> Result<Option<Inspected<D::Source>>, Refused>
        ensures { let name = self.now.run.now.operation.keks.new_kek in MatchResult result
            (λ opened. ReadsNew (D.reads disk.now) name
            (known_new (λ file. D.Source.remaining file.file) opened))
            (λ refused. (refused.fault ≡ ProgramFault.NewKekOpen)
            × D.cannot_read disk.now (place name)) }
    {
        if self.run.operation.keks.new_kek.is_none() {
            return Ok(None);
        }
        match self.open(disk, FileRole::NewKek) {
            Ok(opened) => Ok(Some(opened)),
            Err(refused) => Err(refused),
        }
    }

    fn open_output<D: Disk>(
        &self,
        disk: &mut D,
        operation: &Operation<Inspected<D::Source>>,
        input: &Inspected<D::Source>,
    ) -> Result<Inspected<D::Target>, Refused>
        ensures begins { MatchResult result
            (λ output. Begins (D.holds disk.old) self.now.run.now.output
            (D.Target.contents output.file))
            (λ refused. CannotCreateOutput (D.cannot_create disk.old) self.now.run.now.output
            × ((refused.fault ≡ ProgramFault.Memory)
            ⊎ (refused.fault ≡ ProgramFault.OutputOpen))) }
        ensures kept { KeepsFiles (D.holds disk.old) (D.holds disk.new) }
    {
        let Some(name) = self.run.output else {
            return Ok(Inspected::new(disk.standard_output(), false));
        };
        let protected = self.protected(disk, operation, input);
        let access = match self.run.operation.what {
            What::Convert(Conversion::Unwrap(_) | Conversion::UnwrapAny(_)) => Access::Private,
            What::Convert(Conversion::Wrap(_)) | What::Check(_) | What::Rewrap { .. } =>
                Access::LikeOld,
        };
        match disk.create(name, &protected, access) {
            Ok(file) => Ok(Inspected::new(file, false)),
            Err(Reason::Memory) => Err(Refused::without_file(ProgramFault::Memory)),
            Err(reason) => Err(Refused::by_file(FileRole::Output, reason)),
        }
    }

    // With --keep-going the input has the only copy of the refused lines.
    fn protected<D: Disk>(
        &self,
        disk: &D,
        operation: &Operation<Inspected<D::Source>>,
        input: &Inspected<D::Source>,
    ) -> Protected {
        let input = match self.run.how {
            How::Lines(options) if options.keep_going => Some(input),
            _ => None,
        };
        Protected {
            kek: disk.id(&operation.keks.kek.file),
            new_kek: file_id(disk, operation.keks.new_kek.as_ref()),
            input: file_id(disk, input),
        }
    }

    // The new file replaces the old one only if the operation was not refused.
    fn operate_and_commit<D: Disk>(
        &self,
        disk: &mut D,
        operation: &mut Operation<Inspected<D::Source>>,
        input: &mut Inspected<D::Source>,
        output: &mut Inspected<D::Target>,
    ) -> Result<u8, Refused>
        ensures ends { Commits (D.holds disk.old) (D.holds disk.new) operation.old.what
            self.now.run.now.how (place self.now.run.now.output)
            (known_keks (λ file. D.Source.remaining file.file) operation.old.keks)
            (D.Source.remaining input.old.file) (D.Target.contents output.old.file)
            (fault_of (λ refused. refused.fault) result) }
        ensures others { KeepsOthers (D.holds disk.old) (D.holds disk.new)
            (place self.now.run.now.output) }
    {
        // Only the progress of lines needs it.
        let length = match self.run.how {
            How::Lines(_) => disk.length(&input.file),
            How::Whole(_) => None,
        };
        match self.operate(length, operation, input, output) {
            Ok(outcome) => match disk.commit(self.run.output, &mut output.file) {
                Ok(()) => Ok(self.report(operation, &input.inspection, outcome)),
                Err(reason) => Err(Refused {
                    fault: ProgramFault::Flush,
                    cause: Some((FileRole::Output, reason)),
                }),
            },
            Err(fault) => {
                disk.discard(&output.file);
                let (input, output) = (&input.inspection, &output.inspection);
                let cause = fault_cause(self.run, &operation.keks, input, output, &fault);
                Err(Refused { fault, cause })
            }
        }
    }

    // Runs the operation on the input, which may have a length, or on each line of it.
    fn operate<K: Read, W: Write>(
        &self,
        length: Option<u64>,
        operation: &mut Operation<Inspected<K>>,
        input: &mut Inspected<K>,
        output: &mut W,
    ) -> Result<RunOutcome, ProgramFault>
        ensures ends { EndsRun operation.old.what self.now.run.now.how
            (known_keks (λ file. K.remaining file.file) operation.old.keks)
            (K.remaining input.old.file) (W.contents output.old) (W.contents output.new)
            (ending_of result) }
        ensures answers { IfOk result (λ outcome. outcome.result.0 ≡ 0
            → AnswersRun operation.old.what self.now.run.now.how
            (known_keks (λ file. K.remaining file.file) operation.old.keks)
            (K.remaining input.old.file) (W.contents output.old) (W.contents output.new)) }
    {
        match self.run.how {
            How::Whole(notation) => operate_whole(
                self.rt.alloc(),
                notation,
                operation,
                input,
                output,
            ),
            How::Lines(options) => LineCommand::new(self.rt, self.run, options, self.streams).run(
                self.rt, length, operation, input, output,
            ),
        }
    }

    // Nothing is lost if standard error is closed.
    fn report<F>(
        &self,
        operation: &Operation<Inspected<F>>,
        input: &Inspection,
        outcome: RunOutcome,
    ) -> u8
        ensures { result ≡ outcome.result.0 }
    {
        let (status, counts) = outcome.result;
        if self.explains {
            let keks = &operation.keks;
            warn(self.rt, self.run, keks, input, outcome.same_kek);
        }
        if let Some(counts) = counts {
            let _ = self.rt.eprintln(counts);
        }
        status
    }

    // Prints the line of the fault, and the second line, and returns the exit status.
    fn refuse(&self, refused: &Refused) -> u8
        ensures status { result ≡ program_status refused.now.fault }
        ensures failed { result ≢ 0 }
    {
        let status = print_fault(self.rt, &refused.fault);
        if let (true, Some(cause)) = (self.explains, refused.cause) {
            print_cause(self.rt, self.run, &refused.fault, cause);
        }
        status
    }
}

impl Refused {
    fn without_file(fault: ProgramFault) -> Refused
        ensures { result.fault ≡ fault }
    {
        Refused { fault, cause: None }
    }

    // The file of this role cannot be opened.
    fn by_file(role: FileRole, reason: Reason) -> Refused
        ensures { result.fault ≡ open_fault_of role }
    {
        Refused {
            fault: open_fault(role),
            cause: Some((role, reason)),
        }
    }
}

// Runs the operation on the whole input.
fn operate_whole<K: Read, I: Read, W: Write>(
    alloc: Global,
    notation: Notation,
    operation: &mut Operation<K>,
    input: &mut I,
    output: &mut W,
) -> Result<RunOutcome, ProgramFault>
    ensures ends { EndsWhole operation.old.what notation
        (known_keks K.remaining operation.old.keks) (I.remaining input.old)
        (W.contents output.old) (W.contents output.new) (ending_of result) }
    ensures answers { IfOk result (λ outcome. outcome.result.0 ≡ 0
        → AnswersRun operation.old.what (How.Whole notation)
        (known_keks K.remaining operation.old.keks) (I.remaining input.old)
        (W.contents output.old) (W.contents output.new)) }
{
    match operation.run(alloc, notation, input, output) {
        Ok(outcome) => Ok(Outcome {
            result: (done_status(outcome.result), None),
            same_kek: outcome.same_kek,
        }),
        Err(fault) => Err(ProgramFault::Job(fault)),
    }
}

// Identifies a file, if there is one.
fn file_id<D: Disk>(disk: &D, file: Option<&Inspected<D::Source>>) -> Option<FileId> {
    Some(disk.id(&file?.file))
}
