//! A run over the lines of an input, each of which is a key or a wrapped key.

ghost use Rattle.std.specs.Prelude.{◌≡◌, IfOk};
ghost use Rattle.keywrap_cli.specs.JobReading.{known_keks};
ghost use Rattle.keywrap_cli.specs.Operation.{EndsWell};
ghost use Rattle.keywrap_cli.specs.declared.what.How.TheVariants.{Lines};
ghost use Rattle.keywrap.specs.Session.{AnswersRun, EndsRun, IsSummary, RunsBuffered, ending_of};

use crate::command::Run;
use crate::prompt::is_typed;
use key_lines::{RefusalLog, RefusedLine, RunFault, RunOptions, RunSummary};
use key_wrap_core::Refusal;
use keywrap_cli::{Operation, Outcome, ProgramFault, What, lines_status};
use keywrap_io::{CountingReader, FileRole, LineCounts, Progress, Streams, is_output_piped};
use std::alloc::Global;
use std::io::{BufReader, Read, Write};
use std::rt::{Env, Files};
use std::time::Clock;

// The input is read in pieces of this many bytes.
const READ_BUFFER: usize = 65_536;

/// The exit status of an operation that was not refused, and the counts if they are shown.
pub type RunOutcome = Outcome<(u8, Option<LineCounts>)>;

type RunResult = Result<RunSummary<Refusal>, RunFault<Refusal>>;

/// A run over lines as a command asks for it: its options, and what it shows.
#[derive(Clone, Copy)]
pub struct LineCommand {
    pub options: RunOptions,
    shows_progress: bool,
    shows_counts: bool,
}

impl LineCommand {
    /// Returns a run over the lines of the input with these options.
    pub fn new<R: Files>(
        rt: &R,
        run: &Run<'_>,
        options: RunOptions,
        streams: Streams,
    ) -> LineCommand
        ensures { result.options ≡ options }
    {
        // Progress would be mixed with answers or with typed lines on the same terminal.
        let has_answers = run.output.is_none() && streams.output.is_terminal();
        let is_free = !has_answers && !is_typed(run, FileRole::Input, streams);
        let is_terminal = streams.error.is_terminal();
        let is_shown = is_terminal && is_free && !run.quiet;
        LineCommand {
            options,
            shows_progress: is_shown && (run.output.is_some() || !is_output_piped(rt)),
            shows_counts: is_shown || run.verbose && (is_free || !is_terminal),
        }
    }

    /// Runs the operation on each line of the input, which may have a length. The message of a
    /// skipped line is printed at once, and the first of these lines determines the status. An
    /// input without lines is refused.
    pub fn run<R: Eprint + AllocGlobal + Env + Clock, K: Read, I: Read, W: Write>(
        self,
        rt: &R,
        length: Option<u64>,
        operation: &mut Operation<K>,
        input: &mut I,
        out: &mut W,
    ) -> Result<RunOutcome, ProgramFault>
        ensures ends { EndsRun operation.old.what (Lines self.options)
            (known_keks K.remaining operation.old.keks) (I.remaining input.old)
            (W.contents out.old) (W.contents out.new) (ending_of result) }
        ensures answers { IfOk result (λ outcome. outcome.result.0 ≡ 0
            → AnswersRun operation.old.what (Lines self.options)
            (known_keks K.remaining operation.old.keks) (I.remaining input.old)
            (W.contents out.old) (W.contents out.new)) }
    {
        let progress = Progress::start(rt, self.shows_progress, length);
        let reader = CountingReader {
            input,
            progress: &progress,
        };
        let run = self.run_buffered(rt.alloc(), operation, reader, out);
        progress.clear();
        let Outcome { result, same_kek } = run?;
        let result = summary(result)?;
        // A rewrap notes the lines that it passes.
        let passed = match operation.what {
            What::Rewrap { pass_new: true, .. } => Some(result.noted),
            _ => None,
        };
        let counts = LineCounts {
            lines: result.lines,
            refused: result.refused,
            passed,
        };
        let status = lines_status(&operation.what, &result);
        let result = (status, self.shows_counts.then_some(counts));
        Ok(Outcome { result, same_kek })
    }

    fn run_buffered<R: Eprint + AllocGlobal + Env + Clock, K: Read, I: Read, W: Write>(
        self,
        alloc: Global,
        operation: &mut Operation<K>,
        reader: CountingReader<'_, '_, '_, I, R>,
        out: &mut W,
    ) -> Result<Outcome<RunResult>, ProgramFault>
        ensures runs { RunsBuffered operation.old.what self.options
            (known_keks K.remaining operation.old.keks) (I.remaining reader.entry.input.now)
            (W.contents out.old) (W.contents out.new) result }
        ensures answers { IfOk result (λ outcome. IfOk outcome.result (λ summary.
            EndsWell operation.old.what summary
            → AnswersRun operation.old.what (Lines self.options)
            (known_keks K.remaining operation.old.keks) (I.remaining reader.entry.input.now)
            (W.contents out.old) (W.contents out.new))) }
        ensures same_task { operation.new.what ≡ operation.old.what }
    {
        let mut log = RefusedLines(reader.progress);
        let Ok(mut reader) = BufReader::with_capacity(alloc, READ_BUFFER, reader) else {
            return Err(ProgramFault::Memory);
        };
        match operation.run_lines(alloc, self.options, &mut log, &mut reader, out) {
            Ok(outcome) => Ok(outcome),
            Err(fault) => Err(ProgramFault::Job(fault)),
        }
    }
}

fn summary(run: RunResult) -> Result<RunSummary<Refusal>, ProgramFault>
    ensures { IsSummary run result }
{
    match run {
        Ok(summary) if summary.lines == 0 => Err(ProgramFault::NoLines),
        Ok(summary) => Ok(summary),
        Err(RunFault::AtLine(refused)) => Err(ProgramFault::Line(refused)),
        Err(RunFault::Write { answered, unsent }) => {
            Err(ProgramFault::Unsent { answered, unsent })
        }
    }
}

// Prints the message of each skipped line.
#[derive(Drop)]
struct RefusedLines<'p, 'r, R>(&'p Progress<'r, R>);

impl<R: Eprint + AllocGlobal + Env + Clock> RefusalLog<Refusal> for RefusedLines<'_, '_, R> {
    fn receive(&mut self, refused: &RefusedLine<Refusal>) {
        self.0.print_line(ProgramFault::Line(*refused));
    }
}
