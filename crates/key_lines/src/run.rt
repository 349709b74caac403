//! A run over the lines of an input.

ghost use Rattle.std.specs.Prelude.{◌≡◌, ◌≢◌, ◌≤◌, ℕ, List, Option};
ghost use Rattle.std.specs.Prelude.{Ok, Err, false, length, IfSome};
ghost use Rattle.key_lines.specs.Block.{MayReadOn};
ghost use Rattle.key_lines.specs.LineAnswers.{answered};
ghost use Rattle.key_lines.specs.LineMeaning.{LinesAreFiles, PrintsBack};
ghost use Rattle.key_lines.specs.Running.{FindsLine, MakesAnswer, MakesOutput, RunsLines};
ghost use Rattle.key_lines.specs.Running.{NoReadFault, StepsLine, TooManyAtLast, WritesAnswers, is_own};
ghost use Rattle.key_lines.specs.Summary.{CanAddLine};

use crate::block::{BLOCK, send};
use crate::fault::{LineFault, RefusedLine, RunFault, line_fault};
use crate::job::{LineJob, Note};
use crate::line::{Line, read_line};
use crate::log::RefusalLog;
use crate::source::LineSource;
use crate::summary::{RunSummary, add_line};
use crate::text::{TextNotation, decode_line};
use key_files::{FileFault, MAX_FILE};
use std::alloc::Global;
use std::io::Write;

// A run stops after this number of lines, so that each has a number.
const MAX_LINES: u64 = u64::MAX - 1;

/// How a run reads lines, and what it does after a refusal.
#[derive(Clone, Copy)]
pub struct RunOptions {
    /// The notation of the lines.
    pub notation: TextNotation,
    /// Whether the run continues after a line that is refused for its content.
    pub keep_going: bool,
}

/// A run over the lines of an input.
#[derive(Drop)]
pub struct LineRun<J> {
    /// How it reads lines.
    pub options: RunOptions,
    /// The job for each line.
    pub job: J,
}

// The buffers of a run.
#[derive(Drop)]
struct Buffers {
    // A line, its bytes, and its output.
    line: Vec<u8>,
    bytes: Vec<u8>,
    output: Vec<u8>,
    // The bytes that were not written yet.
    block: Vec<u8>,
}

impl<J: LineJob> LineRun<J> {
    /// Writes the answer to each line of the input on one line of the output. Does not flush.
    ///
    /// Stops at the first refused line, and writes nothing for it. With `keep_going` it does not
    /// stop at a line that is refused for its content: it writes an empty line instead of an
    /// answer, and `log` receives the refusal. It still stops at a line that is too long or cannot
    /// be read, and if an allocation or a write fails.
    ///
    /// The answers are gathered in a block, so `out` needs no buffer. They are written once the block
    /// has 65,536 bytes, and before each read that may wait, so another process can send a line and
    /// wait for its answer.
    pub fn run<L: RefusalLog<J::Refusal>, R: LineSource, W: Write>(
        &self,
        alloc: Global,
        log: &mut L,
        input: &mut R,
        out: &mut W,
    ) -> Result<RunSummary<J::Refusal>, RunFault<J::Refusal>>
        ensures run { RunsLines self.now.options (J.answers self.now.job)
            (R.remaining input.old) (R.remaining input.new)
            (W.contents out.old) (W.contents out.new)
            (L.received log.old) (L.received log.new) result }
        // The call wrote the answers to the first lines of the input, in order: to all lines, or to
        // the lines before the one at which it stopped.
        ensures headline { IfSome (R.remaining input.old) (λ text. WritesAnswers self.now.options
            (J.answers self.now.job) text (W.contents out.old) (W.contents out.new) result) }
        // Laws of the notation: a line that denotes bytes denotes them as a file, too. What is
        // printed for bytes is one line, which denotes them.
        ensures as_files { LinesAreFiles self.now.options.notation }
        ensures read_back { PrintsBack self.now.options.notation }
        // Only a failed read ends the run as unreadable, and only the last number of a line as one
        // with too many lines.
        ensures read { NoReadFault R.can_fail result }
        ensures too_many { TooManyAtLast result }
    {
        let mut buffers = Buffers {
            line: Vec::new(alloc),
            bytes: Vec::new(alloc),
            output: Vec::new(alloc),
            block: Vec::new(alloc),
        };
        let mut summary = RunSummary {
            lines: 0,
            noted: 0,
            refused: 0,
            first_refused: None,
        };
        loop {
            match self.step(log, input, out, &mut buffers, &mut summary) {
                Ok(Line::Ended) => {}
                Ok(Line::Last) => return Ok(summary),
                Ok(Line::Missing) => return Ok(summary),
                Err(fault) => return Err(fault),
            }
        }
    }

    // Answers the next line, if there is one. Writes the block unless it is small and another line
    // is buffered.
    fn step<L: RefusalLog<J::Refusal>, R: LineSource, W: Write>(
        &self,
        log: &mut L,
        input: &mut R,
        out: &mut W,
        buffers: &mut Buffers,
        summary: &mut RunSummary<J::Refusal>,
    ) -> Result<Line, RunFault<J::Refusal>>
        requires room { CanAddLine summary.old }
        requires sent { MayReadOn (R.buffered input.old) buffers.old.block.items }
        ensures sent { result ≡ Ok Line.Ended
            → MayReadOn (R.buffered input.new) buffers.new.block.items }
        ensures steps { StepsLine self.now.options (J.answers self.now.job)
            (R.remaining input.old) (R.remaining input.new)
            (W.contents out.old) (W.contents out.new)
            (L.received log.old) (L.received log.new)
            buffers.old.block.items buffers.new.block.items summary.old summary.new result }
        ensures read { NoReadFault R.can_fail result }
        ensures too_many { TooManyAtLast result }
    {
        let found = self.next(summary, log, input, buffers);
        if let Ok(Line::Ended) = found {
            if !input.may_wait() && buffers.block.len() < BLOCK {
                return Ok(Line::Ended);
            }
        }
        if send(out, &mut buffers.block).is_err() {
            return Err(RunFault::Write {
                answered: summary.lines,
                unsent: buffers.block.len(),
            });
        }
        match found {
            Ok(line) => Ok(line),
            Err(fault) => {
                let line = summary.lines + 1;
                Err(RunFault::AtLine(RefusedLine { line, fault }))
            }
        }
    }

    // Adds the answer to the next line, if there is one, to the block. The call may wait for the line,
    // and the block must have no answer that is held back meanwhile.
    fn next<L: RefusalLog<J::Refusal>, R: LineSource>(
        &self,
        summary: &mut RunSummary<J::Refusal>,
        log: &mut L,
        input: &mut R,
        buffers: &mut Buffers,
    ) -> Result<Line, LineFault<J::Refusal>>
        requires room { CanAddLine summary.old }
        requires sent { MayReadOn (R.buffered input.old) buffers.old.block.items }
        ensures finds { (out : Option (List ℕ)) → FindsLine self.now.options
            (J.answers self.now.job) (R.remaining input.old) (R.remaining input.new) out out
            (L.received log.old) (L.received log.new)
            buffers.old.block.items buffers.new.block.items summary.old summary.new result }
        ensures read { R.can_fail ≡ false → result ≢ Err (LineFault.Input FileFault.Read) }
        ensures too_many { result ≡ Err LineFault.TooManyLines
            → summary.new.lines ≡ 18446744073709551614 }
    {
        if summary.lines == MAX_LINES {
            return Err(LineFault::TooManyLines);
        }
        let met = match read_line(input, &mut buffers.line, MAX_FILE) {
            Ok(met) => met,
            Err(fault) => return Err(line_fault(fault)),
        };
        if let Line::Missing = met {
            return Ok(Line::Missing);
        }
        let made = match self.make(&buffers.line, &mut buffers.bytes, &mut buffers.output) {
            Ok(made) => made,
            Err(fault) => return Err(fault),
        };
        if buffers.block.extend_from_slice(&buffers.output).is_err() {
            return Err(LineFault::Memory);
        }
        add_line(summary, log, made);
        Ok(met)
    }

    // Makes what is written for a line, in `output`: its answer, or an empty line if it is refused
    // and the run continues.
    fn make(
        &self,
        line: &[u8],
        bytes: &mut Vec<u8>,
        output: &mut Vec<u8>,
    ) -> Result<Result<Note, LineFault<J::Refusal>>, LineFault<J::Refusal>>
        requires { length line.now ≤ 4194304 }
        ensures { MakesOutput self.now.options (J.answers self.now.job) line.now
            output.new.items result }
    {
        let fault = match self.make_answer(line, bytes, output) {
            Ok(note) => return Ok(Ok(note)),
            Err(fault) => fault,
        };
        if !self.options.keep_going || !is_own(&fault) {
            return Err(fault);
        }
        output.clear();
        match output.push(b'\n') {
            Ok(()) => Ok(Err(fault)),
            Err(_) => Err(LineFault::Memory),
        }
    }

    // Makes the answer to a line, in `output`.
    fn make_answer(
        &self,
        line: &[u8],
        bytes: &mut Vec<u8>,
        output: &mut Vec<u8>,
    ) -> Result<Note, LineFault<J::Refusal>>
        requires { length line.now ≤ 4194304 }
        ensures { MakesAnswer self.now.options.notation (J.answers self.now.job) line.now
            (answered output.new.items result) }
    {
        if let Err(fault) = decode_line(self.options.notation, line, bytes) {
            return Err(line_fault(fault));
        }
        self.job.answer(bytes, output)
    }
}

// Returns whether a line is refused for its content.
fn is_own<F>(fault: &LineFault<F>) -> bool
    ensures { result ≡ is_own fault.now }
{
    match fault {
        LineFault::Refused(_) => true,
        LineFault::Input(
            FileFault::BadDigit { .. }
            | FileFault::OddDigits
            | FileFault::BadCharacter { .. }
            | FileFault::BehindPadding { .. }
            | FileFault::BadBase64Length
            | FileFault::TrailingBits,
        ) => true,
        LineFault::Input(FileFault::Read | FileFault::TooLong | FileFault::Memory) => false,
        LineFault::Memory | LineFault::TooManyLines => false,
    }
}
