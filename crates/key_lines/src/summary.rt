//! The summary of a run over lines.

ghost use Rattle.std.specs.Prelude.{◌≡◌, ◌+◌, ◌<◌, ℕ, List};
ghost use Rattle.key_lines.specs.LineAnswers.{Logs, answered, refusal_of};
ghost use Rattle.key_lines.specs.Summary.{CanAddLine, counted};

use crate::fault::{LineFault, RefusedLine};
use crate::job::Note;
use crate::log::RefusalLog;

/// The summary of a run that reached the end of its input.
#[derive(Drop, PartialEq)]
pub struct RunSummary<R> {
    /// The number of lines, of the input and of the output.
    pub lines: u64,
    /// The number of answers with a note.
    pub noted: u64,
    /// The number of refused lines. The output has an empty line for each.
    pub refused: u64,
    /// The first refused line.
    pub first_refused: Option<RefusedLine<R>>,
}

// Adds an answered or refused line to the summary. The log receives a refused line.
pub(crate) fn add_line<R: Drop, L: RefusalLog<R>>(
    summary: &mut RunSummary<R>,
    log: &mut L,
    line: Result<Note, LineFault<R>>,
)
    requires room { CanAddLine summary.old }
    requires number { summary.old.lines < 18446744073709551614 }
    ensures room { CanAddLine summary.new }
    ensures counts { (text : List ℕ) → summary.new ≡ counted summary.old (answered text line) }
    ensures logs { (text : List ℕ) → Logs (L.received log.old) (L.received log.new)
        (refusal_of (summary.old.lines + 1) (answered text line)) }
{
    summary.lines += 1;
    match line {
        Ok(Note::None) => {}
        Ok(Note::NoKey | Note::AlreadyNew) => summary.noted += 1,
        Err(fault) => {
            let line = summary.lines;
            let refused = RefusedLine { line, fault };
            log.receive(&refused);
            summary.refused += 1;
            if summary.first_refused.is_none() {
                summary.first_refused = Some(refused);
            }
        }
    }
}
