//! The exit status of a run that was not refused.

ghost use Rattle.std.specs.Prelude.{◌≡◌, ◌≢◌, ◌↔◌, Some, None};
ghost use Rattle.keywrap_cli.specs.Operation.{EndsWell};
ghost use Rattle.keywrap_cli.specs.Faults.{line_status};

use crate::fault::line_status;
use crate::outcome::Done;
use crate::statuses;
use crate::what::What;
use key_lines::{RefusedLine, RunSummary};
use key_wrap_core::Refusal;

/// Returns the exit status of a run over a whole input: 0 if the answer was written, and 5 if a
/// check found no wrapping and wrote `none`.
pub fn done_status(done: Done) -> u8
    ensures done { (result ≡ 0) ↔ (done ≡ Done.Written) }
    ensures neither { (result ≡ 5) ↔ (done ≡ Done.Neither) }
{
    match done {
        Done::Written => statuses::DONE,
        Done::Neither => statuses::FAILED,
    }
}

/// Returns the exit status of a run over lines: 4 if there are no lines, or else the status of the
/// first refused line. If no line was refused, the status is 5 if a check found no wrapping in one
/// of the lines, and 0 otherwise.
pub fn lines_status(what: &What, summary: &RunSummary<Refusal>) -> u8
    ensures done { (result ≡ 0) ↔ EndsWell what.now summary.now }
    ensures no_lines { summary.now.lines ≡ 0 → result ≡ 4 }
    ensures refused { summary.now.lines ≢ 0 → (refused : RefusedLine Refusal)
        → summary.now.first_refused ≡ Some refused → result ≡ line_status refused.fault }
    ensures none { summary.now.lines ≢ 0 → summary.now.first_refused ≡ None → result ≢ 0
        → result ≡ 5 }
{
    if summary.lines == 0 {
        return statuses::BAD_LENGTH;
    }
    if let Some(refused) = summary.first_refused {
        return line_status(refused.fault);
    }
    if what.is_check() && summary.noted > 0 {
        statuses::FAILED
    } else {
        statuses::DONE
    }
}
