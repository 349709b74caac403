//! The table that `keywrap options` prints: the subcommands, their arguments and the exit statuses, each
//! as a line of JSON. Completions, the manual page's synopsis and tests are made from it. The help
//! does not show this subcommand.

use keywrap_args::{ParseStop, Table};
use keywrap_cli::statuses;
use std::alloc::Global;
use std::fmt;

static STATUSES: [(u8, &str); 7] = [
    (statuses::DONE, "done"),
    (statuses::USAGE, "usage"),
    (statuses::KEK_LENGTH, "KEK length"),
    (statuses::BAD_LENGTH, "bad length"),
    (statuses::FAILED, "failed"),
    (statuses::INPUT_OUTPUT, "input or output"),
    (statuses::MEMORY, "memory"),
];

/// Returns the table, which is printed as the help is.
pub fn table(alloc: Global) -> Result<ParseStop, ParseStop> {
    Ok(ParseStop::Help(format!(in alloc; "{Table}{Statuses}")?))
}

// The exit statuses as lines of JSON.
#[derive(Clone, Copy)]
struct Statuses;

impl fmt::Display for Statuses {
    fn fmt<W: fmt::Write>(&self, f: &mut fmt::Formatter<W>) -> fmt::Result {
        for (status, name) in all_statuses() {
            write!(f, "{{\"status\": {status}, \"name\": \"{name}\"}}\n")?;
        }
        Ok(())
    }
}

// It is a call because a loop over a constant takes long to prove.
fn all_statuses() -> &'static [(u8, &'static str)] {
    &STATUSES
}
