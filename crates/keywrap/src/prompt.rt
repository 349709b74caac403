//! Prints which files are read from a terminal.

use crate::command::Run;
use keywrap_io::{FileRole, Streams, is_standard_input};

/// Prints a line for each file that is read from a terminal, in the order in which they are read.
pub fn prompt<R: Eprint>(rt: &R, run: &Run<'_>, streams: Streams) {
    for role in [FileRole::Kek, FileRole::NewKek, FileRole::Input] {
        if is_typed(run, role, streams) {
            // Nothing is lost if standard error is closed.
            let _ = eprintln!(rt; "keywrap: reading {role} from the terminal; Ctrl-D ends it");
        }
    }
}

/// Returns whether the file is read from a terminal.
pub fn is_typed(run: &Run<'_>, role: FileRole, streams: Streams) -> bool {
    let is_standard = match run.file_name(role) {
        Some(name) => is_standard_input(name),
        None => matches!(role, FileRole::Input),
    };
    is_standard && streams.input.is_terminal()
}
