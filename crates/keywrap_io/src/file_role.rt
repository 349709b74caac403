//! What a file is for in a run.

use std::fmt;

/// What a file is for in a run.
#[derive(Clone, Copy)]
pub enum FileRole {
    Kek,
    NewKek,
    Input,
    Output,
}

impl fmt::Display for FileRole {
    fn fmt<W: fmt::Write>(&self, f: &mut fmt::Formatter<W>) -> fmt::Result {
        f.write_str(match self {
            FileRole::Kek => "the KEK",
            FileRole::NewKek => "the new KEK",
            FileRole::Input => "the input",
            FileRole::Output => "the output",
        })
    }
}
