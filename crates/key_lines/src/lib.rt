//! Many keys in one run: each line of the input is answered on the same line of the output.
//!
//! A line is one text of hex digits or of base64, with blanks only at its ends. A [`LineJob`] makes
//! the answer to its bytes. A [`LineRun`] reads the lines, writes the answers, and stops at the
//! first refused line, or writes an empty line for it and continues.

#![tactic(auto)]

mod block;
mod fault;
mod job;
mod line;
mod log;
mod run;
mod source;
mod summary;
mod text;

pub use fault::{LineFault, RefusedLine, RunFault};
pub use job::{LineJob, Note};
pub use log::RefusalLog;
pub use run::{LineRun, RunOptions};
pub use source::LineSource;
pub use summary::RunSummary;
pub use text::TextNotation;

#[cfg(test)]
mod tests;
