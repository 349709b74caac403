//! The command `keywrap`, as calls over readers and writers: operations on a whole input and line by
//! line, the drill, the published vectors. Also the exit status of each fault and of
//! each run, and the messages, which are tested and not proved.
#![tactic(auto)]

mod convert;
mod drilling;
mod fault;
mod files;
mod initial_value;
mod job;
mod kek_file;
mod key_job;
mod operation;
mod outcome;
mod run_status;
pub mod statuses;
#[cfg(test)]
mod tests;
mod toy_and_vectors;
mod vector_check;
mod vector_report;
mod what;
mod whole_input;

pub use drilling::{DrillFault, drill};
pub use fault::ProgramFault;
pub use files::{Notation, line_notation};
pub use initial_value::{IvFault, parse_iv};
pub use job::{Direction, Job, Task, run_job, run_rewrap, run_with};
pub use kek_file::Keks;
pub use operation::Operation;
pub use outcome::{Done, JobFault, Outcome};
pub use run_status::{done_status, lines_status};
pub use toy_and_vectors::{run_drill, run_vectors, write_help};
pub use vector_check::{Library, VectorCalls, library_law};
pub use vector_report::{VectorsFault, vectors};
pub use what::{Conversion, How, What};
