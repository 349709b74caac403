//! The files and streams of the command `keywrap`: the inspection of the bytes that are read, the
//! reason of a refusal, the output file and the files that it must not replace, and the progress of
//! a run. The readers and writers pass on the bytes of the files and streams below them unchanged.
//! The contracts of `Disk` state what a run may rely on. The rest has no contracts, and is tested
//! with the program.
#![tactic(auto)]

mod disk;
mod file_role;
mod inspected;
mod line_counts;
mod line_lengths;
mod output;
mod output_file;
mod progress;
mod protected;
mod reason;
mod streams;

pub use disk::{Disk, SystemDisk};
pub use file_role::FileRole;
pub use inspected::{Content, Inspected, Inspection};
pub use line_counts::LineCounts;
pub use output::Output;
pub use output_file::{Access, OutputFile};
pub use progress::{CountingReader, Progress};
pub use protected::{FileId, Protected};
pub use reason::Reason;
pub use streams::{
    InputSource, LostStream, Occupied, StreamKind, Streams, is_output_piped, is_standard_input,
    stream_kind,
};
