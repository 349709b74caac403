//! The files of a run that its output must not replace.

use crate::reason::Reason;
use std::fs::Metadata;
use std::io;
use std::os::unix::fs::MetadataExt;

/// The files of a run that its output must not replace, under any name.
#[derive(Clone, Copy)]
pub struct Protected {
    /// The KEK file.
    pub kek: FileId,
    /// The new KEK file.
    pub new_kek: Option<FileId>,
    /// The input, if it has the only copy of the refused lines.
    pub input: Option<FileId>,
}

/// The identity of a file of the system.
#[derive(Clone, Copy)]
pub enum FileId {
    /// The file with these numbers.
    Known { device: u64, inode: u64 },
    /// It cannot be identified, so it may be any file.
    Unknown,
}

impl FileId {
    /// Identifies the file that has this metadata.
    pub fn new(metadata: io::Result<Metadata>) -> FileId {
        match metadata {
            Ok(metadata) => FileId::Known {
                device: metadata.dev(),
                inode: metadata.ino(),
            },
            Err(_) => FileId::Unknown,
        }
    }
}

impl Protected {
    /// Refuses a target that is one of these files, or may be.
    pub fn check(&self, target: &Metadata) -> Result<(), Reason> {
        check_file(Some(self.kek), "is the KEK file", target)?;
        check_file(self.new_kek, "is the new KEK file", target)?;
        check_file(self.input, INPUT, target)
    }
}

const INPUT: &str = "is the input, whose refused lines would be lost with --keep-going";

fn check_file(file: Option<FileId>, what: &'static str, target: &Metadata) -> Result<(), Reason> {
    match file {
        Some(FileId::Known { device, inode }) if device == target.dev() && inode == target.ino() =>
            { Err(Reason::Text(what)) }
        Some(FileId::Unknown) => Err(Reason::Text("may be a file that was read")),
        Some(FileId::Known { .. }) | None => Ok(()),
    }
}
