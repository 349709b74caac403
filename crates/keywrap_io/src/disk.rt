//! The trait [`Disk`]: the files and standard streams of a run, whose bytes contracts name. The
//! program runs on [`SystemDisk`], the files and standard streams of the system.

ghost use Rattle.std.specs.Prelude.{◌≡◌, ℕ, List, Option, None, Some, IfErr, IfSome, MatchResult, OnErr, OnOk};
ghost use Rattle.keywrap_io.specs.Places.{IsEmpty, IsOldOrNew, KeepsFiles, KeepsOthers, place};
ghost use Rattle.keywrap_io.specs.declared.streams.LostStream.{LostStream};

use crate::output::Output;
use crate::output_file::{Access, OutputFile};
use crate::protected::{FileId, Protected};
use crate::reason::Reason;
use crate::streams::{InputSource, LostStream, Occupied, Streams, occupy_closed, open};
use std::fs::File;
use std::io::{self, Printer, Read, Write};
use std::rt::Files;

/// The files and standard streams of a run. A file has a name, and a standard stream has none.
///
/// Another process may change the same files. The ghost members then describe what this run finds.
pub trait Disk {
    /// A file that is open to be read, or standard input.
    type Source: Read + Drop;
    /// A new file without its name yet, or standard output.
    type Target: Write + Drop;

    /// These bytes can be read from this file, or from standard input.
    ghost reads: { Self → Option (List ℕ) → Option (List ℕ) → Type 0 };

    /// This file cannot be opened to be read.
    ghost cannot_read: { Self → Option (List ℕ) → Type 0 };

    /// No new file can be made for this name.
    ghost cannot_create: { Self → List ℕ → Type 0 };

    /// The descriptor of this closed standard stream cannot be taken.
    ghost cannot_occupy: { Self → LostStream → Type 0 };

    /// This file, or standard output, holds these bytes.
    ghost holds: { Self → Option (List ℕ) → Option (List ℕ) → Type 0 };

    /// Takes the descriptors of closed standard streams, so that no file that is opened later gets
    /// one.
    fn occupy_closed(&self, streams: Streams) -> Result<Occupied, LostStream>
        ensures { IfErr result (λ lost. cannot_occupy self.now lost) };

    /// Opens the file of this name to read it, or standard input if there is no name.
    fn open(&self, name: Option<&str>) -> io::Result<Self::Source>
        ensures { MatchResult result
            (λ source. reads self.now (place name.entry) (Self.Source.remaining source))
            (λ _. cannot_read self.now (place name.entry)) };

    /// Identifies an open file.
    fn id(&self, source: &Self::Source) -> FileId;

    /// Returns the length of an open file that is a regular one.
    fn length(&self, source: &Self::Source) -> Option<u64>;

    /// Makes a new, empty file, which may take this name later.
    fn create(
        &mut self,
        name: &str,
        protected: &Protected,
        access: Access,
    ) -> Result<Self::Target, Reason>
        ensures new { MatchResult result (λ target. IsEmpty (Self.Target.contents target))
            (λ _. cannot_create self.old name.now) }
        ensures keeps { KeepsFiles (holds self.old) (holds self.new) };

    /// Returns standard output.
    fn standard_output(&self) -> Self::Target
        ensures { holds self.now None (Self.Target.contents result) };

    /// The new file takes this name, or standard output is flushed. If that fails, the file of this
    /// name is the old one, or the whole new one.
    fn commit(&mut self, name: Option<&str>, target: &mut Self::Target) -> Result<(), Reason>
        ensures done { OnOk result (holds self.new (place name.entry) (Self.Target.contents target.old)) }
        ensures failed { OnErr result (IsOldOrNew (holds self.old) (holds self.new) (place name.entry)
            (Self.Target.contents target.old)) }
        ensures others { KeepsOthers (holds self.old) (holds self.new) (place name.entry) };

    /// Removes a new file, which does not take a name.
    fn discard(&mut self, target: &Self::Target)
        ensures { KeepsFiles (holds self.old) (holds self.new) };
}

/// The files and standard streams of the system. No contract of the toolchain states their bytes, so
/// the ghost members are true of any bytes. Only tests show that each method does what its contract
/// in [`Disk`] says.
#[derive(Drop)]
pub struct SystemDisk<'a, R> {
    pub rt: &'a R,
}

impl<'a, R: Print + Input + AllocGlobal + Files<File = File>> Disk for SystemDisk<'a, R> {
    type Source = InputSource<R::Reader>;

    type Target = Output<Printer<'a, R>>;

    ghost reads = { λ _ _ _. Unit {0} };

    ghost cannot_read = { λ _ _. Unit {0} };

    ghost cannot_create = { λ _ _. Unit {0} };

    ghost cannot_occupy = { λ _ _. Unit {0} };

    ghost holds = { λ _ _ _. Unit {0} };

    fn occupy_closed(&self, streams: Streams) -> Result<Occupied, LostStream> {
        occupy_closed(self.rt, streams)
    }

    fn open(&self, name: Option<&str>) -> io::Result<InputSource<R::Reader>> {
        open(self.rt, name)
    }

    fn id(&self, source: &InputSource<R::Reader>) -> FileId {
        source.id(self.rt)
    }

    fn length(&self, source: &InputSource<R::Reader>) -> Option<u64> {
        source.length()
    }

    fn create(
        &mut self,
        name: &str,
        protected: &Protected,
        access: Access,
    ) -> Result<Output<Printer<'a, R>>, Reason> {
        let file = OutputFile::create(self.rt, name, protected, access)?;
        Ok(Output::File(file))
    }

    fn standard_output(&self) -> Output<Printer<'a, R>> {
        Output::Stdout(io::writer(self.rt))
    }

    fn commit(
        &mut self,
        name: Option<&str>,
        target: &mut Output<Printer<'a, R>>,
    ) -> Result<(), Reason> {
        target.commit(self.rt, name)
    }

    fn discard(&mut self, target: &Output<Printer<'a, R>>) {
        target.discard(self.rt);
    }
}
