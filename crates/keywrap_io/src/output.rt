//! The output of a run: a file, or standard output.

ghost use Rattle.keywrap_io.specs.Adapters.{output_contents};

use crate::output_file::OutputFile;
use crate::reason::Reason;
use std::fs::File;
use std::io::{self, Write};
use std::rt::Files;

/// The output of a run.
#[derive(Drop)]
pub enum Output<W, F = File> {
    File(OutputFile<F>),
    /// Standard output itself.
    Stdout(W),
}

impl<W: Write> Output<W> {
    /// Ends a run that was not refused: the file takes this name, or standard output, which has
    /// none, is flushed.
    pub fn commit<R: Files<File = File>>(
        &mut self,
        rt: &R,
        name: Option<&str>,
    ) -> Result<(), Reason> {
        match (self, name) {
            (Output::File(file), Some(name)) => file.commit(rt, name),
            (Output::Stdout(out), None) => Ok(out.flush()?),
            // The output of a run is a file exactly if it has a name.
            (Output::File(_), None) | (Output::Stdout(_), Some(_)) => Err(Reason::NameOnly),
        }
    }

    /// Ends a run that was refused: the file is removed.
    pub fn discard<R: Files<File = File>>(&self, rt: &R) {
        if let Output::File(file) = self {
            file.discard(rt);
        }
    }
}

impl<W: Write, F: Write> Write for Output<W, F> {
    ghost contents = { output_contents W.contents F.contents };

    fn write(&mut self, buf: &[u8]) -> io::Result<usize> {
        match self {
            Output::File(file) => file.file.write(buf),
            Output::Stdout(out) => out.write(buf),
        }
    }

    fn flush(&mut self) -> io::Result<()> {
        match self {
            Output::File(file) => file.file.flush(),
            Output::Stdout(out) => out.flush(),
        }
    }
}
