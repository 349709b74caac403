//! The standard streams as the program starts, and opening a file or standard input by name.

ghost use Rattle.keywrap_io.specs.Adapters.{source_remaining};

use crate::protected::FileId;
use std::fs::{self, File, OpenFile};
use std::io::{self, IsTerminal, PipeReader, Read};
use std::os::fd::AsFd;
use std::os::unix::fs::FileTypeExt;
use std::rt::Files;

/// The standard streams as the program starts.
#[derive(Clone, Copy)]
pub struct Streams {
    pub input: StreamKind,
    pub output: StreamKind,
    pub error: StreamKind,
}

/// What a standard stream is.
#[derive(Clone, Copy)]
pub enum StreamKind {
    Terminal,
    Closed,
    /// Something else, such as a file or a pipe.
    Other,
}

impl StreamKind {
    /// Returns whether the stream is a terminal.
    pub fn is_terminal(self) -> bool {
        matches!(self, StreamKind::Terminal)
    }
}

// The error of a descriptor that is not open.
const EBADF: i32 = 9;

/// Returns what a standard stream is. A closed descriptor cannot be duplicated.
pub fn stream_kind<S: AsFd + IsTerminal>(stream: &S) -> StreamKind {
    if stream.is_terminal() {
        return StreamKind::Terminal;
    }
    match stream.as_fd().try_clone_to_owned() {
        Err(error) if error.raw_os_error() == Some(EBADF) => StreamKind::Closed,
        Ok(_) | Err(_) => StreamKind::Other,
    }
}

/// Returns whether standard output is a pipe, which may lead to the terminal.
pub fn is_output_piped<R: Files>(rt: &R) -> bool {
    rt.metadata("/proc/self/fd/1")
        .is_ok_and(|metadata| metadata.file_type().is_fifo())
}

/// Holds the descriptors of closed standard streams.
pub type Occupied = [Option<PipeReader>; 3];

/// A stream of a run that a closed descriptor makes unusable.
#[derive(Clone, Copy)]
pub enum LostStream {
    Input,
    /// Standard output or standard error.
    Output,
}

/// Takes the descriptors of closed standard streams, so that no file that is opened later gets
/// one. If that fails, returns which stream of the run would be lost.
pub fn occupy_closed<R: Files>(rt: &R, streams: Streams) -> Result<Occupied, LostStream> {
    Ok([
        occupy(rt, streams.input).map_err(|_| LostStream::Input)?,
        occupy(rt, streams.output).map_err(|_| LostStream::Output)?,
        occupy(rt, streams.error).map_err(|_| LostStream::Output)?,
    ])
}

// The reader of a pipe gets the lowest free descriptor. A pipe without a writer reads as empty, and
// writes to its reader fail.
fn occupy<R: Files>(rt: &R, stream: StreamKind) -> io::Result<Option<PipeReader>> {
    if !matches!(stream, StreamKind::Closed) {
        return Ok(None);
    }
    let (reader, _writer) = io::pipe(rt)?;
    Ok(Some(reader))
}

/// A file to read, or standard input, which cannot be opened by name if it is a socket.
#[derive(Drop)]
pub enum InputSource<I, F = File> {
    File(F),
    /// Standard input itself.
    Stdin(I),
}

impl<I> InputSource<I> {
    /// Identifies the file.
    pub fn id<R: Files>(&self, rt: &R) -> FileId {
        FileId::new(match self {
            InputSource::File(file) => file.metadata(),
            InputSource::Stdin(_) => rt.metadata("/proc/self/fd/0"),
        })
    }

    /// Returns the length of a regular file.
    pub fn length(&self) -> Option<u64> {
        let InputSource::File(file) = self else {
            return None;
        };
        let metadata = file.metadata().ok()?;
        metadata.is_file().then_some(metadata.len())
    }
}

/// Opens the file of this name to read it, or standard input if there is no name.
pub fn open<R: Input + Files<File = File>>(
    rt: &R,
    name: Option<&str>,
) -> io::Result<InputSource<R::Reader>> {
    let Some(name) = name else {
        return Ok(InputSource::Stdin(rt.reader()));
    };
    match fs::open(rt, name) {
        Ok(file) => Ok(InputSource::File(file)),
        Err(_) if is_standard_input(name) => Ok(InputSource::Stdin(rt.reader())),
        Err(error) => Err(error),
    }
}

/// Returns whether the system has this name for standard input.
pub fn is_standard_input(name: &str) -> bool {
    matches!(name, "/dev/stdin" | "/dev/fd/0" | "/proc/self/fd/0")
}

impl<I: Read, F: Read> Read for InputSource<I, F> {
    ghost remaining = { source_remaining I.remaining F.remaining };

    fn read(&mut self, buf: &mut [u8]) -> io::Result<usize> {
        match self {
            InputSource::File(file) => file.read(buf),
            InputSource::Stdin(stdin) => stdin.read(buf),
        }
    }
}
