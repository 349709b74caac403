//! Writers that work in pieces, and fail at a chosen byte or when they are flushed.

use std::alloc::Global;
use std::io::{self, Write};

/// How a writer fails.
#[derive(Clone, Copy, Debug)]
pub enum Stopping {
    /// It returns an error.
    Fails,
    /// It takes no bytes.
    TakesNone,
}

/// How a writer fails, and how often.
pub const STOPPINGS: [(Stopping, usize); 4] = [
    (Stopping::Fails, 1),
    (Stopping::TakesNone, 1),
    (Stopping::Fails, usize::MAX),
    (Stopping::TakesNone, usize::MAX),
];

/// A writer that takes bytes in pieces, and fails at one of them.
#[derive(Drop)]
pub struct Narrow {
    /// Whether a flush was requested.
    pub is_flushed: bool,
    out: Vec<u8>,
    // The largest size of a write.
    size: usize,
    // The bytes left before the fault, its kind, and how often the writer fails there.
    room: usize,
    stop: Stopping,
    faults: usize,
}

impl Narrow {
    /// Makes a writer that takes at most `size` bytes per write.
    pub fn in_pieces(alloc: Global, size: usize) -> Self {
        Narrow {
            is_flushed: false,
            out: Vec::new(alloc),
            size,
            room: usize::MAX,
            stop: Stopping::Fails,
            faults: 0,
        }
    }

    /// Makes a writer that takes one byte per write, and fails `faults` times after `room` bytes.
    pub fn stopping(alloc: Global, room: usize, stop: Stopping, faults: usize) -> Self {
        Narrow {
            room,
            stop,
            faults,
            ..Narrow::in_pieces(alloc, 1)
        }
    }

    /// Makes a writer that takes one byte per write, and always fails after `room` bytes.
    pub fn failing(alloc: Global, room: usize) -> Self {
        Narrow::stopping(alloc, room, Stopping::Fails, usize::MAX)
    }

    /// Returns the bytes that were written.
    pub fn out(&self) -> &[u8] {
        &self.out
    }
}

impl Write for Narrow {
    fn write(&mut self, buf: &[u8]) -> io::Result<usize> {
        if self.room == 0 && self.faults > 0 {
            self.faults -= 1;
            return match self.stop {
                Stopping::Fails => Err(io::Error::from(io::ErrorKind::Interrupted)),
                Stopping::TakesNone => Ok(0),
            };
        }
        let most = if self.faults > 0 {
            self.room
        } else {
            usize::MAX
        };
        let count = buf.len().min(self.size).min(most);
        self.out.extend_from_slice(&buf[..count])?;
        self.room = self.room.saturating_sub(count);
        Ok(count)
    }

    fn flush(&mut self) -> io::Result<()> {
        self.is_flushed = true;
        Ok(())
    }
}

/// A writer that takes each byte, and fails when it is flushed.
#[derive(Drop)]
pub struct Unflushed;

impl Write for Unflushed {
    fn write(&mut self, buf: &[u8]) -> io::Result<usize> {
        Ok(buf.len())
    }

    fn flush(&mut self) -> io::Result<()> {
        Err(io::Error::from(io::ErrorKind::Interrupted))
    }
}
