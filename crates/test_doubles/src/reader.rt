//! A reader that works in pieces, and fails at a chosen byte.

use std::io::{self, Read};

/// A reader that gives its bytes in pieces, and fails at one of them.
#[derive(Clone, Copy)]
pub struct Trickle<'a> {
    /// The bytes that were not read.
    pub left: &'a [u8],
    /// Whether there was no read.
    pub is_unread: bool,
    // The largest size of a read.
    size: usize,
    // The bytes left before the fault, and how often the reader fails there.
    room: usize,
    faults: usize,
}

impl<'a> Trickle<'a> {
    /// Makes a reader that gives at most `size` bytes per read.
    pub fn in_pieces(bytes: &'a [u8], size: usize) -> Self {
        Trickle {
            left: bytes,
            is_unread: true,
            size,
            room: usize::MAX,
            faults: 0,
        }
    }

    /// Makes a reader that gives one byte per read, and fails `faults` times after `room` bytes.
    pub fn failing(bytes: &'a [u8], room: usize, faults: usize) -> Self {
        Trickle {
            room,
            faults,
            ..Trickle::in_pieces(bytes, 1)
        }
    }
}

impl Read for Trickle<'_> {
    fn read(&mut self, buf: &mut [u8]) -> io::Result<usize> {
        self.is_unread = false;
        if self.room == 0 && self.faults > 0 {
            self.faults -= 1;
            return Err(io::Error::from(io::ErrorKind::Interrupted));
        }
        let most = if self.faults > 0 {
            self.room
        } else {
            usize::MAX
        };
        let count = self.left.len().min(self.size).min(buf.len()).min(most);
        let (piece, left) = self.left.split_at(count);
        buf[..count].copy_from_slice(piece);
        self.left = left;
        self.room = self.room.saturating_sub(count);
        Ok(count)
    }
}
