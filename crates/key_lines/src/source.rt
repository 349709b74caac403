//! A reader that knows whether it must wait for the next line.

ghost use Rattle.std.specs.Prelude.{◌≡◌, ◌↔◌, ℕ, List, [], Bool, length, IfOk, IfSome, IsOk, false, true};
ghost use Rattle.std.specs.Borrow.{sem};
ghost use Rattle.std.specs.Io.{StartsWith};
ghost use Rattle.std.specs.Io.BufRead.{FillKeeps, Rests};
ghost use Rattle.std.specs.Io.Buffered.{reader_buffer};
ghost use Rattle.key_lines.specs.LineReading.{HasNoLf};

use memchr::memchr;
use std::alloc::Allocator;
use std::io::{self, BufRead, BufReader, Read};

/// A reader of lines.
pub trait LineSource: BufRead {
    /// Whether a read may fail.
    ghost can_fail: { Bool };

    /// The bytes that were read and not yet consumed, which `show` returns without a read.
    ghost buffered: { Self → List ℕ };

    /// Returns whether the next line needs a read, which may wait for whoever writes the lines:
    /// false exactly if the LF that ends the line is buffered.
    fn may_wait(&self) -> bool
        ensures { result ≡ true ↔ HasNoLf (buffered self.now) };

    /// Returns what `fill_buf` returns, and fails only if a read may fail.
    fn show(&mut self) -> io::Result<&[u8]>
        ensures front { IfSome (Self.remaining self.old)
            (λ xs. IfOk result (λ s. StartsWith xs s.now)) }
        ensures end { IfSome (Self.remaining self.old)
            (λ xs. IfOk result (λ s. length s.now ≡ 0 → xs ≡ [])) }
        ensures* after_borrow { sem 𝓛 (Rests Self.row self.entry (λ new. FillKeeps
            (Self.remaining self.old) (Self.remaining new) (Self.consumable_len new) result)) }
        ensures fails { can_fail ≡ false → IsOk result };
}

impl<R: Read, A: Allocator> LineSource for BufReader<R, A> {
    ghost can_fail = { true };

    ghost buffered = { λ reader. reader_buffer reader };

    fn may_wait(&self) -> bool {
        memchr(b'\n', self.buffer()).is_none()
    }

    fn show(&mut self) -> io::Result<&[u8]> {
        self.fill_buf()
    }
}

impl LineSource for &[u8] {
    ghost can_fail = { false };

    ghost buffered = { λ reader. reader.now };

    fn may_wait(&self) -> bool {
        memchr(b'\n', self).is_none()
    }

    fn show(&mut self) -> io::Result<&[u8]> {
        self.fill_buf()
    }
}
