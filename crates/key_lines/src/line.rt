//! Reads lines one after another.

ghost use Rattle.std.specs.Prelude.{◌≡◌, ◌≢◌, ◌<◌, ◌≤◌, length, take, slice_index, All, vec_len};
ghost use Rattle.std.specs.Prelude.{Err, false};
ghost use Rattle.key_lines.specs.LineReading.{MovesPart, ReadsLine};

use crate::source::LineSource;
use key_files::FileFault;
use memchr::memchr;
use std::alloc::Allocator;

// How a part of a line ended.
#[derive(Clone, Copy)]
pub(crate) enum Part {
    // It did not end in the bytes that the reader showed.
    More,
    // An LF ended it.
    Ended,
    // The reader was at its end.
    Missing,
}

// What a reader has where the next line would begin.
#[derive(Clone, Copy, PartialEq)]
pub(crate) enum Line {
    // A line that an LF ends.
    Ended,
    // The last line, which no LF ends.
    Last,
    // The end of the reader.
    Missing,
}

// Reads the next line into `line`, without its LF. After `Last` and `Missing` the reader is at its
// end, and need not be called again.
//
// Takes at most `limit + 1` bytes of the line; TooLong if they have no LF. Returns Read for any
// error of a read, even if it was only interrupted, and for nothing else, and Memory for a failed
// allocation, when they occur; `line` then holds the bytes that were taken.
pub(crate) fn read_line<R: LineSource, A: Allocator>(
    reader: &mut R,
    line: &mut Vec<u8, A>,
    limit: usize,
) -> Result<Line, FileFault>
    requires { limit < usize.MAX }
    ensures line { ReadsLine limit (R.remaining reader.old) (R.remaining reader.new)
        line.new.items result }
    ensures read { R.can_fail ≡ false → result ≢ Err FileFault.Read }
{
    line.clear();
    loop {
        match move_part(reader, line, limit)? {
            Part::More => {}
            Part::Ended => return Ok(Line::Ended),
            Part::Missing if line.is_empty() => return Ok(Line::Missing),
            Part::Missing => return Ok(Line::Last),
        }
    }
}

// Moves the bytes of the line that the reader shows, at most one past the limit.
fn move_part<R: LineSource, A: Allocator>(
    reader: &mut R,
    line: &mut Vec<u8, A>,
    limit: usize,
) -> Result<Part, FileFault>
    requires wide { limit < usize.MAX }
    requires room { vec_len line.old ≤ limit }
    ensures part { MovesPart limit (R.remaining reader.old) (R.remaining reader.new)
        line.old.items line.new.items result }
    ensures read { R.can_fail ≡ false → result ≢ Err FileFault.Read }
{
    let room = limit + 1 - line.len();
    let shown = match reader.show() {
        Ok(shown) => shown,
        Err(_) => return Err(FileFault::Read),
    };
    let front = &shown[..room.min(shown.len())];
    let len = before_lf(front);
    let is_end = front.is_empty();
    let has_lf = len < front.len();
    line.extend_from_slice(&front[..len])?;
    if has_lf {
        reader.consume(len + 1);
        return Ok(Part::Ended);
    }
    reader.consume(len);
    if is_end {
        return Ok(Part::Missing);
    }
    if line.len() > limit {
        return Err(FileFault::TooLong);
    }
    Ok(Part::More)
}

// Returns the number of bytes before the first LF, or of all bytes.
fn before_lf(front: &[u8]) -> usize
    ensures bound { result ≤ length front.now }
    ensures lf { result < length front.now → slice_index front.now result ≡ 10 }
    ensures none { All (λ byte. byte ≢ 10) (take result front.now) }
{
    match memchr(b'\n', front) {
        Some(at) => at,
        None => front.len(),
    }
}
