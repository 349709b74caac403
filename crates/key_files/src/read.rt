//! Reads whole files.

ghost use Rattle.std.specs.Prelude.{◌≡◌, ◌<◌, ◌≤◌, length, take, IfOk, IfErr};
ghost use Rattle.std.specs.Io.KnownBytes.{Consumes, IsAtEnd, Keeps};
ghost use Rattle.key_files.specs.Base64Text.{FilesEncode, base64_meaning};
ghost use Rattle.key_files.specs.FileMeaning.{raw_meaning, hex_meaning};
ghost use Rattle.key_files.specs.FileReading.{ReadsAs, answer_of};

use crate::base64_text::decode_base64;
use crate::fault::FileFault;
use crate::hex_text::decode_hex;
use std::alloc::Allocator;
use std::io::Read;

/// The largest size of a file of the command, in bytes.
pub const MAX_FILE: usize = 4_194_304;

// A law: the constant is the number that the definitions use.
fn max_file_value()
    ensures { MAX_FILE ≡ 4194304 }
{}

// The size of one read, in bytes.
const CHUNK: usize = 4_096;

/// Reads the bytes of a file, up to the end of input: a read of no bytes into a buffer that is not
/// empty.
///
/// Takes at most `limit + 1` bytes from the reader, and puts none back. Returns Read for any error
/// of a read, even if it was only interrupted, and Memory for a failed allocation, when they occur.
/// TooLong if `limit + 1` bytes came.
pub fn read_raw<A: Allocator, R: Read>(
    alloc: A,
    reader: &mut R,
    limit: usize,
) -> Result<Vec<u8, A>, FileFault>
    requires { limit < usize.MAX }
    ensures { ReadsAs raw_meaning limit (R.remaining reader.old) (R.remaining reader.new)
        (answer_of result) }
{
    let mut bytes = Vec::new(alloc);
    let mut chunk = [0; CHUNK];
    loop {
        let room = (limit + 1 - bytes.len()).min(CHUNK);
        let count = read_once(reader, &mut chunk[..room])?;
        if count == 0 {
            return Ok(bytes);
        }
        if count > limit - bytes.len() {
            return Err(FileFault::TooLong);
        }
        bytes.extend_from_slice(&chunk[..count])?;
    }
}

// Reads once into the front of `buf`, and returns the number of bytes.
fn read_once<R: Read>(reader: &mut R, buf: &mut [u8]) -> Result<usize, FileFault>
    ensures within { IfOk result (λ count. count ≤ length buf.new) }
    ensures taken { IfOk result (λ count. Consumes (R.remaining reader.old) (R.remaining reader.new)
        (take count buf.new)) }
    ensures end { IfOk result (λ count. count ≡ 0 → 0 < length buf.old
        → IsAtEnd (R.remaining reader.new)) }
    ensures refused { IfErr result (λ fault. (fault ≡ FileFault.Read)
        × Keeps (R.remaining reader.old) (R.remaining reader.new)) }
{
    reader.read(buf).map_err(|_| FileFault::Read)
}

/// Reads a hex file, and decodes it as [`decode_hex`] does. `limit` counts the bytes of the file.
///
/// The file is read as [`read_raw`] reads it. Returns the first error that applies: Read or Memory
/// when it occurs, TooLong, BadDigit, OddDigits, Memory.
pub fn read_hex<A: Allocator + Copy, R: Read>(
    alloc: A,
    reader: &mut R,
    limit: usize,
) -> Result<Vec<u8, A>, FileFault>
    requires { limit < usize.MAX }
    ensures { ReadsAs hex_meaning limit (R.remaining reader.old) (R.remaining reader.new)
        (answer_of result) }
{
    let text = read_raw(alloc, reader, limit)?;
    decode_hex(alloc, &text)
}

/// Reads a base64 file, in either alphabet, with padding or without it, and with blanks anywhere.
/// `limit` counts the bytes of the file.
///
/// The file is read as [`read_raw`] reads it: Read and Memory are returned when they occur. A whole
/// file is refused with the first of these faults that applies: TooLong, BadCharacter,
/// BehindPadding, BadBase64Length, TrailingBits.
pub fn read_base64<A: Allocator + Copy, R: Read>(
    alloc: A,
    reader: &mut R,
    limit: usize,
) -> Result<Vec<u8, A>, FileFault>
    requires { limit < usize.MAX }
    ensures read { ReadsAs base64_meaning limit (R.remaining reader.old) (R.remaining reader.new)
        (answer_of result) }
    ensures exact { FilesEncode }
{
    let file = read_raw(alloc, reader, limit)?;
    decode_base64(alloc, &file)
}
