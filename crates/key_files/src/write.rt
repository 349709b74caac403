//! Writes texts whole, or up to a counted byte.

ghost use Rattle.std.specs.Prelude.{◌≡◌, ◌<◌, length, take, OnOk, IfErr, Ok};
ghost use Rattle.std.specs.Io.KnownBytes.{Appends};
ghost use Rattle.key_files.specs.HexText.{hex_line};
ghost use Rattle.key_files.specs.FileMeaning.{hex_meaning};
ghost use Rattle.key_files.specs.Writing.{PrintsAs, WritesHex};

use crate::fault::{HexWriteFault, WriteFault};
use std::alloc::{AllocError, Allocator};
use std::io::Write;

/// Writes the bytes, and does not flush.
///
/// The fault has the number of bytes that were written before a write failed or took no bytes.
/// Nothing is written for an empty slice.
pub fn write_raw<W: Write>(writer: &mut W, bytes: &[u8]) -> Result<(), WriteFault>
    ensures whole { OnOk result (Appends (W.contents writer.old) (W.contents writer.new)
        bytes.now) }
    ensures front { IfErr result (λ fault. Appends (W.contents writer.old) (W.contents writer.new)
        (take fault.written bytes.now)) }
    ensures short { IfErr result (λ fault. fault.written < length bytes.now) }
{
    let mut written = 0;
    while written < bytes.len() {
        match writer.write(&bytes[written..]) {
            Ok(count) if count > 0 => written += count,
            _ => return Err(WriteFault { written }),
        }
    }
    Ok(())
}

/// Writes the bytes in lower-case hex digits on one line, ended by LF, and does not flush.
///
/// The line is made whole before the first write, so nothing is written at Memory.
pub fn write_hex<A: Allocator, W: Write>(
    alloc: A,
    writer: &mut W,
    bytes: &[u8],
) -> Result<(), HexWriteFault>
    ensures { WritesHex (W.contents writer.old) (W.contents writer.new) bytes.now result }
{
    let mut line = hex::encode(alloc, bytes)?;
    line.push('\n')?;
    write_raw(writer, line.as_bytes())?;
    Ok(())
}

/// Replaces `line` with the line that [`write_hex`] writes.
pub fn print_hex(bytes: &[u8], line: &mut Vec<u8>) -> Result<(), AllocError>
    ensures whole { OnOk result (line.new.items ≡ hex_line bytes.now) }
    ensures prints { PrintsAs hex_meaning (hex_line bytes.now) bytes.now }
{
    let Some(len) = bytes.len().checked_mul(2) else {
        return Err(AllocError);
    };
    line.resize(len, 0)?;
    if hex::encode_to_slice(bytes, line).is_err() {
        return Err(AllocError);
    }
    line.push(b'\n')?;
    Ok(())
}
