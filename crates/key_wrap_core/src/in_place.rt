//! The calls in the caller's buffer. They take no memory.

ghost use Rattle.std.specs.Prelude.{◌≡◌, ◌≤◌, ◌++◌, ℕ, List, length, take, drop, replicate};
ghost use Rattle.std.specs.Prelude.{OnOk, IfOk, IsOk};
ghost use Rattle.key_wrap_core.specs.Words.{word_bytes};
ghost use Rattle.key_wrap_core.specs.Lengths.{IsPlainTextLength, IsPaddedTextLength};
ghost use Rattle.key_wrap_core.specs.Plain.{Plain, default_iv};
ghost use Rattle.key_wrap_core.specs.Padded.{Padded};
ghost use Rattle.key_wrap_core.specs.BlockCalls.{block_calls};
ghost use Rattle.key_wrap_core.specs.InPlace.{IsPaddedRoom, key_in};
ghost use Rattle.key_wrap_core.specs.Unwrapping.{Unwrapping};
ghost use Rattle.key_wrap_core.specs.BufferCalls.{Wrapping, KeepsOrClears};
ghost use Rattle.key_wrap_core.specs.BufferCalls.{IsKeyBuffer, CountsCalls};

use crate::agreed_form::AgreedForm;
use crate::checks::{DEFAULT_IV, padded_iv};
use crate::faults::InPlaceFault;
use crate::found::wrap_buffer;
use crate::lengths::{WORD, padded_length_ok, padded_text_length_ok, text_len, text_length_ok};
use crate::unwrapping::{unwrap_padded_registers, unwrap_registers};
use block_pair::{BlockPair, Meter};
use byteorder::{BigEndian, ByteOrder};

/// Wraps the key at offset 8 in place (RFC 3394, section 2.2.1). Afterwards the whole buffer is the
/// plain wrapping. The first 8 bytes are ignored.
///
/// `BadLength`, with the buffer and the meter unchanged, if `text_length_ok` is false for the
/// buffer's length.
pub fn wrap_in_place<B: BlockPair>(meter: &mut Meter<B>, buf: &mut [u8]) -> Result<(), InPlaceFault>
    ensures wraps { Wrapping (IsPlainTextLength (length buf.old)) (AgreedForm.Plain default_iv)
        (B.encrypted meter.old.pair) (drop 8 buf.old) buf.old buf.new result }
    ensures calls { CountsCalls (block_calls (length buf.old)) meter.old meter.new result }
{
    if !text_length_ok(buf.len()) {
        return Err(InPlaceFault::BadLength);
    }
    wrap_buffer(meter, DEFAULT_IV, buf);
    Ok(())
}

/// Unwraps the plain wrapping in the buffer, which becomes 8 zero bytes and the key (RFC 3394,
/// section 2.2.2).
///
/// `BadLength`, with the buffer and the meter unchanged, if `text_length_ok` is false for the
/// buffer's length. `Integrity` if the buffer is not a valid plain wrapping; then every byte of it
/// becomes zero, and the meter counts as many calls as for a key.
pub fn unwrap_in_place<B: BlockPair>(
    meter: &mut Meter<B>,
    buf: &mut [u8],
) -> Result<(), InPlaceFault>
    ensures unwraps { Unwrapping (IsPlainTextLength (length buf.old)) (AgreedForm.Plain default_iv)
        (B.encrypted meter.old.pair) buf.old (λ _. drop 8 buf.new) result }

    // A wrapping is not refused.
    ensures accepts { (key : List ℕ) → Plain (B.encrypted meter.old.pair) default_iv key buf.old
        → IsOk result }
    ensures first_word { OnOk result (take 8 buf.new ≡ replicate 8 0) }
    ensures refused { KeepsOrClears buf.old buf.new result }
    ensures calls { CountsCalls (block_calls (length buf.old)) meter.old meter.new result }
{
    if !text_length_ok(buf.len()) {
        return Err(InPlaceFault::BadLength);
    }
    let c0 = take_first(buf);
    unwrap_registers(meter, DEFAULT_IV, c0, &mut buf[WORD..])
}

/// Wraps the `m`-byte key at offset 8 in place (RFC 5649, section 4.1). Afterwards the whole buffer
/// is the padded wrapping. Other bytes of the buffer are ignored.
///
/// `BadLength`, with the buffer and the meter unchanged, if `padded_length_ok` is false for `m`, or
/// if the buffer is not 8 bytes longer than `m` rounded up to a multiple of 8.
pub fn wrap_padded_in_place<B: BlockPair>(
    meter: &mut Meter<B>,
    buf: &mut [u8],
    m: usize,
) -> Result<(), InPlaceFault>
    ensures wraps { Wrapping (IsPaddedRoom m (length buf.old)) AgreedForm.Padded
        (B.encrypted meter.old.pair) (key_in m buf.old) buf.old buf.new result }
    ensures calls { CountsCalls (block_calls (length buf.old)) meter.old meter.new result }
{
    if !padded_length_ok(m) || buf.len() != text_len(m) {
        return Err(InPlaceFault::BadLength);
    }
    buf[WORD + m..].fill(0);
    wrap_buffer(meter, padded_iv(m), buf);
    Ok(())
}

/// Unwraps the padded wrapping in the buffer, which becomes 8 zero bytes, the key, and zero bytes
/// to the end (RFC 5649, section 4.2). Returns the length of the key.
///
/// `BadLength`, with the buffer and the meter unchanged, if `padded_text_length_ok` is false for
/// the buffer's length. `Integrity` if the buffer is not a valid padded wrapping; then every byte of
/// it becomes zero, and the meter counts as many calls as for a key.
pub fn unwrap_padded_in_place<B: BlockPair>(
    meter: &mut Meter<B>,
    buf: &mut [u8],
) -> Result<usize, InPlaceFault>
    ensures unwraps { Unwrapping (IsPaddedTextLength (length buf.old)) AgreedForm.Padded
        (B.encrypted meter.old.pair) buf.old (λ m. key_in m buf.new) result }

    // A wrapping is not refused.
    ensures accepts { (key : List ℕ) → Padded (B.encrypted meter.old.pair) key buf.old
        → IsOk result }
    ensures key { IfOk result (λ m.
        IsKeyBuffer (replicate 8 0) (key_in m buf.new) m buf.new) }
    ensures refused { KeepsOrClears buf.old buf.new result }
    ensures calls { CountsCalls (block_calls (length buf.old)) meter.old meter.new result }
{
    if !padded_text_length_ok(buf.len()) {
        return Err(InPlaceFault::BadLength);
    }
    let c0 = take_first(buf);
    unwrap_padded_registers(meter, c0, &mut buf[WORD..])
}

// The first word of a text, which becomes zeros.
pub(crate) fn take_first(buf: &mut [u8]) -> u64
    requires { 8 ≤ length buf.old }
    ensures first { word_bytes result ≡ take 8 buf.old }
    ensures cleared { buf.new ≡ replicate 8 0 ++ drop 8 buf.old }
{
    let first = BigEndian::read_u64(buf);
    buf[..WORD].fill(0);
    first
}
