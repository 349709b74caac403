//! The plain calls from one of the caller's buffers into another, under an initial value that both
//! ends agreed on. They take no memory.

ghost use Rattle.std.specs.Prelude.{length};
ghost use Rattle.key_wrap_core.specs.BlockCalls.{block_calls};
ghost use Rattle.key_wrap_core.specs.Unwrapping.{Unwrapping};
ghost use Rattle.key_wrap_core.specs.BufferCalls.{Wrapping, KeepsOrClears, CountsCalls};
ghost use Rattle.key_wrap_core.specs.InPlace.{ArePlainLengths};

use crate::agreed_form::AgreedForm;
use crate::faults::InPlaceFault;
use crate::found::wrap_buffer;
use crate::initial_value::InitialValue;
use crate::lengths::{WORD, key_length_ok, text_length_ok};
use crate::unwrapping::unwrap_registers;
use block_pair::{BlockPair, Meter};
use byteorder::{BigEndian, ByteOrder};

/// Writes the plain wrapping of `key` under this initial value into `text` (RFC 3394, sections
/// 2.2.1 and 2.2.3.2).
///
/// `BadLength`, with `text` and the meter unchanged, if `key_length_ok` is false for the key's
/// length, or if `text` is not 8 bytes longer than the key.
pub fn wrap_into_with<B: BlockPair>(
    meter: &mut Meter<B>,
    iv: &InitialValue,
    key: &[u8],
    text: &mut [u8],
) -> Result<(), InPlaceFault>
    ensures wraps { Wrapping (ArePlainLengths (length key.now) (length text.old))
        (AgreedForm.Plain iv.now) (B.encrypted meter.old.pair) key.now text.old text.new result }
    ensures calls { CountsCalls (block_calls (length text.old)) meter.old meter.new result }
{
    if !key_length_ok(key.len()) || text.len() != key.len() + WORD {
        return Err(InPlaceFault::BadLength);
    }
    text[WORD..].copy_from_slice(key);
    wrap_buffer(meter, iv.word(), text);
    Ok(())
}

/// Writes the key whose plain wrapping under this initial value is `text` into `key` (RFC 3394,
/// sections 2.2.2 and 2.2.3.2).
///
/// `BadLength`, with the key's buffer and the meter unchanged, if `text_length_ok` is false for
/// `text`'s length, or if the key's buffer is not 8 bytes shorter. `Integrity` if `text` is not a
/// valid plain wrapping under this initial value; then every byte of the key's buffer becomes
/// zero, and the meter counts as many calls as for a key.
pub fn unwrap_into_with<B: BlockPair>(
    meter: &mut Meter<B>,
    iv: &InitialValue,
    text: &[u8],
    key: &mut [u8],
) -> Result<(), InPlaceFault>
    ensures unwraps { Unwrapping (ArePlainLengths (length key.old) (length text.now))
        (AgreedForm.Plain iv.now) (B.encrypted meter.old.pair) text.now (λ _. key.new) result }
    ensures refused { KeepsOrClears key.old key.new result }
    ensures calls { CountsCalls (block_calls (length text.now)) meter.old meter.new result }
{
    if !text_length_ok(text.len()) || key.len() != text.len() - WORD {
        return Err(InPlaceFault::BadLength);
    }
    key.copy_from_slice(&text[WORD..]);
    unwrap_registers(meter, iv.word(), BigEndian::read_u64(text), key)
}
