//! The unwrapping of a key in whichever form it is wrapped, in the caller's buffers. It takes no
//! memory.

ghost use Rattle.std.specs.Prelude.{ℕ, List, [], length, take, replicate, IfOk, IsOk};
ghost use Rattle.key_wrap_core.specs.declared.forms.Form.{Form};
ghost use Rattle.key_wrap_core.specs.Lengths.{IsPaddedTextLength};
ghost use Rattle.key_wrap_core.specs.BlockCalls.{block_calls};
ghost use Rattle.key_wrap_core.specs.Forms.{IsWrappingWithIv};
ghost use Rattle.key_wrap_core.specs.InPlace.{ArePaddedLengths, key_in};
ghost use Rattle.key_wrap_core.specs.BufferCalls.{UnwrappingEither, KeepsOrClears, IsKeyBuffer, CountsCalls};

use crate::faults::InPlaceFault;
use crate::forms::FoundKey;
use crate::in_place::take_first;
use crate::initial_value::InitialValue;
use crate::lengths::{WORD, padded_text_length_ok};
use crate::unwrapping::unwrap_any_registers;
use block_pair::{BlockPair, Meter};
use byteorder::{BigEndian, ByteOrder};

/// Unwraps the wrapped key in the buffer, in whichever form it is: the plain one with this initial
/// value, or the padded one. No wrapped key has both. The buffer becomes 8 zero bytes, the key, and
/// zero bytes to the end. Returns the form and the length of the key.
///
/// `BadLength`, with the buffer and the meter unchanged, if the buffer's length is legal in neither
/// form. `Integrity` if the buffer is not a valid wrapped key in either form. Then every byte of it
/// becomes zero, and the meter counts as many calls as for a key.
pub fn unwrap_any_in_place<B: BlockPair>(
    meter: &mut Meter<B>,
    iv: &InitialValue,
    buf: &mut [u8],
) -> Result<FoundKey, InPlaceFault>
    ensures unwraps { UnwrappingEither (IsPaddedTextLength (length buf.old)) iv.now
        (B.encrypted meter.old.pair) buf.old (λ found. key_in found.len buf.new) result }

    // A wrapping in either form is not refused.
    ensures accepts { (form : Form) → (key : List ℕ)
        → IsWrappingWithIv form iv.now (B.encrypted meter.old.pair) key buf.old → IsOk result }
    ensures key { IfOk result (λ found.
        IsKeyBuffer (replicate 8 0) (key_in found.len buf.new) found.len buf.new) }
    ensures refused { KeepsOrClears buf.old buf.new result }
    ensures calls { CountsCalls (block_calls (length buf.old)) meter.old meter.new result }
{
    if !padded_text_length_ok(buf.len()) {
        return Err(InPlaceFault::BadLength);
    }
    let c0 = take_first(buf);
    unwrap_any_registers(meter, iv.word(), c0, &mut buf[WORD..])
}

/// Writes the key whose wrapping is `text`, in whichever form, into `key`, and zero bytes to the
/// end of the buffer. The plain form has this initial value. Returns the form and the length of the
/// key.
///
/// `BadLength`, with the key's buffer and the meter unchanged, if the length of `text` is legal in
/// neither form, or if the key's buffer is not 8 bytes shorter. `Integrity` if `text` is not a valid
/// wrapped key in either form. Then every byte of the key's buffer becomes zero, and the meter counts
/// as many calls as for a key.
pub fn unwrap_any_into<B: BlockPair>(
    meter: &mut Meter<B>,
    iv: &InitialValue,
    text: &[u8],
    key: &mut [u8],
) -> Result<FoundKey, InPlaceFault>
    ensures unwraps { UnwrappingEither (ArePaddedLengths (length key.old) (length text.now)) iv.now
        (B.encrypted meter.old.pair) text.now (λ found. take found.len key.new) result }
    ensures key { IfOk result (λ found.
        IsKeyBuffer [] (take found.len key.new) found.len key.new) }
    ensures refused { KeepsOrClears key.old key.new result }
    ensures calls { CountsCalls (block_calls (length text.now)) meter.old meter.new result }
{
    if !padded_text_length_ok(text.len()) || key.len() != text.len() - WORD {
        return Err(InPlaceFault::BadLength);
    }
    key.copy_from_slice(&text[WORD..]);
    unwrap_any_registers(meter, iv.word(), BigEndian::read_u64(text), key)
}
