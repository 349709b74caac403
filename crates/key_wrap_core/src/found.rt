//! Wraps a buffer, unwraps one before its form is known, compares what it found with the plain form,
//! and wraps it again if it was refused. No branch depends on the key's length.

ghost use Rattle.std.specs.Prelude.{◌≡◌, ◌↔◌, ◌⊎◌, ◌+◌, ◌++◌, length, drop, IsErr, IsOk};
ghost use Rattle.block_pair.specs.Metered.{counted};
ghost use Rattle.key_wrap_core.specs.Words.{word_bytes};
ghost use Rattle.key_wrap_core.specs.Lengths.{IsPaddedTextLength};
ghost use Rattle.key_wrap_core.specs.PaddedRegisters.{PaddedRegisters};
ghost use Rattle.key_wrap_core.specs.NoKey.{NoKey};
ghost use Rattle.key_wrap_core.specs.BlockCalls.{block_calls};
ghost use Rattle.key_wrap_core.specs.Found.{IsIvAndKey};

use crate::agreed_form::AgreedForm;
use crate::checks::is_zero;
use crate::faults::InPlaceFault;
use crate::lengths::WORD;
use crate::machine::{machine_unwrap, machine_wrap};
use block_pair::{BlockPair, Meter};
use byteorder::{BigEndian, ByteOrder};

// Unwraps C1 .. Cn after the first word of the buffer in place, with no check. Returns the initial value
// found. For two words and more both forms unwrap by the same steps.
#[tactic(auto, using(crate::proofs::InPlaceForm::lent_length, crate::proofs::InPlaceForm::lent_text, crate::proofs::InPlaceForm::registers_now))]
pub(crate) fn unwrap_buffer<B: BlockPair>(meter: &mut Meter<B>, buf: &mut [u8]) -> u64
    requires { IsPaddedTextLength (length buf.old) }
    ensures found { PaddedRegisters (B.encrypted meter.old.pair)
        (word_bytes result ++ drop 8 buf.new) buf.old }
    ensures calls { meter.new ≡ counted (block_calls (length buf.old)) meter.old }
{
    let c0 = BigEndian::read_u64(buf);
    machine_unwrap(meter, c0, &mut buf[WORD..])
}

// Wraps the registers after the first word of the buffer in place, under this initial value: under the
// value with which they were found, the buffer becomes the text again.
#[tactic(auto, using(crate::proofs::InPlaceForm::lent_length, crate::proofs::InPlaceForm::registers_now, crate::proofs::FoundForms::behind_first), unfolding(crate::specs::Words::word_bytes))]
pub(crate) fn wrap_buffer<B: BlockPair>(meter: &mut Meter<B>, iv: u64, buf: &mut [u8])
    requires { IsPaddedTextLength (length buf.old) }
    ensures wrapped { PaddedRegisters (B.encrypted meter.old.pair)
        (word_bytes iv ++ drop 8 buf.old) buf.new }
    ensures calls { meter.new ≡ counted (block_calls (length buf.old)) meter.old }
{
    let c0 = machine_wrap(meter, iv, &mut buf[WORD..]);
    BigEndian::write_u64(buf, c0);
}

// The one decision over a difference: if it is not 0, the registers become the text again. Not
// inlined, so that a tool that follows secrets can name the one place in which control depends on
// them. Returns no `bool`: the compiler would return the comparison itself, and the callers would
// branch on the secret again.
#[inline(never)]
pub(crate) fn decide_or_restore<B: BlockPair>(
    meter: &mut Meter<B>,
    found: u64,
    difference: u64,
    buf: &mut [u8],
) -> Result<(), InPlaceFault>
    requires { IsPaddedTextLength (length buf.old) }
    ensures passes { IsOk result ↔ (difference ≡ 0) }
    ensures kept { IsOk result → buf.new ≡ buf.old }
    ensures meter_kept { IsOk result → meter.new ≡ meter.old }
    ensures restored { IsErr result → PaddedRegisters (B.encrypted meter.old.pair)
        (word_bytes found ++ drop 8 buf.old) buf.new }
    ensures calls { IsErr result → meter.new ≡ counted (block_calls (length buf.old)) meter.old }
{
    if difference == 0 {
        return Ok(());
    }
    wrap_buffer(meter, found, buf);
    Err(InPlaceFault::Integrity)
}

// 0 if the registers are a plain key under the initial value found, which is the expected one. One
// word of key data is wrapped only in the padded form.
#[tactic(auto, using(crate::proofs::FoundForms::one_word, crate::proofs::FoundForms::plain_holds, crate::proofs::FoundForms::plain_differs))]
pub(crate) fn plain_difference(expected: u64, iv: u64, registers: &[u8]) -> u64
    requires { IsPaddedTextLength (8 + length registers.now) }
    ensures passes { result ≡ 0
        → IsIvAndKey (AgreedForm.Plain expected) registers.now (word_bytes iv ++ registers.now) }
    ensures refuses { ¬ (result ≡ 0)
        → NoKey (IsIvAndKey (AgreedForm.Plain expected)) (word_bytes iv ++ registers.now) }
{
    if registers.len() == WORD {
        return 1;
    }
    iv ^ expected
}

// 0 if one of the two is 0, with no branch.
pub(crate) fn either(first: u64, second: u64) -> u64
    ensures { (result ≡ 0) ↔ ((first ≡ 0) ⊎ (second ≡ 0)) }
{
    is_zero(is_zero(first) + is_zero(second))
}
