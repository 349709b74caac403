//! In which forms many keys were wrapped.

ghost use Rattle.std.specs.Prelude.{◌≡◌, ◌*◌, ◌+◌, ◌<◌, ℕ, List, length, pos, slice_index, All, IsTrue, ◌↔◌};
ghost use Rattle.key_wrap_core.specs.Lengths.{IsPaddedTextLength};
ghost use Rattle.keywrap_calls.specs.Keks.{IsKek, aes_of};
ghost use Rattle.keywrap_calls.specs.Status.{IsDone};
ghost use Rattle.keywrap_calls.specs.Many.{slot_at, AreKindSlots, FindsSlot, FindsMany};

use crate::keks::aes_of;
use crate::kinds::kind_under;
use crate::many_slots::{slot_len, status_byte};
use crate::status::{BAD_KEK, BAD_LENGTH, DONE};
use block_pair::BlockPair;
use fips197::KeyInit;
use key_wrap_core::padded_text_length_ok;

/// Finds, as `kind` does, the form of the wrapped key in each slot of `texts`, and the length of
/// its key: as many slots of one length as there are `forms`, `key_lens` and `statuses`. A form is
/// 0, or 1 for the padded form. `scratch` is 8 bytes shorter than a slot, and zero afterwards.
///
/// A refusal of the call leaves the buffers as they were.
pub fn kind_many<A: KeyInit>(
    schedule: A::Schedule,
    kek: &[u8],
    texts: &[u8],
    scratch: &mut [u8],
    forms: &mut [u8],
    key_lens: &mut [usize],
    statuses: &mut [u8],
) -> i32
    ensures finds { FindsMany (aes_of kek.now) kek.now texts.now scratch.old scratch.new
        forms.old forms.new key_lens.old key_lens.new statuses.old statuses.new result }
    ensures cleared { IsDone result → All (λ byte. byte ≡ 0) scratch.new }
{
    let Some(aes) = aes_of::<A>(kek, schedule) else {
        return BAD_KEK;
    };
    if !are_kind_slots(
        texts.len(),
        scratch.len(),
        forms.len(),
        key_lens.len(),
        statuses.len(),
    ) {
        return BAD_LENGTH;
    }
    kind_slots(&aes, texts, scratch, forms, key_lens, statuses);
    DONE
}

// Whether the lengths of the buffers are legal.
pub(crate) fn are_kind_slots(
    len: usize,
    room: usize,
    forms: usize,
    key_lens: usize,
    count: usize,
) -> bool
    ensures is { IsTrue result ↔ AreKindSlots len room forms key_lens count }
    ensures fills { IsTrue result → len ≡ (room + 8) * count }
{
    match slot_len(len, count) {
        Some(n) => {
            padded_text_length_ok(n) && n - 8 == room && forms == count && key_lens == count
        }
        None => false,
    }
}

// Finds the form and the length in each slot.
#[inline(never)]
pub(crate) fn kind_slots<B: BlockPair>(
    pair: &B,
    texts: &[u8],
    scratch: &mut [u8],
    forms: &mut [u8],
    key_lens: &mut [usize],
    statuses: &mut [u8],
)
    requires legal { IsPaddedTextLength (length scratch.old + 8) }
    requires some { 0 < length statuses.old }
    requires slots { length texts.now ≡ (length scratch.old + 8) * length statuses.old }
    requires forms { length forms.old ≡ length statuses.old }
    requires lens { length key_lens.old ≡ length statuses.old }
    ensures finds { (kek : List ℕ) → IsKek kek → (i : ℕ) → i < length statuses.old
        → FindsSlot (B.encrypted pair.now) kek (slot_at (length scratch.old + 8) i texts.now)
        (slice_index forms.new i) (slice_index key_lens.new i) (pos (slice_index statuses.new i)) }
    ensures cleared { All (λ byte. byte ≡ 0) scratch.new }
{
    let len = scratch.len() + 8;
    for slot in 0..statuses.len() {
        let start = len * slot;
        let mut padded = 0;
        let mut key_len = 0;
        let text = &texts[start..start + len];
        let status = kind_under(pair, text, scratch, &mut padded, &mut key_len);
        statuses[slot] = status_byte(status);
        forms[slot] = padded as u8;
        key_lens[slot] = key_len;
    }
}
