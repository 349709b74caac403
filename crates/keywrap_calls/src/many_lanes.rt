//! The calls for many keys over an AES of many blocks at once: the keys are wrapped side by side.

ghost use Rattle.std.specs.Prelude.{◌≡◌, ◌+◌, ◌*◌, ◌≤◌, ◌<◌, ℕ, List, length, pos, slice_index, All};
ghost use Rattle.key_wrap_core.specs.Lengths.{IsPlainTextLength};
ghost use Rattle.keywrap_calls.specs.Keks.{IsKek, aes_of};
ghost use Rattle.keywrap_calls.specs.Many.{FindsMany, FindsSlot, IsKeySlot, RewrapsMany, RewrapsSlot};
ghost use Rattle.keywrap_calls.specs.Many.{UnwrapsMany, UnwrapsSlot, WrapsMany, WrapsSlot, slot_at};
ghost use Rattle.keywrap_calls.specs.Rewraps.{AreKeks, Requests};
ghost use Rattle.keywrap_calls.specs.Status.{IsDone};

use crate::keks::aes_of;
use crate::many_kinds::{are_kind_slots, kind_slots};
use crate::many_rewraps::{rewrap_slots, rewrap_slots_of};
use crate::many_wraps::{unwrap_slots, unwrap_slots_of, wrap_slots, wrap_slots_of};
use crate::status::{BAD_KEK, BAD_LENGTH, DONE};
use block_lanes::BlockLanes;
use fips197::KeyInit;
use key_wrap_core::Form;
use key_wrap_steps::RewrapRequest;
use lane_runs::{MAX_COPIED, kind_texts, rewrap_texts, unwrap_texts, wrap_texts};

// The length of a padded wrapped key of one word, which is one block. It is not wrapped side by side.
const ONE_WORD_TEXT: usize = 16;

/// Does what `wrap_many` does, the keys side by side.
pub fn wrap_many_lanes<A: KeyInit + BlockLanes>(
    schedule: A::Schedule,
    kek: &[u8],
    texts: &mut [u8],
    key_len: usize,
    flags: u32,
    statuses: &mut [u8],
) -> i32
    ensures { WrapsMany (aes_of kek.now)
        kek.now key_len flags texts.old texts.new statuses.old statuses.new result }
{
    let Some(aes) = aes_of::<A>(kek, schedule) else {
        return BAD_KEK;
    };
    let Some((form, len)) = wrap_slots_of(flags, key_len, texts.len(), statuses.len()) else {
        return BAD_LENGTH;
    };
    if len == ONE_WORD_TEXT {
        wrap_slots(&aes, form, key_len, len, texts, statuses);
    } else {
        wrap_side_by_side(&aes, form, key_len, len, texts, statuses);
    }
    DONE
}

// Wraps the key in each slot of `len` bytes. No length is illegal, so no slot is refused.
#[inline(never)]
fn wrap_side_by_side<B: BlockLanes>(
    pair: &B,
    form: Form,
    key_len: usize,
    len: usize,
    texts: &mut [u8],
    statuses: &mut [u8],
)
    requires legal { IsPlainTextLength len }
    requires key { IsKeySlot form key_len len }
    requires slots { length texts.old ≡ len * length statuses.old }
    ensures { (kek : List ℕ) → IsKek kek → (i : ℕ) → i < length statuses.old
        → WrapsSlot form (B.encrypted pair.now) kek key_len
        (slot_at len i texts.old) (slot_at len i texts.new) (pos (slice_index statuses.new i)) }
{
    wrap_texts(pair, form, key_len, texts, len, statuses.len());
    statuses.fill(0);
}

/// Does what `unwrap_many` does, the keys side by side.
pub fn unwrap_many_lanes<A: KeyInit + BlockLanes>(
    schedule: A::Schedule,
    kek: &[u8],
    texts: &mut [u8],
    flags: u32,
    key_lens: &mut [usize],
    statuses: &mut [u8],
) -> i32
    ensures { UnwrapsMany (aes_of kek.now) kek.now flags texts.old texts.new
        key_lens.old key_lens.new statuses.old statuses.new result }
{
    let Some(aes) = aes_of::<A>(kek, schedule) else {
        return BAD_KEK;
    };
    let count = statuses.len();
    let Some((form, len)) = unwrap_slots_of(flags, texts.len(), count, key_lens.len()) else {
        return BAD_LENGTH;
    };
    if len == ONE_WORD_TEXT {
        unwrap_slots(&aes, form, len, texts, key_lens, statuses);
    } else {
        unwrap_side_by_side(&aes, form, len, texts, key_lens, statuses);
    }
    DONE
}

// Unwraps each slot of `len` bytes.
#[inline(never)]
fn unwrap_side_by_side<B: BlockLanes>(
    pair: &B,
    form: Form,
    len: usize,
    texts: &mut [u8],
    key_lens: &mut [usize],
    statuses: &mut [u8],
)
    requires legal { IsPlainTextLength len }
    requires slots { length texts.old ≡ len * length statuses.old }
    requires lens { length key_lens.old ≡ length statuses.old }
    ensures { (kek : List ℕ) → IsKek kek → (i : ℕ) → i < length statuses.old
        → UnwrapsSlot form (B.encrypted pair.now) kek (slot_at len i texts.old)
        (slot_at len i texts.new) (slice_index key_lens.new i) (pos (slice_index statuses.new i)) }
{
    unwrap_texts(pair, form, texts, len, key_lens, statuses);
}

/// Does what `kind_many` does, the wrapped keys side by side.
pub fn kind_many_lanes<A: KeyInit + BlockLanes>(
    schedule: A::Schedule,
    kek: &[u8],
    texts: &[u8],
    scratch: &mut [u8],
    forms: &mut [u8],
    key_lens: &mut [usize],
    statuses: &mut [u8],
) -> i32
    ensures finds { FindsMany (aes_of kek.now) kek.now texts.now scratch.old scratch.new
        forms.old forms.new key_lens.old key_lens.new statuses.old statuses.new result }
    ensures cleared { IsDone result → All (λ byte. byte ≡ 0) scratch.new }
{
    let Some(aes) = aes_of::<A>(kek, schedule) else {
        return BAD_KEK;
    };
    if !are_kind_slots(
        texts.len(),
        scratch.len(),
        forms.len(),
        key_lens.len(),
        statuses.len(),
    ) {
        return BAD_LENGTH;
    }
    let len = scratch.len() + 8;
    if len == ONE_WORD_TEXT || len > MAX_COPIED {
        kind_slots(&aes, texts, scratch, forms, key_lens, statuses);
    } else {
        kind_side_by_side(&aes, texts, scratch, forms, key_lens, statuses);
    }
    DONE
}

// Finds the form and the length in each slot.
#[inline(never)]
fn kind_side_by_side<B: BlockLanes>(
    pair: &B,
    texts: &[u8],
    scratch: &mut [u8],
    forms: &mut [u8],
    key_lens: &mut [usize],
    statuses: &mut [u8],
)
    requires legal { IsPlainTextLength (length scratch.old + 8) }
    requires short { length scratch.old + 8 ≤ 264 }
    requires slots { length texts.now ≡ (length scratch.old + 8) * length statuses.old }
    requires forms { length forms.old ≡ length statuses.old }
    requires lens { length key_lens.old ≡ length statuses.old }
    ensures finds { (kek : List ℕ) → IsKek kek → (i : ℕ) → i < length statuses.old
        → FindsSlot (B.encrypted pair.now) kek (slot_at (length scratch.old + 8) i texts.now)
        (slice_index forms.new i) (slice_index key_lens.new i) (pos (slice_index statuses.new i)) }
    ensures cleared { All (λ byte. byte ≡ 0) scratch.new }
{
    kind_texts(pair, texts, scratch.len() + 8, forms, key_lens, statuses);
    scratch.fill(0);
}

/// Does what `rewrap_many` does, the wrapped keys side by side.
pub fn rewrap_many_lanes<A: KeyInit + BlockLanes>(
    schedules: (A::Schedule, A::Schedule),
    old_kek: &[u8],
    new_kek: &[u8],
    texts: &mut [u8],
    flags: u32,
    statuses: &mut [u8],
) -> i32
    ensures { RewrapsMany (aes_of old_kek.now) (aes_of new_kek.now)
        old_kek.now new_kek.now flags texts.old texts.new statuses.old statuses.new result }
{
    let Some(old) = aes_of::<A>(old_kek, schedules.0) else {
        return BAD_KEK;
    };
    let Some(new) = aes_of::<A>(new_kek, schedules.1) else {
        return BAD_KEK;
    };
    let Some((request, len)) = rewrap_slots_of(flags, texts.len(), statuses.len()) else {
        return BAD_LENGTH;
    };
    if len == ONE_WORD_TEXT || len > MAX_COPIED {
        rewrap_slots(&old, &new, &request, len, texts, statuses);
    } else {
        rewrap_side_by_side(&old, &new, &request, len, texts, statuses);
    }
    DONE
}

// Rewraps each slot of `len` bytes. Not inlined, its frame lies over what the making of the key
// schedules left on the stack.
#[inline(never)]
fn rewrap_side_by_side<O: BlockLanes, N: BlockLanes>(
    old: &O,
    new: &N,
    request: &RewrapRequest,
    len: usize,
    texts: &mut [u8],
    statuses: &mut [u8],
)
    requires legal { IsPlainTextLength len }
    requires short { len ≤ 264 }
    requires slots { length texts.old ≡ len * length statuses.old }
    ensures { (old_kek new_kek : List ℕ) (flags : ℕ) → AreKeks old_kek new_kek → Requests flags request.now
        → (i : ℕ) → i < length statuses.old
        → RewrapsSlot (O.encrypted old.now) (N.encrypted new.now) old_kek new_kek flags
        (slot_at len i texts.old) (slot_at len i texts.new) (slice_index statuses.new i) }
{
    rewrap_texts(old, new, request, texts, len, statuses);
}
