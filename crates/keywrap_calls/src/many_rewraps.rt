//! Rewrapping many wrapped keys of one length in one buffer.

ghost use Rattle.std.specs.Prelude.{◌≡◌, ◌*◌, ◌/◌, ◌<◌, ℕ, List, length, slice_index, IfSome, IfNone};
ghost use Rattle.keywrap_calls.specs.Keks.{aes_of};
ghost use Rattle.keywrap_calls.specs.Rewraps.{AreKeks, Requests};
ghost use Rattle.keywrap_calls.specs.Many.{AreRewrapSlots, RewrapsMany, RewrapsSlot, slot_at};

use crate::keks::aes_of;
use crate::many_slots::slot_len;
use crate::rewrap_steps::outcome_byte;
use crate::rewrapping::{request_of, rewrap_as};
use crate::status::{BAD_KEK, BAD_LENGTH, DONE};
use block_pair::{BlockPair, Meter};
use fips197::KeyInit;
use key_wrap_core::rewrap_length_ok;
use key_wrap_steps::RewrapRequest;

/// Rewraps, as `rewrap` does, the wrapped key in each slot of `texts`: as many slots of one length
/// as there are `statuses`, each with its status, or with 1 if the wrapped key was under the new
/// KEK already.
///
/// A refused slot is what it was. A refusal of the call leaves both buffers as they were.
pub fn rewrap_many<A: KeyInit>(
    schedules: (A::Schedule, A::Schedule),
    old_kek: &[u8],
    new_kek: &[u8],
    texts: &mut [u8],
    flags: u32,
    statuses: &mut [u8],
) -> i32
    ensures { RewrapsMany (aes_of old_kek.now) (aes_of new_kek.now)
        old_kek.now new_kek.now flags texts.old texts.new statuses.old statuses.new result }
{
    let Some(old) = aes_of::<A>(old_kek, schedules.0) else {
        return BAD_KEK;
    };
    let Some(new) = aes_of::<A>(new_kek, schedules.1) else {
        return BAD_KEK;
    };
    let Some((request, len)) = rewrap_slots_of(flags, texts.len(), statuses.len()) else {
        return BAD_LENGTH;
    };
    rewrap_slots(&old, &new, &request, len, texts, statuses);
    DONE
}

// What the flags request, and the length of each slot, if flags and lengths are legal.
pub(crate) fn rewrap_slots_of(
    flags: u32,
    len: usize,
    count: usize,
) -> Option<(RewrapRequest, usize)>
    ensures some { IfSome result (λ slots. AreRewrapSlots flags len count × Requests flags slots.0
        × (slots.1 ≡ len / count) × (len ≡ slots.1 * count)) }
    ensures none { IfNone result (¬ AreRewrapSlots flags len count) }
{
    let n = slot_len(len, count)?;
    let request = request_of(flags)?;
    if rewrap_length_ok(&request.forms, n) {
        Some((request, n))
    } else {
        None
    }
}

// Rewraps each slot of `len` bytes. Not inlined, its frame lies over what the making of the key
// schedules left on the stack.
#[inline(never)]
pub(crate) fn rewrap_slots<O: BlockPair, N: BlockPair>(
    old: &O,
    new: &N,
    request: &RewrapRequest,
    len: usize,
    texts: &mut [u8],
    statuses: &mut [u8],
)
    requires { length texts.old ≡ len * length statuses.old }
    ensures { (old_kek new_kek : List ℕ) (flags : ℕ) → AreKeks old_kek new_kek → Requests flags request.now
        → (i : ℕ) → i < length statuses.old
        → RewrapsSlot (O.encrypted old.now) (N.encrypted new.now) old_kek new_kek flags
        (slot_at len i texts.old) (slot_at len i texts.new) (slice_index statuses.new i) }
{
    for slot in 0..statuses.len() {
        let start = len * slot;
        statuses[slot] = rewrap_slot(old, new, request, &mut texts[start..start + len]);
    }
}

// Rewraps one wrapped key, and returns its byte.
fn rewrap_slot<O: BlockPair, N: BlockPair>(
    old: &O,
    new: &N,
    request: &RewrapRequest,
    text: &mut [u8],
) -> u8
    ensures { (old_kek new_kek : List ℕ) (flags : ℕ) → AreKeks old_kek new_kek → Requests flags request.now
        → RewrapsSlot (O.encrypted old.now) (N.encrypted new.now) old_kek new_kek flags
        text.old text.new result }
{
    outcome_byte(rewrap_as(&mut Meter::new(old), &mut Meter::new(new), request, text))
}
