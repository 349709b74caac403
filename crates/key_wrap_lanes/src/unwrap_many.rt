//! Unwrapping many texts of one length, step by step.

ghost use Rattle.std.specs.Prelude.{◌≡◌, ℕ, ◌+◌, ◌-◌, ◌*◌, ◌/◌, ◌%◌, ◌≤◌, ◌<◌, ◌++◌, List, ◌∷◌, [], length, take, drop};
ghost use Rattle.std.specs.Prelude.{Ok, Err, OnOk, Result, All};
ghost use Rattle.key_wrap_core.specs.Lengths.{IsPlainTextLength};
ghost use Rattle.key_wrap_core.specs.BlockCalls.{block_calls};
ghost use Rattle.key_wrap_core.specs.BufferCalls.{RefusesLength};
ghost use Rattle.key_wrap_core.specs.Steps.{UnwrapState};
ghost use Rattle.key_wrap_core.specs.StepCalls.{IsUnwrapStep};
ghost use Rattle.key_wrap_lanes.specs.Lanes.{AreLanes, IsEnded, part_at, registers_at, block_at};

use crate::lanes::{BLOCK, lane_steps, lanes_ok};
use crate::stepping::step_lanes;
use key_wrap_core::{InPlaceFault, InitialValue, WORD, register_before};
use key_wrap_steps::{begin_unwrap, end_unwrap};

// The status of a lane whose key was found.
const DONE: u8 = 0;

// The status of a lane whose integrity check failed.
const INTEGRITY: u8 = 5;

/// Begins the plain unwrapping of each of many texts: `*left` is the number of steps, and each block
/// the first block to decrypt.
pub fn begin_unwrap_many(
    texts: &[u8],
    text_len: usize,
    left: &mut u64,
    blocks: &mut [u8],
) -> Result<(), InPlaceFault>
    ensures refused { RefusesLength (AreLanes text_len texts.now blocks.old)
        ((left.new ≡ left.old) × (blocks.new ≡ blocks.old)) result }
    ensures all_left { OnOk result (left.new ≡ block_calls text_len) }
    ensures begins { OnOk result ((i : ℕ) → i < length blocks.old / 16 → (E : List ℕ → List ℕ)
        → let text = part_at text_len i texts.now in
        UnwrapState E text left.new (drop 8 text) (block_at i blocks.new)) }
{
    if !lanes_ok(text_len, texts.len(), blocks.len()) {
        return Err(InPlaceFault::BadLength);
    }
    *left = lane_steps(text_len);
    begin_lanes(texts, text_len, blocks);
    Ok(())
}

/// Undoes one step of each of many unwrappings, with its decrypted block. Subtracts 1 from `*left`,
/// and each block is the next block to decrypt. The first 8 bytes of each text stay as they are.
pub fn step_unwrap_many(
    texts: &mut [u8],
    text_len: usize,
    left: &mut u64,
    blocks: &mut [u8],
) -> Result<(), InPlaceFault>
    ensures refused { RefusesLength (AreLanes text_len texts.old blocks.old
        × (1 ≤ left.old) × (left.old ≤ block_calls text_len))
        ((texts.new ≡ texts.old) × (left.new ≡ left.old) × (blocks.new ≡ blocks.old)) result }
    ensures counts { OnOk result (left.old ≡ left.new + 1) }
    ensures firsts { OnOk result ((i : ℕ) → i < length blocks.old / 16
        → take 8 (part_at text_len i texts.new) ≡ take 8 (part_at text_len i texts.old)) }
    ensures steps { OnOk result ((i : ℕ) → i < length blocks.old / 16
        → IsUnwrapStep left.old left.new (registers_at text_len i texts.old)
        (registers_at text_len i texts.new) (block_at i blocks.old) (block_at i blocks.new)) }
{
    if !lanes_ok(text_len, texts.len(), blocks.len())
        || *left == 0
        || *left > lane_steps(text_len)
    {
        return Err(InPlaceFault::BadLength);
    }
    *left -= 1;
    let n = (text_len / WORD - 1) as u32;
    let own = (*left as u32 % n) as usize;
    let next = register_before(own, n as usize);
    step_lanes(texts, text_len, *left, own, next, blocks);
    Ok(())
}

/// Ends many plain unwrappings under this initial value. The status of a text, one byte, is 0, and
/// its registers are the key, or 5, and they are zeros. The first 8 bytes of each text stay as they
/// are. The blocks are zeros.
pub fn end_unwrap_many(
    iv: &InitialValue,
    texts: &mut [u8],
    text_len: usize,
    left: u64,
    blocks: &mut [u8],
    statuses: &mut [u8],
) -> Result<(), InPlaceFault>
    ensures refused { RefusesLength (AreLanes text_len texts.old blocks.old
        × (left ≡ 0) × (length statuses.old ≡ length blocks.old / 16))
        ((texts.new ≡ texts.old) × (blocks.new ≡ blocks.old) × (statuses.new ≡ statuses.old)) result }
    ensures firsts { OnOk result ((i : ℕ) → i < length blocks.old / 16
        → take 8 (part_at text_len i texts.new) ≡ take 8 (part_at text_len i texts.old)) }
    ensures ends { OnOk result ((i : ℕ) → i < length blocks.old / 16
        → IsEnded iv.now (registers_at text_len i texts.old) (block_at i blocks.old)
        (registers_at text_len i texts.new) (part_at 1 i statuses.new)) }
    ensures blocks_cleared { OnOk result (All (λ byte. byte ≡ 0) blocks.new) }
{
    if !lanes_ok(text_len, texts.len(), blocks.len())
        || left != 0
        || statuses.len() != blocks.len() / BLOCK
    {
        return Err(InPlaceFault::BadLength);
    }
    end_lanes(iv, texts, text_len, blocks, statuses);
    blocks.fill(0);
    Ok(())
}

// The first block of each lane.
fn begin_lanes(texts: &[u8], text_len: usize, blocks: &mut [u8])
    requires lanes { AreLanes text_len texts.now blocks.old }
    ensures { (i : ℕ) → i < length blocks.old / 16
        → (E : List ℕ → List ℕ)
        → let text = part_at text_len i texts.now in
        UnwrapState E text (block_calls text_len) (drop 8 text) (block_at i blocks.new) }
{
    for lane in 0..blocks.len() / BLOCK {
        let start = text_len * lane;
        let place = BLOCK * lane;
        let block = begin_lane(&texts[start..start + text_len]);
        blocks[place..place + BLOCK].copy_from_slice(&block);
    }
}

// The first block of a lane.
fn begin_lane(text: &[u8]) -> [u8; 16]
    requires { IsPlainTextLength (length text.now) }
    ensures { (E : List ℕ → List ℕ)
        → UnwrapState E text.now (block_calls (length text.now)) (drop 8 text.now) result }
{
    let mut first = [0; 8];
    first.copy_from_slice(&text[..WORD]);
    let (mut left, mut block) = (0, [0; 16]);
    let _ = begin_unwrap(&first, &text[WORD..], &mut left, &mut block);
    block
}

// Ends each lane.
fn end_lanes(
    iv: &InitialValue,
    texts: &mut [u8],
    text_len: usize,
    blocks: &[u8],
    statuses: &mut [u8],
)
    requires lanes { AreLanes text_len texts.old blocks.now }
    requires each { length statuses.old ≡ length blocks.now / 16 }
    ensures firsts { (i : ℕ) → i < length blocks.now / 16
        → take 8 (part_at text_len i texts.new) ≡ take 8 (part_at text_len i texts.old) }
    ensures ends { (i : ℕ) → i < length blocks.now / 16
        → IsEnded iv.now (registers_at text_len i texts.old) (block_at i blocks.now)
        (registers_at text_len i texts.new) (part_at 1 i statuses.new) }
{
    for lane in 0..statuses.len() {
        let start = text_len * lane;
        let place = BLOCK * lane;
        end_lane(
            iv,
            &mut texts[start..start + text_len],
            &blocks[place..place + BLOCK],
            &mut statuses[lane..lane + 1],
        );
    }
}

// Ends one lane.
fn end_lane(iv: &InitialValue, text: &mut [u8], block: &[u8], status: &mut [u8])
    requires legal { IsPlainTextLength (length text.old) }
    requires sixteen { length block.now ≡ 16 }
    requires one { length status.old ≡ 1 }
    ensures first { take 8 text.new ≡ take 8 text.old }
    ensures ends { IsEnded iv.now (drop 8 text.old) block.now (drop 8 text.new) status.new }
{
    let mut last = [0; 16];
    last.copy_from_slice(block);
    let ended = end_unwrap(iv, &mut text[WORD..], 0, &mut last);
    status.copy_from_slice(&[lane_status(ended)]);
}

// The status of a lane.
fn lane_status(ended: Result<(), InPlaceFault>) -> u8
    ensures done { OnOk ended (result ≡ 0) }
    ensures refused { ended ≡ Err InPlaceFault.Integrity → result ≡ 5 }
{
    match ended {
        Ok(()) => DONE,
        Err(_) => INTEGRITY,
    }
}
