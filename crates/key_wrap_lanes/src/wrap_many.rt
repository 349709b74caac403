//! Wrapping many keys of one length, step by step.

ghost use Rattle.std.specs.Prelude.{◌≡◌, ℕ, ◌+◌, ◌*◌, ◌/◌, ◌%◌, ◌≤◌, ◌<◌, ◌++◌, List, length, take, drop, OnOk};
ghost use Rattle.key_wrap_core.specs.Lengths.{IsPlainKeyLength, IsPlainTextLength, IsPaddedKeyLength};
ghost use Rattle.key_wrap_core.specs.Plain.{Plain};
ghost use Rattle.key_wrap_core.specs.Padded.{Padded, aiv, padded};
ghost use Rattle.key_wrap_core.specs.BlockCalls.{block_calls};
ghost use Rattle.key_wrap_core.specs.BufferCalls.{RefusesLength};
ghost use Rattle.key_wrap_core.specs.Steps.{WrapState};
ghost use Rattle.key_wrap_core.specs.StepCalls.{IsWrapStep};
ghost use Rattle.key_wrap_lanes.specs.Lanes.{AreLanes, part_at, registers_at, block_at};

use crate::lanes::{BLOCK, lane_steps, lanes_ok};
use crate::stepping::step_lanes;
use key_wrap_core::{InPlaceFault, InitialValue, WORD, register_after};
use key_wrap_steps::begin_wrap;

/// Begins the plain wrapping of each of many keys under this initial value: `*done` is 0, and each
/// block the first block to encrypt. Each text contains its key after its first 8 bytes.
pub fn begin_wrap_many(
    iv: &InitialValue,
    texts: &[u8],
    text_len: usize,
    done: &mut u64,
    blocks: &mut [u8],
) -> Result<(), InPlaceFault>
    ensures refused { RefusesLength (AreLanes text_len texts.now blocks.old)
        ((done.new ≡ done.old) × (blocks.new ≡ blocks.old)) result }
    ensures none_done { OnOk result (done.new ≡ 0) }
    ensures begins { OnOk result ((i : ℕ) → i < length blocks.old / 16 → (E : List ℕ → List ℕ)
        → let registers = registers_at text_len i texts.now in
        WrapState E iv.now registers 0 registers (block_at i blocks.new)) }
{
    if !lanes_ok(text_len, texts.len(), blocks.len()) {
        return Err(InPlaceFault::BadLength);
    }
    *done = 0;
    begin_lanes(iv, texts, text_len, blocks);
    Ok(())
}

/// Makes one step of each of many wrappings, with its encrypted block. Adds 1 to `*done`, and each
/// block is the next block to encrypt. The first 8 bytes of each text stay as they are.
pub fn step_wrap_many(
    texts: &mut [u8],
    text_len: usize,
    done: &mut u64,
    blocks: &mut [u8],
) -> Result<(), InPlaceFault>
    ensures refused { RefusesLength
        (AreLanes text_len texts.old blocks.old × (done.old < block_calls text_len))
        ((texts.new ≡ texts.old) × (done.new ≡ done.old) × (blocks.new ≡ blocks.old)) result }
    ensures counts { OnOk result (done.new ≡ done.old + 1) }
    ensures firsts { OnOk result ((i : ℕ) → i < length blocks.old / 16
        → take 8 (part_at text_len i texts.new) ≡ take 8 (part_at text_len i texts.old)) }
    ensures steps { OnOk result ((i : ℕ) → i < length blocks.old / 16
        → IsWrapStep done.old done.new (registers_at text_len i texts.old)
        (registers_at text_len i texts.new) (block_at i blocks.old) (block_at i blocks.new)) }
{
    if !lanes_ok(text_len, texts.len(), blocks.len()) || *done >= lane_steps(text_len) {
        return Err(InPlaceFault::BadLength);
    }
    // In 32 bits, which the processor divides in less time.
    let n = (text_len / WORD - 1) as u32;
    let own = (*done as u32 % n) as usize;
    *done += 1;
    let next = register_after(own, n as usize);
    step_lanes(texts, text_len, *done, own, next, blocks);
    Ok(())
}

/// Ends many wrappings, in either form: each text, with the first 8 bytes of its block before its
/// registers, is the wrapped key.
pub fn end_wrap_many(
    texts: &mut [u8],
    text_len: usize,
    done: u64,
    blocks: &[u8],
) -> Result<(), InPlaceFault>
    ensures refused { RefusesLength (AreLanes text_len texts.old blocks.now × (done ≡ block_calls text_len))
        (texts.new ≡ texts.old) result }
    ensures plain { OnOk result ((i : ℕ) → i < length blocks.now / 16
        → (E : List ℕ → List ℕ) (iv : ℕ) (key : List ℕ) → IsPlainKeyLength (length key)
        → WrapState E iv key done (registers_at text_len i texts.old) (block_at i blocks.now)
        → Plain E iv key (part_at text_len i texts.new)) }
    ensures padded { OnOk result ((i : ℕ) → i < length blocks.now / 16
        → (E : List ℕ → List ℕ) (key : List ℕ) → IsPaddedKeyLength (length key)
        → WrapState E (aiv (length key)) (padded key) done (registers_at text_len i texts.old)
        (block_at i blocks.now)
        → Padded E key (part_at text_len i texts.new)) }
{
    if !lanes_ok(text_len, texts.len(), blocks.len()) || done != lane_steps(text_len) {
        return Err(InPlaceFault::BadLength);
    }
    write_firsts(texts, text_len, blocks);
    Ok(())
}

// The first block of each lane.
fn begin_lanes(iv: &InitialValue, texts: &[u8], text_len: usize, blocks: &mut [u8])
    requires lanes { AreLanes text_len texts.now blocks.old }
    ensures { (i : ℕ) → i < length blocks.old / 16
        → (E : List ℕ → List ℕ)
        → let registers = registers_at text_len i texts.now in
        WrapState E iv.now registers 0 registers (block_at i blocks.new) }
{
    for lane in 0..blocks.len() / BLOCK {
        let start = text_len * lane;
        let place = BLOCK * lane;
        let block = begin_lane(iv, &texts[start..start + text_len]);
        blocks[place..place + BLOCK].copy_from_slice(&block);
    }
}

// The first block of a lane.
fn begin_lane(iv: &InitialValue, text: &[u8]) -> [u8; 16]
    requires { IsPlainTextLength (length text.now) }
    ensures { (E : List ℕ → List ℕ) → WrapState E iv.now (drop 8 text.now) 0 (drop 8 text.now) result }
{
    let (mut done, mut block) = (0, [0; 16]);
    let _ = begin_wrap(iv, &text[WORD..], &mut done, &mut block);
    block
}

// The first bytes of each text.
fn write_firsts(texts: &mut [u8], text_len: usize, blocks: &[u8])
    requires lanes { AreLanes text_len texts.old blocks.now }
    ensures { (i : ℕ) → i < length blocks.now / 16
        → part_at text_len i texts.new
        ≡ take 8 (block_at i blocks.now) ++ registers_at text_len i texts.old }
{
    for lane in 0..blocks.len() / BLOCK {
        let start = text_len * lane;
        let place = BLOCK * lane;
        write_first(
            &mut texts[start..start + text_len],
            &blocks[place..place + BLOCK],
        );
    }
}

// The first bytes of a text are the first bytes of its block.
fn write_first(text: &mut [u8], block: &[u8])
    requires text { 8 ≤ length text.old }
    requires block { length block.now ≡ 16 }
    ensures { text.new ≡ take 8 block.now ++ drop 8 text.old }
{
    text[..WORD].copy_from_slice(&block[..WORD]);
}
