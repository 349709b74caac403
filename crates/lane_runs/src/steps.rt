//! All steps of many wrappings or unwrappings of one length, over their blocks side by side.

ghost use Rattle.std.specs.Prelude.{ℕ, ◌/◌, ◌<◌, List, length};
ghost use Rattle.key_wrap_core.specs.BlockCalls.{block_calls};
ghost use Rattle.key_wrap_core.specs.Steps.{WrapState, UnwrapState};
ghost use Rattle.key_wrap_lanes.specs.Lanes.{AreLanes, block_at, registers_at};

use block_lanes::BlockLanes;
use key_wrap_core::{WORD, step_count};
use key_wrap_lanes::{step_unwrap_many, step_wrap_many};

// Makes all steps of wrappings that have begun.
pub(crate) fn make_steps<B: BlockLanes>(
    pair: &B,
    texts: &mut [u8],
    text_len: usize,
    blocks: &mut [u8],
)
    requires { AreLanes text_len texts.old blocks.old }
    ensures { (i : ℕ) → i < length blocks.old / 16 → (iv : ℕ) (key : List ℕ)
        → WrapState (B.encrypted pair.now) iv key 0
        (registers_at text_len i texts.old) (block_at i blocks.old)
        → WrapState (B.encrypted pair.now) iv key (block_calls text_len)
        (registers_at text_len i texts.new) (block_at i blocks.new) }
{
    let mut done = 0;
    for _step in 0..step_count(text_len - WORD) {
        pair.encrypt_many(blocks);
        let _stepped = step_wrap_many(texts, text_len, &mut done, blocks);
    }
}

// Undoes all steps of unwrappings that have begun.
pub(crate) fn undo_steps<B: BlockLanes>(
    pair: &B,
    texts: &mut [u8],
    text_len: usize,
    blocks: &mut [u8],
)
    requires { AreLanes text_len texts.old blocks.old }
    ensures { (i : ℕ) → i < length blocks.old / 16 → (text : List ℕ)
        → UnwrapState (B.encrypted pair.now) text (block_calls text_len)
        (registers_at text_len i texts.old) (block_at i blocks.old)
        → UnwrapState (B.encrypted pair.now) text 0
        (registers_at text_len i texts.new) (block_at i blocks.new) }
{
    let mut left = step_count(text_len - WORD);
    for _step in 0..left {
        pair.decrypt_many(blocks);
        let _stepped = step_unwrap_many(texts, text_len, &mut left, blocks);
    }
}
