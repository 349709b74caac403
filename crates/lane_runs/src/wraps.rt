//! Whole wrappings of many keys.

ghost use Rattle.std.specs.Prelude.{◌≡◌, ℕ, List, ◌*◌, ◌/◌, ◌<◌, length, take, drop};
ghost use Rattle.key_wrap_core.specs.Forms.{IsDefaultWrapping};
ghost use Rattle.key_wrap_core.specs.InPlace.{IsPaddedRoom, key_in};
ghost use Rattle.key_wrap_core.specs.Lengths.{IsPlainTextLength};
ghost use Rattle.key_wrap_core.specs.Plain.{Plain};
ghost use Rattle.key_wrap_core.specs.Padded.{Padded, aiv, padded};
ghost use Rattle.key_wrap_core.specs.Steps.{WrapState};
ghost use Rattle.key_wrap_lanes.specs.Lanes.{AreLanes, block_at, part_at, registers_at};
ghost use Rattle.lane_runs.specs.Texts.{IsKeyRoom};

use crate::LANES;
use crate::steps::make_steps;
use block_lanes::{BLOCK, BlockLanes};
use key_wrap_core::{Form, InitialValue, WORD, step_count};
use key_wrap_lanes::{begin_wrap_many, end_wrap_many};
use key_wrap_steps::begin_wrap_padded;

/// Wraps the key of `key_len` bytes after the first 8 bytes of each of `count` texts, in this form
/// under the default initial value, into the whole text.
pub fn wrap_texts<B: BlockLanes>(
    pair: &B,
    form: Form,
    key_len: usize,
    texts: &mut [u8],
    text_len: usize,
    count: usize,
)
    requires legal { IsPlainTextLength text_len }
    requires room { IsKeyRoom form key_len text_len }
    requires whole { length texts.old ≡ text_len * count }
    ensures { (i : ℕ) → i < count → IsDefaultWrapping form (B.encrypted pair.now)
        (key_in key_len (part_at text_len i texts.old)) (part_at text_len i texts.new) }
{
    let mut blocks = [0; BLOCK * LANES];
    for batch in 0..count / LANES + 1 {
        let first = LANES * batch;
        let last = count.min(first + LANES);
        let lanes = &mut texts[text_len * first..text_len * last];
        wrap_batch(
            pair,
            form,
            key_len,
            lanes,
            text_len,
            &mut blocks[..BLOCK * (last - first)],
        );
    }
}

// Wraps the key in each text of a batch.
fn wrap_batch<B: BlockLanes>(
    pair: &B,
    form: Form,
    key_len: usize,
    texts: &mut [u8],
    text_len: usize,
    blocks: &mut [u8],
)
    requires lanes { AreLanes text_len texts.old blocks.old }
    requires room { IsKeyRoom form key_len text_len }
    ensures { (i : ℕ) → i < length blocks.old / 16
        → IsDefaultWrapping form (B.encrypted pair.now)
        (key_in key_len (part_at text_len i texts.old)) (part_at text_len i texts.new) }
{
    match form {
        Form::Plain => wrap_lanes(pair, &InitialValue::default(), texts, text_len, blocks),
        Form::Padded => wrap_padded_lanes(pair, key_len, texts, text_len, blocks),
    }
}

// Wraps the key after the first 8 bytes of each text, in the plain form under this initial value,
// into the whole text.
fn wrap_lanes<B: BlockLanes>(
    pair: &B,
    iv: &InitialValue,
    texts: &mut [u8],
    text_len: usize,
    blocks: &mut [u8],
)
    requires { AreLanes text_len texts.old blocks.old }
    ensures { (i : ℕ) → i < length blocks.old / 16
        → Plain (B.encrypted pair.now) iv.now
        (registers_at text_len i texts.old) (part_at text_len i texts.new) }
{
    let mut done = 0;
    let _begun = begin_wrap_many(iv, texts, text_len, &mut done, blocks);
    make_steps(pair, texts, text_len, blocks);
    let all = step_count(text_len - WORD);
    let _ended = end_wrap_many(texts, text_len, all, blocks);
}

// Wraps the key of `key_len` bytes after the first 8 bytes of each text, in the padded form, into
// the whole text.
fn wrap_padded_lanes<B: BlockLanes>(
    pair: &B,
    key_len: usize,
    texts: &mut [u8],
    text_len: usize,
    blocks: &mut [u8],
)
    requires lanes { AreLanes text_len texts.old blocks.old }
    requires room { IsPaddedRoom key_len text_len }
    ensures { (i : ℕ) → i < length blocks.old / 16
        → Padded (B.encrypted pair.now)
        (take key_len (registers_at text_len i texts.old)) (part_at text_len i texts.new) }
{
    pad_lanes(key_len, texts, text_len, blocks);
    make_steps(pair, texts, text_len, blocks);
    let all = step_count(text_len - WORD);
    let _ended = end_wrap_many(texts, text_len, all, blocks);
}

// Pads each key, and begins its padded wrapping.
fn pad_lanes(key_len: usize, texts: &mut [u8], text_len: usize, blocks: &mut [u8])
    requires lanes { AreLanes text_len texts.old blocks.old }
    requires room { IsPaddedRoom key_len text_len }
    ensures { (i : ℕ) → i < length blocks.old / 16 → (E : List ℕ → List ℕ)
        → WrapState E (aiv key_len) (padded (take key_len (registers_at text_len i texts.old))) 0
        (registers_at text_len i texts.new) (block_at i blocks.new) }
{
    for lane in 0..blocks.len() / BLOCK {
        let start = text_len * lane;
        let place = BLOCK * lane;
        pad_lane(
            key_len,
            &mut texts[start..start + text_len],
            &mut blocks[place..place + BLOCK],
        );
    }
}

// Pads one key, and begins its padded wrapping.
fn pad_lane(key_len: usize, text: &mut [u8], block: &mut [u8])
    requires room { IsPaddedRoom key_len (length text.old) }
    requires sixteen { length block.old ≡ 16 }
    ensures { (E : List ℕ → List ℕ)
        → WrapState E (aiv key_len) (padded (take key_len (drop 8 text.old))) 0
        (drop 8 text.new) block.new }
{
    let (mut done, mut first) = (0, [0; 16]);
    let _begun = begin_wrap_padded(key_len, &mut text[WORD..], &mut done, &mut first);
    block.copy_from_slice(&first);
}
