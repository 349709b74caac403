//! Whole unwrappings of many texts.

ghost use Rattle.std.specs.Prelude.{◌≡◌, ℕ, ◌*◌, ◌/◌, ◌<◌, length, slice_index, All};
ghost use Rattle.key_wrap_core.specs.Lengths.{IsPlainTextLength};
ghost use Rattle.key_wrap_core.specs.Steps.{UnwrapState};
ghost use Rattle.key_wrap_lanes.specs.Lanes.{AreLanes, block_at, part_at, registers_at};
ghost use Rattle.lane_runs.specs.Texts.{UnwrapsText};

use crate::LANES;
use crate::ends::end_batch;
use crate::steps::undo_steps;
use block_lanes::{BLOCK, BlockLanes};
use key_wrap_core::Form;
use key_wrap_lanes::begin_unwrap_many;

/// Unwraps as many texts as there are statuses, in this form under the default initial value. The
/// status of a text is 0, and it becomes 8 zero bytes, its key and zeros to the end; or it is 5, and
/// the text becomes zeros. The length of each key is in `key_lens`, or 0.
pub fn unwrap_texts<B: BlockLanes>(
    pair: &B,
    form: Form,
    texts: &mut [u8],
    text_len: usize,
    key_lens: &mut [usize],
    statuses: &mut [u8],
)
    requires legal { IsPlainTextLength text_len }
    requires whole { length texts.old ≡ text_len * length statuses.old }
    requires lens { length key_lens.old ≡ length statuses.old }
    ensures { (i : ℕ) → i < length statuses.old → UnwrapsText form (B.encrypted pair.now)
        (part_at text_len i texts.old) (part_at text_len i texts.new)
        (slice_index key_lens.new i) (slice_index statuses.new i) }
{
    let mut blocks = [0; BLOCK * LANES];
    let count = statuses.len();
    for batch in 0..count / LANES + 1 {
        let first = LANES * batch;
        let last = count.min(first + LANES);
        unwrap_batch(
            pair,
            form,
            &mut texts[text_len * first..text_len * last],
            text_len,
            &mut blocks[..BLOCK * (last - first)],
            &mut key_lens[first..last],
            &mut statuses[first..last],
        );
    }
}

// Unwraps each text of a batch. The blocks become zeros.
fn unwrap_batch<B: BlockLanes>(
    pair: &B,
    form: Form,
    texts: &mut [u8],
    text_len: usize,
    blocks: &mut [u8],
    key_lens: &mut [usize],
    statuses: &mut [u8],
)
    requires lanes { AreLanes text_len texts.old blocks.old }
    requires statuses { length statuses.old ≡ length blocks.old / 16 }
    requires lens { length key_lens.old ≡ length blocks.old / 16 }
    ensures unwrapped { (i : ℕ) → i < length blocks.old / 16
        → UnwrapsText form (B.encrypted pair.now)
        (part_at text_len i texts.old) (part_at text_len i texts.new)
        (slice_index key_lens.new i) (slice_index statuses.new i) }
    ensures cleared { All (λ byte. byte ≡ 0) blocks.new }
{
    undo_lanes(pair, texts, text_len, blocks);
    end_batch(form, texts, text_len, blocks, key_lens, statuses);
    blocks.fill(0);
}

// Undoes all steps of each text: no step is left, and its unwrapping has to be ended.
pub(crate) fn undo_lanes<B: BlockLanes>(
    pair: &B,
    texts: &mut [u8],
    text_len: usize,
    blocks: &mut [u8],
)
    requires { AreLanes text_len texts.old blocks.old }
    ensures { (i : ℕ) → i < length blocks.old / 16
        → UnwrapState (B.encrypted pair.now) (part_at text_len i texts.old) 0
        (registers_at text_len i texts.new) (block_at i blocks.new) }
{
    let mut left = 0;
    let _begun = begin_unwrap_many(texts, text_len, &mut left, blocks);
    undo_steps(pair, texts, text_len, blocks);
}
