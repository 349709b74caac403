//! The lengths of lanes, and the numbers of their steps.

ghost use Rattle.std.specs.Prelude.{◌≡◌, ◌↔◌, ◌+◌, ◌-◌, ◌*◌, ◌/◌, ◌%◌, ◌<◌, IsTrue};
ghost use Rattle.key_wrap_core.specs.Lengths.{IsPlainTextLength};
ghost use Rattle.key_wrap_core.specs.BlockCalls.{block_calls};

use key_wrap_core::{WORD, step_count, text_length_ok};

// The bytes of a block.
pub(crate) const BLOCK: usize = 16;

// Whether buffers of these lengths are texts of `text_len` bytes, and a block for each.
pub(crate) fn lanes_ok(text_len: usize, texts: usize, blocks: usize) -> bool
    ensures { IsTrue result ↔ (IsPlainTextLength text_len × (blocks % 16 ≡ 0)
        × (texts ≡ text_len * (blocks / 16))) }
{
    text_length_ok(text_len) && blocks % BLOCK == 0 && are_parts(texts, text_len, blocks / BLOCK)
}

// Whether `len` bytes are as many parts of `n` bytes.
fn are_parts(len: usize, n: usize, count: usize) -> bool
    ensures { IsTrue result ↔ (len ≡ n * count) }
{
    match n.checked_mul(count) {
        Some(all) => all == len,
        None => false,
    }
}

// The number of steps of each lane.
pub(crate) fn lane_steps(text_len: usize) -> u64
    requires { IsPlainTextLength text_len }
    ensures calls { result ≡ block_calls text_len }
    ensures number { result ≡ 6 * (text_len / 8 - 1) }
{
    step_count(text_len - WORD)
}
