//! One step of each lane, made or undone.

ghost use Rattle.std.specs.Prelude.{◌≡◌, ℕ, ◌+◌, ◌-◌, ◌*◌, ◌/◌, ◌≤◌, ◌<◌, ◌++◌, List, length, take, drop, bit_xor};
ghost use borrow.Rule.Slice.PartMut.{put_mid};
ghost use Rattle.block_pair.specs.Words.{IsWord};
ghost use Rattle.byteorder.specs.Endian.{big_from};
ghost use Rattle.key_wrap_core.specs.Words.{word_bytes};
ghost use Rattle.key_wrap_core.specs.Lengths.{IsPlainTextLength};
ghost use Rattle.key_wrap_lanes.specs.Lanes.{AreLanes, part_at, block_at};
ghost use Rattle.key_wrap_lanes.specs.LaneStep.{SteppedLane};

use crate::lanes::BLOCK;
use byteorder::{BigEndian, ByteOrder};
use key_wrap_core::WORD;

// Makes or undoes a step of each lane, with the counter and the numbers of the two registers that all
// lanes share.
pub(crate) fn step_lanes(
    texts: &mut [u8],
    text_len: usize,
    counter: u64,
    own: usize,
    next: usize,
    blocks: &mut [u8],
)
    requires lanes { AreLanes text_len texts.old blocks.old }
    requires own { own < text_len / 8 - 1 }
    requires next { next < text_len / 8 - 1 }
    ensures { (i : ℕ) → i < length blocks.old / 16
        → SteppedLane counter own next (part_at text_len i texts.old) (block_at i blocks.old)
        (part_at text_len i texts.new) (block_at i blocks.new) }
{
    for lane in 0..blocks.len() / BLOCK {
        let start = text_len * lane;
        let place = BLOCK * lane;
        step_lane(
            &mut texts[start..start + text_len],
            counter,
            own,
            next,
            &mut blocks[place..place + BLOCK],
        );
    }
}

// Makes or undoes a step of one lane.
#[inline(always)]
fn step_lane(text: &mut [u8], counter: u64, own: usize, next: usize, block: &mut [u8])
    requires legal { IsPlainTextLength (length text.old) }
    requires sixteen { length block.old ≡ 16 }
    requires own { own < length text.old / 8 - 1 }
    requires next { next < length text.old / 8 - 1 }
    ensures { SteppedLane counter own next text.old block.old text.new block.new }
{
    step_lane_registers(&mut text[WORD..], counter, own, next, block);
}

// Makes or undoes a step of these registers. Words are read before they are written: of a copy from
// one slice to another the compiler tests whether the two overlap.
#[inline(always)]
fn step_lane_registers(
    registers: &mut [u8],
    counter: u64,
    own: usize,
    next: usize,
    block: &mut [u8],
)
    requires within { length registers.old ≤ 1048576 }
    requires sixteen { length block.old ≡ 16 }
    requires own { own < length registers.old / 8 }
    requires next { next < length registers.old / 8 }
    ensures word { IsWord (big_from 0 8 block.old) }
    ensures register { registers.new ≡ put_mid (8 * own) 8 registers.old (take 8 (drop 8 block.old)) }
    ensures next_block { block.new ≡ word_bytes (bit_xor (big_from 0 8 block.old) counter)
        ++ take 8 (drop (8 * next) registers.new) }
{
    let a = BigEndian::read_u64(block) ^ counter;
    let half = BigEndian::read_u64(&block[WORD..]);
    let place = WORD * own;
    BigEndian::write_u64(&mut registers[place..place + WORD], half);
    let after = WORD * next;
    let register = BigEndian::read_u64(&registers[after..after + WORD]);
    BigEndian::write_u64(block, a);
    BigEndian::write_u64(&mut block[WORD..], register);
}
