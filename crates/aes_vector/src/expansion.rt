//! SubWord of the key expansion (FIPS 197, section 5.2) by the shuffles.

ghost use Rattle.std.specs.Prelude.{◌≡◌, map};
ghost use Rattle.fips197.specs.SBox.{s_box};

use crate::lanes::linear;
use crate::tables::*;
use crate::tower::{inverted, lookup_xor};
use fips197::SubWord;
use std::simd::prelude::*;

// SubWord by the shuffles.
pub(crate) struct ByShuffles;

impl SubWord for ByShuffles {
    #[inline(always)]
    fn sub_word(word: u32) -> u32 {
        let bytes = substituted(u32x4::splat(word).to_le_bytes());
        u32x4::from_le_bytes(bytes)[0]
    }
}

// The S-box on each lane.
#[inline(always)]
fn substituted(bytes: u8x16) -> u8x16
    ensures { result ≡ map s_box bytes }
{
    let by_low = u8x16::from_array(TOWER_LOW);
    let by_high = u8x16::from_array(TOWER_HIGH);
    let at = inverted(linear(by_low, by_high, bytes));
    lookup_xor(u8x16::from_array(S_I), u8x16::from_array(S_J), at) ^ u8x16::splat(0x63)
}
