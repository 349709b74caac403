//! The inverse in the tower, of 16 bytes side by side.

ghost use Rattle.std.specs.Prelude.{◌≡◌, map, slice_index, bit_xor};
ghost use Rattle.std.specs.Simd.Lanes.{Each1, zip2};
ghost use Rattle.aes_vector.specs.Tables.{IsPlace, place_i, place_j};

use crate::lanes::{high, lookup, low};
use crate::tables::{INV, INVA};
use std::simd::prelude::*;

// The places at which the output tables keep their result for the inverse of each byte.
#[derive(Clone, Copy)]
pub(crate) struct Inverse {
    pub(crate) i: u8x16,
    pub(crate) j: u8x16,
}

#[inline(always)]
pub(crate) fn inverted(y: u8x16) -> Inverse
    ensures i { result.i ≡ map place_i y }
    ensures j { result.j ≡ map place_j y }
    ensures places_i { Each1 IsPlace result.i }
    ensures places_j { Each1 IsPlace result.j }
{
    let inv = u8x16::from_array(INV);
    let inva = u8x16::from_array(INVA);
    let k = low(y);
    let i = high(y);
    let j = i ^ k;
    let scaled = lookup(inva, k);
    let over_i = lookup(inv, i) ^ scaled;
    let over_j = lookup(inv, j) ^ scaled;
    Inverse {
        i: lookup(inv, over_i) ^ j,
        j: lookup(inv, over_j) ^ i,
    }
}

// The look-ups in two output tables at the inverses, xored.
#[inline(always)]
pub(crate) fn lookup_xor(by_i: u8x16, by_j: u8x16, at: Inverse) -> u8x16
    requires i { Each1 IsPlace at.i }
    requires j { Each1 IsPlace at.j }
    ensures { result ≡ zip2 bit_xor (map (slice_index by_i) at.i) (map (slice_index by_j) at.j) }
{
    lookup(by_i, at.i) ^ lookup(by_j, at.j)
}
