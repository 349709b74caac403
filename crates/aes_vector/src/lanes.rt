//! Look-ups of 16 bytes side by side, and blocks as vectors.

ghost use Rattle.std.specs.Prelude.{◌≡◌, length, map, slice_index};
ghost use Rattle.std.specs.Simd.Lanes.{Each1};
ghost use Rattle.aes_vector.specs.Tables.{IsPlace, linear};
ghost use Rattle.aes_vector.specs.Tower.{high, low};

use std::simd::prelude::*;

// The table's entry at each place, and 0 at infinity.
#[inline(always)]
pub(crate) fn lookup(table: u8x16, at: u8x16) -> u8x16
    requires { Each1 IsPlace at }
    ensures { result ≡ map (slice_index table) at }
{
    table.swizzle_dyn(at)
}

#[inline(always)]
pub(crate) fn low(v: u8x16) -> u8x16
    ensures { result ≡ map low v }
{
    v & u8x16::splat(15)
}

#[inline(always)]
pub(crate) fn high(v: u8x16) -> u8x16
    ensures { result ≡ map high v }
{
    v >> u8x16::splat(4)
}

// A linear map of each byte, by tables of its lower and its upper half.
#[inline(always)]
pub(crate) fn linear(by_low: u8x16, by_high: u8x16, v: u8x16) -> u8x16
    ensures { result ≡ map (linear by_low by_high) v }
{
    lookup(by_low, low(v)) ^ lookup(by_high, high(v))
}

// The lanes of a block, lent as a slice: of an array by value a proof doesn't know that all of its
// 16 elements are bytes.
#[inline(always)]
pub(crate) fn vector_of(block: &[u8]) -> u8x16
    requires { length block.now ≡ 16 }
    ensures { result ≡ block.now }
{
    u8x16::from_slice(block)
}

// The block of 16 lanes.
#[inline(always)]
pub(crate) fn bytes_of(v: u8x16) -> [u8; 16]
    ensures { result ≡ v }
{
    let mut block = [0; 16];
    v.copy_to_slice(&mut block);
    block
}
