//! ShiftRows and its inverse (FIPS 197, sections 5.1.2 and 5.3.1), with the columns turned as the
//! matrices of MixColumns and its inverse take them.

ghost use Rattle.std.specs.Prelude.{◌≡◌};
ghost use Rattle.fips197.specs.Rounds.{inv_shift_rows, shift_rows};
ghost use Rattle.aes_vector.specs.Turned.{turned};

use crate::lanes::lookup;
use crate::tables::{INV_ROWS_0, INV_ROWS_1, INV_ROWS_2, INV_ROWS_3};
use std::simd::prelude::*;

#[inline(always)]
pub(crate) fn rows_0(v: u8x16) -> u8x16
    ensures { result ≡ shift_rows v }
{
    v.swizzle([0, 5, 10, 15, 4, 9, 14, 3, 8, 13, 2, 7, 12, 1, 6, 11])
}

#[inline(always)]
pub(crate) fn rows_1(v: u8x16) -> u8x16
    ensures { result ≡ turned 1 (shift_rows v) }
{
    v.swizzle([5, 10, 15, 0, 9, 14, 3, 4, 13, 2, 7, 8, 1, 6, 11, 12])
}

#[inline(always)]
pub(crate) fn rows_2(v: u8x16) -> u8x16
    ensures { result ≡ turned 2 (shift_rows v) }
{
    v.swizzle([10, 15, 0, 5, 14, 3, 4, 9, 2, 7, 8, 13, 6, 11, 12, 1])
}

#[inline(always)]
pub(crate) fn rows_3(v: u8x16) -> u8x16
    ensures { result ≡ turned 3 (shift_rows v) }
{
    v.swizzle([15, 0, 5, 10, 3, 4, 9, 14, 7, 8, 13, 2, 11, 12, 1, 6])
}

// The places of InvShiftRows, with the columns turned by 0 to 3 rows. They are values and not
// constants: `VectorAes::inv_rows` says why.
#[derive(Clone, Copy)]
pub(crate) struct InvRows {
    pub(crate) by_0: u8x16,
    pub(crate) by_1: u8x16,
    pub(crate) by_2: u8x16,
    pub(crate) by_3: u8x16,
}

#[inline(always)]
pub(crate) fn inv_rows_0(v: u8x16, places: u8x16) -> u8x16
    requires { places ≡ INV_ROWS_0 }
    ensures { result ≡ inv_shift_rows v }
{
    lookup(v, places)
}

#[inline(always)]
pub(crate) fn inv_rows_1(v: u8x16, places: u8x16) -> u8x16
    requires { places ≡ INV_ROWS_1 }
    ensures { result ≡ turned 1 (inv_shift_rows v) }
{
    lookup(v, places)
}

#[inline(always)]
pub(crate) fn inv_rows_2(v: u8x16, places: u8x16) -> u8x16
    requires { places ≡ INV_ROWS_2 }
    ensures { result ≡ turned 2 (inv_shift_rows v) }
{
    lookup(v, places)
}

#[inline(always)]
pub(crate) fn inv_rows_3(v: u8x16, places: u8x16) -> u8x16
    requires { places ≡ INV_ROWS_3 }
    ensures { result ≡ turned 3 (inv_shift_rows v) }
{
    lookup(v, places)
}

#[inline(always)]
pub(crate) fn turned_1(v: u8x16) -> u8x16
    ensures { result ≡ turned 1 v }
{
    v.swizzle([1, 2, 3, 0, 5, 6, 7, 4, 9, 10, 11, 8, 13, 14, 15, 12])
}

#[inline(always)]
pub(crate) fn turned_2(v: u8x16) -> u8x16
    ensures { result ≡ turned 2 v }
{
    v.swizzle([2, 3, 0, 1, 6, 7, 4, 5, 10, 11, 8, 9, 14, 15, 12, 13])
}

#[inline(always)]
pub(crate) fn turned_3(v: u8x16) -> u8x16
    ensures { result ≡ turned 3 v }
{
    v.swizzle([3, 0, 1, 2, 7, 4, 5, 6, 11, 8, 9, 10, 15, 12, 13, 14])
}
