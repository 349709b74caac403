//! The rounds of the cipher and of the equivalent inverse cipher (FIPS 197, sections 5.1 and
//! 5.3.5), on states in the tower.

ghost use Rattle.std.specs.Prelude.{◌≡◌, map};
ghost use Rattle.fips197.specs.Rounds.{add_round_key};
ghost use Rattle.fips197.specs.Rounds.{inv_mix_columns, inv_shift_rows, inv_sub_bytes};
ghost use Rattle.fips197.specs.Cipher.{last_round, round};
ghost use Rattle.aes_vector.specs.Tower.{affine_element, element, key_byte, last_key_byte};

use crate::keys::enc_form;
use crate::lanes::linear;
use crate::rows::{
    InvRows, inv_rows_0, inv_rows_1, inv_rows_2, inv_rows_3, rows_0, rows_1, rows_2, rows_3,
};
use crate::tables::*;
use crate::tower::{inverted, lookup_xor};
use std::simd::prelude::*;

// The block with round key 0.
#[inline(always)]
pub(crate) fn first_state(key: u8x16, block: u8x16) -> u8x16
    ensures { map element result ≡ add_round_key (map key_byte key) block }
{
    enc_form(block) ^ key
}

// A round: each row of a column is twice one byte, thrice the next, and the other two.
#[inline(always)]
pub(crate) fn round(key: u8x16, state: u8x16) -> u8x16
    ensures { map element result ≡ round (map key_byte key) (map element state) }
{
    let at = inverted(state);
    let one = lookup_xor(u8x16::from_array(ONE_I), u8x16::from_array(ONE_J), at);
    let two = lookup_xor(u8x16::from_array(TWO_I), u8x16::from_array(TWO_J), at);
    let three = one ^ two;
    ((rows_0(two) ^ key) ^ rows_1(three)) ^ (rows_2(one) ^ rows_3(one))
}

// The last round, which does not mix the columns and leaves the tower.
#[inline(always)]
pub(crate) fn last_round(key: u8x16, state: u8x16) -> u8x16
    ensures { result ≡ last_round (map last_key_byte key) (map element state) }
{
    let at = inverted(state);
    rows_0(lookup_xor(u8x16::from_array(S_I), u8x16::from_array(S_J), at)) ^ key
}

// The block with the last round key.
#[inline(always)]
pub(crate) fn inv_first_state(key: u8x16, block: u8x16) -> u8x16
    ensures { map affine_element result ≡ add_round_key (map affine_element key) block }
{
    let by_low = u8x16::from_array(INV_LOW);
    let by_high = u8x16::from_array(INV_HIGH);
    linear(by_low, by_high, block) ^ key
}

// A round of the inverse cipher, from its InvShiftRows to the AddRoundKey after InvMixColumns.
#[inline(always)]
pub(crate) fn inv_round(rows: InvRows, key: u8x16, state: u8x16) -> u8x16
    requires by_0 { rows.by_0 ≡ INV_ROWS_0 }
    requires by_1 { rows.by_1 ≡ INV_ROWS_1 }
    requires by_2 { rows.by_2 ≡ INV_ROWS_2 }
    requires by_3 { rows.by_3 ≡ INV_ROWS_3 }
    ensures { let substituted = inv_sub_bytes (inv_shift_rows (map affine_element state)) in
        map affine_element result
        ≡ add_round_key (map affine_element key) (inv_mix_columns substituted) }
{
    let at = inverted(state);
    let fourteen = lookup_xor(
        u8x16::from_array(FOURTEEN_I),
        u8x16::from_array(FOURTEEN_J),
        at,
    );
    let eleven = lookup_xor(u8x16::from_array(ELEVEN_I), u8x16::from_array(ELEVEN_J), at);
    let thirteen = lookup_xor(
        u8x16::from_array(THIRTEEN_I),
        u8x16::from_array(THIRTEEN_J),
        at,
    );
    let nine = lookup_xor(u8x16::from_array(NINE_I), u8x16::from_array(NINE_J), at);
    ((inv_rows_0(fourteen, rows.by_0) ^ key) ^ inv_rows_1(eleven, rows.by_1))
        ^ (inv_rows_2(thirteen, rows.by_2) ^ inv_rows_3(nine, rows.by_3))
}

// The last round of the inverse cipher, which does not mix the columns and leaves the tower.
#[inline(always)]
pub(crate) fn inv_last_round(rows: InvRows, key: u8x16, state: u8x16) -> u8x16
    requires { rows.by_0 ≡ INV_ROWS_0 }
    ensures { result
        ≡ add_round_key key (inv_sub_bytes (inv_shift_rows (map affine_element state))) }
{
    let at = inverted(state);
    let found = lookup_xor(u8x16::from_array(INV_S_I), u8x16::from_array(INV_S_J), at);
    inv_rows_0(found, rows.by_0) ^ key
}
