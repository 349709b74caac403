//! Round keys in the forms in which the rounds take them.

ghost use Rattle.std.specs.Prelude.{◌≡◌, ◌≤◌, ◌+◌, ◌*◌, map, take};
ghost use Rattle.fips197.specs.KeyExpansion.{round_key};
ghost use Rattle.fips197.specs.Keyed.{IsRoundCount};
ghost use Rattle.fips197.specs.Words.{block_of};
ghost use Rattle.fips197.specs.Rounds.{inv_mix_columns};
ghost use Rattle.aes_vector.specs.Tables.{linear};
ghost use Rattle.aes_vector.specs.Tower.{affine_element, key_byte};
ghost use Rattle.aes_vector.specs.VectorSchedule.{IsFirstKey, IsLastKey, IsMiddleKey};
ghost use Rattle.aes_vector.specs.VectorSchedule.{IsVectorSchedule, words_of};

use crate::lanes::{linear, vector_of};
use crate::rows::{turned_1, turned_2, turned_3};
use crate::tables::*;
use byteorder::{BigEndian, ByteOrder};
use fips197::MAX_WORDS;
use std::simd::prelude::*;

// How many round keys the longest schedule has.
pub(crate) const MAX_KEYS: usize = 15;

// A round key, for the cipher and for the inverse cipher.
#[derive(Clone, Copy)]
pub(crate) struct RoundKey {
    pub(crate) enc: u8x16,
    pub(crate) dec: u8x16,
}

// The round keys of a schedule, into `keys`. Those past the last stay.
#[inline(always)]
pub(crate) fn round_keys(words: &[u32; MAX_WORDS], rounds: usize, keys: &mut [RoundKey; MAX_KEYS])
    requires { IsRoundCount rounds }
    ensures schedule { IsVectorSchedule rounds keys.new }
    ensures words { words_of rounds keys.new ≡ take (4 * (rounds + 1)) words.now }
{
    keys[0] = first_key(key_block(words, 0));
    for k in 1..rounds {
        keys[k] = middle_key(key_block(words, k));
    }
    keys[rounds] = last_key(key_block(words, rounds));
}

// A round key before the last, or a block, in the form of the cipher.
#[inline(always)]
pub(crate) fn enc_form(key: u8x16) -> u8x16
    ensures lanes { result ≡ map (linear MASKED_TOWER_LOW TOWER_HIGH) key }
    ensures form { map key_byte result ≡ key }
{
    let by_low = u8x16::from_array(MASKED_TOWER_LOW);
    let by_high = u8x16::from_array(TOWER_HIGH);
    linear(by_low, by_high, key)
}

#[inline(always)]
fn first_key(key: u8x16) -> RoundKey
    ensures { IsFirstKey result key }
{
    RoundKey {
        enc: enc_form(key),
        dec: key,
    }
}

#[inline(always)]
fn middle_key(key: u8x16) -> RoundKey
    ensures { IsMiddleKey result key }
{
    RoundKey {
        enc: enc_form(key),
        dec: inv_mixed(key),
    }
}

#[inline(always)]
fn last_key(key: u8x16) -> RoundKey
    ensures { IsLastKey result key }
{
    let by_low = u8x16::from_array(MASKED_INV_LOW);
    let by_high = u8x16::from_array(INV_HIGH);
    RoundKey {
        enc: key ^ u8x16::splat(0x63),
        dec: linear(by_low, by_high, key),
    }
}

// InvMixColumns of a round key, in the basis of the inverse cipher.
#[inline(always)]
fn inv_mixed(key: u8x16) -> u8x16
    ensures { map affine_element result ≡ inv_mix_columns key }
{
    let fourteen_low = u8x16::from_array(MASKED_INV_FOURTEEN_LOW);
    let fourteen = linear(fourteen_low, u8x16::from_array(INV_FOURTEEN_HIGH), key);
    let eleven_low = u8x16::from_array(INV_ELEVEN_LOW);
    let eleven = linear(eleven_low, u8x16::from_array(INV_ELEVEN_HIGH), key);
    let thirteen_low = u8x16::from_array(INV_THIRTEEN_LOW);
    let thirteen = linear(thirteen_low, u8x16::from_array(INV_THIRTEEN_HIGH), key);
    let nine_low = u8x16::from_array(INV_NINE_LOW);
    let nine = linear(nine_low, u8x16::from_array(INV_NINE_HIGH), key);
    (fourteen ^ turned_1(eleven)) ^ (turned_2(thirteen) ^ turned_3(nine))
}

// Round key `k` of the schedule: the block of its four words.
#[inline(always)]
fn key_block(words: &[u32; MAX_WORDS], k: usize) -> u8x16
    requires { k ≤ 14 }
    ensures { result ≡ round_key words.now k }
{
    vector_of(&block_of([
        words[4 * k],
        words[4 * k + 1],
        words[4 * k + 2],
        words[4 * k + 3],
    ]))
}

// The block of four words.
#[inline(always)]
fn block_of(words: [u32; 4]) -> [u8; 16]
    ensures { result ≡ block_of words }
{
    let mut block = [0; 16];
    BigEndian::write_u32_into(&words, &mut block);
    block
}
