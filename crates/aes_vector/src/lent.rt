//! AES under one key, in a buffer that is lent, and its round keys.

ghost use Rattle.std.specs.Prelude.{◌≡◌, ◌<◌, map};
ghost use Rattle.fips197.specs.Keyed.{HasRounds, MakesAes};
ghost use Rattle.fips197.specs.ScheduleBytes.{LoadsAes};
ghost use Rattle.fips197.specs.KeyExpansion.{round_key, rounds_in};
ghost use Rattle.fips197.specs.Rounds.{inv_mix_columns};
ghost use Rattle.aes_vector.specs.Tower.{affine_element, key_byte, last_key_byte};

use crate::key_schedule::KeySchedule;
use crate::keys::{MAX_KEYS, RoundKey, round_keys};
use crate::rows::InvRows;
use crate::schedule::fill;
use crate::tables::{INV_ROWS_0, INV_ROWS_1, INV_ROWS_2, INV_ROWS_3};
use fips197::{BadKekLength, read_schedule};
use std::marker::Model;
use std::simd::prelude::*;

/// AES under one key, with its schedule in a buffer of the caller, who clears it afterwards.
/// Contracts see it as the words of the schedule, like `VectorAes`.
#[derive(Drop)]
pub struct LentAes<'a> {
    // Those past the rounds are not used.
    pub(crate) keys: &'a [RoundKey; MAX_KEYS],
    pub(crate) rounds: u8,
}

impl<'a> Model for LentAes<'a> {
    ghost use Rattle.std.specs.Prelude.{ℕ, List};
    ghost use Rattle.aes_vector.specs.VectorSchedule.{IsVectorSchedule, words_of};

    ghost Value = { List ℕ };

    ghost view = { λ a. words_of a.rounds a.keys.now };

    ghost invariant = { λ a. IsVectorSchedule a.rounds a.keys.now };
}

impl<'a> LentAes<'a> {
    /// Returns AES under the key-encryption key `kek`, with its schedule in this buffer. Refuses a
    /// key that is not of 16, 24 or 32 bytes.
    pub fn new(kek: &[u8], schedule: &'a mut KeySchedule) -> Result<LentAes<'a>, BadKekLength>
        ensures { MakesAes kek.now result }
    {
        let Ok(rounds) = fill(kek, &mut schedule.keys, &mut schedule.words) else {
            return Err(BadKekLength);
        };
        Ok(LentAes {
            keys: &schedule.keys,
            rounds,
        })
    }

    /// Returns AES by a key schedule that `KeyInit::expand` wrote, with its round keys in this buffer.
    /// Fails unless it is 176, 208 or 240 bytes long.
    pub fn from_schedule(bytes: &[u8], schedule: &'a mut KeySchedule) -> Option<LentAes<'a>>
        ensures { LoadsAes bytes.now result }
    {
        match read_schedule(bytes, &mut schedule.words) {
            Some(rounds) => {
                round_keys(&schedule.words, rounds as usize, &mut schedule.keys);
                Some(LentAes {
                    keys: &schedule.keys,
                    rounds,
                })
            }
            None => None,
        }
    }

    /// How many rounds the cipher has under this key: 10, 12 or 14 (FIPS 197, 5, table 3).
    pub fn rounds(&self) -> u8
        ensures { HasRounds self.now result }
    {
        self.rounds
    }

    // Round key 0, with which the cipher begins.
    #[inline(always)]
    pub(crate) fn first_enc_key(&self) -> u8x16
        ensures { map key_byte result ≡ round_key self.now 0 }
    {
        let keys = &self.keys;
        keys[0].enc
    }

    // Round key `k`, for a round of the cipher.
    #[inline(always)]
    pub(crate) fn enc_key(&self, k: usize) -> u8x16
        requires some { 0 < k }
        requires within { k < rounds_in self.now }
        ensures { map key_byte result ≡ round_key self.now k }
    {
        let keys = &self.keys;
        keys[k].enc
    }

    // The last round key, with which the cipher ends.
    #[inline(always)]
    pub(crate) fn last_enc_key(&self) -> u8x16
        ensures { map last_key_byte result ≡ round_key self.now (rounds_in self.now) }
    {
        let keys = &self.keys;
        keys[self.rounds as usize].enc
    }

    // The last round key, with which the inverse cipher begins.
    #[inline(always)]
    pub(crate) fn first_dec_key(&self) -> u8x16
        ensures { map affine_element result ≡ round_key self.now (rounds_in self.now) }
    {
        let keys = &self.keys;
        keys[self.rounds as usize].dec
    }

    // Round key `k`, for a round of the inverse cipher.
    #[inline(always)]
    pub(crate) fn dec_key(&self, k: usize) -> u8x16
        requires some { 0 < k }
        requires within { k < rounds_in self.now }
        ensures { map affine_element result ≡ inv_mix_columns (round_key self.now k) }
    {
        let keys = &self.keys;
        keys[k].dec
    }

    // Round key 0, with which the inverse cipher ends.
    #[inline(always)]
    pub(crate) fn last_dec_key(&self) -> u8x16
        ensures { result ≡ round_key self.now 0 }
    {
        let keys = &self.keys;
        keys[0].dec
    }

    // The places of InvShiftRows. LLVM must not know them: it would move each shuffle by them
    // before the sum that it shuffles, which costs a second one. So 0 is added, in a form that it
    // can't see through.
    #[inline(always)]
    pub(crate) fn inv_rows(&self) -> InvRows
        ensures by_0 { result.by_0 ≡ INV_ROWS_0 }
        ensures by_1 { result.by_1 ≡ INV_ROWS_1 }
        ensures by_2 { result.by_2 ≡ INV_ROWS_2 }
        ensures by_3 { result.by_3 ≡ INV_ROWS_3 }
    {
        let zero = u8x16::splat(self.rounds >> 4);
        InvRows {
            by_0: u8x16::from_array(INV_ROWS_0) ^ zero,
            by_1: u8x16::from_array(INV_ROWS_1) ^ zero,
            by_2: u8x16::from_array(INV_ROWS_2) ^ zero,
            by_3: u8x16::from_array(INV_ROWS_3) ^ zero,
        }
    }
}
