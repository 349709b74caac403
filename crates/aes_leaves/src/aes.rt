//! AES under one key, by the leaves.

ghost use Rattle.std.specs.Prelude.{◌≡◌, ◌*◌, ◌+◌, length, IfSome, IfNone};
ghost use Rattle.fips197.specs.Cipher.{cipher_by, inv_cipher_by};
ghost use Rattle.fips197.specs.CipherLaw.{cipher_by_inverse};
ghost use Rattle.fips197.specs.KeyExpansion.{IsKekLength};

use crate::key_room::KeyRoom;
use crate::leaves;
use block_lanes::BlockLanes;
use block_pair::BlockPair;
use fips197::{BadKekLength, KeyInit, ScheduleFault};
use std::marker::Model;

/// AES under one key, with its schedule in a buffer of the caller, who clears it afterwards. Contracts
/// see it as the words of the schedule.
#[derive(Drop)]
pub struct LeafAes<'a> {
    schedule: &'a [u8],
}

impl<'a> Model for LeafAes<'a> {
    ghost use Rattle.std.specs.Prelude.{ℕ, List, length};
    ghost use Rattle.fips197.specs.ScheduleBytes.{IsScheduleLength, words_in};

    ghost Value = { List ℕ };

    ghost view = { λ a. words_in a.schedule.now };

    ghost invariant = { λ a. IsScheduleLength (length a.schedule.now) };
}

impl<'a> BlockPair for LeafAes<'a> {
    ghost encrypted = { cipher_by };

    ghost decrypted = { inv_cipher_by };

    #[inline(always)]
    fn enc(&self, b: [u8; 16]) -> [u8; 16] {
        let mut block = b;
        leaves::encrypt(self.schedule, &mut block);
        block
    }

    #[inline(always)]
    fn dec(&self, b: [u8; 16]) -> [u8; 16] {
        let mut block = b;
        leaves::decrypt(self.schedule, &mut block);
        block
    }

    ghost lawful = { cipher_by_inverse };
}

impl<'a> BlockLanes for LeafAes<'a> {
    #[inline(always)]
    fn encrypt_many(&self, blocks: &mut [u8]) {
        leaves::encrypt_many(self.schedule, blocks);
    }

    #[inline(always)]
    fn decrypt_many(&self, blocks: &mut [u8]) {
        leaves::decrypt_many(self.schedule, blocks);
    }
}

impl<'a> KeyInit for LeafAes<'a> {
    type Schedule = &'a mut KeyRoom;

    #[inline(always)]
    fn new_in(kek: &[u8], room: &'a mut KeyRoom) -> Result<LeafAes<'a>, BadKekLength> {
        let Some(len) = schedule_len(kek.len()) else {
            return Err(BadKekLength);
        };
        let schedule = &mut room.bytes[..len];
        leaves::expand(kek, schedule);
        Ok(LeafAes { schedule })
    }

    fn expand(
        kek: &[u8],
        _room: &'a mut KeyRoom,
        schedule: &mut [u8],
    ) -> Result<(), ScheduleFault> {
        let Some(len) = schedule_len(kek.len()) else {
            return Err(ScheduleFault::BadKekLength);
        };
        if schedule.len() != len {
            return Err(ScheduleFault::BadLength);
        }
        leaves::expand(kek, schedule);
        Ok(())
    }

    #[inline(always)]
    fn from_schedule(bytes: &[u8], room: &'a mut KeyRoom) -> Option<LeafAes<'a>> {
        if !matches!(bytes.len(), 176 | 208 | 240) {
            return None;
        }
        let schedule = &mut room.bytes[..bytes.len()];
        schedule.copy_from_slice(bytes);
        Some(LeafAes { schedule })
    }
}

// The length of the schedule of a key of `len` bytes.
pub(crate) fn schedule_len(len: usize) -> Option<usize>
    ensures some { IfSome result (λ n. IsKekLength len × (n ≡ 4 * len + 112)) }
    ensures none { IfNone result (¬ IsKekLength len) }
{
    match len {
        16 => Some(176),
        24 => Some(208),
        32 => Some(240),
        _ => None,
    }
}
