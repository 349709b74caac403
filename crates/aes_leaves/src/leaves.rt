//! The leaves. A key schedule is the standard's: the words of the key expansion, each in four bytes, the
//! most significant first.

ghost use Rattle.std.specs.Prelude.{◌≡◌, ◌+◌, ◌*◌, ◌%◌, length, All};
ghost use Rattle.std.specs.Int.{w32, to_be_bytes};
ghost use Rattle.std.specs.List.{flat_map};
ghost use Rattle.block_lanes.specs.Blocks.{EachBy};
ghost use Rattle.fips197.specs.Cipher.{cipher_by, inv_cipher_by};
ghost use Rattle.fips197.specs.KeyExpansion.{IsKekLength, key_expansion, rounds_of};
ghost use Rattle.fips197.specs.ScheduleBytes.{IsScheduleLength, words_in};

use aes_vector::{KeySchedule, LentAes};
use block_lanes::{BlockLanes, OneByOne};
use block_pair::BlockPair;
use fips197::KeyInit;

/// Returns whether the leaves are the processor's AES. No contract depends on the answer.
#[inline(never)]
pub fn available() -> bool {
    false
}

/// Writes the key expansion (FIPS 197, 5.2) of a KEK.
#[inline(never)]
pub(crate) fn expand(kek: &[u8], schedule: &mut [u8])
    requires legal { IsKekLength (length kek.now) }
    requires room { length schedule.old ≡ 16 * (rounds_of kek.now + 1) }
    ensures bytes { schedule.new ≡ flat_map (to_be_bytes w32) (key_expansion kek.now) }
    ensures words { words_in schedule.new ≡ key_expansion kek.now }
{
    let mut room = KeySchedule::new();
    let _written = LentAes::expand(kek, &mut room, schedule);
    room.clear();
}

/// Encrypts a block by the cipher (5.1).
#[inline(never)]
pub(crate) fn encrypt(schedule: &[u8], block: &mut [u8; 16])
    requires { IsScheduleLength (length schedule.now) }
    ensures { block.new ≡ cipher_by (words_in schedule.now) block.old }
{
    let mut room = KeySchedule::new();
    if let Some(aes) = LentAes::from_schedule(schedule, &mut room) {
        *block = aes.enc(*block);
    }
    room.clear();
}

/// Decrypts a block by the inverse cipher (5.3).
#[inline(never)]
pub(crate) fn decrypt(schedule: &[u8], block: &mut [u8; 16])
    requires { IsScheduleLength (length schedule.now) }
    ensures { block.new ≡ inv_cipher_by (words_in schedule.now) block.old }
{
    let mut room = KeySchedule::new();
    if let Some(aes) = LentAes::from_schedule(schedule, &mut room) {
        *block = aes.dec(*block);
    }
    room.clear();
}

/// Encrypts each block of a buffer of whole blocks.
#[inline(never)]
pub(crate) fn encrypt_many(schedule: &[u8], blocks: &mut [u8])
    requires schedule { IsScheduleLength (length schedule.now) }
    requires whole { length blocks.old % 16 ≡ 0 }
    ensures { EachBy (cipher_by (words_in schedule.now)) blocks.old blocks.new }
{
    let mut room = KeySchedule::new();
    if let Some(aes) = OneByOne::<LentAes>::from_schedule(schedule, &mut room) {
        aes.encrypt_many(blocks);
    }
    room.clear();
}

/// Decrypts each block of a buffer of whole blocks.
#[inline(never)]
pub(crate) fn decrypt_many(schedule: &[u8], blocks: &mut [u8])
    requires schedule { IsScheduleLength (length schedule.now) }
    requires whole { length blocks.old % 16 ≡ 0 }
    ensures { EachBy (inv_cipher_by (words_in schedule.now)) blocks.old blocks.new }
{
    let mut room = KeySchedule::new();
    if let Some(aes) = OneByOne::<LentAes>::from_schedule(schedule, &mut room) {
        aes.decrypt_many(blocks);
    }
    room.clear();
}

/// Writes zeros over the memory of a key schedule. A compiler could leave out such a write, but not a
/// call of C.
#[inline(never)]
pub(crate) fn clear(room: &mut [u8; 240])
    ensures { All (λ x. x ≡ 0) room.new }
{
    *room = [0; 240];
}
