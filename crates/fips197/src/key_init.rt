//! The trait of every AES that is made from a key-encryption key.

ghost use Rattle.std.specs.Prelude.{◌≡◌, ◌↔◌, ℕ, List, length, IsOk, IfOk, IsSome, IfSome};
ghost use Rattle.fips197.specs.Cipher.{cipher, inv_cipher, cipher_by, inv_cipher_by};
ghost use Rattle.fips197.specs.KeyExpansion.{IsKekLength, key_expansion};
ghost use Rattle.fips197.specs.ScheduleBytes.{IsScheduleLength, WritesSchedule, words_in};

use crate::bad_kek_length::BadKekLength;
use crate::schedule_bytes::ScheduleFault;
use block_pair::BlockPair;

/// AES that is made from a key-encryption key (KEK).
pub trait KeyInit: BlockPair + Drop {
    /// The memory for the round keys, if the caller lends it.
    type Schedule: Drop;

    /// Returns AES under `kek`. Fails unless the KEK is 16, 24 or 32 bytes long.
    fn new_in(kek: &[u8], schedule: Self::Schedule) -> Result<Self, BadKekLength>
        ensures accepted { IsOk result ↔ IsKekLength (length kek.now) }
        ensures cipher { IfOk result (λ aes. Self.encrypted aes ≡ cipher kek.now) }
        ensures inv_cipher { IfOk result (λ aes. Self.decrypted aes ≡ inv_cipher kek.now) };

    /// Writes the key schedule of `kek` over the whole of `schedule`: 176, 208 or 240 bytes, which
    /// are the same for every implementation.
    fn expand(kek: &[u8], room: Self::Schedule, schedule: &mut [u8]) -> Result<(), ScheduleFault>
        ensures { WritesSchedule kek.now schedule.old schedule.new result };

    /// Returns AES by a key schedule that `expand` wrote. Any other bytes are taken as the words of
    /// a schedule too. Fails unless there are 176, 208 or 240.
    fn from_schedule(schedule: &[u8], room: Self::Schedule) -> Option<Self>
        ensures accepted { IsSome result ↔ IsScheduleLength (length schedule.now) }
        ensures cipher { IfSome result (λ aes.
            Self.encrypted aes ≡ cipher_by (words_in schedule.now)) }
        ensures inv_cipher { IfSome result (λ aes.
            Self.decrypted aes ≡ inv_cipher_by (words_in schedule.now)) }
        ensures under_kek { IfSome result (λ aes. (kek : List ℕ)
            → words_in schedule.now ≡ key_expansion kek → Self.encrypted aes ≡ cipher kek) };
}
