//! AES under one key, with the memory for its round keys.

ghost use Rattle.std.specs.Prelude.{◌≡◌};
ghost use Rattle.fips197.specs.Keyed.{HasRounds, MakesAes};

use crate::key_schedule::no_keys;
use crate::keys::{MAX_KEYS, RoundKey};
use crate::lent::LentAes;
use crate::schedule::fill;
use fips197::{BadKekLength, MAX_WORDS};
use std::marker::Model;

/// AES under one key, with the key's schedule in both directions. Contracts see it as the schedule:
/// a list of 44, 52 or 60 words.
#[derive(Drop)]
pub struct VectorAes {
    // Those past the rounds are not used.
    keys: [RoundKey; MAX_KEYS],
    rounds: u8,
}

impl Model for VectorAes {
    ghost use Rattle.std.specs.Prelude.{ℕ, List};
    ghost use Rattle.aes_vector.specs.VectorSchedule.{IsVectorSchedule, words_of};

    ghost Value = { List ℕ };

    ghost view = { λ a. words_of a.rounds a.keys };

    ghost invariant = { λ a. IsVectorSchedule a.rounds a.keys };
}

impl VectorAes {
    /// Returns AES under the key-encryption key `kek`. Refuses a key that is not of 16, 24 or 32
    /// bytes.
    pub fn new(kek: &[u8]) -> Result<VectorAes, BadKekLength>
        ensures { MakesAes kek.now result }
    {
        let mut keys = no_keys();
        let Ok(rounds) = fill(kek, &mut keys, &mut [0; MAX_WORDS]) else {
            return Err(BadKekLength);
        };
        Ok(VectorAes { keys, rounds })
    }

    /// How many rounds the cipher has under this key: 10, 12 or 14 (FIPS 197, 5, table 3).
    pub fn rounds(&self) -> u8
        ensures { HasRounds self.now result }
    {
        self.rounds
    }

    // The same AES, with its round keys lent.
    #[inline(always)]
    pub(crate) fn lent(&self) -> LentAes<'_>
        ensures { result ≡ self.now }
    {
        LentAes {
            keys: &self.keys,
            rounds: self.rounds,
        }
    }
}
