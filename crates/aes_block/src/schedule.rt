//! The key schedule (FIPS 197, section 5.2).

ghost use Rattle.std.specs.Prelude.{◌≡◌, ◌≤◌, ◌+◌, ◌*◌, length, take};
ghost use Rattle.fips197.specs.Keyed.{HasRounds, MakesAes};
ghost use Rattle.fips197.specs.ScheduleBytes.{LoadsAes};
ghost use Rattle.fips197.specs.Words.{block_of};
ghost use Rattle.fips197.specs.KeyExpansion.{IsKekLength, key_expansion, rounds_of};
ghost use Rattle.fips197.specs.KeyExpansion.{round_key, rounds_in};

use crate::sbox;
use fips197::{BadKekLength, MAX_WORDS, SubWord, expand_key, read_schedule};
use std::marker::Model;

/// AES under one key. Contracts see it as the key's schedule: a list of 44, 52 or 60 words.
#[derive(Drop)]
pub struct Aes {
    // Words past the last round key are not used.
    schedule: [u32; MAX_WORDS],
    rounds: u8,
}

impl Model for Aes {
    ghost use Rattle.std.specs.Prelude.{ℕ, ◌+◌, ◌*◌, List, take};
    ghost use Rattle.fips197.specs.Keyed.{HasRounds};

    ghost Value = { List ℕ };

    ghost view = { λ a. take (4 * (a.rounds + 1)) a.schedule };

    ghost invariant = { λ a. HasRounds (take (4 * (a.rounds + 1)) a.schedule) a.rounds };
}

impl Aes {
    /// AES under the key-encryption key `kek`, which must be 16, 24 or 32 bytes.
    pub fn new(kek: &[u8]) -> Result<Aes, BadKekLength>
        ensures { MakesAes kek.now result }
    {
        let rounds = match kek.len() {
            16 => 10,
            24 => 12,
            32 => 14,
            _ => return Err(BadKekLength),
        };
        Ok(Aes {
            schedule: expand(kek),
            rounds,
        })
    }

    /// AES by a key schedule that `KeyInit::expand` wrote: 176, 208 or 240 bytes.
    pub fn from_schedule(bytes: &[u8]) -> Option<Aes>
        ensures { LoadsAes bytes.now result }
    {
        let mut schedule = [0; MAX_WORDS];
        match read_schedule(bytes, &mut schedule) {
            Some(rounds) => Some(Aes { schedule, rounds }),
            None => None,
        }
    }

    /// How many rounds the cipher has under this key: 10, 12 or 14 (FIPS 197, 5, table 3).
    pub fn rounds(&self) -> u8
        ensures { HasRounds self.now result }
    {
        self.rounds
    }

    // Round key `k`: its four columns.
    pub(crate) fn round_key(&self, k: usize) -> [u32; 4]
        requires { k ≤ rounds_in self.now }
        ensures { block_of result ≡ round_key self.now k }
    {
        let words = &self.schedule;
        [
            words[4 * k],
            words[4 * k + 1],
            words[4 * k + 2],
            words[4 * k + 3],
        ]
    }
}

// The key schedule. The words past it are 0.
fn expand(kek: &[u8]) -> [u32; MAX_WORDS]
    requires { IsKekLength (length kek.now) }
    ensures { take (4 * (rounds_of kek.now + 1)) result ≡ key_expansion kek.now }
{
    let mut schedule = [0; MAX_WORDS];
    expand_key::<ByTable>(kek, kek.len() / 4, &mut schedule);
    schedule
}

// SubWord by the table of the S-box.
pub(crate) struct ByTable;

impl SubWord for ByTable {
    fn sub_word(word: u32) -> u32 {
        let [a, b, c, d] = word.to_be_bytes();
        u32::from_be_bytes([sbox(a), sbox(b), sbox(c), sbox(d)])
    }
}
