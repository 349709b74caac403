//! The memory of a key schedule, which is cleared after use.

ghost use Rattle.std.specs.Prelude.{◌≡◌, All, replicate};
ghost use Rattle.aes_vector.specs.ScheduleNumbers.{no_key};

use crate::keys::{MAX_KEYS, RoundKey};
use fips197::MAX_WORDS;
use std::marker::Model;
use std::simd::prelude::*;

/// Memory for the key schedule of one key, and for the words from which it is made. Contracts see the
/// numbers in it.
#[derive(Drop)]
pub struct KeySchedule {
    pub(crate) keys: [RoundKey; MAX_KEYS],
    pub(crate) words: [u32; MAX_WORDS],
}

impl Model for KeySchedule {
    ghost use Rattle.std.specs.Prelude.{ℕ, List};
    ghost use Rattle.aes_vector.specs.ScheduleNumbers.{numbers};

    ghost Value = { List ℕ };

    ghost view = { λ r. numbers r.keys r.words };
}

impl KeySchedule {
    /// Returns memory filled with zeros.
    #[inline(always)]
    pub fn new() -> KeySchedule
        ensures zeros { All (λ x. x ≡ 0) result }
    {
        KeySchedule {
            keys: no_keys(),
            words: [0; MAX_WORDS],
        }
    }

    /// Overwrites all of it with zeros.
    #[inline(always)]
    pub fn clear(&mut self)
        ensures zeros { All (λ x. x ≡ 0) self.new }
    {
        clear_both(&mut self.keys, &mut self.words);
    }
}

// Zeros in place of round keys.
#[inline(always)]
pub(crate) fn no_keys() -> [RoundKey; MAX_KEYS]
    ensures { result ≡ replicate 15 no_key }
{
    let zeros = u8x16::splat(0);
    [RoundKey {
        enc: zeros,
        dec: zeros,
    }; MAX_KEYS]
}

// Zeros over both. LLVM drops a call that does nothing but write to one value that is not read
// again. This one writes to two and is not inlined, so it stays.
#[inline(never)]
fn clear_both(keys: &mut [RoundKey; MAX_KEYS], words: &mut [u32; MAX_WORDS])
    ensures keys { keys.new ≡ replicate 15 no_key }
    ensures words { words.new ≡ replicate 60 0 }
{
    *keys = no_keys();
    *words = [0; MAX_WORDS];
}
