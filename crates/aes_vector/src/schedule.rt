//! The key schedule of a key, in both directions, into memory for it.

ghost use Rattle.std.specs.Prelude.{◌≡◌, ◌*◌, ◌↔◌, length};
ghost use Rattle.std.specs.Prelude.{IsOk, IsErr, IfOk};
ghost use Rattle.fips197.specs.KeyExpansion.{IsKekLength, key_expansion};
ghost use Rattle.aes_vector.specs.VectorSchedule.{IsVectorSchedule, words_of};

use crate::expansion::ByShuffles;
use crate::keys::{MAX_KEYS, RoundKey, round_keys};
use fips197::{BadKekLength, MAX_WORDS, expand_key};

// The round keys of `kek` into `keys`, by way of `words`, and for how many rounds they are.
pub(crate) fn fill(
    kek: &[u8],
    keys: &mut [RoundKey; MAX_KEYS],
    words: &mut [u32; MAX_WORDS],
) -> Result<u8, BadKekLength>
    ensures accepted { IsOk result ↔ IsKekLength (length kek.now) }
    ensures refused { IsErr result ↔ ¬ IsKekLength (length kek.now) }
    ensures schedule { IfOk result (λ rounds. IsVectorSchedule rounds keys.new) }
    ensures words { IfOk result (λ rounds. words_of rounds keys.new ≡ key_expansion kek.now) }
    ensures kept { IsErr result → (keys.new ≡ keys.old) × (words.new ≡ words.old) }
{
    match kek.len() {
        16 => Ok(with_words(kek, 4, keys, words)),
        24 => Ok(with_words(kek, 6, keys, words)),
        32 => Ok(with_words(kek, 8, keys, words)),
        _ => Err(BadKekLength),
    }
}

// The same for a key of `key_words` words.
#[inline(always)]
fn with_words(
    kek: &[u8],
    key_words: usize,
    keys: &mut [RoundKey; MAX_KEYS],
    words: &mut [u32; MAX_WORDS],
) -> u8
    requires legal { IsKekLength (length kek.now) }
    requires words { length kek.now ≡ 4 * key_words }
    ensures schedule { IsVectorSchedule result keys.new }
    ensures words { words_of result keys.new ≡ key_expansion kek.now }
{
    let rounds = key_words + 6;
    expand_key::<ByShuffles>(kek, key_words, words);
    round_keys(words, rounds, keys);
    rounds as u8
}
