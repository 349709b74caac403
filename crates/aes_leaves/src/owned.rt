//! AES under one key, with the memory for its key schedule.

ghost use Rattle.std.specs.Prelude.{◌≡◌};
ghost use Rattle.fips197.specs.Cipher.{cipher_by, inv_cipher_by};
ghost use Rattle.fips197.specs.CipherLaw.{cipher_by_inverse};
ghost use Rattle.fips197.specs.Keyed.{MakesAes};

use crate::aes::schedule_len;
use crate::leaves;
use aes_vector::VectorAes;
use block_pair::BlockPair;
use fips197::BadKekLength;
use std::marker::Model;

/// AES under one key: by the leaves if they are the processor's AES, or else by `aes_vector`. Contracts
/// see it as the words of the key schedule.
#[derive(Drop)]
pub struct OwnedAes {
    // Without it the leaves take the first `len` bytes of the schedule.
    vector: Option<VectorAes>,
    schedule: [u8; 240],
    len: usize,
}

impl Model for OwnedAes {
    ghost use Rattle.std.specs.Prelude.{ℕ, List, take};
    ghost use Rattle.aes_leaves.specs.Owned.{IsOwned, owned_words};

    ghost Value = { List ℕ };

    ghost view = { λ a. owned_words a.vector (take a.len a.schedule) };

    ghost invariant = { λ a. IsOwned a.vector a.len };
}

impl OwnedAes {
    /// Returns AES under the key-encryption key `kek`. Refuses a key that is not of 16, 24 or 32
    /// bytes.
    pub fn new(kek: &[u8]) -> Result<OwnedAes, BadKekLength>
        ensures { MakesAes kek.now result }
    {
        if leaves::available() {
            by_leaves(kek)
        } else {
            by_vectors(kek)
        }
    }
}

fn by_leaves(kek: &[u8]) -> Result<OwnedAes, BadKekLength>
    ensures { MakesAes kek.now result }
{
    let Some(len) = schedule_len(kek.len()) else {
        return Err(BadKekLength);
    };
    let mut schedule = [0; 240];
    leaves::expand(kek, &mut schedule[..len]);
    Ok(OwnedAes {
        vector: None,
        schedule,
        len,
    })
}

fn by_vectors(kek: &[u8]) -> Result<OwnedAes, BadKekLength>
    ensures { MakesAes kek.now result }
{
    match VectorAes::new(kek) {
        Ok(vector) => Ok(OwnedAes {
            vector: Some(vector),
            schedule: [0; 240],
            len: 0,
        }),
        Err(_) => Err(BadKekLength),
    }
}

impl BlockPair for OwnedAes {
    ghost encrypted = { cipher_by };

    ghost decrypted = { inv_cipher_by };

    #[inline(always)]
    fn enc(&self, b: [u8; 16]) -> [u8; 16] {
        match &self.vector {
            Some(aes) => aes.enc(b),
            None => {
                let mut block = b;
                leaves::encrypt(&self.schedule[..self.len], &mut block);
                block
            }
        }
    }

    #[inline(always)]
    fn dec(&self, b: [u8; 16]) -> [u8; 16] {
        match &self.vector {
            Some(aes) => aes.dec(b),
            None => {
                let mut block = b;
                leaves::decrypt(&self.schedule[..self.len], &mut block);
                block
            }
        }
    }

    ghost lawful = { cipher_by_inverse };
}
