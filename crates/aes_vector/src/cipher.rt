//! The cipher and the inverse cipher: AES as a block permutation.

ghost use Rattle.fips197.specs.Cipher.{cipher_by, inv_cipher_by};
ghost use Rattle.fips197.specs.CipherLaw.{cipher_by_inverse};

use crate::lanes::{bytes_of, vector_of};
use crate::lent::LentAes;
use crate::owned::VectorAes;
use crate::rounds::{first_state, inv_first_state, inv_last_round, inv_round, last_round, round};
use block_pair::BlockPair;

impl<'a> BlockPair for LentAes<'a> {
    ghost encrypted = { cipher_by };

    ghost decrypted = { inv_cipher_by };

    // Cipher (FIPS 197, 5.1).
    #[inline(always)]
    fn enc(&self, b: [u8; 16]) -> [u8; 16] {
        let last = self.rounds() as usize;
        let mut state = first_state(self.first_enc_key(), vector_of(&b));
        for k in 1..last {
            let next = round(self.enc_key(k), state);
            state = next;
        }
        bytes_of(last_round(self.last_enc_key(), state))
    }

    // The equivalent inverse cipher (FIPS 197, 5.3.5).
    #[inline(always)]
    fn dec(&self, b: [u8; 16]) -> [u8; 16] {
        let last = self.rounds() as usize;
        let rows = self.inv_rows();
        let mut state = inv_first_state(self.first_dec_key(), vector_of(&b));
        for k in (1..last).rev() {
            let next = inv_round(rows, self.dec_key(k), state);
            state = next;
        }
        bytes_of(inv_last_round(rows, self.last_dec_key(), state))
    }

    ghost lawful = { cipher_by_inverse };
}

impl BlockPair for VectorAes {
    ghost encrypted = { cipher_by };

    ghost decrypted = { inv_cipher_by };

    #[inline(always)]
    fn enc(&self, b: [u8; 16]) -> [u8; 16] {
        self.lent().enc(b)
    }

    #[inline(always)]
    fn dec(&self, b: [u8; 16]) -> [u8; 16] {
        self.lent().dec(b)
    }

    ghost lawful = { cipher_by_inverse };
}
