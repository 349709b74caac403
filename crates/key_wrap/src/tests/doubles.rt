//! A pair other than the drill block.

ghost use Rattle.std.specs.Prelude.{refl};

use block_pair::BlockPair;

/// A pair that leaves each block as it is. A wrapping under it is its key, after the initial value
/// xored with the steps' numbers.
pub struct Unchanged;

impl BlockPair for Unchanged {
    ghost encrypted = { λ _ block. block };

    ghost decrypted = { λ _ block. block };

    fn enc(&self, b: [u8; 16]) -> [u8; 16] {
        b
    }

    fn dec(&self, b: [u8; 16]) -> [u8; 16] {
        b
    }

    ghost lawful = { λ _. record {
      encrypts = λ block is. is;
      decrypts = λ block is. is;
      undone = λ block is. refl;
      redone = λ block is. refl;
    } };
}
