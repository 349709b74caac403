//! Block permutations: a permutation of 16-byte blocks, given with its inverse.
#![tactic(auto)]

ghost use Rattle.std.specs.Prelude.{◌≡◌, ℕ, List};
ghost use Rattle.block_pair.specs.Pair.{AreInverse};
ghost use Rattle.block_pair.specs.Halves.{swapped_halves};

mod halves;
mod meter;

pub use halves::SwapHalves;
pub use meter::Meter;

/// A permutation of blocks of 16 bytes and its inverse, as RFC 3394, section 2, uses them: a block
/// cipher under one key.
pub trait BlockPair {
    /// What `enc` answers: the codebook encryption of a block.
    ghost encrypted: { Self → List ℕ → List ℕ };

    /// What `dec` answers: the codebook decryption of a block.
    ghost decrypted: { Self → List ℕ → List ℕ };

    /// Encrypts one block.
    fn enc(&self, b: [u8; 16]) -> [u8; 16]
        ensures { result ≡ encrypted self.now b };

    /// Decrypts one block.
    fn dec(&self, b: [u8; 16]) -> [u8; 16]
        ensures { result ≡ decrypted self.now b };

    /// Both take blocks to blocks and undo each other, in both orders, on every block.
    ghost lawful: { (pair : Self) → AreInverse (encrypted pair) (decrypted pair) };
}
