//! The drill block.

ghost use Rattle.std.specs.Prelude.{◌≡◌};
ghost use Rattle.block_pair.specs.Halves.{swapped_halves};
ghost use Rattle.block_pair.specs.HalvesLaw.{swap_halves_lawful};

use crate::BlockPair;

/// The drill block: a toy cipher that swaps the halves of a block, so that answers can be checked
/// by hand. It hides nothing.
#[derive(Clone, Copy, Debug)]
pub struct SwapHalves;

impl BlockPair for SwapHalves {
    ghost encrypted = { λ _. swapped_halves };

    ghost decrypted = { λ _. swapped_halves };

    fn enc(&self, b: [u8; 16]) -> [u8; 16] {
        swap_halves(b)
    }

    fn dec(&self, b: [u8; 16]) -> [u8; 16] {
        swap_halves(b)
    }

    ghost lawful = { λ _. swap_halves_lawful };
}

// Exchanges bytes 0 to 7 with bytes 8 to 15.
fn swap_halves(mut b: [u8; 16]) -> [u8; 16]
    ensures { result ≡ swapped_halves b }
{
    b.rotate_left(8);
    b
}
