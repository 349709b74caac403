//! A block permutation whose calls are counted.

ghost use Rattle.block_pair.specs.Halves.{swapped_halves};
ghost use Rattle.block_pair.specs.HalvesLaw.{swap_halves_lawful};

use block_pair::{BlockPair, SwapHalves};
use std::cell::Cell;

/// The toy cipher, and the number of its calls.
#[derive(Drop)]
pub struct Tally {
    calls: Cell<u64>,
}

impl Tally {
    /// Returns the toy cipher, with no calls.
    pub fn new() -> Self {
        Tally {
            calls: Cell::new(0),
        }
    }

    /// Returns how many calls were made.
    pub fn calls(&self) -> u64 {
        self.calls.get()
    }

    fn tick(&self) {
        self.calls.set(self.calls.get().saturating_add(1));
    }
}

impl BlockPair for Tally {
    ghost encrypted = { λ _. swapped_halves };

    ghost decrypted = { λ _. swapped_halves };

    fn enc(&self, b: [u8; 16]) -> [u8; 16] {
        self.tick();
        SwapHalves.enc(b)
    }

    fn dec(&self, b: [u8; 16]) -> [u8; 16] {
        self.tick();
        SwapHalves.dec(b)
    }

    ghost lawful = { λ _. swap_halves_lawful };
}

#[cfg(test)]
mod tests {
    use super::*;
    use block_pair::Meter;

    // The contract of `Meter` says what a call returns, and not that the pair is called once.
    #[test]
    fn a_meter_calls_its_pair_once_a_call(rt: HostRuntime) {
        let tally = Tally::new();
        let mut meter = Meter::new(&tally);
        assert_eq!(rt; meter.enc(*b"first 8.second 8"), *b"second 8first 8.");
        assert!(rt; tally.calls() == 1 && meter.count() == 1);
        assert_eq!(rt; meter.dec(*b"second 8first 8."), *b"first 8.second 8");
        assert!(rt; tally.calls() == 2 && meter.count() == 2);
    }
}
