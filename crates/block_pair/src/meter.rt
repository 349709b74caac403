//! A block permutation whose calls are counted.

ghost use Rattle.std.specs.Prelude.{◌≡◌, ◌+◌, min};

use crate::BlockPair;
use std::marker::Model;

/// A block permutation that counts its calls. Contracts see it as its `pair` and its count.
///
/// The block permutation never changes. Calls made on it directly are not counted.
#[derive(Drop)]
pub struct Meter<'a, B: BlockPair> {
    pair: &'a B,
    count: u64,
}

impl<'a, B: BlockPair> Model for Meter<'a, B> {
    ghost use Rattle.block_pair.specs.Metered.{Metered};

    ghost Value = { Metered B };

    ghost view = { λ m. record { pair = m.pair.now; count = m.count } };
}

impl<'a, B: BlockPair> Meter<'a, B> {
    /// A meter of this block permutation, with the count 0.
    pub fn new(pair: &'a B) -> Self
        ensures { result ≡ record { pair = pair.now; count = 0 } }
    {
        Meter { pair, count: 0 }
    }

    /// Encrypts one block, and counts it.
    // Without inlining, the program's two forms of wrap take a tenth longer.
    #[inline(always)]
    pub fn enc(&mut self, b: [u8; 16]) -> [u8; 16]
        ensures answer { result ≡ B.encrypted self.old.pair b }
        ensures pair { self.new.pair ≡ self.old.pair }
        ensures count { self.new.count ≡ min u64.MAX (self.old.count + 1) }
    {
        self.tick();
        self.pair.enc(b)
    }

    /// Decrypts one block, and counts it.
    pub fn dec(&mut self, b: [u8; 16]) -> [u8; 16]
        ensures answer { result ≡ B.decrypted self.old.pair b }
        ensures pair { self.new.pair ≡ self.old.pair }
        ensures count { self.new.count ≡ min u64.MAX (self.old.count + 1) }
    {
        self.tick();
        self.pair.dec(b)
    }

    fn tick(&mut self)
        ensures pair { self.new.pair ≡ self.old.pair }
        ensures count { self.new.count ≡ min u64.MAX (self.old.count + 1) }
    {
        self.count = self.count.saturating_add(1);
    }

    /// How many calls were made. At `u64::MAX` the count stays there.
    pub fn count(&self) -> u64
        ensures { result ≡ self.now.count }
    {
        self.count
    }
}
