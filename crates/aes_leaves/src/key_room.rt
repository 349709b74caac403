//! The memory of a key schedule, which is cleared after use.

ghost use Rattle.std.specs.Prelude.{◌≡◌, All};

use crate::leaves;
use std::marker::Model;

/// Memory for the key schedule of one key. Contracts see its bytes.
#[derive(Drop)]
pub struct KeyRoom {
    pub(crate) bytes: [u8; 240],
}

impl Model for KeyRoom {
    ghost use Rattle.std.specs.Prelude.{ℕ, List};

    ghost Value = { List ℕ };

    ghost view = { λ r. r.bytes };
}

impl KeyRoom {
    /// Returns memory filled with zeros.
    #[inline(always)]
    pub fn new() -> KeyRoom
        ensures zeros { All (λ x. x ≡ 0) result }
    {
        KeyRoom { bytes: [0; 240] }
    }

    /// Overwrites all of it with zeros.
    #[inline(always)]
    pub fn clear(&mut self)
        ensures zeros { All (λ x. x ≡ 0) self.new }
    {
        leaves::clear(&mut self.bytes);
    }
}
