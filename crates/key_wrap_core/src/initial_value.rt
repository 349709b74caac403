//! The initial values that both ends may agree on in place of the default.

ghost use Rattle.std.specs.Prelude.{◌≡◌, ◌↔◌, IsErr, IfOk};
ghost use Rattle.byteorder.specs.Endian.{big_number};
ghost use Rattle.key_wrap_core.specs.Words.{word_bytes};
ghost use Rattle.key_wrap_core.specs.Plain.{IsReserved, default_iv};

use crate::checks::{AIV_PREFIX, DEFAULT_IV};
use crate::faults::ReservedIv;
use byteorder::{BigEndian, ByteOrder};
use std::marker::Model;

/// An initial value of the plain form (RFC 3394, section 2.2.3): eight bytes, the first four of
/// which are not A65959A6. Contracts see it as its word.
#[derive(Clone, Copy, Debug, PartialEq, Eq)]
pub struct InitialValue {
    word: u64,
}

impl Model for InitialValue {
    ghost use Rattle.std.specs.Prelude.{ℕ};
    ghost use Rattle.block_pair.specs.Words.{IsWord};
    ghost use Rattle.key_wrap_core.specs.Plain.{IsReserved};

    ghost Value = { ℕ };

    ghost view = { λ iv. iv.word };

    ghost invariant = { λ iv. IsWord iv.word × ¬ IsReserved iv.word };

    ghost inverse = { λ word. record { word = word } };
}

impl InitialValue {
    /// Returns the initial value of these bytes. Refuses exactly the values whose first four bytes
    /// are A65959A6: the padded form uses them, so no wrapped key is valid in both forms.
    pub fn new(bytes: [u8; 8]) -> Result<InitialValue, ReservedIv>
        ensures reserved { IsErr result ↔ IsReserved (big_number 8 bytes) }
        ensures value { IfOk result (λ iv. iv ≡ big_number 8 bytes) }
        ensures bytes { IfOk result (λ iv. word_bytes iv ≡ bytes) }
    {
        let word = BigEndian::read_u64(&bytes);
        if word >> 32 == u64::from(AIV_PREFIX) {
            return Err(ReservedIv);
        }
        Ok(InitialValue { word })
    }

    /// The eight bytes.
    #[tactic(auto, unfolding(crate::specs::Words::word_bytes))]
    pub fn bytes(&self) -> [u8; 8]
        ensures { result ≡ word_bytes self.now }
    {
        self.word.to_be_bytes()
    }

    /// The word.
    pub fn word(&self) -> u64
        ensures value { result ≡ self.now }
        ensures free { ¬ IsReserved self.now }
    {
        self.word
    }
}

/// The default initial value, A6A6A6A6A6A6A6A6 (RFC 3394, section 2.2.3.1).
impl Default for InitialValue {
    fn default() -> InitialValue
        ensures { result ≡ default_iv }
    {
        InitialValue { word: DEFAULT_IV }
    }
}
