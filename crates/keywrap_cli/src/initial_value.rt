//! Parses an initial value.

ghost use Rattle.std.specs.Prelude.{◌≡◌, ◌↔◌, ℕ, Ok, Err};
ghost use Rattle.key_wrap_core.specs.Plain.{IsReserved};
ghost use Rattle.keywrap_cli.specs.InitialValue.{DenotesIv, IsSixteenDigits};

use key_wrap_core::InitialValue;
use thiserror::Error;

/// Why a text is not an initial value.
#[derive(Clone, Copy, Debug, PartialEq, Error)]
pub enum IvFault {
    /// The text is not 16 hex digits.
    #[error("is not 16 hex digits")]
    NotSixteenDigits,
    /// The value begins like an initial value of the padded form (RFC 5649, section 3).
    #[error("is reserved for the padded form")]
    Reserved,
}

/// Parses an initial value: 16 hex digits of either case, the most significant digit first.
///
/// Returns the first error that applies: NotSixteenDigits (a space is not a digit), Reserved. Takes
/// no memory.
pub fn parse_iv(text: &str) -> Result<InitialValue, IvFault>
    ensures value { (iv : ℕ) → (result ≡ Ok iv) ↔ (DenotesIv text.now iv × ¬ IsReserved iv) }
    ensures not_digits { (result ≡ Err IvFault.NotSixteenDigits) ↔ ¬ IsSixteenDigits text.now }
    ensures reserved { (result ≡ Err IvFault.Reserved)
        ↔ ((iv : ℕ) × DenotesIv text.now iv × IsReserved iv) }
{
    let mut bytes = [0; 8];
    if hex::decode_to_slice(text, &mut bytes).is_err() {
        return Err(IvFault::NotSixteenDigits);
    }
    match InitialValue::new(bytes) {
        Ok(iv) => Ok(iv),
        Err(_) => Err(IvFault::Reserved),
    }
}
