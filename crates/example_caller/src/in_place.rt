//! Wrapping and unwrapping in a buffer, with a count of the block calls.

ghost use Rattle.std.specs.Prelude.{◌≡◌, ◌↔◌, ℕ, List, length, drop, All, Err, IfOk, IsOk};
ghost use Rattle.std.specs.Prelude.{IsOkUnless};
ghost use Rattle.aes_block.specs.Cipher.{cipher_by};
ghost use Rattle.key_wrap.specs.BlockCalls.{block_calls};
ghost use Rattle.key_wrap.specs.Lengths.{IsPlainTextLength};
ghost use Rattle.key_wrap.specs.Plain.{Plain, default_iv};

use aes_block::Aes;
use block_pair::Meter;
use key_wrap::{InPlaceFault, unwrap_in_place, wrap_in_place};

/// Wraps the key after the first 8 bytes of the buffer. Afterwards the wrapped key fills it. Returns
/// the number of block calls: 6 for each 8 bytes of key.
pub fn wrap_here(aes: &Aes, buffer: &mut [u8]) -> Result<u64, InPlaceFault>
    ensures bad_length { (result ≡ Err InPlaceFault.BadLength)
        ↔ ¬ IsPlainTextLength (length buffer.old) }
    ensures only_fault { IsOkUnless result InPlaceFault.BadLength }
    ensures answer { IfOk result (λ _.
        Plain (cipher_by aes.now) default_iv (drop 8 buffer.old) buffer.new) }
    ensures calls { IfOk result (λ calls. calls ≡ block_calls (length buffer.old)) }
{
    let mut meter = Meter::new(aes);
    wrap_in_place(&mut meter, buffer)?;
    Ok(meter.count())
}

/// Unwraps the wrapped key that fills the buffer. Afterwards its key follows the first 8 bytes.
/// Returns the number of block calls.
pub fn unwrap_here(aes: &Aes, buffer: &mut [u8]) -> Result<u64, InPlaceFault>
    ensures bad_length { (result ≡ Err InPlaceFault.BadLength)
        ↔ ¬ IsPlainTextLength (length buffer.old) }
    ensures accepts { (key : List ℕ) → Plain (cipher_by aes.now) default_iv key buffer.old
        → IsOk result }
    ensures answer { IfOk result (λ _.
        Plain (cipher_by aes.now) default_iv (drop 8 buffer.new) buffer.old) }
    ensures cleared { result ≡ Err InPlaceFault.Integrity → All (λ byte. byte ≡ 0) buffer.new }
    ensures calls { IfOk result (λ calls. calls ≡ block_calls (length buffer.old)) }
{
    let mut meter = Meter::new(aes);
    unwrap_in_place(&mut meter, buffer)?;
    Ok(meter.count())
}
