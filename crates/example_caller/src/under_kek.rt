//! Wrapping and unwrapping under a KEK for AES-256.

ghost use Rattle.std.specs.Prelude.{◌≡◌, ◌↔◌, length, Err, IfOk, IsOkUnless, MatchOption};
ghost use Rattle.aes_block.specs.Cipher.{cipher};
ghost use Rattle.aes_block.specs.KeyExpansion.{key_expansion};
ghost use Rattle.key_wrap.specs.NoKey.{NoKey};
ghost use Rattle.key_wrap.specs.Lengths.{IsPlainKeyLength, IsPlainTextLength};
ghost use Rattle.key_wrap.specs.Plain.{Plain, default_iv};

use aes_block::Aes;
use key_wrap::{UnwrapFault, WrapFault, unwrap, wrap};
use std::alloc::Global;

/// `key`, wrapped under the KEK `kek`.
pub fn wrap_under(alloc: Global, kek: &[u8; 32], key: &[u8]) -> Result<Vec<u8>, WrapFault>
    ensures bad_length { (result ≡ Err WrapFault.BadLength) ↔ ¬ IsPlainKeyLength (length key.now) }
    ensures answer { IfOk result (λ text. Plain (cipher kek.now) default_iv key.now text.items) }
{
    wrap(alloc, &aes_256(kek), key)
}

/// Returns the key that `text` wraps under the KEK `kek`, or `None` if it wraps no key.
pub fn unwrap_under(
    alloc: Global,
    kek: &[u8; 32],
    text: &[u8],
) -> Result<Option<Vec<u8>>, UnwrapFault>
    ensures bad_length { (result ≡ Err UnwrapFault.BadLength)
        ↔ ¬ IsPlainTextLength (length text.now) }
    ensures answer { IfOk result (λ found. MatchOption found
        (NoKey (Plain (cipher kek.now) default_iv) text.now)
        (λ key. Plain (cipher kek.now) default_iv key.items text.now)) }
    ensures accepts { IsPlainTextLength (length text.now)
        → IsOkUnless result UnwrapFault.Memory }
{
    match unwrap(alloc, &aes_256(kek), text) {
        Ok(key) => Ok(Some(key)),
        Err(UnwrapFault::Integrity) => Ok(None),
        Err(fault) => Err(fault),
    }
}

// AES under a KEK of a legal length, which is not refused.
fn aes_256(kek: &[u8; 32]) -> Aes
    ensures { result ≡ key_expansion kek.now }
{
    Aes::new(kek).unwrap()
}
