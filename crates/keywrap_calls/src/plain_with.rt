//! The plain form from one buffer into another, under an initial value that both ends agreed on.

ghost use Rattle.std.specs.Prelude.{◌≡◌, IfSome, IfNone};
ghost use Rattle.keywrap_calls.specs.Keks.{aes_of};
ghost use Rattle.keywrap_calls.specs.AgreedValue.{IsIv, iv_word};
ghost use Rattle.keywrap_calls.specs.Calls.{WrapsWith, UnwrapsWith};

use crate::keks::aes_of;
use crate::status::{BAD_IV, BAD_KEK, status_of};
use block_pair::Meter;
use fips197::KeyInit;
use key_wrap_core::{InitialValue, unwrap_into_with, wrap_into_with};

/// Wraps `key` under `kek` and the initial value `iv` in the plain form, into `text` (RFC 3394,
/// sections 2.2.1 and 2.2.3.2).
pub fn wrap_with<A: KeyInit>(
    schedule: A::Schedule,
    kek: &[u8],
    iv: &[u8],
    key: &[u8],
    text: &mut [u8],
) -> i32
    ensures { WrapsWith (aes_of kek.now) kek.now iv.now key.now text.old text.new result }
{
    let Some(value) = iv_from_bytes(iv) else {
        return BAD_IV;
    };
    let Some(aes) = aes_of::<A>(kek, schedule) else {
        return BAD_KEK;
    };
    status_of(wrap_into_with(&mut Meter::new(&aes), &value, key, text))
}

/// Unwraps `text`, in the plain form under `kek` and the initial value `iv`, into `key` (RFC 3394,
/// sections 2.2.2 and 2.2.3.2). At `INTEGRITY` every byte of `key` is zero.
pub fn unwrap_with<A: KeyInit>(
    schedule: A::Schedule,
    kek: &[u8],
    iv: &[u8],
    text: &[u8],
    key: &mut [u8],
) -> i32
    ensures { UnwrapsWith (aes_of kek.now) kek.now iv.now text.now key.old key.new result }
{
    let Some(value) = iv_from_bytes(iv) else {
        return BAD_IV;
    };
    let Some(aes) = aes_of::<A>(kek, schedule) else {
        return BAD_KEK;
    };
    status_of(unwrap_into_with(&mut Meter::new(&aes), &value, text, key))
}

/// Returns the initial value of these bytes. `None` if they are not 8 bytes, or are reserved for
/// the padded form.
#[tactic(auto, unfolding(crate::specs::AgreedValue::iv_word, crate::specs::AgreedValue::IsIv))]
pub fn iv_from_bytes(bytes: &[u8]) -> Option<InitialValue>
    ensures given { IfSome result (λ value. IsIv bytes.now × (value ≡ iv_word bytes.now)) }
    ensures refused { IfNone result (¬ IsIv bytes.now) }
{
    let bytes = <[u8; 8]>::try_from(bytes).ok()?;
    InitialValue::new(bytes).ok()
}
