//! The plain form from one buffer into another.

ghost use Rattle.keywrap_calls.specs.Keks.{aes_of};
ghost use Rattle.keywrap_calls.specs.Calls.{WrapsPlain, UnwrapsPlain};

use crate::keks::aes_of;
use crate::status::{BAD_KEK, status_of};
use block_pair::Meter;
use fips197::KeyInit;
use key_wrap_core::{unwrap_into, wrap_into};

/// Wraps `key` under `kek` in the plain form, into `text` (RFC 3394, section 2.2.1).
pub fn wrap<A: KeyInit>(schedule: A::Schedule, kek: &[u8], key: &[u8], text: &mut [u8]) -> i32
    ensures { WrapsPlain (aes_of kek.now) kek.now key.now text.old text.new result }
{
    let Some(aes) = aes_of::<A>(kek, schedule) else {
        return BAD_KEK;
    };
    status_of(wrap_into(&mut Meter::new(&aes), key, text))
}

/// Unwraps `text`, in the plain form under `kek`, into `key` (RFC 3394, section 2.2.2). At
/// `INTEGRITY` every byte of `key` is zero.
pub fn unwrap<A: KeyInit>(schedule: A::Schedule, kek: &[u8], text: &[u8], key: &mut [u8]) -> i32
    ensures { UnwrapsPlain (aes_of kek.now) kek.now text.now key.old key.new result }
{
    let Some(aes) = aes_of::<A>(kek, schedule) else {
        return BAD_KEK;
    };
    status_of(unwrap_into(&mut Meter::new(&aes), text, key))
}
