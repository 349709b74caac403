//! The padded form from one buffer into another.

ghost use Rattle.std.specs.Prelude.{[], take};
ghost use Rattle.keywrap_calls.specs.Keks.{aes_of};
ghost use Rattle.keywrap_calls.specs.Calls.{WrapsPadded, UnwrapsPadded, IsPaddedKey};

use crate::keks::aes_of;
use crate::status::{BAD_KEK, DONE, fault_status, status_of};
use block_pair::Meter;
use fips197::KeyInit;
use key_wrap_core::{unwrap_padded_into, wrap_padded_into};

/// Wraps `key` under `kek` in the padded form, into `text` (RFC 5649, section 4.1).
pub fn wrap_padded<A: KeyInit>(
    schedule: A::Schedule,
    kek: &[u8],
    key: &[u8],
    text: &mut [u8],
) -> i32
    ensures { WrapsPadded (aes_of kek.now) kek.now key.now text.old text.new result }
{
    let Some(aes) = aes_of::<A>(kek, schedule) else {
        return BAD_KEK;
    };
    status_of(wrap_padded_into(&mut Meter::new(&aes), key, text))
}

/// Unwraps `text`, in the padded form under `kek`, into the first `*key_len` bytes of `key`, with
/// zero bytes after it (RFC 5649, section 4.2). At `INTEGRITY` every byte of `key` is zero.
/// `*key_len` is 0 at each refusal.
pub fn unwrap_padded<A: KeyInit>(
    schedule: A::Schedule,
    kek: &[u8],
    text: &[u8],
    key: &mut [u8],
    key_len: &mut usize,
) -> i32
    ensures unwraps { UnwrapsPadded (aes_of kek.now) kek.now text.now key.old key.new key_len.new result }
    ensures key { IsPaddedKey (aes_of kek.now)
        text.now (take key_len.new key.new) [] key.new key_len.new result }
{
    *key_len = 0;
    let Some(aes) = aes_of::<A>(kek, schedule) else {
        return BAD_KEK;
    };
    match unwrap_padded_into(&mut Meter::new(&aes), text, key) {
        Ok(m) => {
            *key_len = m;
            DONE
        }
        Err(fault) => fault_status(fault),
    }
}
