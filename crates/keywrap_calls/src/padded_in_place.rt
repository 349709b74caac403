//! The padded form in one buffer of the wrapped key's length: the key follows the first 8 bytes.

ghost use Rattle.std.specs.Prelude.{ℕ, List, length, replicate};
ghost use Rattle.key_wrap_core.specs.InPlace.{key_in};
ghost use Rattle.keywrap_calls.specs.Keks.{IsKek, aes_of};
ghost use Rattle.keywrap_calls.specs.Calls.{WrapsPaddedInPlace, UnwrapsPaddedInPlace, IsPaddedKey};

use crate::keks::aes_of;
use crate::status::{BAD_KEK, DONE, fault_status, status_of};
use block_pair::{BlockPair, Meter};
use fips197::KeyInit;

/// Wraps the key of `key_len` bytes after the first 8 bytes of `buffer` under `kek` in the padded
/// form, into the whole buffer (RFC 5649, section 4.1). Other bytes of the buffer are ignored.
pub fn wrap_padded_in_place<A: KeyInit>(
    schedule: A::Schedule,
    kek: &[u8],
    buffer: &mut [u8],
    key_len: usize,
) -> i32
    ensures { WrapsPaddedInPlace (aes_of kek.now) kek.now key_len buffer.old buffer.new result }
{
    let Some(aes) = aes_of::<A>(kek, schedule) else {
        return BAD_KEK;
    };
    wrap_padded_under(&aes, buffer, key_len)
}

// The call under AES that is made.
#[inline(always)]
pub(crate) fn wrap_padded_under<B: BlockPair>(pair: &B, buffer: &mut [u8], key_len: usize) -> i32
    ensures { (kek : List ℕ) → IsKek kek → WrapsPaddedInPlace (B.encrypted pair.now)
        kek key_len buffer.old buffer.new result }
{
    status_of(key_wrap_core::wrap_padded_in_place(&mut Meter::new(pair), buffer, key_len))
}

/// Unwraps the padded wrapping in `buffer`, which becomes 8 zero bytes, its key under `kek`, of
/// `*key_len` bytes, and zero bytes to the end (RFC 5649, section 4.2). At `INTEGRITY` every byte
/// of the buffer is zero. `*key_len` is 0 at each refusal.
pub fn unwrap_padded_in_place<A: KeyInit>(
    schedule: A::Schedule,
    kek: &[u8],
    buffer: &mut [u8],
    key_len: &mut usize,
) -> i32
    ensures unwraps { UnwrapsPaddedInPlace (aes_of kek.now)
        kek.now buffer.old buffer.new key_len.new result }
    ensures key { IsPaddedKey (aes_of kek.now)
        buffer.old (key_in key_len.new buffer.new) (replicate 8 0) buffer.new key_len.new result }
{
    *key_len = 0;
    let Some(aes) = aes_of::<A>(kek, schedule) else {
        return BAD_KEK;
    };
    unwrap_padded_under(&aes, buffer, key_len)
}

// The call under AES that is made.
#[inline(always)]
pub(crate) fn unwrap_padded_under<B: BlockPair>(
    pair: &B,
    buffer: &mut [u8],
    key_len: &mut usize,
) -> i32
    ensures unwraps { (kek : List ℕ) → IsKek kek
        → UnwrapsPaddedInPlace (B.encrypted pair.now)
        kek buffer.old buffer.new key_len.new result }
    ensures key { IsPaddedKey (B.encrypted pair.now)
        buffer.old (key_in key_len.new buffer.new) (replicate 8 0) buffer.new key_len.new result }
{
    *key_len = 0;
    match key_wrap_core::unwrap_padded_in_place(&mut Meter::new(pair), buffer) {
        Ok(m) => {
            *key_len = m;
            DONE
        }
        Err(fault) => fault_status(fault),
    }
}
