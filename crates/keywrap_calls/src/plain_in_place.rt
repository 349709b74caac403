//! The plain form in one buffer of the wrapped key's length: the key follows the first 8 bytes.

ghost use Rattle.std.specs.Prelude.{◌≡◌, ℕ, List, length, take, replicate};
ghost use Rattle.keywrap_calls.specs.Keks.{IsKek, aes_of};
ghost use Rattle.keywrap_calls.specs.Status.{IsDone};
ghost use Rattle.keywrap_calls.specs.Calls.{WrapsInPlace, UnwrapsInPlace};

use crate::keks::aes_of;
use crate::status::{BAD_KEK, status_of};
use block_pair::{BlockPair, Meter};
use fips197::KeyInit;

/// Wraps the key after the first 8 bytes of `buffer`, which are ignored, under `kek` in the plain
/// form, into the whole buffer (RFC 3394, section 2.2.1).
pub fn wrap_in_place<A: KeyInit>(schedule: A::Schedule, kek: &[u8], buffer: &mut [u8]) -> i32
    ensures { WrapsInPlace (aes_of kek.now) kek.now buffer.old buffer.new result }
{
    let Some(aes) = aes_of::<A>(kek, schedule) else {
        return BAD_KEK;
    };
    wrap_under(&aes, buffer)
}

// The call under AES that is made.
#[inline(always)]
pub(crate) fn wrap_under<B: BlockPair>(pair: &B, buffer: &mut [u8]) -> i32
    ensures { (kek : List ℕ) → IsKek kek
        → WrapsInPlace (B.encrypted pair.now) kek buffer.old buffer.new result }
{
    status_of(key_wrap_core::wrap_in_place(&mut Meter::new(pair), buffer))
}

/// Unwraps the plain wrapping in `buffer`, which becomes 8 zero bytes and its key under `kek` (RFC
/// 3394, section 2.2.2). At `INTEGRITY` every byte of the buffer is zero.
pub fn unwrap_in_place<A: KeyInit>(schedule: A::Schedule, kek: &[u8], buffer: &mut [u8]) -> i32
    ensures unwraps { UnwrapsInPlace (aes_of kek.now) kek.now buffer.old buffer.new result }
    ensures first_word { IsDone result → take 8 buffer.new ≡ replicate 8 0 }
{
    let Some(aes) = aes_of::<A>(kek, schedule) else {
        return BAD_KEK;
    };
    unwrap_under(&aes, buffer)
}

// The call under AES that is made.
#[inline(always)]
pub(crate) fn unwrap_under<B: BlockPair>(pair: &B, buffer: &mut [u8]) -> i32
    ensures unwraps { (kek : List ℕ) → IsKek kek
        → UnwrapsInPlace (B.encrypted pair.now) kek buffer.old buffer.new result }
    ensures first_word { IsDone result → take 8 buffer.new ≡ replicate 8 0 }
{
    status_of(key_wrap_core::unwrap_in_place(&mut Meter::new(pair), buffer))
}
