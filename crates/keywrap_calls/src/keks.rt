//! A KEK that is kept: its key schedule behind a mark, in a buffer of the caller's.

ghost use Rattle.std.specs.Prelude.{◌≡◌, ◌↔◌, ℕ, List, length, All, IsTrue, IsSome, IfSome};
ghost use Rattle.fips197.specs.Cipher.{cipher};
ghost use Rattle.fips197.specs.KeyExpansion.{IsKekLength};
ghost use Rattle.keywrap_calls.specs.Keks.{IsKek, IsKept, Keeps, KeepsKek, aes_of};

use crate::status::{BAD_KEK, BAD_LENGTH, DONE};
use byteorder::{BigEndian, ByteOrder};
use fips197::KeyInit;

// The first bytes of a kept KEK. Bytes of its length that begin otherwise are refused, as those of a kept
// KEK that was cleared.
const MARK: u64 = 0x6b65_7074_204b_454b; // kept KEK

/// Keeps `kek`, of 16, 24 or 32 bytes, for any number of calls: writes 184, 216 or 248 bytes over the
/// whole of `kept`, which each call takes in the place of the KEK (FIPS 197, section 5.2).
///
/// After a refusal `kept` is what it was.
pub fn kek_init<A: KeyInit>(schedule: A::Schedule, kek: &[u8], kept: &mut [u8]) -> i32
    ensures { KeepsKek kek.now kept.old kept.new result }
{
    if !is_kek_length(kek.len()) {
        return BAD_KEK;
    }
    if kept.len() != 4 * kek.len() + 120 {
        return BAD_LENGTH;
    }
    let (mark, words) = kept.split_at_mut(8);
    match A::expand(kek, schedule, words) {
        Ok(()) => {
            BigEndian::write_u64(mark, MARK);
            DONE
        }
        Err(_) => BAD_LENGTH,
    }
}

/// Writes zeros over a kept KEK, which each call refuses from then on.
#[tactic(auto, unfolding(crate::specs::Keks::IsKek))]
pub fn kek_clear(kept: &mut [u8])
    ensures cleared { All (λ byte. byte ≡ 0) kept.new }
    ensures refused { IsKek kept.new → IsKekLength (length kept.old) }
{
    kept.fill(0);
}

/// Says that a call with a KEK is under AES of this KEK, and so is a call with the kept KEK. It does
/// nothing.
pub fn keks_law()
    ensures kek { (kek : List ℕ) → IsKekLength (length kek)
        → IsKek kek × (aes_of kek ≡ cipher kek) }
    ensures kept { (kek kept : List ℕ) → Keeps kek kept
        → IsKek kept × (aes_of kept ≡ cipher kek) }
{}

// AES under a KEK, or by a kept one. `None` if it is neither.
#[inline(never)]
#[tactic(auto, unfolding(crate::specs::Keks::IsKek))]
pub(crate) fn aes_of<A: KeyInit>(kek: &[u8], schedule: A::Schedule) -> Option<A>
    ensures accepted { IsSome result ↔ IsKek kek.now }
    ensures cipher { IfSome result (λ aes. A.encrypted aes ≡ aes_of kek.now) }
{
    if is_kept(kek) {
        return A::from_schedule(&kek[8..], schedule);
    }
    match A::new_in(kek, schedule) {
        Ok(aes) => Some(aes),
        Err(_) => None,
    }
}

// Whether a call accepts these bytes as its KEK.
#[tactic(auto, unfolding(crate::specs::Keks::IsKek))]
pub(crate) fn is_kek(bytes: &[u8]) -> bool
    ensures { IsTrue result ↔ IsKek bytes.now }
{
    is_kek_length(bytes.len()) || is_kept(bytes)
}

fn is_kek_length(len: usize) -> bool
    ensures { IsTrue result ↔ IsKekLength len }
{
    len == 16 || len == 24 || len == 32
}

fn is_kept(bytes: &[u8]) -> bool
    ensures { IsTrue result ↔ IsKept bytes.now }
{
    matches!(bytes.len(), 184 | 216 | 248) && BigEndian::read_u64(bytes) == MARK
}
