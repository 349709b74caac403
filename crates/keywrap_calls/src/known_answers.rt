//! The self test: the published wrappings in both directions, and a wrapped key that is damaged.

ghost use Rattle.std.specs.Prelude.{◌↔◌, ◌⊎◌, ◌≤◌, [], length, take, IsTrue};
ghost use Rattle.std.specs.List.{AllByRecursion};
ghost use Rattle.keywrap_calls.specs.Keks.{IsKek, aes_of};
ghost use Rattle.keywrap_calls.specs.Tried.{AllTried, LibraryCalls, Gives, GivesBoth, GivesKey, Refuses};
ghost use Rattle.key_wrap_core.specs.Plain.{Plain, default_iv};
ghost use Rattle.key_wrap_core.specs.NoKey.{NoKey};
ghost use Rattle.key_wrap_core.specs.Padded.{Padded};
ghost use Rattle.keywrap_calls.specs.Calls.{WrapsPlain, UnwrapsPlain, WrapsPadded, UnwrapsPadded, IsPaddedKey};
ghost use Rattle.keywrap_calls.specs.SelfTest.{IsAllRight, IsRightWrapping};
ghost use Rattle.keywrap_calls.specs.Status.{IsDone, IsIntegrity};
ghost use Rattle.test_vectors.specs.Published.{published_vectors, damaged, damaged_kek};

use crate::status::{DONE, INTEGRITY};
use test_vectors::bytes::{
    DAMAGED, DATA_16, DATA_24, DATA_32, DATA_RFC5649_7, DATA_RFC5649_20, KEY_16, KEY_24, KEY_32,
    KEY_RFC5649, RFC3394_4_1, RFC3394_4_2, RFC3394_4_3, RFC3394_4_4, RFC3394_4_5, RFC3394_4_6,
    RFC5649_7, RFC5649_20,
};

// The longest key that is tried.
const LONGEST: usize = 32;

/// The calls of a library that its self test makes.
pub trait TestedCalls {
    /// What was called, and what it gave. Without a meaning, so that the self test has to call.
    ghost calls: { LibraryCalls };

    /// Wraps in the plain form.
    fn wrap(kek: &[u8], key: &[u8], text: &mut [u8]) -> i32
        ensures wraps { WrapsPlain (aes_of kek.now) kek.now key.now text.old text.new result }
        ensures made { calls.wrap kek.now key.now text.old text.new result };

    /// Unwraps in the plain form.
    fn unwrap(kek: &[u8], text: &[u8], key: &mut [u8]) -> i32
        ensures unwraps { UnwrapsPlain (aes_of kek.now) kek.now text.now key.old key.new result }
        ensures made { calls.unwrap kek.now text.now key.old key.new result };

    /// Wraps in the padded form.
    fn wrap_padded(kek: &[u8], key: &[u8], text: &mut [u8]) -> i32
        ensures wraps { WrapsPadded (aes_of kek.now) kek.now key.now text.old text.new result }
        ensures made { calls.wrap_padded kek.now key.now text.old text.new result };

    /// Unwraps in the padded form.
    fn unwrap_padded(kek: &[u8], text: &[u8], key: &mut [u8], key_len: &mut usize) -> i32
        ensures unwraps { UnwrapsPadded (aes_of kek.now) kek.now text.now key.old key.new key_len.new result }
        ensures key { IsPaddedKey (aes_of kek.now)
            text.now (take key_len.new key.new) [] key.new key_len.new result }
        ensures made { calls.unwrap_padded
            kek.now text.now key.old key.new key_len.new result };
}

/// Wraps and unwraps the published vectors of RFC 3394 and RFC 5649, and unwraps a damaged wrapped
/// key, and makes each of these calls. Returns `DONE` if each result is right, and else `INTEGRITY`.
pub fn self_test<C: TestedCalls>() -> i32
    ensures exactly { IsDone result ↔ IsAllRight }
    ensures tried { IsDone result → AllTried C.calls }
    ensures statuses { IsDone result ⊎ IsIntegrity result }
{
    let right = wrappings_are_right::<C>();
    let refused = is_refused::<C>();
    if right && refused { DONE } else { INTEGRITY }
}

#[tactic(auto, unfolding(crate::specs::Keks::IsKek, crate::specs::Keks::aes_of))]
fn wrappings_are_right<C: TestedCalls>() -> bool
    ensures right { IsTrue result ↔ AllByRecursion IsRightWrapping published_vectors }
    ensures tried { IsTrue result → AllByRecursion
        (λ v. GivesBoth C.calls v.algorithm v.key v.input v.output) published_vectors }
{
    let one = is_plain::<C>(KEY_16, DATA_16, RFC3394_4_1);
    let two = is_plain::<C>(KEY_24, DATA_16, RFC3394_4_2);
    let three = is_plain::<C>(KEY_32, DATA_16, RFC3394_4_3);
    let four = is_plain::<C>(KEY_24, DATA_24, RFC3394_4_4);
    let five = is_plain::<C>(KEY_32, DATA_24, RFC3394_4_5);
    let six = is_plain::<C>(KEY_32, DATA_32, RFC3394_4_6);
    let seven = is_padded::<C>(KEY_RFC5649, DATA_RFC5649_20, RFC5649_20);
    let eight = is_padded::<C>(KEY_RFC5649, DATA_RFC5649_7, RFC5649_7);
    one && two && three && four && five && six && seven && eight
}

// Whether a key becomes a wrapped key in the plain form, and the wrapped key this key. Not inlined,
// it is there once for all vectors.
#[inline(never)]
fn is_plain<C: TestedCalls>(kek: &[u8], key: &[u8], text: &[u8]) -> bool
    requires { length key.now ≤ 32 }
    ensures right { IsTrue result ↔ (IsKek kek.now
        × Plain (aes_of kek.now) default_iv key.now text.now) }
    ensures tried { IsTrue result → Gives C.calls.wrap kek.now key.now text.now
        × Gives C.calls.unwrap kek.now text.now key.now }
{
    let mut wrapped = [0; LONGEST + 8];
    let wrapped = &mut wrapped[..key.len() + 8];
    if C::wrap(kek, key, wrapped) != DONE {
        return false;
    }
    if &wrapped[..] != text {
        return false;
    }
    let mut found = [0; LONGEST];
    let found = &mut found[..key.len()];
    if C::unwrap(kek, text, found) != DONE {
        return false;
    }
    &found[..] == key
}

// The same in the padded form.
#[inline(never)]
fn is_padded<C: TestedCalls>(kek: &[u8], key: &[u8], text: &[u8]) -> bool
    requires { length key.now ≤ 32 }
    ensures right { IsTrue result ↔ (IsKek kek.now
        × Padded (aes_of kek.now) key.now text.now) }
    ensures tried { IsTrue result → Gives C.calls.wrap_padded kek.now key.now text.now
        × GivesKey C.calls kek.now text.now key.now }
{
    let room = key.len().next_multiple_of(8);
    let mut wrapped = [0; LONGEST + 8];
    let wrapped = &mut wrapped[..room + 8];
    if C::wrap_padded(kek, key, wrapped) != DONE {
        return false;
    }
    if &wrapped[..] != text {
        return false;
    }
    let mut found = [0; LONGEST];
    let found = &mut found[..room];
    let mut len = 0;
    if C::unwrap_padded(kek, text, found, &mut len) != DONE {
        return false;
    }
    &found[..len] == key
}

// Whether the damaged wrapped key is refused.
fn is_refused<C: TestedCalls>() -> bool
    ensures right { IsTrue result ↔ NoKey (Plain (aes_of damaged_kek) default_iv) damaged }
    ensures tried { IsTrue result → Refuses C.calls damaged_kek damaged }
{
    let mut key = [0; 16];
    C::unwrap(KEY_16, DAMAGED, &mut key) == INTEGRITY
}
