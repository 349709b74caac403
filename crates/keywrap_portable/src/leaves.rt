//! The calls under a KEK once more, over AES by the leaves of `aes_leaves`. Its round keys are in
//! memory of the call's own, which is cleared last.

ghost use Rattle.std.specs.Prelude.{◌≡◌, ◌↔◌, ◌⊎◌, [], length, take, replicate, All};
ghost use Rattle.key_wrap_core.specs.InPlace.{key_in};
ghost use Rattle.keywrap_calls.specs.Status.{IsDone, IsIntegrity};
ghost use Rattle.keywrap_calls.specs.Calls.{WrapsPlain, UnwrapsPlain, WrapsWith, UnwrapsWith, WrapsInPlace, UnwrapsInPlace};
ghost use Rattle.keywrap_calls.specs.Calls.{WrapsPadded, UnwrapsPadded, WrapsPaddedInPlace, UnwrapsPaddedInPlace, IsPaddedKey};
ghost use Rattle.keywrap_calls.specs.Any.{UnwrapsAny};
ghost use Rattle.keywrap_calls.specs.Keks.{KeepsKek, aes_of};
ghost use Rattle.keywrap_calls.specs.KindCalls.{FindsKind};
ghost use Rattle.keywrap_calls.specs.Rewraps.{Rewraps, RewrapsInPlace};
ghost use Rattle.keywrap_calls.specs.Many.{WrapsMany, UnwrapsMany, RewrapsMany, FindsMany};
ghost use Rattle.keywrap_calls.specs.SelfTest.{IsAllRight};
ghost use Rattle.keywrap_calls.specs.Tried.{exports};

use aes_leaves::{KeyRoom, LeafAes};
use keywrap_calls::{In, Out, TestedCalls};

// Makes a call with memory for the round keys of its KEK.
macro_rules! with_leaves {
    ($call:ident, $($argument:expr),*) => {{
        let mut room = KeyRoom::new();
        let status = keywrap_calls::$call::<LeafAes>(&mut room, $($argument),*);
        room.clear();
        status
    }};
}

// Makes a call with memory for the round keys of both KEKs.
macro_rules! with_both_leaves {
    ($call:ident, $($argument:expr),*) => {{
        let mut old_room = KeyRoom::new();
        let mut new_room = KeyRoom::new();
        let rooms = (&mut old_room, &mut new_room);
        let status = keywrap_calls::$call::<LeafAes>(rooms, $($argument),*);
        old_room.clear();
        new_room.clear();
        status
    }};
}

/// Wraps in the plain form.
#[unsafe(no_mangle)]
pub extern "C" fn aes_wrap(kek: In, key: In, text: Out) -> i32
    ensures { WrapsPlain (aes_of kek.now) kek.now key.now text.old text.new result }
{
    with_leaves!(wrap, kek, key, text)
}

/// Unwraps in the plain form.
#[unsafe(no_mangle)]
pub extern "C" fn aes_unwrap(kek: In, text: In, key: Out) -> i32
    ensures { UnwrapsPlain (aes_of kek.now) kek.now text.now key.old key.new result }
{
    with_leaves!(unwrap, kek, text, key)
}

/// Wraps in the plain form under an initial value.
#[unsafe(no_mangle)]
pub extern "C" fn aes_wrap_with(kek: In, iv: In, key: In, text: Out) -> i32
    ensures { WrapsWith (aes_of kek.now) kek.now iv.now key.now text.old text.new result }
{
    with_leaves!(wrap_with, kek, iv, key, text)
}

/// Unwraps in the plain form under an initial value.
#[unsafe(no_mangle)]
pub extern "C" fn aes_unwrap_with(kek: In, iv: In, text: In, key: Out) -> i32
    ensures { UnwrapsWith (aes_of kek.now) kek.now iv.now text.now key.old key.new result }
{
    with_leaves!(unwrap_with, kek, iv, text, key)
}

/// Wraps in the plain form, in one buffer.
#[unsafe(no_mangle)]
pub extern "C" fn aes_wrap_in_place(kek: In, buffer: Out) -> i32
    ensures { WrapsInPlace (aes_of kek.now) kek.now buffer.old buffer.new result }
{
    with_leaves!(wrap_in_place, kek, buffer)
}

/// Unwraps in the plain form, in one buffer.
#[unsafe(no_mangle)]
pub extern "C" fn aes_unwrap_in_place(kek: In, buffer: Out) -> i32
    ensures unwraps { UnwrapsInPlace (aes_of kek.now) kek.now buffer.old buffer.new result }
    ensures first_word { IsDone result → take 8 buffer.new ≡ replicate 8 0 }
{
    with_leaves!(unwrap_in_place, kek, buffer)
}

/// Wraps in the padded form.
#[unsafe(no_mangle)]
pub extern "C" fn aes_wrap_padded(kek: In, key: In, text: Out) -> i32
    ensures { WrapsPadded (aes_of kek.now) kek.now key.now text.old text.new result }
{
    with_leaves!(wrap_padded, kek, key, text)
}

/// Unwraps in the padded form.
#[unsafe(no_mangle)]
pub extern "C" fn aes_unwrap_padded(kek: In, text: In, key: Out, key_len: &mut usize) -> i32
    ensures unwraps { UnwrapsPadded (aes_of kek.now) kek.now text.now key.old key.new key_len.new result }
    ensures key { IsPaddedKey (aes_of kek.now)
        text.now (take key_len.new key.new) [] key.new key_len.new result }
{
    with_leaves!(unwrap_padded, kek, text, key, key_len)
}

/// Wraps in the padded form, in one buffer.
#[unsafe(no_mangle)]
pub extern "C" fn aes_wrap_padded_in_place(kek: In, buffer: Out, key_len: usize) -> i32
    ensures { WrapsPaddedInPlace (aes_of kek.now) kek.now key_len buffer.old buffer.new result }
{
    with_leaves!(wrap_padded_in_place, kek, buffer, key_len)
}

/// Unwraps in the padded form, in one buffer.
#[unsafe(no_mangle)]
pub extern "C" fn aes_unwrap_padded_in_place(kek: In, buffer: Out, key_len: &mut usize) -> i32
    ensures unwraps { UnwrapsPaddedInPlace (aes_of kek.now)
        kek.now buffer.old buffer.new key_len.new result }
    ensures key { IsPaddedKey (aes_of kek.now)
        buffer.old (key_in key_len.new buffer.new) (replicate 8 0) buffer.new key_len.new result }
{
    with_leaves!(unwrap_padded_in_place, kek, buffer, key_len)
}

/// Unwraps in whichever form the wrapped key is.
#[unsafe(no_mangle)]
pub extern "C" fn aes_unwrap_any(
    kek: In,
    text: In,
    key: Out,
    padded: &mut u32,
    key_len: &mut usize,
) -> i32
    ensures { UnwrapsAny (aes_of kek.now) kek.now text.now key.old key.new padded.new
        key_len.new result }
{
    with_leaves!(unwrap_any, kek, text, key, padded, key_len)
}

/// Finds the form of a wrapped key, and the length of its key.
#[unsafe(no_mangle)]
pub extern "C" fn aes_kind(
    kek: In,
    text: In,
    scratch: Out,
    padded: &mut u32,
    key_len: &mut usize,
) -> i32
    ensures { FindsKind (aes_of kek.now) kek.now text.now scratch.old scratch.new
        padded.new key_len.new result }
{
    with_leaves!(kind, kek, text, scratch, padded, key_len)
}

/// Rewraps in one buffer; after each refusal the buffer is what it was.
#[unsafe(no_mangle)]
pub extern "C" fn aes_rewrap(
    old_kek: In,
    new_kek: In,
    buffer: Out,
    flags: u32,
    already: &mut u32,
) -> i32
    ensures { Rewraps (aes_of old_kek.now) (aes_of new_kek.now)
        old_kek.now new_kek.now flags buffer.old buffer.new already.new result }
{
    with_both_leaves!(rewrap, old_kek, new_kek, buffer, flags, already)
}

/// Rewraps as version 1.0 did, which left zeros after a failed check.
#[unsafe(no_mangle)]
pub extern "C" fn aes_rewrap_in_place(old_kek: In, new_kek: In, buffer: Out, forms: u32) -> i32
    ensures { RewrapsInPlace (aes_of old_kek.now) (aes_of new_kek.now)
        old_kek.now new_kek.now forms buffer.old buffer.new result }
{
    with_both_leaves!(rewrap_in_place, old_kek, new_kek, buffer, forms)
}

/// Wraps the key in each slot of a buffer.
#[unsafe(no_mangle)]
pub extern "C" fn aes_wrap_many(
    kek: In,
    texts: Out,
    key_len: usize,
    flags: u32,
    statuses: Out,
) -> i32
    ensures { WrapsMany (aes_of kek.now)
        kek.now key_len flags texts.old texts.new statuses.old statuses.new result }
{
    with_leaves!(wrap_many_lanes, kek, texts, key_len, flags, statuses)
}

/// Unwraps the wrapped key in each slot of a buffer.
#[unsafe(no_mangle)]
pub extern "C" fn aes_unwrap_many(
    kek: In,
    texts: Out,
    flags: u32,
    key_lens: &mut [usize],
    statuses: Out,
) -> i32
    ensures { UnwrapsMany (aes_of kek.now) kek.now flags texts.old texts.new
        key_lens.old key_lens.new statuses.old statuses.new result }
{
    with_leaves!(unwrap_many_lanes, kek, texts, flags, key_lens, statuses)
}

/// Rewraps the wrapped key in each slot of a buffer.
#[unsafe(no_mangle)]
pub extern "C" fn aes_rewrap_many(
    old_kek: In,
    new_kek: In,
    texts: Out,
    flags: u32,
    statuses: Out,
) -> i32
    ensures { RewrapsMany (aes_of old_kek.now) (aes_of new_kek.now)
        old_kek.now new_kek.now flags texts.old texts.new statuses.old statuses.new result }
{
    with_both_leaves!(rewrap_many_lanes, old_kek, new_kek, texts, flags, statuses)
}

/// Finds the form of the wrapped key in each slot of a buffer, and the length of its key.
#[unsafe(no_mangle)]
pub extern "C" fn aes_kind_many(
    kek: In,
    texts: In,
    scratch: Out,
    forms: Out,
    key_lens: &mut [usize],
    statuses: Out,
) -> i32
    ensures finds { FindsMany (aes_of kek.now) kek.now texts.now scratch.old scratch.new
        forms.old forms.new key_lens.old key_lens.new statuses.old statuses.new result }
    ensures cleared { IsDone result → All (λ byte. byte ≡ 0) scratch.new }
{
    with_leaves!(
        kind_many_lanes,
        kek,
        texts,
        scratch,
        forms,
        key_lens,
        statuses
    )
}

/// Keeps a KEK for any number of calls.
#[unsafe(no_mangle)]
pub extern "C" fn aes_kek_init(kek: In, kept: Out) -> i32
    ensures { KeepsKek kek.now kept.old kept.new result }
{
    with_leaves!(kek_init, kek, kept)
}

/// Tries the published vectors by the exports.
#[unsafe(no_mangle)]
pub extern "C" fn aes_self_test() -> i32
    ensures exactly { IsDone result ↔ IsAllRight }
    ensures statuses { IsDone result ⊎ IsIntegrity result }
{
    keywrap_calls::self_test::<Exports>()
}

// The exports that the self test calls.
struct Exports;

impl TestedCalls for Exports {
    ghost calls = { exports };

    fn wrap(kek: &[u8], key: &[u8], text: &mut [u8]) -> i32 {
        aes_wrap(kek, key, text)
    }

    fn unwrap(kek: &[u8], text: &[u8], key: &mut [u8]) -> i32 {
        aes_unwrap(kek, text, key)
    }

    fn wrap_padded(kek: &[u8], key: &[u8], text: &mut [u8]) -> i32 {
        aes_wrap_padded(kek, key, text)
    }

    fn unwrap_padded(kek: &[u8], text: &[u8], key: &mut [u8], key_len: &mut usize) -> i32 {
        aes_unwrap_padded(kek, text, key, key_len)
    }
}
