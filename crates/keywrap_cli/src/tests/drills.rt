//! Drills. Their results follow from one rule of the toy cipher: in step t, A(t) is the first
//! register xored with t, and A(t-1) becomes the last register.

use crate::drilling::DrillFault::{self, BadLength, Integrity};
use crate::drilling::drill;
use crate::job::Direction::{self, Unwrap, Wrap};
use key_wrap_core::Form::{self, Padded, Plain};
use std::alloc::Global;
use std::test::Fail;

/// Keys and their texts.
pub static WRAPPINGS: [(Form, &str, &str); 8] = [
    // two words
    (Plain, "00112233445566778899aabbccddeeff", TEXT),
    // three zero words
    (
        Plain,
        "000000000000000000000000000000000000000000000000",
        "00000000000000120000000000000000a6a6a6a6a6a6a6b60000000000000011",
    ),
    // three words: P2 xor 12, P3, IV xor 10, P1 xor 11
    (
        Plain,
        "010203040506070811121314151617182122232425262728",
        "111213141516170a2122232425262728a6a6a6a6a6a6a6b60102030405060719",
    ),
    // four words: P4 xor 08, IV xor 14, P1 xor 09, P2 xor 0e, P3 xor 03
    (
        Plain,
        "0000000000000000111111111111111122222222222222223333333333333333",
        "333333333333333ba6a6a6a6a6a6a6b20000000000000009111111111111111f2222222222222221",
    ),
    // padded keys: of one word, and of two words, which move like the plain ones above
    (Padded, "466f7250617369", "466f725061736900a65959a600000007"),
    (Padded, "ff", "ff00000000000000a65959a600000001"),
    (
        Padded,
        "0011223344556677",
        "0011223344556677a65959a600000008",
    ),
    (Padded, "112233445566778899", PADDED_TEXT),
];

const TEXT: &str = "a6a6a6a6a6a6a6a6001122334455667f8899aabbccddeefb";

const PADDED_TEXT: &str = "a65959a60000000911223344556677809900000000000004";

// Digits of both cases, with white space between them.
const SPACED: &str = "00 11\t22 33 44 55 66 77\r\n88 99 AA bb CC dd EE ff\n";

#[test]
fn wraps_and_unwraps_keys(rt: HostRuntime) {
    for (form, key, text) in &WRAPPINGS {
        assert!(rt;
            drills_to(rt.alloc(), *form, Wrap, key, text) == Ok(true),
            "{key}"
        );
        assert!(rt;
            drills_to(rt.alloc(), *form, Unwrap, text, key) == Ok(true),
            "{text}"
        );
    }
    assert!(rt; drills_to(rt.alloc(), Plain, Wrap, SPACED, TEXT) == Ok(true));
}

// `rt try --test --fail-alloc N` refuses the Nth allocation; the gate refuses none.
#[test]
fn refuses_each_growth_of_a_drill(rt: HostRuntime) {
    for (form, key, text) in &WRAPPINGS {
        let there = drills_to(rt.alloc(), *form, Wrap, key, text);
        let back = drills_to(rt.alloc(), *form, Unwrap, text, key);
        for done in [there, back] {
            assert!(rt; matches!(done, Ok(true) | Err(DrillFault::Memory)), "{key}");
        }
    }
}

// Returns whether the result of a drill is the bytes of these digits. Only the drill allocates.
fn drills_to(
    alloc: Global,
    form: Form,
    direction: Direction,
    text: &str,
    digits: &str,
) -> Result<bool, DrillFault> {
    let found = drill(alloc, form, direction, text)?;
    let mut bytes = [0; 64];
    let wanted = &mut bytes[..found.len().min(64)];
    Ok(hex::decode_to_slice(digits, wanted).is_ok() && found.as_slice() == wanted)
}

// Some words of the wrapping of 43 zero words, each with its offset in bytes.
static PAST_256: [(usize, &[u8]); 5] = [
    (0, b"\x00\x00\x00\x00\x00\x00\x01\x74"),
    (8, b"\x00\x00\x00\x00\x00\x00\x00\x77"),
    (48, b"\xa6\xa6\xa6\xa6\xa6\xa6\xa6\x3a"),
    (336, b"\x00\x00\x00\x00\x00\x00\x01\x74"),
    (344, b"\x00\x00\x00\x00\x00\x00\x01\x74"),
];

#[test]
fn wraps_past_256_steps(rt: HostRuntime) -> Result<(), Fail> {
    let digits = [b'0'; 688];
    let wrapped = drill(rt.alloc(), Plain, Wrap, std::str::from_utf8(&digits)?)?;
    assert!(rt; wrapped.len() == 352);
    for (at, word) in &PAST_256 {
        let from_there = wrapped.get(*at..).unwrap_or(&[]);
        assert!(rt; from_there.starts_with(word), "byte {at}");
    }
    Ok(())
}

static REFUSALS: [(Form, Direction, &str, DrillFault); 10] = [
    (Plain, Wrap, "0g", DrillFault::BadDigit { at: 1 }),
    (Plain, Unwrap, "g01", DrillFault::BadDigit { at: 0 }),
    (Plain, Wrap, "001", DrillFault::OddDigits),
    (Plain, Wrap, "", BadLength),
    (Padded, Wrap, "", BadLength),
    (Plain, Wrap, "0011223344556677", BadLength),
    (Plain, Unwrap, "00112233445566778899aabbccddeeff", BadLength),
    (Plain, Unwrap, CHANGED_VALUE, Integrity),
    (Padded, Unwrap, CHANGED_PADDING, Integrity),
    // a legal length, but a wrapping of the other form
    (Plain, Unwrap, PADDED_TEXT, Integrity),
];

const CHANGED_VALUE: &str = "a7a6a6a6a6a6a6a6001122334455667f8899aabbccddeefb";

const CHANGED_PADDING: &str = "a65959a60000000911223344556677809900000000000005";

#[test]
fn refuses_in_order(rt: HostRuntime) {
    for (form, direction, text, fault) in &REFUSALS {
        let found = drill(rt.alloc(), *form, *direction, text);
        assert!(rt; found.err() == Some(*fault), "{text}");
    }
}
