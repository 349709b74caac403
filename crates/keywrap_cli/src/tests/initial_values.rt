//! Initial values, and their texts.

use crate::initial_value::{IvFault, parse_iv};
use key_wrap_core::{AgreedForm, InitialValue};

/// A value that is not the default.
pub const OTHER: [u8; 8] = *b"\x01\x23\x45\x67\x89\xAB\xCD\xEF";

/// The plain form with the other value, which is not reserved.
pub fn other() -> AgreedForm {
    AgreedForm::Plain(InitialValue::new(OTHER).unwrap_or_default())
}

#[test]
fn reads_sixteen_digits_and_nothing_else(rt: HostRuntime) {
    let no_digits = Err(IvFault::NotSixteenDigits);
    let rows = [
        ("A6A6a6a6A6A6a6a6", Ok([0xa6; 8])),
        (
            "a65959a700000010",
            Ok([0xa6, 0x59, 0x59, 0xa7, 0, 0, 0, 0x10]),
        ),
        ("a65959a600000010", Err(IvFault::Reserved)),
        ("", no_digits),
        ("0123456789abcde", no_digits),
        ("0123456789abcdef0", no_digits),
        ("0123456789abcdeg", no_digits),
        (" 0123456789abcdef", no_digits),
        ("a65959a60000001", no_digits),
        ("a65959a60000001g", no_digits),
    ];
    for (text, wanted) in rows {
        let found = parse_iv(text).map(|iv| iv.bytes());
        assert_eq!(rt; found, wanted, "{text}");
    }
}
