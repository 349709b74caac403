//! Worked answers over the drill block, which anyone can work by hand: At is the register word that
//! goes in, xored with t, and A(t-1) goes into the last register.

use key_wrap_core::Kind;
use std::alloc::{AllocError, Global};

pub const IV: u64 = 0xA6A6_A6A6_A6A6_A6A6;

/// The 16-byte key, and the words of its plain wrapping.
pub const KEY: [u8; 16] = *b"\x00\x11\x22\x33\x44\x55\x66\x77\x88\x99\xAA\xBB\xCC\xDD\xEE\xFF";

pub const PLAIN: [u64; 3] = [IV, 0x0011_2233_4455_667F, 0x8899_AABB_CCDD_EEFB];

/// The words of its padded wrapping.
pub const PADDED: [u64; 3] = [
    0xA659_59A6_0000_0010,
    0x0011_2233_4455_667F,
    0x8899_AABB_CCDD_EEFB,
];

/// The words of the padded wrapping of seven bytes, and of eight.
pub const SEVEN: [u64; 2] = [0x466F_7250_6173_6900, 0xA659_59A6_0000_0007];

pub const EIGHT: [u64; 2] = [0x0011_2233_4455_6677, 0xA659_59A6_0000_0008];

/// The words of the padded wrapping of nine bytes.
pub const NINE: [u64; 3] = [
    0xA659_59A6_0000_0009,
    0x1122_3344_5566_7780,
    0x9900_0000_0000_0004,
];

/// The plain wrapping with another first byte.
pub const CHANGED: [u64; 3] = [
    0xA7A6_A6A6_A6A6_A6A6,
    0x0011_2233_4455_667F,
    0x8899_AABB_CCDD_EEFB,
];

/// The padded wrapping of the nine bytes with a padding byte 01.
pub const PADDING: [u64; 3] = [
    0xA659_59A6_0000_0009,
    0x1122_3344_5566_7780,
    0x9900_0000_0000_0005,
];

/// A key, and the words of its padded wrapping.
pub const PADDED_KEYS: [(&[u8], &[u64]); 6] = [
    (b"ForPasi", &SEVEN),
    (b"\xFF", &[0xFF00_0000_0000_0000, 0xA659_59A6_0000_0001]),
    (b"\x00\x11\x22\x33\x44\x55\x66\x77", &EIGHT),
    (b"\0\0\0\0\0\0\0\0", &[0, 0xA659_59A6_0000_0008]),
    (b"\x11\x22\x33\x44\x55\x66\x77\x88\x99", &NINE),
    (
        b"\x11\x22\x33\x44\x55\x66\x77\x88\x99\0\0\0\0\0\0\0",
        &[
            0xA659_59A6_0000_0010,
            0x1122_3344_5566_7780,
            0x9900_0000_0000_0004,
        ],
    ),
];

/// Words that are not a valid padded wrapping, their kind, and why.
pub const NOT_PADDED: [(&[u64], Kind, &str); 8] = [
    (&PLAIN, Kind::Plain(16), "a plain wrapping"),
    (&[0, 0xA659_59A6_0000_0000], Kind::Neither, "length 0"),
    (
        &[0, 0xA659_59A6_0000_0009],
        Kind::Neither,
        "length 9 in one word",
    ),
    (&[0, 0xA659_59A7_0000_0008], Kind::Neither, "another prefix"),
    (
        &[
            0xA659_59A6_0000_0008,
            0x1122_3344_5566_7780,
            0x9900_0000_0000_0004,
        ],
        Kind::Neither,
        "length 8 in two words",
    ),
    (
        &[
            0xA659_59A6_0000_0011,
            0x1122_3344_5566_7780,
            0x9900_0000_0000_0004,
        ],
        Kind::Neither,
        "length 17 in two words",
    ),
    (
        &[0xA659_59A6_0000_0008, 0x1122_3344_5566_7780, 4],
        Kind::Neither,
        "length 8 and a word of zeros",
    ),
    (&PADDING, Kind::Neither, "a padding byte 01"),
];

/// Words that are not a valid plain wrapping, and their kind.
pub const NOT_PLAIN: [([u64; 3], Kind); 3] = [
    (CHANGED, Kind::Neither),
    (NINE, Kind::Padded(9)),
    ([0, 0, 0], Kind::Neither),
];

/// The bytes that words spell.
pub fn spelled(alloc: Global, words: &[u64]) -> Result<Vec<u8>, AllocError> {
    let mut bytes = Vec::new(alloc);
    for word in words {
        bytes.extend_from_slice(&word.to_be_bytes())?;
    }
    Ok(bytes)
}

/// Whether every byte is zero.
pub fn is_cleared(bytes: &[u8]) -> bool {
    bytes.iter().all(|byte| *byte == 0)
}
