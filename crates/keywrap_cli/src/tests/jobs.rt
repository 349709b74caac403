//! The cases: operations over files in memory, under one KEK or from one KEK and form to another. The
//! vectors of RFC 3394, section 4.1, and RFC 5649, section 6, in each notation, and refusals.

use super::cases::{
    Answer, Case, RAW, RAW_KEKS, WRITTEN, check, form, hex, raw, refused, rewrap, unwrap_in,
    wrap_in,
};
use super::initial_values::other;
use crate::files::Notation;
use crate::outcome::Done;
use crate::outcome::JobFault::{
    BadLength, InputFile, Integrity, KekFile, KekLength, KeyNotPlain, NewKekFile, NewKekLength,
};
use crate::what::What;
use key_files::FileFault::{self, OddDigits};
use key_wrap_core::Form::{self, Padded, Plain};

/// The KEK, the key and its text.
pub const HEX_KEK: &[u8] = b"000102030405060708090a0b0c0d0e0f\n";

pub const HEX_KEY: &[u8] = b"00112233445566778899aabbccddeeff\n";

pub const HEX_TEXT: &[u8] = b"1fa68b0a8112b447aef34bd8fb5a7b829d3e862371d2cfe5\n";

pub const RAW_KEK: &[u8] = b"\x00\x01\x02\x03\x04\x05\x06\x07\x08\x09\x0A\x0B\x0C\x0D\x0E\x0F";

pub const RAW_KEY: &[u8] = b"\x00\x11\x22\x33\x44\x55\x66\x77\x88\x99\xAA\xBB\xCC\xDD\xEE\xFF";

pub const RAW_TEXT: &[u8] = b"\x1F\xA6\x8B\x0A\x81\x12\xB4\x47\xAE\xF3\x4B\xD8\xFB\x5A\x7B\x82\
    \x9D\x3E\x86\x23\x71\xD2\xCF\xE5";

/// RFC 5649, section 6: the KEK, and the texts of 20 and of 7 octets.
pub const KEK_5649: &[u8] = b"5840df6e29b02af1ab493b705bf16ea1ae8338f4dcc176a8";

pub const OF_20: &[u8] = b"138bdeaa9b8fa7fc61f97742e72248ee5ae6ae5360d1ae6a5f54f373fa543b6a";

pub const OF_7: &[u8] = b"afbeb0f07dfbf5419200f2ccb50bb24f\n";

/// White space of each kind.
pub const BLANKS: &[u8] = b" \t\r\n\n\r\t ";

const SPACED_KEK: &[u8] = b"00 01 02 03 04 05 06 07\r\n08090A0b0C0d0E0f\r\n";

const FIFTEEN: &[u8] = b"000000000000000000000000000000";

// The text of RFC 3394, section 4.1, without its last byte; and with another last byte.
const SHORT: &[u8] = b"1fa68b0a8112b447aef34bd8fb5a7b829d3e862371d2cf";

const CHANGED: &[u8] = b"1fa68b0a8112b447aef34bd8fb5a7b829d3e862371d2cfe4";

/// The same key under the other value, as OpenSSL wraps it.
pub const OTHER_TEXT: &[u8] = b"a0f76f4b09e1f2191b8d94da2ca57adfd45ee9732992a98f\n";

pub const PLAIN_16: &[u8] = b"plain 16\n";

const NONE: &[u8] = b"none\n";

const NEITHER: Answer = Ok(Done::Neither);

const RAW_IN: [Notation; 2] = [Notation::Raw, Notation::Hex];

/// A digit is wrong at the first byte, or at the second.
pub const AT_0: FileFault = FileFault::BadDigit { at: 0 };

pub const AT_1: FileFault = FileFault::BadDigit { at: 1 };

/// The KEK of RFC 3394, section 4.3.
pub const NEW_KEK: &[u8] = b"000102030405060708090a0b0c0d0e0f101112131415161718191a1b1c1d1e1f\n";

/// The same, raw.
pub const RAW_NEW_KEK: &[u8] = b"\x00\x01\x02\x03\x04\x05\x06\x07\x08\x09\x0A\x0B\x0C\x0D\x0E\x0F\
    \x10\x11\x12\x13\x14\x15\x16\x17\x18\x19\x1A\x1B\x1C\x1D\x1E\x1F";

// The text of RFC 3394, section 4.3. It has the same key as the text of section 4.1.
pub const NEW_TEXT: &[u8] = b"64e8c3f9ce0f5ba263e9777905818a2a93c8191e7d6e8ae7\n";

const RAW_NEW_TEXT: &[u8] = b"\x64\xE8\xC3\xF9\xCE\x0F\x5B\xA2\x63\xE9\x77\x79\
    \x05\x81\x8A\x2A\x93\xC8\x19\x1E\x7D\x6E\x8A\xE7";

// The padded wrapping of that key under this KEK, by OpenSSL.
pub const NEW_PADDED: &[u8] = b"afc860015ffe2d75bedf43c444fe58f4ad9d89c4ec71e23b\n";

// The wrapping of the 7 octets of RFC 5649, section 6, under this KEK, by OpenSSL.
const NEW_OF_7: &[u8] = b"443b17837bb39348610d19202df8a1f9\n";

const RAW_KEK_FILES: [&[u8]; 3] = [RAW_KEK, RAW_NEW_KEK, HEX_TEXT];

fn wrap() -> What {
    wrap_in(form(Plain))
}

fn unwrap() -> What {
    unwrap_in(form(Plain))
}

fn plain() -> What {
    to(Plain, Plain)
}

fn to(old: Form, new: Form) -> What {
    rewrap(Some((old, new)), false)
}

fn pass(old: Form, new: Form) -> What {
    rewrap(Some((old, new)), true)
}

/// Operations under one KEK.
pub fn jobs() -> [Case<'static>; 36] {
    [
        hex(wrap(), [HEX_KEK, b"", HEX_KEY], HEX_TEXT),
        hex(unwrap(), [HEX_KEK, b"", HEX_TEXT], HEX_KEY),
        hex(wrap_in(other()), [HEX_KEK, b"", HEX_KEY], OTHER_TEXT),
        hex(unwrap_in(other()), [HEX_KEK, b"", OTHER_TEXT], HEX_KEY),
        hex(check(), [HEX_KEK, b"", HEX_TEXT], PLAIN_16),
        hex(check(), [KEK_5649, b"", OF_20], b"padded 20\n"),
        hex(check(), [KEK_5649, b"", OF_7], b"padded 7\n"),
        Case(check(), RAW_KEKS, [RAW_KEK, b"", SHORT], NEITHER, NONE),
        Case(check(), RAW_KEKS, [RAW_KEK, b"", CHANGED], NEITHER, NONE),
        Case(check(), RAW_KEKS, [RAW_KEK, b"", BLANKS], NEITHER, NONE),
        raw(check(), [RAW_KEK, b"", RAW_TEXT], PLAIN_16),
        raw(wrap(), [RAW_KEK, b"", RAW_KEY], RAW_TEXT),
        raw(unwrap(), [RAW_KEK, b"", RAW_TEXT], RAW_KEY),
        Case(wrap(), RAW_KEKS, [RAW_KEK, b"", HEX_KEY], WRITTEN, HEX_TEXT),
        Case(wrap(), RAW_IN, [HEX_KEK, b"", RAW_KEY], WRITTEN, RAW_TEXT),
        hex(wrap(), [SPACED_KEK, b"", HEX_KEY], HEX_TEXT),
        // a KEK of an illegal length, with any input
        Case(wrap(), RAW, [b"", b"", RAW_KEY], Err(KekLength), b""),
        Case(wrap(), RAW, [&[0; 15], b"", RAW_KEY], Err(KekLength), b""),
        Case(wrap(), RAW, [&[0; 17], b"", RAW_KEY], Err(KekLength), b""),
        refused(wrap(), [b"", b"", FIFTEEN], KekLength),
        refused(wrap(), [BLANKS, b"", HEX_KEY], KekLength),
        refused(unwrap(), [BLANKS, b"", HEX_TEXT], KekLength),
        refused(check(), [BLANKS, b"", HEX_TEXT], KekLength),
        // files that denote no bytes
        refused(wrap(), [b"0g", b"", HEX_KEY], KekFile(AT_1)),
        refused(wrap(), [b"012", b"", HEX_KEY], KekFile(OddDigits)),
        refused(wrap(), [HEX_KEK, b"", b"g01"], InputFile(AT_0)),
        refused(unwrap(), [HEX_KEK, b"", b"012"], InputFile(OddDigits)),
        refused(check(), [HEX_KEK, b"", b"zz"], InputFile(AT_0)),
        // inputs of an illegal length
        refused(wrap(), [HEX_KEK, b"", FIFTEEN], BadLength),
        refused(wrap(), [HEX_KEK, b"", BLANKS], BadLength),
        refused(unwrap(), [HEX_KEK, b"", BLANKS], BadLength),
        refused(wrap_in(form(Padded)), [HEX_KEK, b"", BLANKS], BadLength),
        refused(unwrap_in(form(Padded)), [HEX_KEK, b"", BLANKS], BadLength),
        // a legal length, but a wrapping in the other form, or under another initial value
        refused(unwrap(), [KEK_5649, b"", OF_20], Integrity),
        refused(unwrap_in(other()), [HEX_KEK, b"", HEX_TEXT], Integrity),
        refused(unwrap_in(form(Padded)), [HEX_KEK, b"", HEX_TEXT], Integrity),
    ]
}

/// Rewraps.
pub fn rewraps() -> [Case<'static>; 33] {
    [
        hex(plain(), [HEX_KEK, NEW_KEK, HEX_TEXT], NEW_TEXT),
        raw(plain(), [RAW_KEK, RAW_NEW_KEK, RAW_TEXT], RAW_NEW_TEXT),
        Case(plain(), RAW_KEKS, RAW_KEK_FILES, WRITTEN, NEW_TEXT),
        hex(to(Plain, Padded), [HEX_KEK, NEW_KEK, HEX_TEXT], NEW_PADDED),
        hex(to(Padded, Plain), [NEW_KEK, HEX_KEK, NEW_PADDED], HEX_TEXT),
        hex(to(Padded, Padded), [KEK_5649, NEW_KEK, OF_7], NEW_OF_7),
        // wrapped keys that are new already
        hex(pass(Plain, Plain), [HEX_KEK, NEW_KEK, HEX_TEXT], NEW_TEXT),
        hex(pass(Plain, Plain), [HEX_KEK, NEW_KEK, NEW_TEXT], NEW_TEXT),
        hex(
            pass(Plain, Padded),
            [HEX_KEK, NEW_KEK, NEW_PADDED],
            NEW_PADDED,
        ),
        hex(rewrap(None, true), [HEX_KEK, NEW_KEK, NEW_TEXT], NEW_TEXT),
        hex(rewrap(None, true), [HEX_KEK, NEW_KEK, NEW_OF_7], NEW_OF_7),
        refused(
            pass(Plain, Plain),
            [HEX_KEK, NEW_KEK, NEW_PADDED],
            Integrity,
        ),
        refused(pass(Plain, Padded), [HEX_KEK, NEW_KEK, NEW_TEXT], Integrity),
        // the length of the input is legal only in the new form
        hex(pass(Plain, Padded), [HEX_KEK, NEW_KEK, NEW_OF_7], NEW_OF_7),
        refused(pass(Plain, Plain), [HEX_KEK, NEW_KEK, NEW_OF_7], BadLength),
        // a refused KEK, with any files after it
        refused(plain(), [b"", NEW_KEK, HEX_TEXT], KekLength),
        refused(plain(), [FIFTEEN, b"0g", HEX_TEXT], KekLength),
        refused(plain(), [b"0g", b"", HEX_TEXT], KekFile(AT_1)),
        refused(plain(), [b"012", NEW_KEK, HEX_TEXT], KekFile(OddDigits)),
        refused(plain(), [HEX_KEK, b"", HEX_TEXT], NewKekLength),
        refused(plain(), [HEX_KEK, FIFTEEN, b"0g"], NewKekLength),
        refused(plain(), [HEX_KEK, b"0g", b""], NewKekFile(AT_1)),
        refused(plain(), [HEX_KEK, b"012", HEX_TEXT], NewKekFile(OddDigits)),
        // inputs that denote no bytes, or have an illegal length
        refused(plain(), [HEX_KEK, NEW_KEK, b"g01"], InputFile(AT_0)),
        refused(plain(), [HEX_KEK, NEW_KEK, b"012"], InputFile(OddDigits)),
        refused(plain(), [HEX_KEK, NEW_KEK, SHORT], BadLength),
        refused(plain(), [HEX_KEK, NEW_KEK, BLANKS], BadLength),
        // the KEKs swapped, and the forms
        refused(plain(), [NEW_KEK, HEX_KEK, HEX_TEXT], Integrity),
        refused(to(Padded, Padded), [HEX_KEK, NEW_KEK, HEX_TEXT], Integrity),
        // a key of 20 bytes has no plain wrapping; a text that is not a wrapping has no key
        refused(to(Padded, Plain), [KEK_5649, NEW_KEK, OF_20], KeyNotPlain),
        refused(pass(Padded, Plain), [KEK_5649, NEW_KEK, OF_20], KeyNotPlain),
        refused(to(Padded, Plain), [HEX_KEK, NEW_KEK, OF_20], Integrity),
        refused(to(Padded, Plain), [HEX_KEK, NEW_KEK, HEX_TEXT], Integrity),
    ]
}
