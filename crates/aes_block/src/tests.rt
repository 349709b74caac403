//! The standard's worked bytes by the definitions, and its vectors by the code.

ghost use Rattle.std.specs.Prelude.{◌≡◌};
ghost use Rattle.fips197.specs.Field.{inverse, product};
ghost use Rattle.fips197.specs.SBox.{inv_s_box, s_box};

use crate::{Aes, BadKekLength, KeyInit};
use block_pair::BlockPair;
use std::test::Fail;

// FIPS 197, appendix B.
const KEY: [u8; 16] = *b"\x2B\x7E\x15\x16\x28\xAE\xD2\xA6\xAB\xF7\x15\x88\x09\xCF\x4F\x3C";

const PLAINTEXT: [u8; 16] = *b"\x32\x43\xF6\xA8\x88\x5A\x30\x8D\x31\x31\x98\xA2\xE0\x37\x07\x34";

const CIPHERTEXT: [u8; 16] = *b"\x39\x25\x84\x1D\x02\xDC\x09\xFB\xDC\x11\x85\x97\x19\x6A\x0B\x32";

// FIPS 197, appendix A.1: the last round key of KEY.
const LAST_ROUND_KEY: [u8; 16] =
    *b"\xD0\x14\xF9\xA8\xC9\xEE\x25\x89\xE1\x3F\x0C\xC8\xB6\x63\x0C\xA6";

// FIPS 197, appendix C, whose keys are the first 16, 24 and 32 of these bytes.
const KEYS: [u8; 32] = *b"\x00\x01\x02\x03\x04\x05\x06\x07\x08\x09\x0A\x0B\x0C\x0D\x0E\x0F\
    \x10\x11\x12\x13\x14\x15\x16\x17\x18\x19\x1A\x1B\x1C\x1D\x1E\x1F";

const BLOCK: [u8; 16] = *b"\x00\x11\x22\x33\x44\x55\x66\x77\x88\x99\xAA\xBB\xCC\xDD\xEE\xFF";

const UNDER_16: [u8; 16] = *b"\x69\xC4\xE0\xD8\x6A\x7B\x04\x30\xD8\xCD\xB7\x80\x70\xB4\xC5\x5A";

const UNDER_24: [u8; 16] = *b"\xDD\xA9\x7C\xA4\x86\x4C\xDF\xE0\x6E\xAF\x70\xA0\xEC\x0D\x71\x91";

const UNDER_32: [u8; 16] = *b"\x8E\xA2\xB7\xCA\x51\x67\x45\xBF\xEA\xFC\x49\x90\x4B\x49\x60\x89";

// What the definitions themselves say of the standard's bytes: the check computes it.
fn computes_the_definitions()
    ensures products { (product 0x57 0x83 ≡ 0xC1) × (product 0x57 0x13 ≡ 0xFE) }
    ensures inverses { (inverse 0x00 ≡ 0x00) × (inverse 0x53 ≡ 0xCA) }
    ensures s_boxes { (s_box 0x00 ≡ 0x63) × (s_box 0x53 ≡ 0xED) × (inv_s_box 0xED ≡ 0x53) }
{}

#[test]
fn definitions_give_the_standards_bytes() {
    computes_the_definitions();
}

#[test]
fn answers_the_standards_vectors(rt: HostRuntime) {
    let vectors = [
        (&KEY[..], 10, PLAINTEXT, CIPHERTEXT),
        (&KEYS[..16], 10, BLOCK, UNDER_16),
        (&KEYS[..24], 12, BLOCK, UNDER_24),
        (&KEYS[..], 14, BLOCK, UNDER_32),
    ];
    for (key, rounds, plaintext, ciphertext) in vectors {
        let aes = Aes::new(key).expect(&rt, "a legal length");
        assert_eq!(rt; aes.rounds(), rounds);
        assert_eq!(rt; aes.enc(plaintext), ciphertext, "under {} bytes", key.len());
        assert_eq!(rt; aes.dec(ciphertext), plaintext, "under {} bytes", key.len());
    }
}

#[test]
fn a_written_schedule_is_the_standards(rt: HostRuntime) {
    let mut schedule = [0; 176];
    assert!(rt; Aes::expand(&KEY, (), &mut schedule).is_ok());
    assert!(rt; schedule.ends_with(&LAST_ROUND_KEY));
    let aes = Aes::from_schedule(&schedule).expect(&rt, "a legal length");
    assert_eq!(rt; aes.enc(PLAINTEXT), CIPHERTEXT);
    assert_eq!(rt; aes.dec(CIPHERTEXT), PLAINTEXT);
}

#[test]
fn says_which_lengths_are_legal(rt: HostRuntime) -> Result<(), Fail> {
    let message = format!(in rt.alloc(); "{BadKekLength}")?;
    assert_eq!(rt; message.as_str(), "key length is not 16, 24 or 32 bytes");
    Ok(())
}
