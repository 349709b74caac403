//! Files and texts whose bytes are known, and what the faults say.

ghost use Rattle.std.specs.Prelude.{◌≡◌, [], ◌∷◌, Ok, Err, codes};
ghost use Rattle.key_files.specs.FileMeaning.{hex_meaning};

use super::*;
use std::alloc::{AllocError, Allocator, Global};
use std::test::Fail;

mod base64_texts;
mod growths;
mod lengths;
mod reading;
mod writing;

// How a file shows its bytes.
#[derive(Clone, Copy)]
enum Notation {
    Raw,
    Hex,
}

// Returns whether an answer is these bytes, or this fault.
fn is_answer<A: Allocator>(
    answer: Result<Vec<u8, A>, FileFault>,
    want: Result<&[u8], FileFault>,
) -> bool {
    match answer {
        Ok(bytes) => want == Ok(bytes.as_slice()),
        Err(fault) => want == Err(fault),
    }
}

// A content: its first byte, a factor and a step. Each next byte is the one before it times the
// factor, plus the step.
const COUNTING: [u8; 3] = [0, 1, 1];

// Returns this many bytes of a content.
fn filled(alloc: Global, content: [u8; 3], len: usize) -> Result<Vec<u8>, AllocError> {
    let [mut byte, factor, step] = content;
    let mut bytes = Vec::new(alloc);
    for _ in 0..len {
        bytes.push(byte)?;
        byte = byte.wrapping_mul(factor).wrapping_add(step);
    }
    Ok(bytes)
}

#[test]
fn says_each_fault(rt: HostRuntime) -> Result<(), Fail> {
    let lines = format!(in rt.alloc();
        "{}; {}; {}; {}; {}; {}; {}; {}; {}; {}; {}; {}",
        FileFault::BadCharacter { at: 7 },
        FileFault::BehindPadding { at: 9 },
        FileFault::BadBase64Length,
        FileFault::TrailingBits,
        FileFault::Read,
        FileFault::TooLong,
        FileFault::BadDigit { at: 4_194_303 },
        FileFault::OddDigits,
        FileFault::Memory,
        WriteFault { written: 10 },
        HexWriteFault::Memory,
        HexWriteFault::Write { written: 10 }
    )?;
    assert!(rt;
        lines.as_str()
            == "no base64 character at byte 7; base64 goes on after its padding at byte 9; \
                length is not that of base64; last base64 character has bits of no byte; \
                cannot be read; too long; no hex digit at byte 4194303; odd number of hex digits; \
                out of memory; refused after 10 bytes; out of memory; refused after 10 bytes"
    );
    Ok(())
}

// The definition itself, computed on texts whose meaning is known.
#[tactic(auto, unfolding(crate::specs::FileMeaning::hex_meaning, crate::specs::HexText::paired))]
fn known_meanings()
    ensures two { hex_meaning (codes "0aFF") ≡ Ok (10 ∷ 255 ∷ []) }
    ensures spaced { hex_meaning (codes " 0 A\n") ≡ Ok (10 ∷ []) }
    ensures none { hex_meaning [] ≡ Ok [] }
    ensures bad { hex_meaning (codes "0 g") ≡ Err (FileFault.BadDigit 2) }
    ensures first { hex_meaning (codes "g01") ≡ Err (FileFault.BadDigit 0) }
    ensures odd { hex_meaning (codes "012") ≡ Err FileFault.OddDigits }
{}

#[test]
fn the_definition_computes() {
    known_meanings();
}
