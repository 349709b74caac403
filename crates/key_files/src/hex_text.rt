//! The hex notation.

ghost use Rattle.std.specs.Prelude.{◌≡◌, ◌≢◌, ◌<◌, ◌≤◌, ◌↔◌, length, IsOk, IfErr, IfOk, IfSome};
ghost use Rattle.std.specs.Prelude.{Err, Ok, true};
ghost use Rattle.key_files.specs.Decoding.{Decodes, DecodesHex, place_of};
ghost use Rattle.key_files.specs.HexText.{digits_of, first_bad, is_allowed_blank, is_skipped};
ghost use Rattle.key_files.specs.FileMeaning.{digit_text_meaning, hex_meaning};
ghost use Rattle.key_files.specs.declared.fault.FileFault.{FileFault};

use crate::digit::{byte_of, is_hex_digit};
use crate::fault::FileFault;
use std::alloc::{AllocError, Allocator};

// Whether a text may have blanks: space, tab, CR and LF.
#[derive(Clone, Copy)]
pub(crate) enum Blanks {
    Allowed,
    Refused,
}

/// Decodes the hex text `text`: digits of either case, in pairs. Space, tab, CR and LF are allowed
/// anywhere.
///
/// Returns the first error that applies: BadDigit, OddDigits, Memory. The first two take no memory.
#[tactic(auto, unfolding(crate::specs::FileMeaning::hex_meaning))]
pub fn decode_hex<A: Allocator + Copy>(alloc: A, text: &[u8]) -> Result<Vec<u8, A>, FileFault>
    ensures { DecodesHex text.now result }
{
    if let Some(at) = first_bad(Blanks::Allowed, text) {
        return Err(FileFault::BadDigit { at });
    }
    if digit_count(text) % 2 == 1 {
        return Err(FileFault::OddDigits);
    }
    let digits = digits(alloc, text)?;
    let mut bytes = Vec::new(alloc);
    // An even number of digits is refused only for memory.
    match decode_digits_into(&digits, &mut bytes) {
        Ok(()) => Ok(bytes),
        Err(_) => Err(FileFault::Memory),
    }
}

/// Replaces `bytes` with the bytes that a text of digits denotes, without blanks. Allocates only if
/// `bytes` is too small.
///
/// Returns the first error that applies: BadDigit, OddDigits, Memory.
#[tactic(auto, unfolding(crate::specs::FileMeaning::digit_text_meaning))]
pub fn decode_digits_into<A: Allocator>(
    text: &[u8],
    bytes: &mut Vec<u8, A>,
) -> Result<(), FileFault>
    ensures meaning { Decodes (digit_text_meaning text.now) bytes.new.items result }
    ensures within { IfErr result (λ fault. place_of fault ≤ length text.now) }
{
    if bytes.resize(text.len() / 2, 0).is_ok() && decode_strict(text, bytes) {
        return Ok(());
    }
    match first_bad(Blanks::Refused, text) {
        Some(at) => Err(FileFault::BadDigit { at }),
        None if text.len() % 2 == 1 => Err(FileFault::OddDigits),
        None => Err(FileFault::Memory),
    }
}

// Decodes a text of digits into `bytes`, and returns whether it has only digits, two for each byte.
// It is read to its end, so that no branch depends on a digit.
fn decode_strict(text: &[u8], bytes: &mut [u8]) -> bool
    ensures { result ≡ true → digit_text_meaning text.now ≡ Ok bytes.new }
{
    if text.len() % 2 != 0 || text.len() / 2 != bytes.len() {
        return false;
    }
    let mut all_digits = true;
    for i in 0..bytes.len() {
        let high = text[2 * i];
        let low = text[2 * i + 1];
        all_digits &= is_hex_digit(high) & is_hex_digit(low);
        bytes[i] = byte_of(high, low);
    }
    all_digits
}

// Space, tab, CR and LF are allowed between digits.
pub(crate) fn is_skipped(c: u8) -> bool
    ensures { result ≡ is_skipped c }
{
    matches!(c, b' ' | b'\t' | b'\r' | b'\n')
}

pub(crate) fn is_allowed_blank(blanks: Blanks, c: u8) -> bool
    ensures { result ≡ is_allowed_blank blanks c }
{
    match blanks {
        Blanks::Allowed => is_skipped(c),
        Blanks::Refused => false,
    }
}

fn first_bad(blanks: Blanks, text: &[u8]) -> Option<usize>
    ensures place { result ≡ first_bad blanks text.now }
    ensures bound { IfSome result (λ at. at < length text.now) }
{
    text.iter()
        .position(|c| !(is_allowed_blank(blanks, *c) || is_hex_digit(*c)))
}

fn digit_count(text: &[u8]) -> usize
    ensures { result ≡ length (digits_of text.now) }
{
    text.iter().filter(|c| is_hex_digit(**c)).count()
}

fn digits<A: Allocator>(alloc: A, text: &[u8]) -> Result<Vec<u8, A>, AllocError>
    ensures { IfOk result (λ v. v.items ≡ digits_of text.now) }
{
    let mut digits = text.to_vec(alloc)?;
    digits.retain(|c| is_hex_digit(*c));
    Ok(digits)
}
