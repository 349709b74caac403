//! The base64 notation.

ghost use Rattle.std.specs.Prelude.{◌≡◌, ◌<◌, ◌≤◌, ℕ, List, length, true, None, Err};
ghost use Rattle.std.specs.Prelude.{IfErr, IfOk, IfSome, IsOk, Ok, OnOk, vec_capacity};
ghost use Rattle.base64.specs.GeneralPurpose.{IsBytes, SameEngine, encode_of, encoded_size_of};
ghost use Rattle.key_files.specs.Base64Text.{IsBase64Of, alphabet_of, base64_fault_of, base64_line};
ghost use Rattle.key_files.specs.Base64Text.{base64_meaning, before_padding, encoding_of};
ghost use Rattle.key_files.specs.Base64Text.{first_foreign, first_no_padding, first_of_one};
ghost use Rattle.key_files.specs.Base64Text.{is_allowed, is_only_in, is_standard};
ghost use Rattle.key_files.specs.Base64Text.{is_url_safe, kept, misplaced, misplaced_symbol};
ghost use Rattle.key_files.specs.Base64Text.{output_encoding, symbol_text_meaning, symbols_meaning};
ghost use Rattle.key_files.specs.Decoding.{DecodesText, place_of};
ghost use Rattle.key_files.specs.HexText.{is_allowed_blank};
ghost use Rattle.key_files.specs.declared.fault.FileFault.{FileFault};
ghost use Rattle.key_files.specs.FileReading.{IsMeaning, answer_of};
ghost use Rattle.key_files.specs.Writing.{PrintsAs};

use crate::fault::FileFault;
use crate::hex_text::{Blanks, is_allowed_blank, is_skipped};
use base64::engine::GeneralPurpose;
use base64::engine::general_purpose::{STANDARD, STANDARD_NO_PAD, URL_SAFE, URL_SAFE_NO_PAD};
use base64::{DecodeAllocError, DecodeError, encoded_len};
use std::alloc::{AllocError, Allocator};

/// An alphabet of base64 (RFC 4648).
#[derive(Clone, Copy)]
pub enum Alphabet {
    /// The alphabet of section 4, with `+` and `/`.
    Standard,
    /// The alphabet of section 5, with `-` and `_`.
    UrlSafe,
}

/// Replaces `bytes` with the bytes that a base64 text without blanks denotes.
///
/// Returns the first error that applies: BadCharacter or BehindPadding, Memory, BadBase64Length or
/// TrailingBits.
#[tactic(auto, unfolding(crate::specs::Base64Text::symbol_text_meaning))]
pub fn decode_symbols_into(text: &[u8], bytes: &mut Vec<u8>) -> Result<(), FileFault>
    ensures meaning { DecodesText (symbol_text_meaning text.now) bytes.new.items result }
    ensures within { IfErr result (λ fault. place_of fault ≤ length text.now) }
    ensures encoding { OnOk result (IsBase64Of text.now bytes.new.items) }
    ensures accepted { (encoded : List ℕ) → IsBytes encoded → IsBase64Of text.now encoded
        → symbol_text_meaning text.now ≡ Ok encoded }
    ensures memory { result ≡ Err FileFault.Memory → misplaced_symbol text.now ≡ None }
{
    if let Some(fault) = misplaced(Blanks::Refused, text) {
        return Err(fault);
    }
    bytes.clear();
    match encoding_of(text).decode_vec(text, bytes) {
        Ok(()) => Ok(()),
        Err(DecodeAllocError::OutOfMemory) => Err(FileFault::Memory),
        Err(DecodeAllocError::DecodeError(error)) => Err(fault_of(error)),
    }
}

// Decodes a base64 text with blanks anywhere.
//
// Returns the first error that applies, in the order of `decode_symbols_into`.
#[tactic(auto, unfolding(crate::specs::Base64Text::base64_meaning))]
pub(crate) fn decode_base64<A: Allocator + Copy>(
    alloc: A,
    text: &[u8],
) -> Result<Vec<u8, A>, FileFault>
    ensures meaning { IsMeaning (answer_of result) (base64_meaning text.now) }
    ensures unread { ¬ (result ≡ Err FileFault.Read) }
{
    if let Some(fault) = misplaced(Blanks::Allowed, text) {
        return Err(fault);
    }
    let kept = kept(alloc, text)?;
    match encoding_of(&kept).decode(alloc, &kept) {
        Ok(bytes) => Ok(bytes),
        Err(DecodeAllocError::OutOfMemory) => Err(FileFault::Memory),
        Err(DecodeAllocError::DecodeError(error)) => Err(fault_of(error)),
    }
}

fn kept<A: Allocator>(alloc: A, text: &[u8]) -> Result<Vec<u8, A>, AllocError>
    ensures { IfOk result (λ v. v.items ≡ kept text.now) }
{
    let mut kept = text.to_vec(alloc)?;
    kept.retain(|c| !is_skipped(*c));
    Ok(kept)
}

/// Replaces `line` with the line of base64 output: in the standard alphabet with padding, or in the
/// URL-safe alphabet without it. Fails only if the capacity of `line` is too small.
pub fn print_base64(alphabet: Alphabet, bytes: &[u8], line: &mut Vec<u8>) -> Result<(), AllocError>
    ensures whole { OnOk result (line.new.items ≡ base64_line alphabet bytes.now) }
    ensures prints { PrintsAs base64_meaning (base64_line alphabet bytes.now) bytes.now }
    ensures enough { encoded_size_of (output_encoding alphabet) (length bytes.now)
        < vec_capacity line.old → IsOk result }
{
    let padded = output_encoding(alphabet).config().encode_padding();
    let Some(len) = encoded_len(bytes.len(), padded) else {
        return Err(AllocError);
    };
    line.resize(len, 0)?;
    if !fills(alphabet, bytes, line) {
        return Err(AllocError);
    }
    line.push(b'\n')?;
    Ok(())
}

// Encodes the bytes into the output. Returns whether their encoding fills it exactly.
fn fills(alphabet: Alphabet, bytes: &[u8], output: &mut [u8]) -> bool
    ensures whole { result ≡ true → output.new ≡ encode_of (output_encoding alphabet) bytes.now }
    ensures fits { length output.old ≡ encoded_size_of (output_encoding alphabet)
        (length bytes.now) → result ≡ true }
{
    match output_encoding(alphabet).encode_slice(bytes, output) {
        Ok(len) => len == output.len(),
        Err(_) => false,
    }
}

// Returns the encoding in which bytes are written.
fn output_encoding(alphabet: Alphabet) -> GeneralPurpose
    ensures { SameEngine result (output_encoding alphabet) }
{
    if let Alphabet::Standard = alphabet {
        return STANDARD;
    }
    URL_SAFE_NO_PAD
}

// Returns the fault of a text whose characters are all allowed.
fn fault_of(error: DecodeError) -> FileFault
    ensures fault { result ≡ base64_fault_of error }
    ensures placeless { place_of result ≡ 0 }
{
    match error {
        DecodeError::InvalidLastSymbol { .. } => FileFault::TrailingBits,
        _ => FileFault::BadBase64Length,
    }
}

// Returns the first character that is not allowed at its place.
fn misplaced(blanks: Blanks, text: &[u8]) -> Option<FileFault>
    ensures first { result ≡ misplaced blanks text.now }
    ensures within { IfSome result (λ fault. place_of fault ≤ length text.now) }
{
    if let Some(at) = first_foreign(blanks, text) {
        return Some(FileFault::BadCharacter { at });
    }
    let before = before_padding(text);
    let Some(at) = first_no_padding(blanks, &text[before..]) else {
        return None;
    };
    Some(FileFault::BehindPadding { at: before + at })
}

fn first_foreign(blanks: Blanks, text: &[u8]) -> Option<usize>
    ensures place { result ≡ first_foreign blanks text.now }
    ensures bound { IfSome result (λ at. at < length text.now) }
{
    let alphabet = alphabet_of(text);
    text.iter().position(|c| !is_allowed(blanks, alphabet, *c))
}

fn first_no_padding(blanks: Blanks, text: &[u8]) -> Option<usize>
    ensures place { result ≡ first_no_padding blanks text.now }
    ensures bound { IfSome result (λ at. at < length text.now) }
{
    text.iter()
        .position(|c| !(*c == b'=' || is_allowed_blank(blanks, *c)))
}

fn before_padding(text: &[u8]) -> usize
    ensures count { result ≡ before_padding text.now }
    ensures bound { result ≤ length text.now }
{
    text.iter().take_while(|c| **c != b'=').count()
}

// Returns whether a character is allowed in a text of this alphabet.
fn is_allowed(blanks: Blanks, alphabet: Alphabet, c: u8) -> bool
    ensures { result ≡ is_allowed blanks alphabet c }
{
    match c {
        b'=' | b'A'..=b'Z' | b'a'..=b'z' | b'0'..=b'9' => true,
        _ => is_only_in(alphabet, c) || is_allowed_blank(blanks, c),
    }
}

// Returns whether a character is in this alphabet, and not in the other one.
fn is_only_in(alphabet: Alphabet, c: u8) -> bool
    ensures { result ≡ is_only_in alphabet c }
{
    match alphabet {
        Alphabet::Standard => is_standard(c),
        Alphabet::UrlSafe => is_url_safe(c),
    }
}

// Returns the alphabet of the first character that is in only one alphabet.
fn alphabet_of(text: &[u8]) -> Alphabet
    ensures { result ≡ alphabet_of text.now }
{
    match first_of_one(text) {
        Some(at) if is_url_safe(text[at]) => Alphabet::UrlSafe,
        _ => Alphabet::Standard,
    }
}

fn first_of_one(text: &[u8]) -> Option<usize>
    ensures place { result ≡ first_of_one text.now }
    ensures bound { IfSome result (λ at. at < length text.now) }
{
    text.iter().position(|c| is_standard(*c) || is_url_safe(*c))
}

fn is_standard(c: u8) -> bool
    ensures { result ≡ is_standard c }
{
    c == b'+' || c == b'/'
}

fn is_url_safe(c: u8) -> bool
    ensures { result ≡ is_url_safe c }
{
    c == b'-' || c == b'_'
}

// Returns the encoding of a text, by its alphabet and its padding. Each arm has its own `return`:
// after a join the tables of the engine would have to be proved again.
fn encoding_of(text: &[u8]) -> GeneralPurpose
    ensures { SameEngine result (encoding_of text.now) }
{
    let padded = before_padding(text) < text.len();
    match alphabet_of(text) {
        Alphabet::Standard if padded => return STANDARD,
        Alphabet::Standard => return STANDARD_NO_PAD,
        Alphabet::UrlSafe if padded => return URL_SAFE,
        Alphabet::UrlSafe => return URL_SAFE_NO_PAD,
    }
}
