//! Decodes the text of a line, between the blanks at its ends.

ghost use Rattle.std.specs.Prelude.{◌≡◌, ◌+◌, ◌≤◌, length, IfErr};
ghost use Rattle.std.specs.List.{prefix_len, suffix_len};
ghost use Rattle.key_files.specs.Decoding.{DecodesText, fault_behind, place_of};
ghost use Rattle.key_lines.specs.LineMeaning.{blank_ended_meaning, is_blank, text_meaning, text_of};

use key_files::{FileFault, decode_digits_into, decode_symbols_into};

/// The notation of a line.
#[derive(Clone, Copy)]
pub enum TextNotation {
    /// Two hex digits for each byte.
    Hex,
    /// Base64 (RFC 4648). Either alphabet is read, with padding or without it. The alphabet of
    /// section 4 is written, with padding.
    Base64,
    /// Read as `Base64` is. The alphabet of section 5 is written, without padding.
    Base64Url,
}

/// Replaces `bytes` with the decoded bytes of a line.
///
/// Blanks are allowed only at its ends: a blank in the text is a wrong character. The offset of a
/// refused character counts from the start of the line.
pub(crate) fn decode_line(
    notation: TextNotation,
    line: &[u8],
    bytes: &mut Vec<u8>,
) -> Result<(), FileFault>
    requires { length line.now ≤ 4194304 }
    ensures { DecodesText (blank_ended_meaning notation line.now) bytes.new.items result }
{
    match decode_text(notation, text_of(line), bytes) {
        Ok(()) => Ok(()),
        Err(fault) => Err(fault_behind(blanks_before(line), fault)),
    }
}

fn decode_text(notation: TextNotation, text: &[u8], bytes: &mut Vec<u8>) -> Result<(), FileFault>
    ensures meaning { DecodesText (text_meaning notation text.now) bytes.new.items result }
    ensures within { IfErr result (λ fault. place_of fault ≤ length text.now) }
{
    match notation {
        TextNotation::Hex => decode_digits_into(text, bytes),
        TextNotation::Base64 | TextNotation::Base64Url => decode_symbols_into(text, bytes),
    }
}

// Adds `before` to the place of the fault.
fn fault_behind(before: usize, fault: FileFault) -> FileFault
    requires { before + place_of fault ≤ 4194304 }
    ensures { result ≡ fault_behind before fault }
{
    match fault {
        FileFault::BadDigit { at } => FileFault::BadDigit { at: before + at },
        FileFault::BadCharacter { at } => FileFault::BadCharacter { at: before + at },
        FileFault::BehindPadding { at } => FileFault::BehindPadding { at: before + at },
        FileFault::OddDigits
        | FileFault::BadBase64Length
        | FileFault::TrailingBits
        | FileFault::Read
        | FileFault::TooLong
        | FileFault::Memory => fault,
    }
}

// Returns the bytes between the blanks at the ends of a line.
fn text_of(line: &[u8]) -> &[u8]
    ensures { result.now ≡ text_of line.now }
{
    let rest = &line[blanks_before(line)..];
    &rest[..rest.len() - blanks_behind(rest)]
}

// Returns the number of blanks at the start of a line.
fn blanks_before(line: &[u8]) -> usize
    ensures count { result ≡ prefix_len is_blank line.now }
    ensures bound { result ≤ length line.now }
{
    line.iter().take_while(|c| is_blank(**c)).count()
}

// Returns the number of blanks at the end of a line.
fn blanks_behind(line: &[u8]) -> usize
    ensures count { result ≡ suffix_len is_blank line.now }
    ensures bound { result ≤ length line.now }
{
    line.iter().rev().take_while(|c| is_blank(**c)).count()
}

// Returns whether a byte is a space, a tab or a CR.
fn is_blank(c: u8) -> bool
    ensures { result ≡ is_blank c }
{
    matches!(c, b' ' | b'\t' | b'\r')
}
