//! Hints on likely mistakes: a file in another notation, a KEK that ends in a newline, KEKs that are
//! exchanged.

use key_wrap_core::{AgreedForm, InitialValue};
use keywrap_cli::{Conversion, Notation, What};
use keywrap_io::{Content, Inspection, Reason};

const OMIT_RAW: &str = "looks like hex: omit --raw to read it as hex";

const ENDS_IN_NEWLINE: &str = "ends in a newline, which counts";

const USE_BASE64_KEK: &str = "looks like base64: use --base64-kek to read it as base64";

/// Returns a hint on a KEK file that was read as raw bytes.
pub fn raw_kek_hint(notation: Notation, kek: &Inspection) -> Option<&'static str> {
    match notation {
        Notation::Raw => raw_hint(kek),
        Notation::Hex | Notation::Base64 | Notation::Base64Url => None,
    }
}

fn raw_hint(kek: &Inspection) -> Option<&'static str> {
    let has_newline_too_much = kek.ends_in_newline() && is_kek_length(kek.bytes.saturating_sub(1));
    let is_base64_kek = is_kek_length(kek.base64.saturating_mul(3) / 4);
    let is_hex_kek = is_kek_length(kek.hex_digits / 2);
    match kek.content() {
        Content::Hex if has_newline_too_much && !is_hex_kek => Some(ENDS_IN_NEWLINE),
        Content::Hex => Some("looks like hex: omit --raw-kek to read it as hex"),
        Content::Base64 | Content::Base64Url if has_newline_too_much && is_base64_kek => {
            Some("ends in a newline, or is base64: --base64-kek reads that")
        }
        _ if has_newline_too_much => Some(ENDS_IN_NEWLINE),
        Content::Base64 | Content::Base64Url => Some(USE_BASE64_KEK),
        Content::Text | Content::Binary => None,
    }
}

/// Returns a hint on a KEK file that is not in this notation.
pub fn kek_notation_hint(notation: Notation, kek: &Inspection) -> Option<&'static str> {
    match (notation, kek.content()) {
        (Notation::Hex, Content::Base64 | Content::Base64Url) if !is_mostly_hex(kek) => {
            Some("looks like base64; use --base64-kek")
        }
        (Notation::Hex | Notation::Base64 | Notation::Base64Url, Content::Binary)
            if is_kek_length(kek.bytes) => { Some("looks like raw bytes; use --raw-kek") }
        _ => None,
    }
}

/// Returns a hint on an input that is not in this notation. Raw bytes get none: text in another
/// encoding looks like them.
pub fn input_notation_hint(notation: Notation, input: &Inspection) -> Option<&'static str> {
    match (notation, input.content()) {
        (Notation::Hex, _) if is_mostly_hex(input) => None,
        (Notation::Hex, Content::Base64) => Some("looks like base64; use --base64"),
        (Notation::Hex, Content::Base64Url) => { Some("looks like base64url; use --base64url") }
        _ => None,
    }
}

/// Returns a hint on an input that was read as raw bytes and refused.
pub fn raw_input_hint(notation: Notation, input: &Inspection) -> Option<&'static str> {
    match (notation, input.content()) {
        (Notation::Raw, Content::Hex) => Some(OMIT_RAW),
        (Notation::Raw, Content::Base64) => {
            Some("looks like base64: use --base64 to read it as base64")
        }
        (Notation::Raw, Content::Base64Url) => {
            Some("looks like base64url: use --base64url to read it as base64url")
        }
        _ => None,
    }
}

/// Returns the likely mistake in an input that was wrapped as one key. Raw bytes that look like
/// base64 are not taken for a mistake: they may be a password.
pub fn wrapped_key_hint(notation: Notation, key: &Inspection) -> Option<Reason> {
    match (notation, key.content()) {
        (Notation::Raw, Content::Hex) => Some(Reason::Text(OMIT_RAW)),
        _ => equal_lines(notation, key).map(Reason::EqualLines),
    }
}

/// If an input of text has several lines, all of one length, returns their number.
pub fn equal_lines(notation: Notation, input: &Inspection) -> Option<u64> {
    match notation {
        Notation::Raw => None,
        Notation::Hex | Notation::Base64 | Notation::Base64Url => input.equal_lines(),
    }
}

/// Returns a hint on a wrapped key that failed its check.
pub fn integrity_hint(what: &What) -> Option<&'static str> {
    match what {
        // Under swapped KEKs such a run refuses no key: it copies or rewraps each to the old KEK.
        What::Rewrap { pass_new: true, .. } => None,
        What::Rewrap {
            pass_new: false,
            ..
        } => { Some("it may be under the new KEK already, or the KEKs are swapped") }
        What::Convert(Conversion::Unwrap(form)) if !has_agreed_iv(form) => {
            Some("try keywrap check")
        }
        What::Convert(_) | What::Check(_) => None,
    }
}

/// Returns whether both ends agreed on an initial value that is not the default one.
pub fn has_agreed_iv(form: &AgreedForm) -> bool {
    match form {
        AgreedForm::Plain(iv) => *iv != InitialValue::default(),
        AgreedForm::Padded => false,
    }
}

// Returns whether at least three quarters of the base64 characters are hex digits; in base64 about a
// third of them are. Hex with a wrong digit may be base64 of another key, which must not be taken.
fn is_mostly_hex(seen: &Inspection) -> bool {
    seen.hex_digits.saturating_mul(4) >= seen.base64.saturating_mul(3)
}

fn is_kek_length(bytes: u64) -> bool {
    matches!(bytes, 16 | 24 | 32)
}
