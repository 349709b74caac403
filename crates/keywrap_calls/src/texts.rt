//! The texts of statuses.

ghost use Rattle.std.specs.Prelude.{◌≡◌, ◌<◌, length};
ghost use Rattle.keywrap_calls.specs.StatusTexts.{status_text_of, fitting, begun_with};

use crate::status::{BAD_IV, BAD_KEK, BAD_LENGTH, DONE, INTEGRITY, KEY_NOT_PLAIN, NO_MEMORY};

/// Writes the text of `status` into `text`, cut to fit, and a zero byte after it. Writes nothing if
/// `text` is empty. Returns the length of the whole text without the zero: if it is not less than
/// the buffer's length, the text was cut.
pub fn status_text(status: i32, text: &mut [u8]) -> usize
    ensures whole_length { result ≡ length (status_text_of status) }
    ensures short { result < 80 }
    ensures written { 0 < length text.old
        → text.new ≡ begun_with (fitting (status_text_of status) text.old) text.old }
{
    let words = words_of(status);
    if let Some(room) = text.len().checked_sub(1) {
        let cut = room.min(words.len());
        text[..cut].copy_from_slice(&words[..cut]);
        text[cut] = 0;
    }
    words.len()
}

// The text of a status.
fn words_of(status: i32) -> &'static [u8]
    ensures text { result.now ≡ status_text_of status }
    ensures short { length result.now < 80 }
{
    match status {
        DONE => b"done",
        BAD_IV => b"initial value is not 8 bytes, or is reserved for the padded form",
        BAD_KEK => b"key length is not 16, 24 or 32 bytes",
        BAD_LENGTH => b"bad length",
        INTEGRITY => b"integrity check failed",
        NO_MEMORY => b"out of memory",
        KEY_NOT_PLAIN => b"no plain key has the length of the key",
        _ => b"unknown status",
    }
}
