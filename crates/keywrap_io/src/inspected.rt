//! A reader or writer that keeps the system's last error, and counts the bytes of each kind that a
//! reason needs.

ghost use Rattle.std.specs.Prelude.{◌≡◌};

use crate::line_lengths::LineLengths;
use std::io::{self, Read, Write};

/// Counts of the bytes that were read from a file or written to it, and the system's last error.
#[derive(Clone, Copy, Default)]
pub struct Inspection {
    /// The bytes that were read or written.
    pub bytes: u64,
    /// The bytes read that are hex digits.
    pub hex_digits: u64,
    /// The bytes read that are base64 characters in either alphabet, without padding.
    pub base64: u64,
    // The bytes read that are `-` or `_`, which base64url has and base64 has not.
    url_signs: u64,
    // The bytes read that are base64 padding or end a line.
    fill: u64,
    // The bytes read that do not occur in ASCII text.
    binary: u64,
    line_lengths: LineLengths,
    // Whether the last byte read is a newline.
    ends_in_newline: bool,
    /// The number of the system's last error.
    pub os_error: Option<i32>,
}

/// The notation in which the bytes of a file seem to be.
#[derive(Clone, Copy)]
pub enum Content {
    /// Hex digits.
    Hex,
    /// Base64, without `-` and `_`.
    Base64,
    /// Base64url, with `-` or `_`, which base64 has not.
    Base64Url,
    /// Some other text, or no bytes.
    Text,
    /// Some of the bytes do not occur in ASCII text.
    Binary,
}

/// A file, with an inspection of the bytes that are read from it or written to it.
#[derive(Drop)]
pub struct Inspected<F> {
    /// The file.
    pub file: F,
    /// The inspection of the bytes so far.
    pub inspection: Inspection,
    // Whether the bytes of each kind are counted.
    counts: bool,
}

impl<F> Inspected<F> {
    /// Starts the inspection of a file. The bytes of each kind are counted only if `counts` is set.
    pub fn new(file: F, counts: bool) -> Self
        ensures { result.file ≡ file }
    {
        Inspected {
            file,
            inspection: Inspection::default(),
            counts,
        }
    }
}

impl Inspection {
    /// Returns the notation in which the bytes seem to be. Line ends and base64 padding are ignored.
    pub fn content(&self) -> Content {
        let symbols = self.bytes.saturating_sub(self.fill);
        if self.binary > 0 {
            Content::Binary
        } else if symbols == 0 {
            Content::Text
        } else if symbols == self.hex_digits {
            Content::Hex
        } else if symbols != self.base64 {
            Content::Text
        } else if self.url_signs > 0 {
            Content::Base64Url
        } else {
            Content::Base64
        }
    }

    /// Returns whether the last byte is a newline.
    pub fn ends_in_newline(&self) -> bool {
        self.ends_in_newline
    }

    /// If there are two lines or more, and all have the same length, returns their number. Empty
    /// lines do not count.
    pub fn equal_lines(&self) -> Option<u64> {
        self.line_lengths.equal_lines()
    }

    // Keeps the outcome of a read or a write.
    fn note(&mut self, outcome: &io::Result<usize>) {
        match outcome {
            Ok(count) => self.bytes = self.bytes.saturating_add(*count as u64),
            Err(error) => self.os_error = error.raw_os_error(),
        }
    }

    // Counts the bytes of each kind.
    fn count(&mut self, bytes: &[u8]) {
        for byte in bytes {
            self.count_byte(*byte);
        }
    }

    fn count_byte(&mut self, byte: u8) {
        let is_url_sign = matches!(byte, b'-' | b'_');
        let is_base64 = is_url_sign || matches!(byte, b'+' | b'/') || byte.is_ascii_alphanumeric();
        let is_text = matches!(byte, b' '..=b'~' | b'\t' | b'\n' | b'\r');
        add(&mut self.hex_digits, byte.is_ascii_hexdigit());
        add(&mut self.base64, is_base64);
        add(&mut self.url_signs, is_url_sign);
        add(&mut self.fill, matches!(byte, b'=' | b'\n' | b'\r'));
        add(&mut self.binary, !is_text);
        self.line_lengths.add(byte);
        self.ends_in_newline = byte == b'\n';
    }
}

fn add(count: &mut u64, is_counted: bool) {
    *count = count.saturating_add(is_counted as u64);
}

impl<F: Read> Read for Inspected<F> {
    ghost remaining = { λ s. F.remaining s.file };

    fn read(&mut self, buf: &mut [u8]) -> io::Result<usize> {
        let outcome = self.file.read(buf);
        self.inspection.note(&outcome);
        if let (true, Ok(count)) = (self.counts, &outcome) {
            self.inspection.count(buf.get(..*count).unwrap_or(&[]));
        }
        outcome
    }
}

impl<F: Write> Write for Inspected<F> {
    ghost contents = { λ s. F.contents s.file };

    fn write(&mut self, buf: &[u8]) -> io::Result<usize> {
        let outcome = self.file.write(buf);
        self.inspection.note(&outcome);
        outcome
    }

    fn flush(&mut self) -> io::Result<()> {
        self.file.flush()
    }
}
