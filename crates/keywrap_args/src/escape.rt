//! Text as a terminal may show it.

use std::fmt;

/// Text with `\x1b` for an escape, `\u{202e}` for a character that reverses the text, and so on.
#[derive(Clone, Copy)]
pub struct Escaped<'a>(pub &'a str);

impl fmt::Display for Escaped<'_> {
    fn fmt<W: fmt::Write>(&self, f: &mut fmt::Formatter<W>) -> fmt::Result {
        for c in self.0.chars() {
            let code = c as u32;
            if c.is_control() {
                write!(f, "\\x{code:02x}")?;
            } else if is_invisible(code) {
                write!(f, "\\u{{{code:x}}}")?;
            } else {
                f.write_char(c)?;
            }
        }
        Ok(())
    }
}

// Unicode's format characters, and its separators of lines and paragraphs. A terminal hides them
// or reorders the text around them.
fn is_invisible(code: u32) -> bool {
    matches!(
        code,
        0xad | 0x61c
            | 0x180e
            | 0x200b..=0x200f
            | 0x2028..=0x202e
            | 0x2060..=0x206f
            | 0xfeff
            | 0xfff9..=0xfffb
            | 0xe0001
            | 0xe0020..=0xe007f
    )
}
