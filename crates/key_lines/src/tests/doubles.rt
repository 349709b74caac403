//! A job and a log of refusals of the tests.

ghost use Rattle.std.specs.Prelude.{⊤};

use crate::{LineFault, LineJob, Note, RefusalLog, RefusedLine};
use key_files::print_hex;

/// Answers the bytes in hex, except for a single FF, which has no answer, and a single FE, for
/// which it has no memory. It notes NoKey on the answer to no bytes.
#[derive(Clone, Copy)]
pub struct Echo;

impl LineJob for Echo {
    type Refusal = u8;

    ghost answers = { λ _ _ _. ⊤ };

    fn answer(&self, bytes: &mut Vec<u8>, output: &mut Vec<u8>) -> Result<Note, LineFault<u8>> {
        match bytes.as_slice() {
            [0xff] => Err(LineFault::Refused(0xff)),
            [0xfe] => Err(LineFault::Memory),
            text => {
                let note = if text.is_empty() {
                    Note::NoKey
                } else {
                    Note::None
                };
                print_hex(text, output)?;
                Ok(note)
            }
        }
    }
}

/// Counts the refusals that it receives, and keeps the last.
#[derive(Drop)]
pub struct Told {
    pub count: u64,
    pub last: Option<RefusedLine<u8>>,
}

impl Told {
    pub fn new() -> Self {
        Told {
            count: 0,
            last: None,
        }
    }
}

impl RefusalLog<u8> for Told {
    fn receive(&mut self, refused: &RefusedLine<u8>) {
        self.count = self.count.saturating_add(1);
        self.last = Some(*refused);
    }
}
