//! The drill: wrapping under a toy cipher that swaps the halves of a block, so that answers can be
//! checked by hand.

ghost use Rattle.std.specs.Prelude.{◌≡◌, ◌↔◌, ℕ, Err};
ghost use Rattle.key_files.specs.declared.fault.FileFault.TheVariants as FileFaults;
ghost use Rattle.keywrap_cli.specs.ToyAndVectors.{DrillAnswer, TextAnswer, drill_meaning, text_fault_of};

use crate::convert::convert_into;
use crate::job::Direction;
use block_pair::SwapHalves;
use key_files::{FileFault, MAX_FILE, decode_hex};
use key_lines::LineFault;
use key_wrap_core::{AgreedForm, Form, InPlaceFault, Refusal};
use std::alloc::Global;
use thiserror::Error;

/// Why a drill was refused.
#[derive(Clone, Copy, Debug, PartialEq, Error)]
pub enum DrillFault {
    /// The text has more than `MAX_FILE` bytes.
    #[error("input: {}", FileFault::TooLong)]
    TooLong,
    /// The byte at offset `at` is the first that is neither a hex digit nor a space, tab, CR or LF.
    #[error("input: {}", FileFault::BadDigit {at: *at})]
    BadDigit { at: usize },
    #[error("input: {}", FileFault::OddDigits)]
    OddDigits,
    /// The length of the key or the wrapped key is not legal in this form.
    #[error("{}", InPlaceFault::BadLength)]
    BadLength,
    /// The input is not a wrapping in this form.
    #[error("{}", InPlaceFault::Integrity)]
    Integrity,
    #[error("{}", FileFault::Memory)]
    Memory,
}

/// Wraps or unwraps the bytes of a hex text with the toy cipher.
///
/// Returns the first error that applies: TooLong (more than `MAX_FILE` bytes of text), BadDigit,
/// OddDigits, Memory, BadLength, Memory, Integrity. The first three take no memory.
pub fn drill(
    alloc: Global,
    form: Form,
    direction: Direction,
    text: &str,
) -> Result<Vec<u8>, DrillFault>
    ensures answer { DrillAnswer direction form text.now result }
    ensures too_long { (result ≡ Err DrillFault.TooLong)
        ↔ (drill_meaning text.now ≡ Err FileFaults.TooLong) }
    ensures bad_digit { (at : ℕ) → (result ≡ Err (DrillFault.BadDigit at))
        ↔ (drill_meaning text.now ≡ Err (FileFaults.BadDigit at)) }
    ensures odd_digits { (result ≡ Err DrillFault.OddDigits)
        ↔ (drill_meaning text.now ≡ Err FileFaults.OddDigits) }
{
    let input = bytes_of(alloc, text)?;
    let conversion = direction.conversion(AgreedForm::by_default(form));
    let mut output = Vec::new(alloc);
    match convert_into(&conversion, &SwapHalves, &input, &mut output) {
        Ok(()) => Ok(output),
        Err(LineFault::Refused(Refusal::BadLength)) => Err(DrillFault::BadLength),
        Err(LineFault::Refused(Refusal::Integrity)) => Err(DrillFault::Integrity),
        // Memory: no other fault can occur.
        Err(_) => Err(DrillFault::Memory),
    }
}

// Decodes the text, if it is not longer than a file may be.
fn bytes_of(alloc: Global, text: &str) -> Result<Vec<u8>, DrillFault>
    ensures { TextAnswer text.now result }
{
    if text.len() > MAX_FILE {
        return Err(DrillFault::TooLong);
    }
    decode_hex(alloc, text.as_bytes()).map_err(text_fault)
}

// Read, TooLong and the faults of base64 cannot occur: the text is a slice, not too long, and read as
// hex.
fn text_fault(fault: FileFault) -> DrillFault
    ensures { result ≡ text_fault_of fault }
{
    match fault {
        FileFault::BadDigit { at } => DrillFault::BadDigit { at },
        FileFault::OddDigits => DrillFault::OddDigits,
        FileFault::Read
        | FileFault::TooLong
        | FileFault::BadCharacter { .. }
        | FileFault::BehindPadding { .. }
        | FileFault::BadBase64Length
        | FileFault::TrailingBits
        | FileFault::Memory => DrillFault::Memory,
    }
}
