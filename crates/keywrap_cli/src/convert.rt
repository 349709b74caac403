//! Wraps and unwraps under a block permutation.

ghost use Rattle.std.specs.Prelude.{◌≡◌, ◌↔◌, length, IsTrue};
ghost use Rattle.key_lines.specs.LineAnswers.{made};
ghost use Rattle.keywrap_cli.specs.JobAnswers.{HasRoom, IsInputLength, IsMade, MakesConversion, job_refusal};

use crate::what::Conversion;
use block_pair::{BlockPair, Meter};
use key_lines::LineFault;
use key_wrap_core::{
    AgreedForm, InPlaceFault, Refusal, WORD, padded_text_length_ok, text_len, unwrap_any_into,
    unwrap_into_with, unwrap_padded_into, wrap_into_with, wrap_padded_into,
};

/// Replaces `output` with the wrapping of a key, or with the key of a wrapping. The only errors are
/// Refused, with BadLength or Integrity, and Memory.
pub fn convert_into<B: BlockPair>(
    conversion: &Conversion,
    pair: &B,
    input: &[u8],
    output: &mut Vec<u8>,
) -> Result<(), LineFault<Refusal>>
    ensures { IsMade conversion.now (B.encrypted pair.now) input.now output.new.items result }
{
    if !is_input_length(conversion, input.len()) {
        return Err(LineFault::Refused(Refusal::BadLength));
    }
    output.resize(room_for(conversion, input.len()), 0)?;
    match convert_in_room(conversion, &mut Meter::new(pair), input, output) {
        Ok(()) => Ok(()),
        Err(fault) => Err(LineFault::Refused(job_refusal(fault))),
    }
}

// Returns a job's refusal for the fault of a conversion.
fn job_refusal(fault: InPlaceFault) -> Refusal
    ensures { result ≡ job_refusal fault }
{
    match fault {
        InPlaceFault::BadLength => Refusal::BadLength,
        InPlaceFault::Integrity => Refusal::Integrity,
    }
}

fn is_input_length(conversion: &Conversion, len: usize) -> bool
    ensures { IsTrue result ↔ IsInputLength conversion.now len }
{
    match conversion {
        Conversion::Wrap(form) => form.takes_key(len),
        Conversion::Unwrap(form) => form.takes_text(len),
        // The padded form has all legal lengths of the plain form.
        Conversion::UnwrapAny(_) => padded_text_length_ok(len),
    }
}

// Returns the room that the call for this conversion needs.
fn room_for(conversion: &Conversion, len: usize) -> usize
    requires { IsInputLength conversion.now len }
    ensures { HasRoom conversion.now len result }
{
    match conversion {
        Conversion::Wrap(AgreedForm::Plain(_)) => len + WORD,
        Conversion::Wrap(AgreedForm::Padded) => text_len(len),
        Conversion::Unwrap(AgreedForm::Plain(_)) => len - WORD,
        Conversion::Unwrap(AgreedForm::Padded) => len - WORD,
        Conversion::UnwrapAny(_) => len - WORD,
    }
}

// Converts into `output`, which has this room.
fn convert_in_room<B: BlockPair>(
    conversion: &Conversion,
    meter: &mut Meter<B>,
    input: &[u8],
    output: &mut Vec<u8>,
) -> Result<(), InPlaceFault>
    requires { HasRoom conversion.now (length input.now) (length output.old.items) }
    ensures { MakesConversion conversion.now (B.encrypted meter.old.pair)
        input.now (made output.new.items result) }
{
    match conversion {
        Conversion::Wrap(form) => match form {
            AgreedForm::Plain(iv) => wrap_into_with(meter, iv, input, output),
            AgreedForm::Padded => wrap_padded_into(meter, input, output),
        },
        Conversion::Unwrap(form) => match form {
            AgreedForm::Plain(iv) => unwrap_into_with(meter, iv, input, output),
            AgreedForm::Padded => match unwrap_padded_into(meter, input, output) {
                Ok(len) => {
                    output.truncate(len);
                    Ok(())
                }
                Err(refusal) => Err(refusal),
            },
        },
        Conversion::UnwrapAny(iv) => match unwrap_any_into(meter, iv, input, output) {
            Ok(found) => {
                output.truncate(found.len);
                Ok(())
            }
            Err(refusal) => Err(refusal),
        },
    }
}
