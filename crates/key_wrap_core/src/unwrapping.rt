//! The checked unwrapping of the registers, wherever they lie: in a buffer after C0, or in one of
//! their own.

ghost use Rattle.std.specs.Prelude.{◌≡◌, ◌+◌, ◌++◌, ◌%◌, ◌^◌, [], length, take, All, Err, IfOk};
ghost use Rattle.block_pair.specs.Metered.{counted};
ghost use Rattle.key_wrap_core.specs.Words.{word_bytes};
ghost use Rattle.key_wrap_core.specs.Lengths.{IsPlainTextLength, IsPaddedTextLength};
ghost use Rattle.key_wrap_core.specs.Plain.{IsReserved};
ghost use Rattle.key_wrap_core.specs.BlockCalls.{block_calls};
ghost use Rattle.key_wrap_core.specs.Unwrapping.{Unwrapping};
ghost use Rattle.key_wrap_core.specs.BufferCalls.{UnwrappingEither, IsKeyBuffer};
ghost use Rattle.key_wrap_core.specs.Private.{EndsIn, EndsInEither};

use crate::agreed_form::AgreedForm;
use crate::checks::{decide, given_length, padded_difference};
use crate::faults::InPlaceFault;
use crate::forms::{Form, FoundKey};
use crate::found::{either, plain_difference};
use crate::machine::machine_unwrap;
use block_pair::{BlockPair, Meter};

// Unwraps C1 .. Cn in place, in the plain form under this initial value (RFC 3394, section 2.2.2). The
// registers become the key, or zeros if the check fails.
pub(crate) fn unwrap_registers<B: BlockPair>(
    meter: &mut Meter<B>,
    iv: u64,
    c0: u64,
    registers: &mut [u8],
) -> Result<(), InPlaceFault>
    requires length { IsPlainTextLength (8 + length registers.old) }
    requires free { ¬ IsReserved iv }
    ensures answer { let text = word_bytes c0 ++ registers.old in
        Unwrapping (IsPlainTextLength (length text)) (AgreedForm.Plain iv)
        (B.encrypted meter.old.pair) text (λ _. registers.new) result }
    ensures cleared { result ≡ Err InPlaceFault.Integrity → All (λ byte. byte ≡ 0) registers.new }
    ensures calls { meter.new ≡ counted (block_calls (8 + length registers.old)) meter.old }
{
    let found = machine_unwrap(meter, c0, registers);
    end_plain(found, iv, registers)
}

/// Keeps the registers that the steps led back to if the initial value found is `iv`, and clears them if
/// it is another.
pub fn end_plain(found: u64, iv: u64, registers: &mut [u8]) -> Result<(), InPlaceFault>
    requires length { IsPlainTextLength (8 + length registers.old) }
    requires free { ¬ IsReserved iv }
    ensures { EndsIn (AgreedForm.Plain iv) found registers.old registers.new
        (λ _. registers.new) result }
{
    decide(found ^ iv, registers)
}

// Unwraps C1 .. Cn in place, in the padded form (RFC 5649, section 4.2). The registers become the key
// and its padding, or zeros if the check fails. Returns the length of the key.
pub(crate) fn unwrap_padded_registers<B: BlockPair>(
    meter: &mut Meter<B>,
    c0: u64,
    registers: &mut [u8],
) -> Result<usize, InPlaceFault>
    requires { IsPaddedTextLength (8 + length registers.old) }
    ensures answer { let text = word_bytes c0 ++ registers.old in
        Unwrapping (IsPaddedTextLength (length text)) AgreedForm.Padded
        (B.encrypted meter.old.pair) text (λ m. take m registers.new) result }
    ensures key { IfOk result (λ m. IsKeyBuffer [] (take m registers.new) m registers.new) }
    ensures cleared { result ≡ Err InPlaceFault.Integrity → All (λ byte. byte ≡ 0) registers.new }
    ensures calls { meter.new ≡ counted (block_calls (8 + length registers.old)) meter.old }
{
    let found = machine_unwrap(meter, c0, registers);
    end_padded(found, registers)
}

/// Keeps the registers that the steps led back to if they hold a key under the initial value found, and
/// clears them if not. Returns the length of the key.
pub fn end_padded(found: u64, registers: &mut [u8]) -> Result<usize, InPlaceFault>
    requires { IsPaddedTextLength (8 + length registers.old) }
    ensures ends { EndsIn AgreedForm.Padded found registers.old registers.new
        (λ m. take m registers.new) result }
    ensures key { IfOk result (λ m. IsKeyBuffer [] (take m registers.new) m registers.new) }
{
    decide(padded_difference(found, registers), registers)?;
    Ok(given_length(found) as usize)
}

// Unwraps C1 .. Cn in place, in either form. The registers become the key, with its padding in the padded
// form, or zeros if the check fails. For two words and more both forms unwrap by the same steps.
pub(crate) fn unwrap_any_registers<B: BlockPair>(
    meter: &mut Meter<B>,
    iv: u64,
    c0: u64,
    registers: &mut [u8],
) -> Result<FoundKey, InPlaceFault>
    requires length { IsPaddedTextLength (8 + length registers.old) }
    requires free { ¬ IsReserved iv }
    ensures unwraps { let text = word_bytes c0 ++ registers.old in
        UnwrappingEither (IsPaddedTextLength (length text)) iv
        (B.encrypted meter.old.pair) text (λ found. take found.len registers.new) result }
    ensures key { IfOk result (λ found.
        IsKeyBuffer [] (take found.len registers.new) found.len registers.new) }
    ensures cleared { result ≡ Err InPlaceFault.Integrity → All (λ byte. byte ≡ 0) registers.new }
    ensures calls { meter.new ≡ counted (block_calls (8 + length registers.old)) meter.old }
{
    let found = machine_unwrap(meter, c0, registers);
    end_any(found, iv, registers)
}

/// Keeps the registers that the steps led back to if they hold a key in either form under the initial value
/// found, and clears them if not.
pub fn end_any(found: u64, iv: u64, registers: &mut [u8]) -> Result<FoundKey, InPlaceFault>
    requires length { IsPaddedTextLength (8 + length registers.old) }
    requires free { ¬ IsReserved iv }
    ensures ends { EndsInEither iv found registers.old registers.new result }
    ensures key { IfOk result (λ found.
        IsKeyBuffer [] (take found.len registers.new) found.len registers.new) }
{
    let padded = padded_difference(found, registers);
    let plain = plain_difference(iv, found, registers);
    decide(either(plain, padded), registers)?;
    Ok(found_key(padded, found, registers.len()))
}

// The form and the length of the key that was found. The caller learns them. It is a padded key
// exactly if the difference from one is 0.
fn found_key(padded: u64, found: u64, len: usize) -> FoundKey
    ensures padded { padded ≡ 0 → (result.form ≡ Form.Padded) × (result.len ≡ found % 2 ^ 32) }
    ensures plain { ¬ (padded ≡ 0) → (result.form ≡ Form.Plain) × (result.len ≡ len) }
{
    match decide(padded, &mut []) {
        Ok(()) => FoundKey {
            form: Form::Padded,
            len: given_length(found) as usize,
        },
        Err(_) => FoundKey {
            form: Form::Plain,
            len,
        },
    }
}
