//! Rewrapping in the caller's buffer: from one pair to another, with the form kept or changed, and
//! past what is new already. It takes no memory, and a refusal leaves the buffer as it was.

ghost use Rattle.std.specs.Prelude.{◌≡◌, ◌↔◌, ℕ, ◌+◌, ◌*◌, ◌++◌, List, length, drop, false, Bool, Result, IsTrue, IsOk, IsErr, IfOk, IfErr};
ghost use Rattle.block_pair.specs.Metered.{counted};
ghost use Rattle.key_wrap_core.specs.Words.{word_bytes};
ghost use Rattle.key_wrap_core.specs.Lengths.{IsPaddedTextLength};
ghost use Rattle.key_wrap_core.specs.Rewrap.{HasFault, IsFrom, IsOldLength, IsRewrapping, RewrapResults};
ghost use Rattle.key_wrap_core.specs.Rewrap.{to_form, to_itself};
ghost use Rattle.key_wrap_core.specs.Forms.{IsKeyLengthAs};
ghost use Rattle.key_wrap_core.specs.Found.{IsIvAndKey};
ghost use Rattle.key_wrap_core.specs.BlockCalls.{block_calls};
ghost use Rattle.key_wrap_core.specs.BufferCalls.{RewrapCalls};
ghost use Rattle.key_wrap_core.specs.Private.{Fits, IsFound, TellsKey, as_fresh};

use crate::agreed_form::AgreedForm;
use crate::checks::{DEFAULT_IV, given_length, is_zero, padded_difference, padded_iv};
use crate::faults::Refusal;
use crate::found::{decide_or_restore, either, plain_difference, unwrap_buffer, wrap_buffer};
use crate::lengths::{WORD, padded_text_length_ok};
use block_pair::{BlockPair, Meter};

/// The old and the new form of a rewrapping.
#[derive(Clone, Copy, Debug)]
pub enum RewrapForms {
    /// The form of the wrapped key, which is kept. The initial value is the default.
    Kept,
    /// The old form and the new one, which may be the same.
    Changed {
        /// The form of the old wrapped key.
        old: AgreedForm,
        /// The form of the new wrapped key.
        new: AgreedForm,
    },
}

/// What a rewrapping made.
#[derive(Clone, Copy, Debug, PartialEq, Eq)]
pub enum Rewrapped {
    /// The buffer holds the new wrapped key.
    Fresh,
    /// The buffer was the new wrapped key already.
    AlreadyNew,
}

/// Rewraps the wrapped key in the buffer in place, from the old pair to the new one. With
/// `pass_new`, a wrapped key that is already under the new pair, in the new form, is left as it is.
/// The old pair is tried first. After a refusal the buffer is what it was.
pub fn rewrap<O: BlockPair, N: BlockPair>(
    old: &mut Meter<O>,
    new: &mut Meter<N>,
    forms: &RewrapForms,
    pass_new: bool,
    buf: &mut [u8],
) -> Result<Rewrapped, Refusal>
    ensures rewraps { IsRewrapping pass_new forms.now (O.encrypted old.old.pair)
        (N.encrypted new.old.pair) buf.old result buf.new }
    ensures results { RewrapResults pass_new forms.now (O.encrypted old.old.pair)
        (N.encrypted new.old.pair) buf.old result buf.new }
    ensures calls { RewrapCalls pass_new forms.now (length buf.old)
        old.old old.new new.old new.new result }
{
    let fault = match rewrap_old(old, new, forms, buf) {
        Ok(()) => return Ok(Rewrapped::Fresh),
        Err(fault) => fault,
    };
    if !pass_new || fault == Refusal::KeyNotPlain {
        return Err(fault);
    }
    match find(new, &to_itself(forms), buf) {
        Ok(found) => {
            wrap_buffer(new, found, buf);
            Ok(Rewrapped::AlreadyNew)
        }
        Err(_) => Err(fault),
    }
}

// Rewraps a wrapping under the old pair. A refusal leaves the buffer as it was.
fn rewrap_old<O: BlockPair, N: BlockPair>(
    old: &mut Meter<O>,
    new: &mut Meter<N>,
    forms: &RewrapForms,
    buf: &mut [u8],
) -> Result<(), Refusal>
    ensures rewraps { IsRewrapping false forms.now (O.encrypted old.old.pair)
        (N.encrypted new.old.pair) buf.old (as_fresh result) buf.new }
    ensures calls { RewrapCalls false forms.now (length buf.old)
        old.old old.new new.old new.new (as_fresh result) }
{
    let found = match find(old, forms, buf) {
        Ok(found) => found,
        Err(fault) => return Err(fault),
    };
    let (misfit, iv) = fit(forms, found, &buf[WORD..]);
    let Ok(()) = decide_or_restore(old, found, misfit, buf) else {
        return Err(Refusal::KeyNotPlain);
    };
    wrap_buffer(new, iv, buf);
    Ok(())
}

// Unwraps a wrapping in one of the old forms. A refusal leaves the buffer as it was.
#[tactic(auto, using(crate::proofs::FoundForms::behind_first))]
fn find<B: BlockPair>(
    meter: &mut Meter<B>,
    forms: &RewrapForms,
    buf: &mut [u8],
) -> Result<u64, Refusal>
    ensures found { IfOk result (λ iv. IsFound forms.now (B.encrypted meter.old.pair)
        buf.old (word_bytes iv ++ drop 8 buf.new)) }
    ensures refused { IfErr result (λ fault. HasFault forms.now (B.encrypted meter.old.pair)
        buf.old fault × ¬ (fault ≡ Refusal.KeyNotPlain)) }
    ensures kept { IsErr result → buf.new ≡ buf.old }
    ensures legal { IsOk result → IsOldLength forms.now (length buf.old) }
    ensures calls { IsOk result → meter.new ≡ counted (block_calls (length buf.old)) meter.old }
    ensures refused_calls { IsErr result → IsOldLength forms.now (length buf.old)
        → meter.new ≡ counted (2 * block_calls (length buf.old)) meter.old }
    ensures meter_kept { ¬ IsOldLength forms.now (length buf.old) → meter.new ≡ meter.old }
{
    if !rewrap_length_ok(forms, buf.len()) {
        return Err(Refusal::BadLength);
    }
    let found = unwrap_buffer(meter, buf);
    let difference = old_difference(forms, found, &buf[WORD..]);
    let Ok(()) = decide_or_restore(meter, found, difference, buf) else {
        return Err(Refusal::Integrity);
    };
    Ok(found)
}

/// The forms of a rewrapping from the new pair to itself.
pub fn to_itself(forms: &RewrapForms) -> RewrapForms
    ensures { result ≡ to_itself forms.now }
{
    match forms {
        RewrapForms::Kept => RewrapForms::Kept,
        RewrapForms::Changed { new, .. } => {
            let old = *new;
            RewrapForms::Changed { old, new: *new }
        }
    }
}

/// Whether `len` bytes can be a wrapped key in one of the old forms.
pub fn rewrap_length_ok(forms: &RewrapForms, len: usize) -> bool
    ensures { IsTrue result ↔ IsOldLength forms.now len }
{
    match forms {
        RewrapForms::Kept => padded_text_length_ok(len),
        RewrapForms::Changed { old, .. } => old.takes_text(len),
    }
}

/// 0 if the initial value and the registers hold a key in one of the old forms.
#[tactic(auto, using(crate::proofs::FoundForms::padded_holds, crate::proofs::FoundForms::padded_none_held))]
pub fn old_difference(forms: &RewrapForms, iv: u64, registers: &[u8]) -> u64
    requires { IsPaddedTextLength (8 + length registers.now) }
    ensures { TellsKey (IsFrom forms.now) (word_bytes iv ++ registers.now) result }
{
    match forms {
        RewrapForms::Kept => {
            let plain = plain_difference(DEFAULT_IV, iv, registers);
            either(plain, padded_difference(iv, registers))
        }
        RewrapForms::Changed { old, .. } => match old {
            AgreedForm::Plain(agreed) => plain_difference(agreed.word(), iv, registers),
            AgreedForm::Padded => padded_difference(iv, registers),
        },
    }
}

/// 0 if the length of the key that they hold is legal in the new form, and the initial value under
/// which they hold it there. A padded key may have a length that no plain key has: it does not fill
/// its words, or has only one word.
#[tactic(auto, using(crate::proofs::Rewraps::fits_own, crate::proofs::FoundForms::to_padded))]
pub fn fit(forms: &RewrapForms, iv: u64, registers: &[u8]) -> (u64, u64)
    requires { IsPaddedTextLength (8 + length registers.now) }
    ensures { (form : AgreedForm) → IsFrom forms.now form → (key : List ℕ)
        → IsIvAndKey form key (word_bytes iv ++ registers.now)
        → Fits (to_form forms.now form) key registers.now result.0 result.1 }
{
    match forms {
        RewrapForms::Kept => (0, iv),
        RewrapForms::Changed { old, new } => match (old, new) {
            (AgreedForm::Plain(_), AgreedForm::Padded) => (0, padded_iv(registers.len())),
            (AgreedForm::Padded, AgreedForm::Plain(agreed)) => {
                let one_word = is_zero((registers.len() - WORD) as u64);
                let misfit = one_word | (given_length(iv) ^ registers.len() as u64);
                (misfit, agreed.word())
            }
            (AgreedForm::Plain(_), AgreedForm::Plain(agreed)) => (0, agreed.word()),
            (AgreedForm::Padded, AgreedForm::Padded) => (0, iv),
        },
    }
}

/// Shows that a text has one result, and one buffer after it, for every two block permutations. It
/// does nothing.
pub fn one_result_law<O: BlockPair, N: BlockPair>(old: &O, new: &N)
    ensures { (pass_new : Bool) (forms : RewrapForms) (text after other : List ℕ)
        → (result other_result : Result Rewrapped Refusal)
        → IsRewrapping pass_new forms (O.encrypted old.now) (N.encrypted new.now) text result after
        → IsRewrapping pass_new forms (O.encrypted old.now) (N.encrypted new.now) text other_result other
        → (other_result ≡ result) × (other ≡ after) }
{}
