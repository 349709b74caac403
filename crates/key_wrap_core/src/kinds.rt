//! Which form a wrapped key is wrapped in.

ghost use Rattle.std.specs.Prelude.{◌≡◌, IfOk};
ghost use Rattle.key_wrap_core.specs.Plain.{default_iv};
ghost use Rattle.key_wrap_core.specs.Kind.{IsTheKind, kind_as};
ghost use Rattle.key_wrap_core.specs.BufferCalls.{UsesScratch};

use crate::any_form::unwrap_any_into;
use crate::faults::InPlaceFault;
use crate::forms::{Form, FoundKey, Kind};
use crate::initial_value::InitialValue;
use crate::lengths::padded_text_length_ok;
use block_pair::{BlockPair, Meter};

/// Returns the form in which `text` is the wrapping of a key under the meter's pair, or `Neither`.
/// No wrapped key has both forms. The scratch buffer must be 8 bytes shorter than `text`, and
/// becomes zeros. If the length of `text` is legal in neither form, the result is `Neither`, and
/// the scratch buffer may have any length and is unchanged.
///
/// `BadLength`, with the buffer and the meter unchanged, exactly if the length of `text` is legal
/// and the scratch buffer has the wrong length. There is no other fault.
pub fn kind_into<B: BlockPair>(
    meter: &mut Meter<B>,
    text: &[u8],
    scratch: &mut [u8],
) -> Result<Kind, InPlaceFault>
    ensures kind { IfOk result (IsTheKind default_iv (B.encrypted meter.old.pair) text.now) }
    ensures scratch { UsesScratch text.now scratch.old scratch.new meter.old meter.new result }
{
    kind_into_with(meter, &InitialValue::default(), text, scratch)
}

/// Does what `kind_into` does, with this initial value of the plain form (RFC 3394, section
/// 2.2.3.2).
pub fn kind_into_with<B: BlockPair>(
    meter: &mut Meter<B>,
    iv: &InitialValue,
    text: &[u8],
    scratch: &mut [u8],
) -> Result<Kind, InPlaceFault>
    ensures kind { IfOk result (IsTheKind iv.now (B.encrypted meter.old.pair) text.now) }
    ensures scratch { UsesScratch text.now scratch.old scratch.new meter.old meter.new result }
{
    if !padded_text_length_ok(text.len()) {
        return Ok(Kind::Neither);
    }
    match unwrap_any_into(meter, iv, text, scratch) {
        Ok(found) => {
            scratch.fill(0);
            Ok(kind_of(found))
        }
        Err(InPlaceFault::Integrity) => Ok(Kind::Neither),
        Err(InPlaceFault::BadLength) => Err(InPlaceFault::BadLength),
    }
}

// The kind of a key that was found.
fn kind_of(found: FoundKey) -> Kind
    ensures { result ≡ kind_as found.form found.len }
{
    match found.form {
        Form::Plain => Kind::Plain(found.len),
        Form::Padded => Kind::Padded(found.len),
    }
}
