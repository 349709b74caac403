//! Rewrapping from one pair to another, with the form changed or kept, with one allocation.

ghost use Rattle.std.specs.Prelude.{IfOk};
ghost use Rattle.key_wrap_core.specs.declared.rewrapping.RewrapForms.{RewrapForms};
ghost use Rattle.key_wrap_core.specs.Forms.{NoOtherForm, by_default};
ghost use Rattle.key_wrap.specs.Results.{RewrapsToVec};

use crate::faults::UnwrapFault;
use block_pair::{BlockPair, Meter};
use key_wrap_core::{Form, RewrapForms, rewrap_length_ok};
use std::alloc::{Allocator, Global};

/// Returns the wrapping, in the new form under the new pair, of the one key whose wrapping in the
/// old form under the old pair is `text`. It has as many bytes as `text`, which is unwrapped and
/// wrapped again in one buffer.
///
/// `BadLength` if the length of `text` is not legal in the old form, before any memory is taken.
/// Then `Memory`, before the first block call. `Integrity` if `text` is not an old wrapping.
/// `BadLength` if the length of its key is not legal in the new form (only from padded to plain).
pub fn rewrap<O: BlockPair, N: BlockPair>(
    alloc: Global,
    old: &O,
    old_form: Form,
    new: &N,
    new_form: Form,
    text: &[u8],
) -> Result<Vec<u8>, UnwrapFault>
    ensures rewraps { RewrapsToVec (RewrapForms.Changed (by_default old_form) (by_default new_form))
        (O.encrypted old.now) (N.encrypted new.now) text.now result }
    ensures other_form { IfOk result (λ answer.
        NoOtherForm (by_default new_form) (N.encrypted new.now) answer.items) }
{
    let forms = RewrapForms::by_default(old_form, new_form);
    let (mut old, mut new) = (Meter::new(old), Meter::new(new));
    rewrap_on(alloc, &mut old, &mut new, &forms, text)
}

/// Returns the wrapping under the new pair of the one key whose wrapping under the old pair is
/// `text`, in the form of `text` and with as many bytes. No wrapped key has both forms, so there is
/// one answer.
///
/// `BadLength` if `text`'s length is legal in neither form, before any memory is taken. Then
/// `Memory`, before the first block call. `Integrity` if `text` is a wrapping in neither form.
pub fn rewrap_keeping_form<O: BlockPair, N: BlockPair>(
    alloc: Global,
    old: &O,
    new: &N,
    text: &[u8],
) -> Result<Vec<u8>, UnwrapFault>
    ensures { RewrapsToVec RewrapForms.Kept (O.encrypted old.now) (N.encrypted new.now) text.now result }
{
    let (mut old, mut new) = (Meter::new(old), Meter::new(new));
    rewrap_on(alloc, &mut old, &mut new, &RewrapForms::Kept, text)
}

// The rewrapping on any allocator and meters.
pub(crate) fn rewrap_on<A: Allocator, O: BlockPair, N: BlockPair>(
    alloc: A,
    old: &mut Meter<O>,
    new: &mut Meter<N>,
    forms: &RewrapForms,
    text: &[u8],
) -> Result<Vec<u8, A>, UnwrapFault>
    ensures { RewrapsToVec forms.now (O.encrypted old.old.pair) (N.encrypted new.old.pair) text.now result }
{
    if !rewrap_length_ok(forms, text.len()) {
        return Err(UnwrapFault::BadLength);
    }
    let mut buffer = Vec::from_slice(alloc, text)?;
    key_wrap_core::rewrap(old, new, forms, false, &mut buffer)?;
    Ok(buffer)
}
