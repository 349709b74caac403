//! Which form a wrapped key is wrapped in.

ghost use Rattle.std.specs.Prelude.{length, IfOk, IsErr};
ghost use Rattle.key_wrap_core.specs.Lengths.{IsPaddedTextLength};
ghost use Rattle.key_wrap_core.specs.Plain.{default_iv};
ghost use Rattle.key_wrap_core.specs.Kind.{IsTheKind};

use crate::faults::KindFault;
use block_pair::{BlockPair, Meter};
use key_wrap_core::{InitialValue, Kind, kind_into_with, padded_text_length_ok};
use std::alloc::{Allocator, Global};

/// Returns the form in which `text` is the wrapping of a key under the pair, or `Neither`.
///
/// No wrapped key has both forms. `Memory` is only possible if `text`'s length is legal in some
/// form, and before the first block call.
pub fn kind<B: BlockPair>(alloc: Global, pair: &B, text: &[u8]) -> Result<Kind, KindFault>
    ensures kind { IfOk result (IsTheKind default_iv (B.encrypted pair.now) text.now) }
    ensures memory { IsErr result → IsPaddedTextLength (length text.now) }
{
    kind_on(alloc, &mut Meter::new(pair), &InitialValue::default(), text)
}

// `kind` on any allocator and meter, and under any initial value.
pub(crate) fn kind_on<A: Allocator, B: BlockPair>(
    alloc: A,
    meter: &mut Meter<B>,
    iv: &InitialValue,
    text: &[u8],
) -> Result<Kind, KindFault>
    ensures kind { IfOk result (IsTheKind iv.now (B.encrypted meter.old.pair) text.now) }
    ensures memory { IsErr result → IsPaddedTextLength (length text.now) }
{
    if !padded_text_length_ok(text.len()) {
        return Ok(Kind::Neither);
    }
    let mut scratch = vec![in alloc; 0; text.len() - 8]?;
    // The scratch buffer has the right length, so nothing is refused.
    Ok(kind_into_with(meter, iv, text, &mut scratch).unwrap())
}
