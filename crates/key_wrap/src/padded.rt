//! The padded form (RFC 5649).

ghost use Rattle.key_wrap.specs.Results.{Wrapped, Unwrapped};

use crate::faults::{UnwrapFault, WrapFault};
use block_pair::{BlockPair, Meter};
use key_wrap_core::{
    AgreedForm, padded_length_ok, padded_text_length_ok, text_len, unwrap_padded_into,
    wrap_padded_into,
};
use std::alloc::{Allocator, Global};

/// Returns the padded wrapping of `key` (RFC 5649, section 4.1): 8 bytes more than the key and its
/// zero padding.
///
/// `BadLength` if `padded_length_ok` is false, before any memory is taken; else only `Memory`.
pub fn wrap_padded<B: BlockPair>(alloc: Global, pair: &B, key: &[u8]) -> Result<Vec<u8>, WrapFault>
    ensures { Wrapped AgreedForm.Padded (B.encrypted pair.now) key.now result }
{
    wrap_padded_on(alloc, &mut Meter::new(pair), key)
}

// `wrap_padded` on any allocator and meter, so that a test can refuse its allocation and count.
pub(crate) fn wrap_padded_on<A: Allocator, B: BlockPair>(
    alloc: A,
    meter: &mut Meter<B>,
    key: &[u8],
) -> Result<Vec<u8, A>, WrapFault>
    ensures { Wrapped AgreedForm.Padded (B.encrypted meter.old.pair) key.now result }
{
    if !padded_length_ok(key.len()) {
        return Err(WrapFault::BadLength);
    }
    let mut text = vec![in alloc; 0; text_len(key.len())]?;
    // The buffer has the length of the wrapped key, so nothing is refused.
    wrap_padded_into(meter, key, &mut text).unwrap();
    Ok(text)
}

/// Returns the key whose padded wrapping is `text` (RFC 5649, section 4.2).
///
/// `BadLength` if `padded_text_length_ok` is false, before any memory is taken. Then `Memory`.
/// `Integrity` if `text` is not a valid padded wrapping.
pub fn unwrap_padded<B: BlockPair>(
    alloc: Global,
    pair: &B,
    text: &[u8],
) -> Result<Vec<u8>, UnwrapFault>
    ensures { Unwrapped AgreedForm.Padded (B.encrypted pair.now) text.now result }
{
    unwrap_padded_on(alloc, &mut Meter::new(pair), text)
}

// `unwrap_padded` on any allocator and meter.
pub(crate) fn unwrap_padded_on<A: Allocator, B: BlockPair>(
    alloc: A,
    meter: &mut Meter<B>,
    text: &[u8],
) -> Result<Vec<u8, A>, UnwrapFault>
    ensures { Unwrapped AgreedForm.Padded (B.encrypted meter.old.pair) text.now result }
{
    if !padded_text_length_ok(text.len()) {
        return Err(UnwrapFault::BadLength);
    }
    let mut key = vec![in alloc; 0; text.len() - 8]?;
    let len = unwrap_padded_into(meter, text, &mut key)?;
    // Only the zero padding follows the key.
    key.truncate(len);
    Ok(key)
}
