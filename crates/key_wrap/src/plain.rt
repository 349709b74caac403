//! The plain form (RFC 3394, section 2.2).

ghost use Rattle.key_wrap_core.specs.Plain.{default_iv};
ghost use Rattle.key_wrap.specs.Results.{Wrapped, Unwrapped};

use crate::faults::{UnwrapFault, WrapFault};
use block_pair::{BlockPair, Meter};
use key_wrap_core::{
    AgreedForm, InitialValue, key_length_ok, text_length_ok, unwrap_into_with, wrap_into_with,
};
use std::alloc::{Allocator, Global};

/// Returns the plain wrapping of `key` (RFC 3394, section 2.2.1): 8 bytes more than the key.
///
/// `BadLength` if `key_length_ok` is false, before any memory is taken; else only `Memory`.
pub fn wrap<B: BlockPair>(alloc: Global, pair: &B, key: &[u8]) -> Result<Vec<u8>, WrapFault>
    ensures { Wrapped (AgreedForm.Plain default_iv) (B.encrypted pair.now) key.now result }
{
    wrap_on(alloc, &mut Meter::new(pair), &InitialValue::default(), key)
}

/// Returns the plain wrapping of `key` under this initial value (RFC 3394, sections 2.2.1 and
/// 2.2.3.2): 8 bytes more than the key.
///
/// `BadLength` if `key_length_ok` is false, before any memory is taken; else only `Memory`.
pub fn wrap_with<B: BlockPair>(
    alloc: Global,
    pair: &B,
    iv: &InitialValue,
    key: &[u8],
) -> Result<Vec<u8>, WrapFault>
    ensures { Wrapped (AgreedForm.Plain iv.now) (B.encrypted pair.now) key.now result }
{
    wrap_on(alloc, &mut Meter::new(pair), iv, key)
}

// `wrap_with` on any allocator and meter, so that a test can refuse its allocation and count.
pub(crate) fn wrap_on<A: Allocator, B: BlockPair>(
    alloc: A,
    meter: &mut Meter<B>,
    iv: &InitialValue,
    key: &[u8],
) -> Result<Vec<u8, A>, WrapFault>
    ensures { Wrapped (AgreedForm.Plain iv.now) (B.encrypted meter.old.pair) key.now result }
{
    if !key_length_ok(key.len()) {
        return Err(WrapFault::BadLength);
    }
    let mut text = vec![in alloc; 0; key.len() + 8]?;
    // The buffer has the length of the wrapped key, so nothing is refused.
    wrap_into_with(meter, iv, key, &mut text).unwrap();
    Ok(text)
}

/// Returns the key whose plain wrapping is `text` (RFC 3394, section 2.2.2): 8 bytes less than
/// `text`.
///
/// `BadLength` if `text_length_ok` is false, before any memory is taken. Then `Memory`. `Integrity`
/// if `text` is not a valid plain wrapping.
pub fn unwrap<B: BlockPair>(alloc: Global, pair: &B, text: &[u8]) -> Result<Vec<u8>, UnwrapFault>
    ensures { Unwrapped (AgreedForm.Plain default_iv) (B.encrypted pair.now) text.now result }
{
    unwrap_on(alloc, &mut Meter::new(pair), &InitialValue::default(), text)
}

/// Returns the key whose plain wrapping under this initial value is `text` (RFC 3394, sections
/// 2.2.2 and 2.2.3.2): 8 bytes less than `text`.
///
/// `BadLength` if `text_length_ok` is false, before any memory is taken. Then `Memory`. `Integrity`
/// if `text` is not a valid plain wrapping under this initial value.
pub fn unwrap_with<B: BlockPair>(
    alloc: Global,
    pair: &B,
    iv: &InitialValue,
    text: &[u8],
) -> Result<Vec<u8>, UnwrapFault>
    ensures { Unwrapped (AgreedForm.Plain iv.now) (B.encrypted pair.now) text.now result }
{
    unwrap_on(alloc, &mut Meter::new(pair), iv, text)
}

// `unwrap_with` on any allocator and meter.
pub(crate) fn unwrap_on<A: Allocator, B: BlockPair>(
    alloc: A,
    meter: &mut Meter<B>,
    iv: &InitialValue,
    text: &[u8],
) -> Result<Vec<u8, A>, UnwrapFault>
    ensures { Unwrapped (AgreedForm.Plain iv.now) (B.encrypted meter.old.pair) text.now result }
{
    if !text_length_ok(text.len()) {
        return Err(UnwrapFault::BadLength);
    }
    let mut key = vec![in alloc; 0; text.len() - 8]?;
    unwrap_into_with(meter, iv, text, &mut key)?;
    Ok(key)
}
