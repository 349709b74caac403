//! No call refuses for memory at any length or content.

use crate::*;
use block_pair::SwapHalves;
use std::alloc::{AllocError, Global};
use std::process::Abort;
use std::test::Fail;

/// An initial value that both ends may agree on.
pub const OTHER: [u8; 8] = *b"\x01\x23\x45\x67\x89\xAB\xCD\xEF";

// Lengths beyond 4,105 bytes: around the powers of two, some fixed odd ones, and the largest.
const FAR: [usize; 28] = [
    8_191, 8_192, 8_193, 16_383, 16_384, 16_385, 32_767, 32_768, 32_769, 65_535, 65_536, 65_537,
    131_071, 131_072, 131_073, 262_143, 262_144, 262_145, 524_287, 524_288, 524_289, 5_003, 70_001,
    100_003, 777_777, 1_000_001, 1_048_575, MAX_KEY,
];

// A byte of a key is the upper one of a number, which is multiplied by the first and increased by
// the second before each byte: zeros, ones, counting bytes and pseudo-random ones.
const CONTENTS: [(u64, u64); 4] = [
    (0, 0),
    (0, u64::MAX),
    (1, 1 << 56),
    (6_364_136_223_846_793_005, 1_442_695_040_888_963_407),
];

// The largest key of this content, of which the others are the front.
fn largest(alloc: Global, multiplier: u64, increment: u64) -> Result<Vec<u8>, AllocError> {
    let mut key = Vec::new(alloc);
    let mut x = 0u64;
    for _ in 0..MAX_KEY {
        x = x.wrapping_mul(multiplier).wrapping_add(increment);
        key.push((x >> 56) as u8)?;
    }
    Ok(key)
}

// What was wrapped: its kind is named, and rewraps in its form and with the form kept leave it.
fn is_kept(
    rt: &impl Abort,
    alloc: Global,
    text: &[u8],
    form: Form,
    want: Kind,
) -> Result<(), Fail> {
    let pair = SwapHalves;
    let is = kind(alloc, &pair, text)?;
    let again = rewrap(alloc, &pair, form, &pair, form, text)?;
    let kept = rewrap_keeping_form(alloc, &pair, &pair, text)?;
    assert!(rt;
        is == want && again.as_slice() == text && kept.as_slice() == text,
        "{want:?}"
    );
    Ok(())
}

// In the padded form: wraps the key, unwraps it, names its kind and rewraps it.
fn goes_padded(rt: &impl Abort, alloc: Global, key: &[u8]) -> Result<(), Fail> {
    let text = wrap_padded(alloc, &SwapHalves, key)?;
    let back = unwrap_padded(alloc, &SwapHalves, &text)?;
    assert!(rt; back.as_slice() == key, "{} bytes", key.len());
    is_kept(rt, alloc, &text, Form::Padded, Kind::Padded(key.len()))
}

// In the plain form too, and rewraps from form to form.
fn goes_plain(rt: &impl Abort, alloc: Global, key: &[u8]) -> Result<(), Fail> {
    let pair = SwapHalves;
    let text = wrap(alloc, &pair, key)?;
    let back = unwrap(alloc, &pair, &text)?;
    assert!(rt; back.as_slice() == key, "{} bytes", key.len());
    is_kept(rt, alloc, &text, Form::Plain, Kind::Plain(key.len()))?;
    let padded = rewrap(alloc, &pair, Form::Plain, &pair, Form::Padded, &text)?;
    let back = rewrap(alloc, &pair, Form::Padded, &pair, Form::Plain, &padded)?;
    assert!(rt; back == text, "{} bytes", key.len());
    Ok(())
}

// Every length to 520 bytes, every multiple of 8 with its neighbours to 4,105, and the lengths
// beyond. The last content has all of them, the others only the multiples of 8 above 520, and no
// length above 262,145.
#[test]
fn gives_up_for_memory_at_no_length_or_content(rt: HostRuntime) -> Result<(), Fail> {
    for (multiplier, increment) in CONTENTS {
        let is_last = multiplier > 1;
        let key = largest(rt.alloc(), multiplier, increment)?;
        for len in (1..=4_105).chain(FAR) {
            let key = key.get(..len).unwrap_or(&[]);
            if len > 262_145 && !is_last {
                continue;
            }
            if len <= 520 || len > 4_105 || len % 8 == 0 || is_last && (len + 1) % 8 <= 2 {
                goes_padded(&rt, rt.alloc(), key)?;
            }
            if key_length_ok(len) {
                goes_plain(&rt, rt.alloc(), key)?;
            }
        }
    }
    Ok(())
}

// Each legal length to 4,104 bytes, those around the powers of two, and some fixed ones.
#[test]
fn gives_up_for_memory_at_no_length_under_another_value(rt: HostRuntime) -> Result<(), Fail> {
    let alloc = rt.alloc();
    let iv = InitialValue::new(OTHER)?;
    let key = vec![in alloc; 0x5A; MAX_KEY]?;
    for len in (16..=4_104).step_by(8).chain(FAR) {
        let key = key.get(..len / 8 * 8).unwrap_or(&[]);
        let text = wrap_with(alloc, &SwapHalves, &iv, key)?;
        let again = unwrap_with(alloc, &SwapHalves, &iv, &text)?;
        assert!(rt; again.as_slice() == key, "{len} bytes");
    }
    Ok(())
}

// A text that is not a wrapping is refused for that reason only, with ample memory: zeros of each
// length to 528.
#[test]
fn gives_up_for_memory_at_no_length_of_what_is_none(rt: HostRuntime) -> Result<(), Fail> {
    let (alloc, refused) = (rt.alloc(), Some(UnwrapFault::Integrity));
    let zeros = vec![in alloc; 0; 528]?;
    for len in (24..=528).step_by(8) {
        let text = zeros.get(..len).unwrap_or(&[]);
        let pair = SwapHalves;
        assert!(rt; unwrap(alloc, &pair, text).err() == refused, "{len} bytes");
        assert!(rt;
            unwrap_padded(alloc, &pair, text).err() == refused,
            "{len} bytes"
        );
        assert!(rt;
            kind(alloc, &pair, text) == Ok(Kind::Neither),
            "{len} bytes"
        );
        let answer = rewrap(alloc, &pair, Form::Plain, &pair, Form::Plain, text);
        assert!(rt; answer.err() == refused, "{len} bytes");
    }
    Ok(())
}
