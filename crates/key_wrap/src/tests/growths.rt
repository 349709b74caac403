//! Heaps of every size: a call takes its memory once, for one buffer, and before the first block. A
//! refused one answers Memory and has given its pair no block.

use super::memory::OTHER;
use crate::kinds::kind_on;
use crate::padded::{unwrap_padded_on, wrap_padded_on};
use crate::plain::{unwrap_on, wrap_on};
use crate::rewrapping::rewrap_on;
use crate::*;
use block_pair::{Meter, SwapHalves};
use linked_list_allocator::LocalHeap;
use std::test::Fail;

// A heap's least block.
const STEP: usize = 16;

// A key in both forms, with its wrappings, of whole blocks of a heap, and the block calls for it.
const KEY: usize = 520;

const TEXT: usize = 528;

const BLOCKS: u64 = 390;

fn meter() -> Meter<'static, SwapHalves> {
    Meter::new(&SwapHalves)
}

// All that is unwrapped is a wrapping, so that a refusal is for memory.
#[test]
fn wraps_and_unwraps_after_one_growth(rt: HostRuntime) -> Result<(), Fail> {
    let key = vec![in rt.alloc(); 0x5A; KEY]?;
    let iv = InitialValue::new(OTHER)?;
    let plain = wrap_with(rt.alloc(), &SwapHalves, &iv, &key)?;
    let padded = wrap_padded(rt.alloc(), &SwapHalves, &key)?;
    for size in (0..=TEXT).step_by(STEP) {
        let heap = LocalHeap::new(rt.alloc(), size)?;
        let serves = size >= TEXT;
        let blocks = if serves { BLOCKS } else { 0 };
        let mut wraps = meter();
        let answer = wrap_on(&heap, &mut wraps, &iv, &key).is_ok();
        assert!(rt; answer == serves && wraps.count() == blocks, "{size} bytes");
        let mut wraps = meter();
        let answer = wrap_padded_on(&heap, &mut wraps, &key).is_ok();
        assert!(rt; answer == serves && wraps.count() == blocks, "{size} bytes");
        let mut unwraps = meter();
        let answer = unwrap_on(&heap, &mut unwraps, &iv, &plain).is_ok();
        assert!(rt;
            answer == serves && unwraps.count() == blocks,
            "{size} bytes"
        );
        let mut unwraps = meter();
        let answer = unwrap_padded_on(&heap, &mut unwraps, &padded).is_ok();
        assert!(rt;
            answer == serves && unwraps.count() == blocks,
            "{size} bytes"
        );
    }
    Ok(())
}

// The old pair and the new are given their blocks in the one buffer. For `kind` one unwrapping is
// enough for both forms.
#[test]
fn rewraps_after_one_growth(rt: HostRuntime) -> Result<(), Fail> {
    let key = vec![in rt.alloc(); 0x5A; KEY]?;
    let plain = wrap(rt.alloc(), &SwapHalves, &key)?;
    let padded = wrap_padded(rt.alloc(), &SwapHalves, &key)?;
    let to_padded = RewrapForms::Changed {
        old: AgreedForm::by_default(Form::Plain),
        new: AgreedForm::Padded,
    };
    for size in (0..=TEXT).step_by(STEP) {
        let heap = LocalHeap::new(rt.alloc(), size)?;
        let serves = size >= TEXT;
        let blocks = if serves { BLOCKS } else { 0 };
        for (forms, text) in [
            (RewrapForms::Kept, &plain),
            (RewrapForms::Kept, &padded),
            (to_padded, &plain),
        ] {
            let mut found = meter();
            let answer = kind_on(&heap, &mut found, &InitialValue::default(), text).is_ok();
            assert!(rt; answer == serves && found.count() == blocks, "{size} bytes");
            let (mut old, mut new) = (meter(), meter());
            let answer = rewrap_on(&heap, &mut old, &mut new, &forms, text).is_ok();
            assert!(rt; answer == serves && old.count() == blocks, "{size} bytes");
            assert!(rt; new.count() == blocks, "{size} bytes");
        }
    }
    Ok(())
}

#[test]
fn takes_no_memory_at_an_illegal_length(rt: HostRuntime) -> Result<(), Fail> {
    let heap = LocalHeap::new(rt.alloc(), 0)?;
    let (mut old, mut new, iv) = (meter(), meter(), InitialValue::default());
    let bytes = [0x5A; 25];
    assert!(rt; wrap_on(&heap, &mut old, &iv, &bytes).err() == Some(WrapFault::BadLength));
    assert!(rt; unwrap_on(&heap, &mut old, &iv, &bytes).err() == Some(UnwrapFault::BadLength));
    assert!(rt; wrap_padded_on(&heap, &mut old, &[]).err() == Some(WrapFault::BadLength));
    assert!(rt; unwrap_padded_on(&heap, &mut old, &bytes).err() == Some(UnwrapFault::BadLength));
    assert!(rt; kind_on(&heap, &mut old, &iv, &bytes) == Ok(Kind::Neither));
    let plain = AgreedForm::by_default(Form::Plain);
    for forms in [
        RewrapForms::Kept,
        RewrapForms::Changed {
            old: plain,
            new: plain,
        },
    ] {
        let answer = rewrap_on(&heap, &mut old, &mut new, &forms, &bytes).err();
        assert!(rt; answer == Some(UnwrapFault::BadLength));
    }
    assert!(rt; old.count() == 0 && new.count() == 0);
    Ok(())
}

// `rt try --test --fail-alloc N` refuses the Nth allocation of this test: it makes six.
#[test]
fn refuses_each_growth_of_six_calls(rt: HostRuntime) {
    let (alloc, iv) = (rt.alloc(), InitialValue::default());
    let (text, key) = ([0; 24], [0; 16]);
    let (mut wraps, mut padded_wraps) = (meter(), meter());
    let (mut unwraps, mut padded_unwraps, mut found) = (meter(), meter(), meter());
    let refused = wrap_on(alloc, &mut wraps, &iv, &key).err() == Some(WrapFault::Memory);
    assert!(rt; wraps.count() == if refused { 0 } else { 12 });
    let answer = wrap_padded_on(alloc, &mut padded_wraps, &key).err();
    let refused = answer == Some(WrapFault::Memory);
    assert!(rt; padded_wraps.count() == if refused { 0 } else { 12 });
    let refused = unwrap_on(alloc, &mut unwraps, &iv, &text).err() == Some(UnwrapFault::Memory);
    assert!(rt; unwraps.count() == if refused { 0 } else { 12 });
    let answer = unwrap_padded_on(alloc, &mut padded_unwraps, &text).err();
    let refused = answer == Some(UnwrapFault::Memory);
    assert!(rt; padded_unwraps.count() == if refused { 0 } else { 12 });
    let refused = kind_on(alloc, &mut found, &iv, &text) == Err(KindFault::Memory);
    assert!(rt; found.count() == if refused { 0 } else { 12 });
    let (mut old, mut new) = (meter(), meter());
    let answer = rewrap_on(alloc, &mut old, &mut new, &RewrapForms::Kept, &text).err();
    let refused = answer == Some(UnwrapFault::Memory);
    assert!(rt; old.count() == if refused { 0 } else { 24 } && new.count() == 0);
}
