//! Heaps of every size, so that each allocation in turn is the first that is refused. The result is
//! Memory, or the same as with ample memory.

use super::is_answer;
use crate::base64_text::decode_base64;
use crate::{FileFault, HexWriteFault, decode_hex, read_hex, read_raw, write_hex};
use linked_list_allocator::LocalHeap;
use std::alloc::Allocator;
use std::process::Abort;
use std::test::Fail;
use test_doubles::{Narrow, Trickle};

// A heap's least block, and more than a call takes for the digits.
const STEP: usize = 16;

const AMPLE: usize = 4_096;

static DIGITS: [u8; 300] = [b'5'; 300];

static BYTES: [u8; 150] = [0x55; 150];

static CHARACTERS: [u8; 304] = [b'A'; 304];

static ZEROS: [u8; 228] = [0; 228];

#[test]
fn refuses_each_growth(rt: HostRuntime) -> Result<(), Fail> {
    for size in (0..=AMPLE).step_by(STEP) {
        let heap = LocalHeap::new(rt.alloc(), size)?;
        let mut file = Trickle::in_pieces(&DIGITS, 1);
        let answer = read_raw(&heap, &mut file, DIGITS.len());
        is_met(&rt, answer, &DIGITS, size);
        let mut file = Trickle::in_pieces(&DIGITS, 1);
        let answer = read_hex(&heap, &mut file, DIGITS.len());
        is_met(&rt, answer, &BYTES, size);
        is_met(&rt, decode_hex(&heap, &DIGITS), &BYTES, size);
        is_met(&rt, decode_base64(&heap, &CHARACTERS), &ZEROS, size);
        let mut out = Narrow::in_pieces(rt.alloc(), usize::MAX);
        let answer = write_hex(&heap, &mut out, &BYTES);
        if answer == Err(HexWriteFault::Memory) {
            assert!(rt;
                size < AMPLE && out.out().is_empty(),
                "a heap of {size} bytes"
            );
        } else {
            assert!(rt; size > 300 && answer == Ok(()), "a heap of {size} bytes");
            assert!(rt; out.out().len() == 301, "a heap of {size} bytes");
        }
    }
    Ok(())
}

// Checks that the result is these bytes in a heap that can hold the digits, and Memory in a smaller
// one.
fn is_met<A: Allocator>(
    rt: &impl Abort,
    answer: Result<Vec<u8, A>, FileFault>,
    want: &[u8],
    size: usize,
) {
    if answer.is_ok() {
        assert!(rt;
            size > 300 && is_answer(answer, Ok(want)),
            "a heap of {size} bytes"
        );
    } else {
        let refused = is_answer(answer, Err(FileFault::Memory));
        assert!(rt; size < AMPLE && refused, "a heap of {size} bytes");
    }
}
