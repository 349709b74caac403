//! With ample memory, and readers and writers that never fail, no call gives up at any length.

use super::reading::reads;
use super::writing::writes;
use super::{COUNTING, Notation, filled, is_answer};
use crate::{MAX_FILE, decode_hex};
use std::alloc::Global;
use std::process::Abort;
use std::test::Fail;
use test_doubles::Narrow;

// Zeros, ff, counting and pseudo-random bytes.
const CONTENTS: [[u8; 3]; 4] = [[0, 1, 0], [0xff, 1, 0], COUNTING, [1, 109, 53]];

// Each length to 520, the multiples of 8 with their neighbours to 4,105, and some to the largest.
fn is_tried(len: usize) -> bool {
    len <= 520 || len <= 4_105 && (len + 1) % 8 <= 2 || len >= 16_384 && len.is_power_of_two()
}

#[test]
fn gives_up_for_memory_at_no_length(rt: HostRuntime) -> Result<(), Fail> {
    run_each_length(&rt, rt.alloc(), usize::MAX)
}

// Each call on bytes of each content and length, with readers and writers of up to `size` bytes.
fn run_each_length(rt: &impl Abort, alloc: Global, size: usize) -> Result<(), Fail> {
    for content in CONTENTS {
        let bytes = filled(alloc, content, MAX_FILE)?;
        for len in 0..=bytes.len() {
            if is_tried(len) {
                run_on(rt, alloc, &bytes[..len], size)?;
            }
        }
    }
    Ok(())
}

#[test]
fn gives_up_for_io_at_no_length(rt: HostRuntime) -> Result<(), Fail> {
    run_each_length(&rt, rt.alloc(), 1)
}

fn run_on(rt: &impl Abort, alloc: Global, bytes: &[u8], size: usize) -> Result<(), Fail> {
    let (raw, len) = (Notation::Raw, bytes.len());
    reads(rt, alloc, raw, bytes, size, len, Ok(bytes));
    writes(
        rt,
        alloc,
        raw,
        bytes,
        bytes,
        Narrow::in_pieces(alloc, size),
        len,
    );
    let mut line = hex::encode(alloc, bytes)?;
    line.push('\n')?;
    let (hex, line) = (Notation::Hex, line.as_bytes());
    assert!(rt;
        is_answer(decode_hex(alloc, line), Ok(bytes)),
        "{len} bytes"
    );
    reads(rt, alloc, hex, line, size, line.len(), Ok(bytes));
    writes(
        rt,
        alloc,
        hex,
        bytes,
        line,
        Narrow::in_pieces(alloc, size),
        line.len(),
    );
    Ok(())
}
