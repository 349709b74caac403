//! Bytes and lines by writers that take them whole or in pieces, fail or fill up.

use super::Notation;
use super::reading::FAR;
use crate::{HexWriteFault, write_hex, write_raw};
use std::alloc::Global;
use std::process::Abort;
use std::test::Fail;
use test_doubles::{Narrow, STOPPINGS, Stopping};

// The wrapping of RFC 3394, section 4.1.
const TEXT: &[u8] = b"\x1f\xa6\x8b\x0a\x81\x12\xb4\x47\xae\xf3\x4b\xd8\xfb\x5a\x7b\x82\
    \x9d\x3e\x86\x23\x71\xd2\xcf\xe5";

const LINE: &[u8] = b"1fa68b0a8112b447aef34bd8fb5a7b829d3e862371d2cfe5\n";

// The call that writes a notation.
fn write(
    alloc: Global,
    notation: Notation,
    out: &mut Narrow,
    bytes: &[u8],
) -> Result<(), HexWriteFault> {
    match notation {
        Notation::Raw => Ok(write_raw(out, bytes)?),
        Notation::Hex => write_hex(alloc, out, bytes),
    }
}

// Checks that bytes are written as this file, or as its first `room` bytes, which the fault counts,
// and that no write is made after the fault. The caller has to flush.
pub(super) fn writes(
    rt: &impl Abort,
    alloc: Global,
    notation: Notation,
    bytes: &[u8],
    file: &[u8],
    mut out: Narrow,
    room: usize,
) {
    let answer = write(alloc, notation, &mut out, bytes);
    let want = if room < file.len() {
        Err(HexWriteFault::Write { written: room })
    } else {
        Ok(())
    };
    assert!(rt; answer == want, "{room} of {} bytes", file.len());
    assert!(rt; Some(out.out()) == file.get(..room) && !out.is_flushed);
}

#[test]
fn each_refused_write_is_counted(rt: HostRuntime) -> Result<(), Fail> {
    let zeros = [0; 2_050];
    let mut line = vec![in rt.alloc(); b'0'; 4_100]?;
    line.push(b'\n')?;
    for (stop, faults) in STOPPINGS {
        for room in 0..=LINE.len() {
            stops_after(&rt, rt.alloc(), TEXT, LINE, room, stop, faults);
        }
        for room in FAR {
            stops_after(&rt, rt.alloc(), &zeros, &line, room, stop, faults);
        }
    }
    Ok(())
}

// The line as raw bytes, and the bytes as this line. A stop after the last byte is not met.
fn stops_after(
    rt: &impl Abort,
    alloc: Global,
    bytes: &[u8],
    line: &[u8],
    room: usize,
    stop: Stopping,
    faults: usize,
) {
    let raw = Narrow::stopping(alloc, room, stop, faults);
    writes(rt, alloc, Notation::Raw, line, line, raw, room);
    let hex = Narrow::stopping(alloc, room, stop, faults);
    writes(rt, alloc, Notation::Hex, bytes, line, hex, room);
}
