//! Files by readers that give them whole or in pieces, fail, or would give more than is taken.

ghost use Rattle.std.specs.Prelude.{◌<◌};

use super::{COUNTING, Notation, filled, is_answer};
use crate::{FileFault, MAX_FILE, decode_hex, read_hex, read_raw};
use std::alloc::Global;
use std::process::Abort;
use std::test::Fail;
use test_doubles::{FAULTS, Trickle};

// One byte a read, pieces about as large as the most that one read may give, and all at once.
const SIZES: [usize; 5] = [1, 4_095, 4_096, 4_097, usize::MAX];

const KEK_FILE: &[u8] = b"00 01 02 03 04 05 06 07\r\n08090A0b0C0d0E0f\r\n";

// The call that reads a notation.
fn read(
    alloc: Global,
    notation: Notation,
    reader: &mut Trickle,
    limit: usize,
) -> Result<Vec<u8>, FileFault>
    requires { limit < usize.MAX }
{
    match notation {
        Notation::Raw => read_raw(alloc, reader, limit),
        Notation::Hex => read_hex(alloc, reader, limit),
    }
}

// Checks that a file, with reads of at most `size` bytes, is read as wanted: to its end, or to one
// byte past the limit.
pub(super) fn reads(
    rt: &impl Abort,
    alloc: Global,
    notation: Notation,
    file: &[u8],
    size: usize,
    limit: usize,
    want: Result<&[u8], FileFault>,
)
    requires { limit < usize.MAX }
{
    let mut pieces = Trickle::in_pieces(file, size);
    let answer = read(alloc, notation, &mut pieces, limit);
    assert!(rt;
        is_answer(answer, want),
        "{} bytes, {size} a read",
        file.len()
    );
    assert!(rt; pieces.left.len() == file.len().saturating_sub(limit + 1));
}

static TEXTS: [(&[u8], Result<&[u8], FileFault>); 10] = [
    (
        KEK_FILE,
        Ok(&[0, 1, 2, 3, 4, 5, 6, 7, 8, 9, 10, 11, 12, 13, 14, 15]),
    ),
    (b"0aFF", Ok(&[0x0a, 0xff])),
    (b"0 g", Err(FileFault::BadDigit { at: 2 })),
    (b"g01", Err(FileFault::BadDigit { at: 0 })),
    (b"012", Err(FileFault::OddDigits)),
    (b"", Ok(&[])),
    (b" \t\r\n \n\r\t", Ok(&[])),
    (b"\xef\xbb\xbf00", Err(FileFault::BadDigit { at: 0 })),
    (b"0\x000", Err(FileFault::BadDigit { at: 1 })),
    (b"0:0", Err(FileFault::BadDigit { at: 1 })),
];

#[test]
fn decodes_hex_texts_and_files(rt: HostRuntime) {
    for (text, want) in &TEXTS {
        assert!(rt; is_answer(decode_hex(rt.alloc(), text), *want), "{text:?}");
        for size in SIZES {
            reads(&rt, rt.alloc(), Notation::Hex, text, size, MAX_FILE, *want);
        }
    }
}

// Files of digits about the limit: their number, the first and the last of them, and the fault, or
// none if the digits are read.
static LARGE: [(usize, u8, u8, Option<FileFault>); 5] = [
    (4_194_304, b'5', b'5', None),
    (4_194_303, b'5', b'5', Some(FileFault::OddDigits)),
    (
        4_194_304,
        b'5',
        b'g',
        Some(FileFault::BadDigit { at: 4_194_303 }),
    ),
    (4_194_305, b'5', b'5', Some(FileFault::TooLong)),
    (4_194_305, b'g', b'5', Some(FileFault::TooLong)),
];

#[test]
fn reads_hex_files_about_the_limit(rt: HostRuntime) -> Result<(), Fail> {
    let bytes = filled(rt.alloc(), [0x55, 1, 0], 2_097_152)?;
    for (len, first, last, fault) in &LARGE {
        let mut digits = vec![in rt.alloc(); *first; 1]?;
        digits.resize(len.saturating_sub(1), b'5')?;
        digits.push(*last)?;
        let want = match fault {
            Some(fault) => Err(*fault),
            None => Ok(bytes.as_slice()),
        };
        for size in SIZES {
            reads(
                &rt,
                rt.alloc(),
                Notation::Hex,
                &digits,
                size,
                MAX_FILE,
                want,
            );
        }
    }
    Ok(())
}

// A file is read whole at its length as the limit, and is too long at one or two bytes less: one
// byte past the limit is taken from it, as from one without end.
#[test]
fn reads_raw_files_and_takes_one_byte_past_the_limit(rt: HostRuntime) -> Result<(), Fail> {
    for len in [
        0, 1, 5, 6, 4_095, 4_096, 4_097, 8_192, 8_193, 10_002, MAX_FILE,
    ] {
        let file = filled(rt.alloc(), COUNTING, len)?;
        for size in SIZES {
            reads_raw(&rt, rt.alloc(), &file, size);
        }
    }
    Ok(())
}

fn reads_raw(rt: &impl Abort, alloc: Global, file: &[u8], size: usize) {
    let len = file.len();
    reads(rt, alloc, Notation::Raw, file, size, len, Ok(file));
    for less in [1, 2] {
        if let Some(limit) = len.checked_sub(less) {
            let too_long = Err(FileFault::TooLong);
            reads(rt, alloc, Notation::Raw, file, size, limit, too_long);
            reads(rt, alloc, Notation::Hex, file, size, limit, too_long);
        }
    }
}

#[test]
fn each_failed_read_is_read(rt: HostRuntime) {
    // In the second file the error is met before the bad digit is looked for.
    for file in [KEK_FILE, b"zz"] {
        for room in 0..=file.len() {
            for faults in FAULTS {
                fails_after(&rt, rt.alloc(), Notation::Raw, file, room, faults);
                fails_after(&rt, rt.alloc(), Notation::Hex, file, room, faults);
            }
        }
    }
    for room in FAR {
        for faults in FAULTS {
            fails_after(&rt, rt.alloc(), Notation::Raw, &DIGITS, room, faults);
            fails_after(&rt, rt.alloc(), Notation::Hex, &DIGITS, room, faults);
        }
    }
}

/// Places of a fault far into a file, and about the most that one read may give.
pub const FAR: [usize; 4] = [100, 4_095, 4_096, 4_097];

static DIGITS: [u8; 4_100] = [b'5'; 4_100];

// The first fault is returned, and the reader is not called again, even if it would go on.
fn fails_after(
    rt: &impl Abort,
    alloc: Global,
    notation: Notation,
    file: &[u8],
    room: usize,
    faults: usize,
) {
    let mut stopped = Trickle::failing(file, room, faults);
    let answer = read(alloc, notation, &mut stopped, MAX_FILE);
    assert!(rt;
        is_answer(answer, Err(FileFault::Read)),
        "after {room} bytes"
    );
    assert!(rt; stopped.left.len() == file.len().saturating_sub(room));
}
