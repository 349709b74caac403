//! Lines of every length about the limit and the reader's buffer, and allocations that are refused.

use crate::line::{Line, read_line};
use key_files::FileFault;
use linked_list_allocator::LocalHeap;
use std::io::BufReader;
use std::test::Fail;
use test_doubles::Trickle;

static TEXTS: [(&[u8], &[&[u8]]); 8] = [
    (b"", &[]),
    (b"\n", &[b""]),
    (b"\n\n", &[b"", b""]),
    (b"a", &[b"a"]),
    (b"a\n", &[b"a"]),
    (b"abc\nd\n\ne", &[b"abc", b"d", b"", b"e"]),
    (b"\0\na\0b\n\r\n", &[b"\0", b"a\0b", b"\r"]),
    (b"ab\nc\n", &[b"ab", b"c"]),
];

#[test]
fn reads_each_line(rt: HostRuntime) -> Result<(), Fail> {
    for (text, lines) in &TEXTS {
        for capacity in [1, 2, 3, 4_096] {
            let mut reader = BufReader::with_capacity(rt.alloc(), capacity, *text)?;
            let mut line = Vec::new(rt.alloc());
            for want in *lines {
                let met = read_line(&mut reader, &mut line, 3)?;
                assert!(rt;
                    met != Line::Missing && line.as_slice() == *want,
                    "of {text:?}"
                );
            }
            let met = read_line(&mut reader, &mut line, 3)?;
            assert!(rt; met == Line::Missing && line.is_empty(), "after {text:?}");
        }
    }
    Ok(())
}

// The limit, and then lines of fewer bytes, as many, and one more, each with an LF and without.
static LIMITED: [(u16, usize, Result<Line, FileFault>); 10] = [
    (0, 0, Ok(Line::Ended)),
    (0, 1, Err(FileFault::TooLong)),
    (1, 0, Ok(Line::Ended)),
    (1, 1, Ok(Line::Ended)),
    (1, 2, Err(FileFault::TooLong)),
    (4_096, 4_095, Ok(Line::Ended)),
    (4_096, 4_096, Ok(Line::Ended)),
    (4_096, 4_097, Err(FileFault::TooLong)),
    (4_097, 4_097, Ok(Line::Ended)),
    (8_192, 8_193, Err(FileFault::TooLong)),
];

#[test]
fn refuses_one_byte_past_the_limit(rt: HostRuntime) -> Result<(), Fail> {
    for (limit, len, want) in LIMITED {
        let mut text = Vec::new(rt.alloc());
        text.resize(len, b'a')?;
        text.extend_from_slice(b"\nb")?;
        let mut reader = BufReader::with_capacity(rt.alloc(), 4_096, text.as_slice())?;
        let mut line = Vec::new(rt.alloc());
        let met = read_line(&mut reader, &mut line, limit as usize);
        assert!(rt; met == want && line.len() == len, "{len} bytes of {limit}");
        if met.is_ok() {
            let last = read_line(&mut reader, &mut line, 1)?;
            assert!(rt; last == Line::Last && line.as_slice() == b"b".as_slice());
        }
    }
    Ok(())
}

// However many parts the line comes in.
#[test]
fn reads_a_line_byte_by_byte(rt: HostRuntime) -> Result<(), Fail> {
    static TEXT: [u8; 6_000] = [b'a'; 6_000];
    let trickle = Trickle::in_pieces(&TEXT, 1);
    let mut reader = BufReader::with_capacity(rt.alloc(), 4_096, trickle)?;
    let mut line = Vec::new(rt.alloc());
    let met = read_line(&mut reader, &mut line, TEXT.len())?;
    assert!(rt; met == Line::Last && line.as_slice() == TEXT.as_slice());
    Ok(())
}

#[test]
fn answers_memory_where_a_growth_is_refused(rt: HostRuntime) -> Result<(), Fail> {
    static TEXT: [u8; 300] = [b'a'; 300];
    for size in (0..4_096).step_by(16) {
        let heap = LocalHeap::new(rt.alloc(), size)?;
        let mut reader = BufReader::with_capacity(rt.alloc(), 64, &TEXT[..])?;
        let mut line = Vec::new(&heap);
        match read_line(&mut reader, &mut line, 300) {
            Ok(met) => {
                assert!(rt; met == Line::Last && line.as_slice() == &TEXT[..] && size > 300);
                return Ok(());
            }
            Err(fault) => assert_eq!(rt; fault, FileFault::Memory, "a heap of {size} bytes"),
        }
    }
    Err(Fail::from("no heap was large enough"))
}
