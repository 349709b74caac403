//! Runs that answer each line, that stop at one, and whose output is refused at each byte.

use super::doubles::{Echo, Told};
use crate::{LineFault, LineRun, LineSource, RefusedLine, RunFault, RunOptions, TextNotation};
use key_files::FileFault;
use std::alloc::Global;
use std::io::{BufReader, Write};
use std::test::Fail;
use test_doubles::{Narrow, Stopping, Trickle};

const HEX: RunOptions = RunOptions {
    notation: TextNotation::Hex,
    keep_going: false,
};

const HEX_TO_END: RunOptions = RunOptions {
    notation: TextNotation::Hex,
    keep_going: true,
};

const BASE64_TO_END: RunOptions = RunOptions {
    notation: TextNotation::Base64,
    keep_going: true,
};

// Runs the job of the tests. Returns the number of answered lines, or the fault.
fn run<R: LineSource, W: Write>(
    alloc: Global,
    options: RunOptions,
    told: &mut Told,
    input: &mut R,
    out: &mut W,
) -> Result<u64, RunFault<u8>> {
    let summary = LineRun { options, job: Echo }.run(alloc, told, input, out)?;
    Ok(summary.lines)
}

// The number of answered lines, or the line at which the run stops, with its fault.
type Wanted = Result<u64, (u64, LineFault<u8>)>;

fn result_of(wanted: Wanted) -> Result<u64, RunFault<u8>> {
    match wanted {
        Ok(lines) => Ok(lines),
        Err((line, fault)) => Err(RunFault::AtLine(RefusedLine { line, fault })),
    }
}

const BAD_DIGIT_0: LineFault<u8> = LineFault::Input(FileFault::BadDigit { at: 0 });

const BAD_DIGIT_1: LineFault<u8> = LineFault::Input(FileFault::BadDigit { at: 1 });

const ODD_DIGITS: LineFault<u8> = LineFault::Input(FileFault::OddDigits);

static RUNS: [(&[u8], Wanted, &[u8]); 11] = [
    (b"", Ok(0), b""),
    (b"\n", Ok(1), b"\n"),
    (b"00", Ok(1), b"00\n"),
    (b"00\n", Ok(1), b"00\n"),
    (
        b"0102030405\n0a0B\r\n\n7f",
        Ok(4),
        b"0102030405\n0a0b\n\n7f\n",
    ),
    (b"00\n0g\n01\n", Err((2, BAD_DIGIT_1)), b"00\n"),
    (b"000\n01\n", Err((1, ODD_DIGITS)), b""),
    (b"00\n\0\n", Err((2, BAD_DIGIT_0)), b"00\n"),
    (
        b"00\n01\nff",
        Err((3, LineFault::Refused(0xff))),
        b"00\n01\n",
    ),
    (b"FE\n", Err((1, LineFault::Memory)), b""),
    (b" 00 \n\n", Ok(2), b"00\n\n"),
];

#[test]
fn answers_the_lines_before_the_first_refused_one(rt: HostRuntime) -> Result<(), Fail> {
    for (text, want, written) in &RUNS {
        for capacity in [1, 4_096] {
            let mut input = BufReader::with_capacity(rt.alloc(), capacity, *text)?;
            let mut out = Vec::new(rt.alloc());
            let answer = run(rt.alloc(), HEX, &mut Told::new(), &mut input, &mut out);
            assert!(rt;
                answer == result_of(*want) && out.as_slice() == *written,
                "of {text:?}"
            );
        }
    }
    Ok(())
}

// Blanks at the ends of a line and within it: the line, its answer, and the place of its refusal.
static BLANKS: [(&[u8], &[u8], Option<usize>); 20] = [
    (b" 0a0b", b"0a0b\n", None),
    (b"\t0a0b", b"0a0b\n", None),
    (b"\r0a0b", b"0a0b\n", None),
    (b"0a0b ", b"0a0b\n", None),
    (b"0a0b\t", b"0a0b\n", None),
    (b"0a0b\r", b"0a0b\n", None),
    (b" \t\r 0a0b\t \r\r", b"0a0b\n", None),
    (b" ", b"\n", None),
    (b"\r", b"\n", None),
    (b"\t \r", b"\n", None),
    (b"0a 0b", b"", Some(2)),
    (b"0a\t0b", b"", Some(2)),
    (b"0a\r0b", b"", Some(2)),
    (b"0 a", b"", Some(1)),
    (b"0 0 1", b"", Some(1)),
    (b"11 0a0b0c0d", b"", Some(2)),
    (b" \t0a0b 0c \r", b"", Some(6)),
    (b"  0a0g 0b", b"", Some(5)),
    (b" 0a0b \x0c", b"", Some(5)),
    (b"\x0b0a0b", b"", Some(0)),
];

#[test]
fn takes_blanks_at_the_ends_alone(rt: HostRuntime) -> Result<(), Fail> {
    for (line, want, refused) in &BLANKS {
        let mut input: &[u8] = line;
        let mut out = Vec::new(rt.alloc());
        let answer = run(rt.alloc(), HEX, &mut Told::new(), &mut input, &mut out);
        let wanted = match refused {
            None => Ok(1),
            Some(at) => Err((1, LineFault::Input(FileFault::BadDigit { at: *at }))),
        };
        assert!(rt;
            answer == result_of(wanted) && out.as_slice() == *want,
            "of {line:?}"
        );
    }
    Ok(())
}

// The text; the summary and the output of a run that continues after refusals; the number of its
// refusals; and the last one: its line, and its fault.
static PASSED: [(&[u8], Wanted, &[u8], u64, Option<RefusedLine<u8>>); 4] = [
    (b"00\n01", Ok(2), b"00\n01\n", 0, None),
    (
        b"00\n0g\nff\n0\n01",
        Ok(5),
        b"00\n\n\n\n01\n",
        3,
        Some(RefusedLine {
            line: 4,
            fault: ODD_DIGITS,
        }),
    ),
    (
        b"ff",
        Ok(1),
        b"\n",
        1,
        Some(RefusedLine {
            line: 1,
            fault: LineFault::Refused(0xff),
        }),
    ),
    (
        b"0g\nfe\n00\n",
        Err((2, LineFault::Memory)),
        b"\n",
        1,
        Some(RefusedLine {
            line: 1,
            fault: BAD_DIGIT_1,
        }),
    ),
];

#[test]
fn goes_on_after_refused_lines(rt: HostRuntime) -> Result<(), Fail> {
    for (text, want, written, count, last) in &PASSED {
        let mut input: &[u8] = text;
        let mut out = Vec::new(rt.alloc());
        let mut told = Told::new();
        let answer = run(rt.alloc(), HEX_TO_END, &mut told, &mut input, &mut out);
        assert!(rt;
            answer == result_of(*want) && out.as_slice() == *written,
            "of {text:?}"
        );
        assert!(rt; told.count == *count && told.last == *last, "of {text:?}");
    }
    Ok(())
}

#[test]
fn counts_what_a_refused_write_left_out(rt: HostRuntime) -> Result<(), Fail> {
    // A run that ends well, and one that stops at line 3.
    for (text, answered) in [(&b"0102\n03\n"[..], 2), (&b"0102\n03\nff\n"[..], 2)] {
        let whole = b"0102\n03\n";
        for room in 0..whole.len() {
            let mut input = text;
            let mut out = Narrow::stopping(rt.alloc(), room, Stopping::Fails, 1);
            let answer = run(rt.alloc(), HEX, &mut Told::new(), &mut input, &mut out);
            let unsent = whole.len() - room;
            assert!(rt; answer == Err(RunFault::Write { answered, unsent }));
            assert_eq!(rt; out.out(), &whole[..room]);
        }
    }
    Ok(())
}

#[test]
fn stops_where_the_writer_refuses_a_full_block(rt: HostRuntime) -> Result<(), Fail> {
    let mut line = Vec::new(rt.alloc());
    line.resize(40_000, b'5')?;
    line.push(b'\n')?;
    let mut text = Vec::new(rt.alloc());
    for _ in 0..3 {
        text.extend_from_slice(&line)?;
    }
    let mut input = text.as_slice();
    let mut out = Narrow::stopping(rt.alloc(), 10, Stopping::Fails, 1);
    let answer = run(rt.alloc(), HEX, &mut Told::new(), &mut input, &mut out);
    let unsent = 80_002 - 10;
    let answered = 2;
    assert!(rt; answer == Err(RunFault::Write { answered, unsent }));
    assert!(rt; out.out().len() == 10 && text.starts_with(out.out()) && input.len() == 40_001);
    Ok(())
}

#[test]
fn stops_at_the_line_whose_read_fails(rt: HostRuntime) -> Result<(), Fail> {
    let text = b"00\n01\n02";
    for (reads, line) in [
        (0, 1),
        (1, 1),
        (2, 1),
        (3, 2),
        (4, 2),
        (5, 2),
        (6, 3),
        (7, 3),
        (8, 3),
    ] {
        let mut input = BufReader::new(rt.alloc(), Trickle::failing(text, reads, 1))?;
        let mut out = Vec::new(rt.alloc());
        let answer = run(rt.alloc(), HEX, &mut Told::new(), &mut input, &mut out);
        let fault = LineFault::Input(FileFault::Read);
        assert!(rt;
            answer == result_of(Err((line, fault))),
            "after {reads} reads"
        );
        assert!(rt; text.starts_with(&out) && out.len() == reads / 3 * 3);
    }
    Ok(())
}

#[test]
fn answers_lines_of_base64(rt: HostRuntime) -> Result<(), Fail> {
    let mut input = b"-_8\n\t+/8= \nZ m\n".as_slice();
    let mut out = Vec::new(rt.alloc());
    let mut told = Told::new();
    let answer = run(rt.alloc(), BASE64_TO_END, &mut told, &mut input, &mut out);
    assert!(rt; answer == Ok(3));
    assert!(rt; out.as_slice() == b"fbff\nfbff\n\n".as_slice());
    let fault = LineFault::Input(FileFault::BadCharacter { at: 1 });
    assert!(rt; told.last == Some(RefusedLine { line: 3, fault }));
    Ok(())
}
