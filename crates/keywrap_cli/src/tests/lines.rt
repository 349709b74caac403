//! Operations over lines.

use super::cases::{form, rewrap, unwrap_in};
use super::jobs::{HEX_KEK, HEX_KEY, NEW_KEK};
use crate::files::Notation;
use crate::kek_file::Keks;
use crate::operation::Operation;
use crate::outcome::JobFault;
use crate::what::What;
use key_files::FileFault;
use key_lines::{
    LineFault, LineSource, RefusalLog, RefusedLine, RunFault, RunOptions, RunSummary, TextNotation,
};
use key_wrap_core::{Form, Refusal};
use std::alloc::Global;
use std::io::{BufReader, Write};
use std::test::Fail;
use test_doubles::{Narrow, Trickle};

// Drops the refusals.
#[derive(Drop)]
struct NoLog;

impl RefusalLog<Refusal> for NoLog {
    fn receive(&mut self, _refused: &RefusedLine<Refusal>) {}
}

type Run = Result<RunSummary<Refusal>, RunFault<Refusal>>;

fn run_lines<I: LineSource, W: Write>(
    alloc: Global,
    what: What,
    keep_going: bool,
    input: &mut I,
    out: &mut W,
) -> Result<Run, JobFault> {
    let keks = Keks {
        notation: Notation::Hex,
        kek: Trickle::in_pieces(HEX_KEK, 7),
        new_kek: matches!(what, What::Rewrap { .. }).then_some(Trickle::in_pieces(NEW_KEK, 7)),
    };
    let options = RunOptions {
        notation: TextNotation::Hex,
        keep_going,
    };
    let mut operation = Operation { what, keks };
    let run = operation.run_lines(alloc, options, &mut NoLog, input, out);
    run.map(|outcome| outcome.result)
}

#[test]
fn counts_the_lines_that_pass(rt: HostRuntime) -> Result<(), Fail> {
    let lines = b"1fa68b0a8112b447aef34bd8fb5a7b829d3e862371d2cfe5\n\
        64e8c3f9ce0f5ba263e9777905818a2a93c8191e7d6e8ae7\n00\n";
    let wanted = b"64e8c3f9ce0f5ba263e9777905818a2a93c8191e7d6e8ae7\n\
        64e8c3f9ce0f5ba263e9777905818a2a93c8191e7d6e8ae7\n\n";
    let mut input = BufReader::with_capacity(rt.alloc(), 16, Trickle::in_pieces(lines, 7))?;
    let mut out = Narrow::in_pieces(rt.alloc(), 7);
    let what = rewrap(Some((Form::Plain, Form::Plain)), true);
    let run = run_lines(rt.alloc(), what, true, &mut input, &mut out);
    let first_refused = Some(RefusedLine {
        line: 3,
        fault: LineFault::Refused(Refusal::BadLength),
    });
    assert!(rt;
        run == Ok(Ok(RunSummary {
            lines: 3,
            noted: 1,
            refused: 1,
            first_refused,
        }))
    );
    assert!(rt; out.out() == wanted.as_slice());
    Ok(())
}

// The line of a wrapped key, and a shorter line that is refused. It needs no more memory than the
// first one, so it is refused for its own fault, and never for lack of memory.
static SECOND_LINES: [(&[u8], LineFault<Refusal>); 3] = [
    (
        b"1fa68b0a8112b447aef34bd8fb5a7b829d3e862371d2cfe5\n0g\n",
        LineFault::Input(FileFault::BadDigit { at: 1 }),
    ),
    (
        b"1fa68b0a8112b447aef34bd8fb5a7b829d3e862371d2cfe5\n001\n",
        LineFault::Input(FileFault::OddDigits),
    ),
    (
        b"1fa68b0a8112b447aef34bd8fb5a7b829d3e862371d2cfe5\n00\n",
        LineFault::Refused(Refusal::BadLength),
    ),
];

// `rt try --test --fail-alloc N` refuses the Nth allocation; the gate refuses none.
#[test]
fn refuses_each_growth_of_a_run_over_lines(rt: HostRuntime) {
    for (lines, fault) in SECOND_LINES {
        let mut room = [0; 64];
        let mut free = room.as_mut_slice();
        let found = refused_line(rt.alloc(), lines, &mut free);
        let written = 64_usize.saturating_sub(free.len());
        if found == Some((1, LineFault::Memory)) {
            assert!(rt; written == 0);
        } else {
            assert!(rt; found == Some((2, fault)), "{fault:?}");
            assert!(rt; room.get(..written) == Some(HEX_KEY), "{fault:?}");
        }
    }
}

// Unwraps each line. Returns the line that is refused, with its fault. If memory is lacking for the
// KEK, this is the first line.
fn refused_line(
    alloc: Global,
    mut lines: &[u8],
    out: &mut &mut [u8],
) -> Option<(u64, LineFault<Refusal>)> {
    let unwrap = unwrap_in(form(Form::Plain));
    match run_lines(alloc, unwrap, false, &mut lines, out) {
        Ok(Err(RunFault::AtLine(refused))) => Some((refused.line, refused.fault)),
        Err(JobFault::Memory) => Some((1, LineFault::Memory)),
        _ => None,
    }
}
