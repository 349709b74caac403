//! Each case in pieces and whole, and as each of its reads, writes and allocations fails: Read, Write
//! and Memory come only with cause.

use super::cases::{Case, run};
use super::jobs::{jobs, rewraps};
use crate::outcome::JobFault;
use key_files::FileFault;
use std::alloc::Global;
use std::process::Abort;
use test_doubles::{FAULTS, Narrow, STOPPINGS, Trickle};

#[test]
fn each_case_has_its_answer_in_pieces_and_whole(rt: HostRuntime) {
    for size in [1, usize::MAX] {
        for case in &jobs() {
            case.holds(&rt, rt.alloc(), size);
        }
        for case in &rewraps() {
            case.holds(&rt, rt.alloc(), size);
        }
    }
}

#[test]
fn answers_each_read_and_write_that_fails(rt: HostRuntime) {
    for case in &jobs() {
        fail_each_read(&rt, rt.alloc(), case);
        stop_each_write(&rt, rt.alloc(), case);
    }
    for case in &rewraps() {
        fail_each_read(&rt, rt.alloc(), case);
        stop_each_write(&rt, rt.alloc(), case);
    }
}

// `rt try --test --fail-alloc N` refuses the Nth allocation of this test; the gate refuses none.
#[test]
fn refuses_each_growth_of_a_call(rt: HostRuntime) {
    for case in &jobs() {
        run_in_room(&rt, rt.alloc(), case);
    }
    for case in &rewraps() {
        run_in_room(&rt, rt.alloc(), case);
    }
}

// The faults of a failed read of the KEK, the new KEK and the input.
static READ_FAULTS: [JobFault; 3] = [
    JobFault::KekFile(FileFault::Read),
    JobFault::NewKekFile(FileFault::Read),
    JobFault::InputFile(FileFault::Read),
];

// Each read fails, once or from then on. Then nothing is written, the reader is not called again, and
// later files are not read. The bytes before the failure do not matter.
fn fail_each_read(rt: &impl Abort, alloc: Global, case: &Case) {
    for at in 0..3 {
        let file = case.2[at];
        let places = if case.reads(at) {
            file.len().saturating_add(1)
        } else {
            0
        };
        for room in 0..places {
            for faults in FAULTS {
                let mut files = case.files(1);
                files[at] = Trickle::failing(file, room, faults);
                let mut out = Narrow::in_pieces(alloc, 1);
                let (done, files) = run(alloc, case, files, &mut out);
                assert!(rt; done == Err(READ_FAULTS[at]), "file {at}, byte {room}");
                assert!(rt; out.out().is_empty(), "file {at}, byte {room}");
                for later in files.iter().skip(at + 1).flatten() {
                    assert!(rt; later.is_unread, "file {at}, byte {room}");
                }
            }
        }
    }
}

// Each write fails, once or from then on, by an error or by taking no bytes. A writer that failed
// once is not called again. A fault after the output is not reached.
fn stop_each_write(rt: &impl Abort, alloc: Global, case: &Case) {
    let Case(_, _, _, wanted, output) = *case;
    for room in 0..=output.len() {
        for (stop, faults) in &STOPPINGS {
            let mut out = Narrow::stopping(alloc, room, *stop, *faults);
            let (done, _) = run(alloc, case, case.files(1), &mut out);
            let wanted = if room < output.len() {
                Err(JobFault::Write { written: room })
            } else {
                wanted
            };
            assert!(rt; done == wanted, "{wanted:?}, {stop:?} at byte {room}");
            assert!(rt; Some(out.out()) == output.get(..room), "byte {room}");
            assert!(rt; !out.is_flushed);
        }
    }
}

// A refused allocation is Memory, and nothing is written.
fn run_in_room(rt: &impl Abort, alloc: Global, case: &Case) {
    let Case(_, _, _, wanted, output) = *case;
    let mut room = [0; 64];
    // A writer that does not allocate: the room that is left.
    let mut free = room.as_mut_slice();
    let (done, _) = run(alloc, case, case.files(usize::MAX), &mut free);
    let written = 64_usize.saturating_sub(free.len());
    if done == Err(JobFault::Memory) {
        assert!(rt; written == 0, "{wanted:?}");
    } else {
        assert!(rt;
            done == wanted && room.get(..written) == Some(output),
            "{wanted:?}"
        );
    }
}
