//! The lines on standard error and the exit statuses.

use crate::drilling::DrillFault as Drills;
use crate::fault::ProgramFault::{self, *};
use crate::initial_value::IvFault::{NotSixteenDigits, Reserved};
use crate::outcome::JobFault::{self, InputFile, KekFile, KekLength, NewKekFile, NewKekLength};
use key_files::FileFault::{self, OddDigits, Read, TooLong};
use std::alloc::Global;
use std::process::Abort;
use std::test::Fail;

const AT_1: FileFault = FileFault::BadDigit { at: 1 };

const AT_17: FileFault = FileFault::BadDigit { at: 17 };

const AFTER_10: JobFault = JobFault::Write { written: 10 };

// The faults of operations, their statuses, and their lines after `keywrap: `.
static JOBS: [(JobFault, u8, &str); 15] = [
    (KekLength, 3, "key length is not 16, 24 or 32 bytes"),
    (NewKekLength, 3, "new key length is not 16, 24 or 32 bytes"),
    (JobFault::BadLength, 4, "bad length"),
    (JobFault::Integrity, 5, "integrity check failed"),
    (KekFile(Read), 6, "key file: cannot be read"),
    (KekFile(TooLong), 6, "key file: too long"),
    (KekFile(OddDigits), 6, "key file: odd number of hex digits"),
    (NewKekFile(Read), 6, "new key file: cannot be read"),
    (NewKekFile(TooLong), 6, "new key file: too long"),
    (NewKekFile(AT_1), 6, "new key file: no hex digit at byte 1"),
    (InputFile(Read), 6, "input: cannot be read"),
    (InputFile(TooLong), 6, "input: too long"),
    (InputFile(AT_17), 6, "input: no hex digit at byte 17"),
    (AFTER_10, 6, "output: refused after 10 bytes"),
    (JobFault::Memory, 7, "out of memory"),
];

const DIGIT_1: Drills = Drills::BadDigit { at: 1 };

const RAW: &str = "output: raw bytes do not go to a terminal; redirect it or use --output";

const NEW_RESERVED: &str = "--new-iv is reserved for the padded form";

const CUT: &str = "output: refused 49 bytes before the end of line 2";

const UNSENT: ProgramFault = Unsent {
    answered: 2,
    unsent: 49,
};

// The other faults.
static OTHERS: [(ProgramFault, u8, &str); 20] = [
    (NoLines, 4, "no lines"),
    (Iv(NotSixteenDigits), 2, "--iv is not 16 hex digits"),
    (Iv(Reserved), 2, "--iv is reserved for the padded form"),
    (NewIv(NotSixteenDigits), 2, "--new-iv is not 16 hex digits"),
    (NewIv(Reserved), 2, NEW_RESERVED),
    (Drill(Drills::BadLength), 4, "bad length"),
    (Drill(Drills::Integrity), 5, "integrity check failed"),
    (Drill(Drills::TooLong), 6, "input: too long"),
    (Drill(DIGIT_1), 6, "input: no hex digit at byte 1"),
    (
        Drill(Drills::OddDigits),
        6,
        "input: odd number of hex digits",
    ),
    (Drill(Drills::Memory), 7, "out of memory"),
    (KekOpen, 6, "key file: cannot be opened"),
    (NewKekOpen, 6, "new key file: cannot be opened"),
    (RawToTerminal, 2, RAW),
    (InputOpen, 6, "input: cannot be opened"),
    (OutputOpen, 6, "output: cannot be opened"),
    (Write { written: 0 }, 6, "output: refused after 0 bytes"),
    (UNSENT, 6, CUT),
    (Flush, 6, "output: cannot be flushed"),
    (Memory, 7, "out of memory"),
];

#[test]
fn says_each_fault(rt: HostRuntime) -> Result<(), Fail> {
    for (fault, status, line) in &JOBS {
        says(&rt, rt.alloc(), &Job(*fault), *status, line)?;
    }
    for (fault, status, line) in &OTHERS {
        says(&rt, rt.alloc(), fault, *status, line)?;
    }
    Ok(())
}

fn says(
    rt: &impl Abort,
    alloc: Global,
    fault: &ProgramFault,
    status: u8,
    line: &str,
) -> Result<(), Fail> {
    let said = format!(in alloc; "{fault}")?;
    assert_eq!(rt; said.as_str().strip_prefix("keywrap: "), Some(line));
    assert_eq!(rt; fault.status(), status);
    Ok(())
}
