//! The lines of the published vectors, of tables with one changed vector, and over calls of which
//! one is damaged.

ghost use Rattle.std.specs.Prelude.{⊤};

use crate::fault::ProgramFault;
use crate::job::Direction;
use crate::toy_and_vectors::{run_drill, run_vectors, write_help};
use crate::vector_check::{Library, VectorCalls};
use crate::vector_report::{VectorsFault, report_on, vectors};
use key_wrap_core::Form;
use std::alloc::{AllocError, Global};
use std::process::Abort;
use std::test::Fail;
use test_doubles::{Narrow, STOPPINGS, Unflushed};
use test_vectors::{Algorithm, Vector, published};

const LINES: &str = "\
rfc3394 4.1 ok
rfc3394 4.2 ok
rfc3394 4.3 ok
rfc3394 4.4 ok
rfc3394 4.5 ok
rfc3394 4.6 ok
rfc5649 20 ok
rfc5649 7 ok
fips197 1 ok
fips197 2 ok
fips197 3 ok
fips197 4 ok
";

#[test]
fn writes_twelve_lines_that_say_ok(rt: HostRuntime) {
    let mut out = Vec::new(rt.alloc());
    assert!(rt; vectors::<Library, _>(rt.alloc(), &mut out) == Ok(true));
    assert!(rt; out.as_slice() == LINES.as_bytes() && out.len() == 169);
}

// If the last byte of one output is changed, only its line fails.
#[test]
fn says_failed_exactly_for_the_changed_vector(rt: HostRuntime) -> Result<(), Fail> {
    for changed in 0..published().len() {
        change_vector(&rt, rt.alloc(), changed)?;
    }
    Ok(())
}

fn change_vector(rt: &impl Abort, alloc: Global, changed: usize) -> Result<(), Fail> {
    let table = published();
    let vector = table.get(changed).ok_or("no such vector")?;
    let mut output = vector.output.to_vec(alloc)?;
    if let Some(last) = output.last_mut() {
        *last ^= 1;
    }
    let ok = format!(in alloc; "{} ok", vector.name)?;
    let failed = format!(in alloc; "{} failed", vector.name)?;
    let wanted = LINES.replace(alloc, ok.as_str(), failed.as_str())?;
    let report = report_on::<Library>(alloc, &table_with(alloc, &table, changed, &output)?)?;
    assert!(rt; report.text == wanted && !report.all_ok, "{}", report.text);
    Ok(())
}

// Returns the table with another output of one vector.
fn table_with<'a>(
    alloc: Global,
    vectors: &[Vector<'a>],
    changed: usize,
    output: &'a [u8],
) -> Result<Vec<Vector<'a>>, AllocError> {
    let mut table = Vec::new(alloc);
    for (at, vector) in vectors.iter().enumerate() {
        let output = if at == changed { output } else { vector.output };
        table.push(Vector { output, ..*vector })?;
    }
    Ok(table)
}

// The calls of this crate, but the last byte of what an unwrap or a decryption returns is changed.
#[derive(Clone, Copy)]
struct Damaged;

impl VectorCalls for Damaged {
    ghost gave = { λ _ _ _ _ _. ⊤ };

    fn call(
        alloc: Global,
        direction: Direction,
        algorithm: Algorithm,
        key: &[u8],
        input: &[u8],
    ) -> Result<Option<Vec<u8>>, AllocError> {
        let mut found = Library::call(alloc, direction, algorithm, key, input)?;
        if let (Direction::Unwrap, Some(bytes)) = (direction, &mut found) {
            if let Some(last) = bytes.last_mut() {
                *last ^= 1;
            }
        }
        Ok(found)
    }
}

#[test]
fn says_failed_where_the_way_back_is_damaged(rt: HostRuntime) -> Result<(), Fail> {
    let mut out = Vec::new(rt.alloc());
    assert!(rt; matches!(run_vectors::<Damaged, _>(rt.alloc(), &mut out), Ok(5)));
    let wanted = LINES.replace(rt.alloc(), " ok", " failed")?;
    assert!(rt; out.as_slice() == wanted.as_bytes());
    Ok(())
}

#[test]
fn ends_with_the_status_of_the_lines(rt: HostRuntime) {
    let mut out = Narrow::in_pieces(rt.alloc(), 7);
    assert!(rt; matches!(run_vectors::<Library, _>(rt.alloc(), &mut out), Ok(0)));
    assert!(rt; out.out() == LINES.as_bytes() && out.is_flushed);
    let mut narrow = Narrow::failing(rt.alloc(), 15);
    let done = run_vectors::<Library, _>(rt.alloc(), &mut narrow);
    assert!(rt; matches!(done, Err(ProgramFault::Write { written: 15 })));
    assert!(rt; !narrow.is_flushed);
}

#[test]
fn counts_the_bytes_at_each_write_that_stops(rt: HostRuntime) {
    for room in 0..=LINES.len() {
        for (stop, faults) in &STOPPINGS {
            let mut out = Narrow::stopping(rt.alloc(), room, *stop, *faults);
            let done = vectors::<Library, _>(rt.alloc(), &mut out);
            let wanted = if room < LINES.len() {
                Err(VectorsFault::Write { written: room })
            } else {
                Ok(true)
            };
            assert!(rt; done == wanted, "{stop:?} at byte {room}");
            assert!(rt;
                Some(out.out()) == LINES.as_bytes().get(..room),
                "byte {room}"
            );
        }
    }
}

// `rt try --test --fail-alloc N` refuses the Nth allocation; the gate refuses none.
#[test]
fn refuses_each_growth_of_the_vectors(rt: HostRuntime) {
    let mut room = [0; 256];
    let mut free = room.as_mut_slice();
    let done = vectors::<Library, _>(rt.alloc(), &mut free);
    let written = 256_usize.saturating_sub(free.len());
    if done == Err(VectorsFault::Memory) {
        assert!(rt; written == 0);
    } else {
        assert!(rt; done == Ok(true) && room.get(..written) == Some(LINES.as_bytes()));
    }
}

#[test]
fn a_flush_that_fails_is_a_fault(rt: HostRuntime) {
    let (mut out, padded, wrap) = (Unflushed, Form::Padded, Direction::Wrap);
    let failed = [
        run_vectors::<Library, _>(rt.alloc(), &mut out),
        run_drill(rt.alloc(), padded, wrap, "00", &mut out),
        write_help("help", &mut out),
    ];
    for done in &failed {
        assert!(rt; matches!(done, Err(ProgramFault::Flush)));
    }
}
