//! The tests: ample and refused memory, counted blocks, worked answers of each call of
//! `key_wrap_core` and of `key_wrap_steps` over the drill block, and printed faults.

mod doubles;
mod growths;
mod initial_values;
mod memory;
mod padded;
mod plain;
mod rewraps;
mod rows;
mod steps;

use crate::*;
use std::test::Fail;

#[test]
fn faults_print_their_cause(rt: HostRuntime) -> Result<(), Fail> {
    let wraps = format!(in rt.alloc(); "{}; {}", WrapFault::BadLength, WrapFault::Memory)?;
    assert_eq!(rt; wraps.as_str(), "bad length; out of memory");
    let unwraps = format!(in rt.alloc();
        "{}; {}; {}",
        UnwrapFault::BadLength,
        UnwrapFault::Integrity,
        UnwrapFault::Memory
    )?;
    assert_eq!(rt;
        unwraps.as_str(),
        "bad length; integrity check failed; out of memory"
    );
    let kinds = format!(in rt.alloc(); "{}", KindFault::Memory)?;
    assert_eq!(rt; kinds.as_str(), "out of memory");
    let in_place = format!(in rt.alloc();
        "{}; {}; {}; {}; {}; {}",
        InPlaceFault::BadLength,
        InPlaceFault::Integrity,
        Refusal::BadLength,
        Refusal::Integrity,
        Refusal::KeyNotPlain,
        ReservedIv
    )?;
    assert_eq!(rt;
        in_place.as_str(),
        "bad length; integrity check failed; bad length; integrity check failed; bad length; \
         initial value is reserved for the padded form"
    );
    Ok(())
}
