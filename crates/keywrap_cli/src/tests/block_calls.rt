//! How many block calls a line costs, with a block permutation that counts them.

use super::cases::{check, form, rewrap, unwrap_in, wrap_in, wrapped};
use crate::files::Notation;
use crate::key_job::KeyJob;
use crate::what::What;
use block_pair::SwapHalves;
use key_lines::LineJob;
use key_wrap_core::Form::{self, Padded, Plain};
use std::alloc::Global;
use std::test::Fail;
use test_doubles::Tally;

// The operation, the form in which the input is wrapped, if it is, the number of zeros in the input
// or in its key, and the calls under the KEK and under the new KEK: six for each 8 bytes of key, and
// one for a padded key of up to 8 bytes. A wrapped key of 16 bytes is padded. What a KEK refuses in a
// rewrap is unwrapped and wrapped again under it, which restores the bytes; so is a wrapped key that
// is new already.
fn costs() -> [(What, Option<Form>, usize, [u64; 2]); 23] {
    [
        (wrap_in(form(Plain)), None, 8, [0, 0]),
        (wrap_in(form(Plain)), None, 24, [18, 0]),
        (wrap_in(form(Padded)), None, 8, [1, 0]),
        (wrap_in(form(Padded)), None, 17, [18, 0]),
        (unwrap_in(form(Plain)), None, 32, [18, 0]),
        (unwrap_in(form(Padded)), None, 16, [1, 0]),
        (unwrap_in(form(Padded)), None, 32, [18, 0]),
        (check(), None, 16, [1, 0]),
        (check(), None, 32, [18, 0]),
        (check(), None, 31, [0, 0]),
        (rewrap(None, false), Some(Plain), 24, [18; 2]),
        (rewrap(None, false), Some(Padded), 8, [1; 2]),
        (rewrap(None, true), Some(Padded), 17, [18; 2]),
        (to(Plain, Plain, false), Some(Plain), 16, [12; 2]),
        (to(Plain, Padded, true), Some(Plain), 24, [18; 2]),
        (to(Padded, Plain, false), Some(Padded), 24, [18; 2]),
        (to(Padded, Padded, false), Some(Padded), 8, [1; 2]),
        // a key whose length is not plain, and wrapped keys in the wrong form
        (to(Padded, Plain, false), Some(Padded), 8, [2, 0]),
        (to(Padded, Plain, true), Some(Padded), 17, [36, 0]),
        (to(Plain, Plain, false), Some(Padded), 24, [36, 0]),
        (to(Plain, Plain, true), Some(Padded), 24, [36, 36]),
        // not a wrapping in the old form, but in the new one
        (to(Padded, Plain, true), Some(Plain), 24, [36, 36]),
        (to(Plain, Padded, true), Some(Padded), 24, [36, 36]),
    ]
}

fn to(old: Form, new: Form, pass_new: bool) -> What {
    rewrap(Some((old, new)), pass_new)
}

#[test]
fn a_line_costs_six_calls_for_eight_bytes(rt: HostRuntime) -> Result<(), Fail> {
    for (what, own, len, calls) in costs() {
        let zeros = vec![in rt.alloc(); 0; len]?;
        let line = match own {
            Some(own) => wrapped(rt.alloc(), form(own), &SwapHalves, &zeros)?,
            None => zeros,
        };
        assert_eq!(rt;
            calls_of(rt.alloc(), what, line),
            calls,
            "{own:?}, {len} bytes"
        );
    }
    Ok(())
}

// Returns the calls under both KEKs for this line.
fn calls_of(alloc: Global, what: What, line: Vec<u8>) -> [u64; 2] {
    let job = KeyJob {
        alloc,
        what,
        notation: Notation::Hex,
        pair: Tally::new(),
        new_pair: Some(Tally::new()),
    };
    let (mut bytes, mut output) = (line, Vec::new(alloc));
    let _outcome = job.answer(&mut bytes, &mut output);
    let new_calls = job.new_pair.as_ref().map_or(0, Tally::calls);
    [job.pair.calls(), new_calls]
}
