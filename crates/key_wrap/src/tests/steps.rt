//! The calls that make one step, around a cipher that is reached through a session, like a token's.

use super::rows::{KEY, PADDED_KEYS, PLAIN, spelled};
use key_wrap_core::{InPlaceFault, InitialValue};
use key_wrap_steps::*;
use std::alloc::Global;
use std::test::Fail;

const REFUSED: Result<(), InPlaceFault> = Err(InPlaceFault::BadLength);

// What the caller holds beside the registers, with a session that each block call changes. Its cipher
// is the drill block.
#[derive(Drop)]
struct Held {
    blocks: u64,
    first: [u8; 8],
    steps: u64,
    block: [u8; 16],
}

impl Held {
    // With these first 8 bytes of a wrapped key.
    fn new(first: [u8; 8]) -> Held {
        Held {
            blocks: 0,
            first,
            steps: 77,
            block: [0x5A; 16],
        }
    }

    fn call(&mut self) {
        self.blocks = self.blocks.saturating_add(1);
        self.block.rotate_left(8);
    }

    // Makes all steps of a wrapping, and ends it.
    fn wrap(&mut self, registers: &mut [u8], steps: u64) -> Result<(), InPlaceFault> {
        for _ in 0..steps {
            self.call();
            step_wrap(registers, &mut self.steps, &mut self.block)?;
        }
        end_wrap(&mut self.first, registers, self.steps, &self.block)
    }

    // Undoes all steps of an unwrapping.
    fn unwrap(&mut self, registers: &mut [u8], steps: u64) -> Result<(), InPlaceFault> {
        for _ in 0..steps {
            self.call();
            step_unwrap(registers, &mut self.steps, &mut self.block)?;
        }
        Ok(())
    }
}

// The steps over one word of registers, or two.
fn steps_of(len: usize) -> u64 {
    if len == 8 { 1 } else { 12 }
}

#[test]
fn wraps_a_plain_key_by_steps(rt: HostRuntime) -> Result<(), Fail> {
    let mut held = Held::new([0; 8]);
    let mut registers = KEY;
    let iv = InitialValue::default();
    let begun = begin_wrap(&iv, &registers, &mut held.steps, &mut held.block);
    assert!(rt; begun == Ok(()) && held.steps == 0 && registers == KEY);
    assert!(rt; held.wrap(&mut registers, 11) == REFUSED && held.first == [0; 8]);
    assert!(rt; held.wrap(&mut registers, 1) == Ok(()) && held.blocks == 12);
    let want = spelled(rt.alloc(), &PLAIN)?;
    assert!(rt; want.starts_with(&held.first) && want.ends_with(&registers));
    Ok(())
}

#[test]
fn wraps_padded_keys_by_steps(rt: HostRuntime) -> Result<(), Fail> {
    for (key, words) in PADDED_KEYS {
        let want = spelled(rt.alloc(), words)?;
        let mut registers = vec![in rt.alloc(); 0xEE; want.len().saturating_sub(8)]?;
        let m = key.len();
        for (to, from) in registers.iter_mut().zip(key) {
            *to = *from;
        }
        let mut held = Held::new([0; 8]);
        let begun = begin_wrap_padded(m, &mut registers, &mut held.steps, &mut held.block);
        let steps = steps_of(registers.len());
        assert!(rt;
            begun == Ok(()) && held.wrap(&mut registers, steps) == Ok(()),
            "{m} bytes"
        );
        assert!(rt;
            want.starts_with(&held.first) && want.ends_with(&registers),
            "{m} bytes"
        );
        assert!(rt; held.blocks == steps, "{m} bytes");
    }
    Ok(())
}

#[test]
fn unwraps_a_plain_key_by_steps(rt: HostRuntime) -> Result<(), Fail> {
    for (words, is_key) in [(PLAIN, true), ([0; 3], false)] {
        let [first, ..] = words;
        let text = spelled(rt.alloc(), &words)?;
        let mut registers = [0; 16];
        for (to, from) in registers.iter_mut().zip(text.iter().skip(8)) {
            *to = *from;
        }
        let mut held = Held::new(first.to_be_bytes());
        let iv = InitialValue::default();
        let begun = begin_unwrap(&held.first, &registers, &mut held.steps, &mut held.block);
        assert!(rt; begun == Ok(()) && held.steps == 12);
        assert!(rt; held.unwrap(&mut registers, 11) == Ok(()));
        assert!(rt; end_unwrap(&iv, &mut registers, held.steps, &mut held.block) == REFUSED);
        assert!(rt; held.unwrap(&mut registers, 1) == Ok(()) && held.steps == 0);
        assert!(rt; held.unwrap(&mut registers, 1) == REFUSED);
        held.call();
        let ended = end_unwrap(&iv, &mut registers, held.steps, &mut held.block);
        let want = if is_key {
            Ok(())
        } else {
            Err(InPlaceFault::Integrity)
        };
        let left = if is_key { KEY } else { [0; 16] };
        assert!(rt; ended == want && registers == left && held.block == [0; 16]);
    }
    Ok(())
}

// Unwraps padded words by steps. Returns the result, the registers, and what the caller holds.
fn unwrap_padded(
    alloc: Global,
    words: &[u64],
) -> Result<(Result<usize, InPlaceFault>, Vec<u8>, Held), Fail> {
    let (first, mut registers) = match words {
        [first, rest @ ..] => (first.to_be_bytes(), spelled(alloc, rest)?),
        [] => ([0; 8], spelled(alloc, &[])?),
    };
    let steps = steps_of(registers.len());
    let mut held = Held::new(first);
    begin_unwrap_padded(&held.first, &registers, &mut held.steps, &mut held.block)?;
    held.unwrap(&mut registers, steps)?;
    let ended = end_unwrap_padded(&mut registers, held.steps, &mut held.block);
    Ok((ended, registers, held))
}

#[test]
fn unwraps_padded_keys_by_steps(rt: HostRuntime) -> Result<(), Fail> {
    for (key, words) in PADDED_KEYS {
        let (ended, registers, held) = unwrap_padded(rt.alloc(), words)?;
        let (m, steps) = (key.len(), steps_of(registers.len()));
        assert!(rt; ended == Ok(m) && registers.starts_with(key), "{m} bytes");
        assert!(rt;
            registers.iter().skip(m).all(|byte| *byte == 0),
            "{m} bytes"
        );
        assert!(rt; held.blocks == steps && held.block == [0; 16], "{m} bytes");
    }
    Ok(())
}
