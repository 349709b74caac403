//! Answers are gathered in a block and written together, so that it is known which bytes were
//! written.

ghost use Rattle.std.specs.Prelude.{◌≡◌, ◌-◌, ◌<◌, ◌≤◌, [], length, drop, vec_len, IfErr, OnOk};
ghost use Rattle.key_lines.specs.Block.{Sends};

use key_files::{WriteFault, write_raw};
use std::io::Write;

// The number of bytes that are written together.
pub(crate) const BLOCK: usize = 65_536;

// Writes the block. If the writer refuses, the rest stays in the block.
pub(crate) fn send<W: Write>(out: &mut W, block: &mut Vec<u8>) -> Result<(), WriteFault>
    ensures sends { Sends (W.contents out.old) (W.contents out.new)
        block.old.items block.new.items }
    ensures all { OnOk result (block.new.items ≡ []) }
    ensures left { IfErr result (λ _. 0 < length block.new.items) }
{
    match write_raw(out, block) {
        Ok(()) => {
            block.clear();
            Ok(())
        }
        Err(fault) => {
            remove_front(block, fault.written);
            Err(fault)
        }
    }
}

fn remove_front(block: &mut Vec<u8>, n: usize)
    requires { n ≤ vec_len block.old }
    ensures items { block.new.items ≡ drop n block.old.items }
    ensures len { vec_len block.new ≡ vec_len block.old - n }
{
    let len = block.len();
    block.as_mut_slice().copy_within(n..len, 0);
    block.truncate(len - n);
}
