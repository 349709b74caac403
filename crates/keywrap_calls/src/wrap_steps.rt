//! Wrapping step by step, for an AES outside the library.

ghost use Rattle.keywrap_calls.specs.StepPromises.{BeginsWrap, BeginsPadded, StepsWrap, EndsWrap};

use crate::plain_with::iv_from_bytes;
use crate::status::{BAD_IV, BAD_LENGTH, DONE};

/// Begins the plain wrapping of the key in `registers` under the initial value `iv` (RFC 3394,
/// section 2.2.1): `*done` is 0, and `block` the first block to encrypt.
pub fn begin_wrap(iv: &[u8], registers: &[u8], done: &mut u64, block: &mut [u8; 16]) -> i32
    ensures { BeginsWrap iv.now registers.now done.old done.new block.old block.new result }
{
    let Some(value) = iv_from_bytes(iv) else {
        return BAD_IV;
    };
    match key_wrap_steps::begin_wrap(&value, registers, done, block) {
        Ok(()) => DONE,
        Err(_) => BAD_LENGTH,
    }
}

/// Begins the padded wrapping of the first `key_len` bytes of `registers`, and pads them (RFC 5649,
/// section 4.1): `*done` is 0, and `block` the first block to encrypt.
pub fn begin_wrap_padded(
    key_len: usize,
    registers: &mut [u8],
    done: &mut u64,
    block: &mut [u8; 16],
) -> i32
    ensures { BeginsPadded key_len registers.old registers.new done.old done.new block.old
        block.new result }
{
    match key_wrap_steps::begin_wrap_padded(key_len, registers, done, block) {
        Ok(()) => DONE,
        Err(_) => BAD_LENGTH,
    }
}

/// Makes one step with the encrypted block. Adds 1 to `*done`, and `block` is the next block to
/// encrypt.
pub fn step_wrap(registers: &mut [u8], done: &mut u64, block: &mut [u8; 16]) -> i32
    ensures { StepsWrap registers.old registers.new done.old done.new block.old block.new result }
{
    match key_wrap_steps::step_wrap(registers, done, block) {
        Ok(()) => DONE,
        Err(_) => BAD_LENGTH,
    }
}

/// Ends a wrapping in either form: writes the first 8 bytes of the wrapped key into `first`. The
/// rest of it are the `registers`.
pub fn end_wrap(first: &mut [u8; 8], registers: &[u8], done: u64, block: &[u8; 16]) -> i32
    ensures { EndsWrap first.old first.new registers.now done block.now result }
{
    match key_wrap_steps::end_wrap(first, registers, done, block) {
        Ok(()) => DONE,
        Err(_) => BAD_LENGTH,
    }
}
