//! The exports of the steps, for an AES outside the library. `keywrap_steps.h` describes each call.

ghost use Rattle.std.specs.Prelude.{◌≡◌, ◌+◌};
ghost use Rattle.key_wrap_core.specs.Lengths.{IsPlainTextLength, IsPaddedTextLength};
ghost use Rattle.key_wrap_core.specs.BlockCalls.{block_calls};
ghost use Rattle.keywrap_calls.specs.StepPromises.{BeginsWrap, BeginsPadded, StepsWrap, EndsWrap};
ghost use Rattle.keywrap_calls.specs.StepPromises.{BeginsUnwrap, StepsUnwrap, EndsUnwrap, EndsPadded, EndsAny};
ghost use Rattle.keywrap_calls.specs.RewrapSteps.{BeginsRewrap, ContinuesRewrap, ContinuesRewrapFrom};

use keywrap_calls::{In, Out};

/// Returns the number of steps.
#[unsafe(no_mangle)]
pub extern "C" fn keywrap_step_count(len: usize) -> u64
    ensures { result ≡ block_calls (8 + len) }
{
    keywrap_calls::step_count(len)
}

/// Begins a plain wrapping.
#[unsafe(no_mangle)]
pub extern "C" fn keywrap_begin_wrap(
    iv: In,
    registers: In,
    done: &mut u64,
    block: &mut [u8; 16],
) -> i32
    ensures { BeginsWrap iv.now registers.now done.old done.new block.old block.new result }
{
    keywrap_calls::begin_wrap(iv, registers, done, block)
}

/// Begins a padded wrapping.
#[unsafe(no_mangle)]
pub extern "C" fn keywrap_begin_wrap_padded(
    key_len: usize,
    registers: Out,
    done: &mut u64,
    block: &mut [u8; 16],
) -> i32
    ensures { BeginsPadded key_len registers.old registers.new done.old done.new block.old
        block.new result }
{
    keywrap_calls::begin_wrap_padded(key_len, registers, done, block)
}

/// Makes one step of a wrapping.
#[unsafe(no_mangle)]
pub extern "C" fn keywrap_step_wrap(registers: Out, done: &mut u64, block: &mut [u8; 16]) -> i32
    ensures { StepsWrap registers.old registers.new done.old done.new block.old block.new result }
{
    keywrap_calls::step_wrap(registers, done, block)
}

/// Ends a wrapping in either form.
#[unsafe(no_mangle)]
pub extern "C" fn keywrap_end_wrap(
    first: &mut [u8; 8],
    registers: In,
    done: u64,
    block: &[u8; 16],
) -> i32
    ensures { EndsWrap first.old first.new registers.now done block.now result }
{
    keywrap_calls::end_wrap(first, registers, done, block)
}

/// Begins a plain unwrapping.
#[unsafe(no_mangle)]
pub extern "C" fn keywrap_begin_unwrap(
    first: &[u8; 8],
    registers: In,
    left: &mut u64,
    block: &mut [u8; 16],
) -> i32
    ensures { BeginsUnwrap IsPlainTextLength first.now registers.now left.old left.new block.old
        block.new result }
{
    keywrap_calls::begin_unwrap(first, registers, left, block)
}

/// Begins a padded unwrapping.
#[unsafe(no_mangle)]
pub extern "C" fn keywrap_begin_unwrap_padded(
    first: &[u8; 8],
    registers: In,
    left: &mut u64,
    block: &mut [u8; 16],
) -> i32
    ensures { BeginsUnwrap IsPaddedTextLength first.now registers.now left.old left.new block.old
        block.new result }
{
    keywrap_calls::begin_unwrap_padded(first, registers, left, block)
}

/// Undoes one step of an unwrapping.
#[unsafe(no_mangle)]
pub extern "C" fn keywrap_step_unwrap(registers: Out, left: &mut u64, block: &mut [u8; 16]) -> i32
    ensures { StepsUnwrap registers.old registers.new left.old left.new block.old block.new result }
{
    keywrap_calls::step_unwrap(registers, left, block)
}

/// Ends a plain unwrapping.
#[unsafe(no_mangle)]
pub extern "C" fn keywrap_end_unwrap(iv: In, registers: Out, left: u64, block: &mut [u8; 16]) -> i32
    ensures { EndsUnwrap iv.now registers.old registers.new left block.old block.new result }
{
    keywrap_calls::end_unwrap(iv, registers, left, block)
}

/// Ends a padded unwrapping.
#[unsafe(no_mangle)]
pub extern "C" fn keywrap_end_unwrap_padded(
    registers: Out,
    left: u64,
    block: &mut [u8; 16],
    key_len: &mut usize,
) -> i32
    ensures { EndsPadded registers.old registers.new left block.old block.new key_len.new result }
{
    keywrap_calls::end_unwrap_padded(registers, left, block, key_len)
}

/// Ends an unwrapping in either form.
#[unsafe(no_mangle)]
pub extern "C" fn keywrap_end_unwrap_any(
    registers: Out,
    left: u64,
    block: &mut [u8; 16],
    padded: &mut u32,
    key_len: &mut usize,
) -> i32
    ensures { EndsAny registers.old registers.new left block.old block.new padded.new key_len.new
        result }
{
    keywrap_calls::end_unwrap_any(registers, left, block, padded, key_len)
}

/// Begins a rewrapping.
#[unsafe(no_mangle)]
pub extern "C" fn keywrap_begin_rewrap(
    flags: u32,
    text: In,
    phase: &mut u32,
    steps: &mut u64,
    block: &mut [u8; 16],
) -> i32
    ensures { BeginsRewrap flags text.now phase.new steps.old steps.new block.old block.new result }
{
    keywrap_calls::begin_rewrap(flags, text, phase, steps, block)
}

/// Ends a run of a rewrapping, and begins the next one.
#[unsafe(no_mangle)]
pub extern "C" fn keywrap_next_rewrap(
    flags: u32,
    text: Out,
    phase: &mut u32,
    steps: &mut u64,
    block: &mut [u8; 16],
) -> i32
    ensures { ContinuesRewrap flags phase.old phase.new text.old text.new steps.old steps.new
        block.old block.new result }
{
    keywrap_calls::next_rewrap(flags, text, phase, steps, block)
}

/// Ends a run of a rewrapping, and begins the next one, with a copy of the text.
#[unsafe(no_mangle)]
pub extern "C" fn keywrap_next_rewrap_from(
    flags: u32,
    copy: In,
    text: Out,
    phase: &mut u32,
    steps: &mut u64,
    block: &mut [u8; 16],
) -> i32
    ensures { ContinuesRewrapFrom flags copy.now phase.old phase.new text.old text.new steps.old steps.new
        block.old block.new result }
{
    keywrap_calls::next_rewrap_from(flags, copy, text, phase, steps, block)
}
