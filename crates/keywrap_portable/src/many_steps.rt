//! The exports of the steps of many wrappings at once, for an AES outside the library that works on
//! many blocks side by side. `keywrap_steps.h` describes each call.

ghost use Rattle.keywrap_portable.specs.LaneCalls.{BeginsWraps, StepsWraps, EndsWraps};
ghost use Rattle.keywrap_portable.specs.LaneCalls.{BeginsUnwraps, StepsUnwraps, EndsUnwraps};

use keywrap_calls::{BAD_IV, BAD_LENGTH, DONE, In, Out, iv_from_bytes};

/// Begins many plain wrappings.
#[unsafe(no_mangle)]
pub extern "C" fn keywrap_begin_wrap_many(
    iv: In,
    texts: In,
    text_len: usize,
    done: &mut u64,
    blocks: Out,
) -> i32
    ensures { BeginsWraps iv.now text_len texts.now done.old done.new blocks.old blocks.new result }
{
    let Some(value) = iv_from_bytes(iv) else {
        return BAD_IV;
    };
    match key_wrap_lanes::begin_wrap_many(&value, texts, text_len, done, blocks) {
        Ok(()) => DONE,
        Err(_) => BAD_LENGTH,
    }
}

/// Makes one step of each wrapping.
#[unsafe(no_mangle)]
pub extern "C" fn keywrap_step_wrap_many(
    texts: Out,
    text_len: usize,
    done: &mut u64,
    blocks: Out,
) -> i32
    ensures { StepsWraps text_len texts.old texts.new done.old done.new blocks.old blocks.new result }
{
    match key_wrap_lanes::step_wrap_many(texts, text_len, done, blocks) {
        Ok(()) => DONE,
        Err(_) => BAD_LENGTH,
    }
}

/// Ends many wrappings in either form.
#[unsafe(no_mangle)]
pub extern "C" fn keywrap_end_wrap_many(texts: Out, text_len: usize, done: u64, blocks: In) -> i32
    ensures { EndsWraps text_len texts.old texts.new done blocks.now result }
{
    match key_wrap_lanes::end_wrap_many(texts, text_len, done, blocks) {
        Ok(()) => DONE,
        Err(_) => BAD_LENGTH,
    }
}

/// Begins many plain unwrappings.
#[unsafe(no_mangle)]
pub extern "C" fn keywrap_begin_unwrap_many(
    texts: In,
    text_len: usize,
    left: &mut u64,
    blocks: Out,
) -> i32
    ensures { BeginsUnwraps text_len texts.now left.old left.new blocks.old blocks.new result }
{
    match key_wrap_lanes::begin_unwrap_many(texts, text_len, left, blocks) {
        Ok(()) => DONE,
        Err(_) => BAD_LENGTH,
    }
}

/// Undoes one step of each unwrapping.
#[unsafe(no_mangle)]
pub extern "C" fn keywrap_step_unwrap_many(
    texts: Out,
    text_len: usize,
    left: &mut u64,
    blocks: Out,
) -> i32
    ensures { StepsUnwraps text_len texts.old texts.new left.old left.new blocks.old blocks.new result }
{
    match key_wrap_lanes::step_unwrap_many(texts, text_len, left, blocks) {
        Ok(()) => DONE,
        Err(_) => BAD_LENGTH,
    }
}

/// Ends many plain unwrappings.
#[unsafe(no_mangle)]
pub extern "C" fn keywrap_end_unwrap_many(
    iv: In,
    texts: Out,
    text_len: usize,
    left: u64,
    blocks: Out,
    statuses: Out,
) -> i32
    ensures { EndsUnwraps iv.now text_len texts.old texts.new left
        blocks.old blocks.new statuses.old statuses.new result }
{
    let Some(value) = iv_from_bytes(iv) else {
        return BAD_IV;
    };
    match key_wrap_lanes::end_unwrap_many(&value, texts, text_len, left, blocks, statuses) {
        Ok(()) => DONE,
        Err(_) => BAD_LENGTH,
    }
}
