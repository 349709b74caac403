//! With ample memory and sound files, no operation returns Memory, Read or Write.

use super::cases::{Case, HEX, RAW, WRITTEN, check, form, rewrap, unwrap_in, wrap_in, wrapped};
use super::initial_values::other;
use super::jobs::{HEX_KEK, NEW_KEK, RAW_KEK, RAW_NEW_KEK};
use crate::drilling::drill;
use crate::files::Notation;
use crate::job::Direction;
use crate::what::What;
use aes_leaves::OwnedAes;
use key_wrap_core::{Form, MAX_KEY};
use std::alloc::{AllocError, Global};
use std::process::Abort;
use std::test::Fail;

static FORMS: [Form; 2] = [Form::Plain, Form::Padded];

// Returns the byte at an offset of one of four contents: zeros, ff, counting, pseudo-random.
fn byte_of(content: usize, at: usize) -> u8 {
    match content {
        0 => 0,
        1 => 0xFF,
        2 => (at % 256) as u8,
        _ => at.wrapping_mul(at | 0x9E37_79B9_7F4A_7C15).to_be_bytes()[0],
    }
}

// Returns whether keys of `len` bytes are tried: each length up to 520, with every content if files
// are read at once; then multiples of 8 and their neighbours, with one content; and the largest.
fn is_tried(content: usize, len: usize, size: usize) -> bool {
    let is_its = len / 8 % 4 == content;
    match len {
        ..=520 => is_its || size > 1,
        ..=4_105 => is_its && matches!(len % 8, 0 | 1 | 7),
        _ => len == MAX_KEY && content == 3,
    }
}

// Returns whether a key may have `len` bytes, by RFC 3394 and RFC 5649, up to the largest.
fn is_key_length(form: Form, len: usize) -> bool {
    match form {
        Form::Plain => len >= 16 && len % 8 == 0,
        Form::Padded => len >= 1,
    }
}

#[test]
fn gives_up_for_memory_at_no_length(rt: HostRuntime) -> Result<(), Fail> {
    run_each_length(&rt, rt.alloc(), usize::MAX)
}

// Up to 1,039 bytes, reads and writes have one byte; beyond, they grow with the key. The tests of
// key_files read and write long files byte by byte.
#[test]
fn gives_up_for_io_at_no_length(rt: HostRuntime) -> Result<(), Fail> {
    run_each_length(&rt, rt.alloc(), 1)
}

// Runs each operation on keys of each length, with reads and writes of at least `size` bytes.
fn run_each_length(rt: &impl Abort, alloc: Global, size: usize) -> Result<(), Fail> {
    for content in 0..4 {
        let mut key = Vec::new(alloc);
        for at in 0..MAX_KEY {
            key.push(byte_of(content, at))?;
        }
        for len in 1..=key.len() {
            if is_tried(content, len, size) {
                run_on_key(rt, alloc, &key[..len], size.max(len / 520))?;
            }
        }
    }
    Ok(())
}

// Runs each operation in each form that the key has: wraps, unwraps, checks, rewraps and drills.
fn run_on_key(rt: &impl Abort, alloc: Global, key: &[u8], size: usize) -> Result<(), Fail> {
    let (old, new) = (OwnedAes::new(RAW_KEK)?, OwnedAes::new(RAW_NEW_KEK)?);
    for old_form in FORMS {
        if is_key_length(old_form, key.len()) {
            let text = wrapped(alloc, form(old_form), &old, key)?;
            writes(rt, alloc, &wrap_in(form(old_form)), key, &text, size)?;
            writes(rt, alloc, &unwrap_in(form(old_form)), &text, key, size)?;
            let line = match old_form {
                Form::Plain => format!(in alloc; "plain {}\n", key.len())?,
                Form::Padded => format!(in alloc; "padded {}\n", key.len())?,
            };
            writes(rt, alloc, &check(), &text, line.as_bytes(), size)?;
            assert!(rt; drills(alloc, old_form, key)?, "{} bytes", key.len());
            for new_form in FORMS {
                if is_key_length(new_form, key.len()) {
                    let new_text = wrapped(alloc, form(new_form), &new, key)?;
                    let what = rewrap(Some((old_form, new_form)), false);
                    writes(rt, alloc, &what, &text, &new_text, size)?;
                }
            }
        }
    }
    if is_key_length(Form::Plain, key.len()) {
        let text = wrapped(alloc, other(), &old, key)?;
        writes(rt, alloc, &wrap_in(other()), key, &text, size)?;
        writes(rt, alloc, &unwrap_in(other()), &text, key, size)?;
    }
    Ok(())
}

// Checks that an operation writes this output for this input, in raw and in hex.
fn writes(
    rt: &impl Abort,
    alloc: Global,
    what: &What,
    input: &[u8],
    output: &[u8],
    size: usize,
) -> Result<(), Fail> {
    writes_in(rt, alloc, RAW, what, input, output, size);
    let input = line_of(alloc, input)?;
    let output = match what {
        What::Check(_) => output.to_vec(alloc)?,
        _ => line_of(alloc, output)?,
    };
    writes_in(rt, alloc, HEX, what, &input, &output, size);
    Ok(())
}

// Checks the same for one notation.
fn writes_in<'a>(
    rt: &impl Abort,
    alloc: Global,
    notations: [Notation; 2],
    what: &What,
    input: &'a [u8],
    output: &'a [u8],
    size: usize,
) {
    let files = match notations[0] {
        Notation::Raw => [RAW_KEK, RAW_NEW_KEK, input],
        _ => [HEX_KEK, NEW_KEK, input],
    };
    Case(*what, notations, files, WRITTEN, output).holds(rt, alloc, size);
}

fn line_of(alloc: Global, bytes: &[u8]) -> Result<Vec<u8>, AllocError> {
    let mut line = hex::encode(alloc, bytes)?;
    line.push('\n')?;
    Ok(line.into_bytes())
}

// Returns whether drills of the key and of its wrapping succeed.
fn drills(alloc: Global, form: Form, key: &[u8]) -> Result<bool, Fail> {
    let text = drill(alloc, form, Direction::Wrap, &hex::encode(alloc, key)?)?;
    let back = drill(alloc, form, Direction::Unwrap, &hex::encode(alloc, &text)?)?;
    Ok(back.as_slice() == key)
}
