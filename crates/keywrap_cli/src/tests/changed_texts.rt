//! Texts that are cut short, or changed in one bit, are refused by an operation, by a drill and in a
//! buffer; and what a buffer contains afterwards, with the number of block calls.

use super::cases::{Case, RAW, form, unwrap_in, wrapping_form};
use super::drills::WRAPPINGS;
use crate::drilling::{DrillFault, drill};
use crate::job::Direction;
use crate::outcome::JobFault;
use aes_leaves::OwnedAes;
use block_pair::{BlockPair, Meter, SwapHalves};
use key_wrap_core::{
    Form, InPlaceFault, unwrap_in_place, unwrap_padded_in_place, wrap_in_place,
    wrap_padded_in_place,
};
use std::alloc::{AllocError, Global};
use std::process::Abort;
use std::test::Fail;
use test_vectors::{Vector, published};

// The eight texts of RFC 3394, section 4, and RFC 5649, section 6.
#[test]
fn published_texts_unwrap_and_no_changed_text_does(rt: HostRuntime) -> Result<(), Fail> {
    let mut count = 0_usize;
    for vector in &published() {
        if let Some(form) = wrapping_form(vector.algorithm) {
            wraps_and_unwraps_in_place(&rt, rt.alloc(), form, vector)?;
            refuse_each_prefix(&rt, rt.alloc(), form, vector);
            refuse_each_changed_bit(&rt, rt.alloc(), form, vector)?;
            count = count.saturating_add(1);
        }
    }
    assert_eq!(rt; count, 8);
    Ok(())
}

fn wraps_and_unwraps_in_place(
    rt: &impl Abort,
    alloc: Global,
    form: Form,
    vector: &Vector,
) -> Result<(), Fail> {
    let (aes, key, text) = (OwnedAes::new(vector.key)?, vector.input, vector.output);
    let mut meter = Meter::new(&aes);
    let mut buf = buffer_with(alloc, key, 0xFF, text.len())?;
    let wraps = match form {
        Form::Plain => wrap_in_place(&mut meter, &mut buf),
        Form::Padded => wrap_padded_in_place(&mut meter, &mut buf, key.len()),
    };
    assert!(rt; wraps == Ok(()) && buf.as_slice() == text, "{text:?}");
    assert!(rt; meter.count() == calls_for(text), "{text:?}");
    unwraps_to(rt, alloc, form, &aes, text, Some(key))
}

// Each prefix is refused for its length or, if that is legal, for its bytes: RFC 3394, section
// 2.2.2, and RFC 5649, section 4.2.
fn refuse_each_prefix(rt: &impl Abort, alloc: Global, own: Form, vector: &Vector) {
    let least = match own {
        Form::Plain => 24,
        Form::Padded => 16,
    };
    for len in 0..vector.output.len() {
        let fault = if len >= least && len % 8 == 0 {
            JobFault::Integrity
        } else {
            JobFault::BadLength
        };
        let files = [vector.key, b"", &vector.output[..len]];
        Case(unwrap_in(form(own)), RAW, files, Err(fault), b"").holds(rt, alloc, usize::MAX);
    }
}

// A bit of the KEK or of the text.
fn refuse_each_changed_bit(
    rt: &impl Abort,
    alloc: Global,
    own: Form,
    vector: &Vector,
) -> Result<(), Fail> {
    let mut bytes = vector.key.to_vec(alloc)?;
    bytes.extend_from_slice(vector.output)?;
    for bit in 0..bytes.len().saturating_mul(8) {
        change_bit(&mut bytes, bit);
        let (kek, text) = bytes.split_at(vector.key.len().min(bytes.len()));
        let refused = Err(JobFault::Integrity);
        Case(unwrap_in(form(own)), RAW, [kek, b"", text], refused, b"").holds(
            rt,
            alloc,
            usize::MAX,
        );
        unwraps_to(rt, alloc, own, &OwnedAes::new(kek)?, text, None)?;
        change_bit(&mut bytes, bit);
    }
    Ok(())
}

// The toy cipher only swaps halves, so each bit of its text is a bit of the key, from bit 64 of a
// plain text and from bit 0 of a padded one, or of the checked value.
#[test]
fn each_changed_bit_of_a_drill_is_refused_or_changes_the_key(rt: HostRuntime) -> Result<(), Fail> {
    for (row, from) in [(0, 64), (4, 0)] {
        let (form, key, text) = WRAPPINGS[row];
        let (mut key, mut text) = (
            hex::decode(rt.alloc(), key)?,
            hex::decode(rt.alloc(), text)?,
        );
        for bit in 0..text.len().saturating_mul(8) {
            let of_key = bit.wrapping_sub(from);
            change_bit(&mut text, bit);
            change_bit(&mut key, of_key);
            let wanted = (of_key / 8 < key.len()).then_some(key.as_slice());
            let drilled = drill(
                rt.alloc(),
                form,
                Direction::Unwrap,
                &hex::encode(rt.alloc(), &text)?,
            );
            match drilled {
                Ok(found) => assert!(rt; wanted == Some(found.as_slice()), "{text:?}"),
                Err(fault) => assert!(rt; wanted.is_none() && fault == DrillFault::Integrity),
            }
            unwraps_to(&rt, rt.alloc(), form, &SwapHalves, &text, wanted)?;
            change_bit(&mut text, bit);
            change_bit(&mut key, of_key);
        }
    }
    Ok(())
}

// Unwraps a copy of a text, and checks that the copy becomes zeros and the key, or that the text is
// refused and the copy cleared.
fn unwraps_to<B: BlockPair>(
    rt: &impl Abort,
    alloc: Global,
    form: Form,
    pair: &B,
    text: &[u8],
    key: Option<&[u8]>,
) -> Result<(), Fail> {
    let mut meter = Meter::new(pair);
    let mut buf = text.to_vec(alloc)?;
    let found = match form {
        Form::Plain => unwrap_in_place(&mut meter, &mut buf).map(|()| text.len().saturating_sub(8)),
        Form::Padded => unwrap_padded_in_place(&mut meter, &mut buf),
    };
    let wanted = key.map(|key| key.len()).ok_or(InPlaceFault::Integrity);
    assert!(rt;
        found == wanted && meter.count() == calls_for(text),
        "{text:?}"
    );
    assert!(rt;
        buf == buffer_with(alloc, key.unwrap_or(&[]), 0, text.len())?,
        "{text:?}"
    );
    Ok(())
}

// Returns the block calls of one wrapping or unwrapping: six for each word of the key, and one for
// a padded key of one word.
fn calls_for(text: &[u8]) -> u64 {
    match text.len() {
        16 => 1,
        len => (len / 8).saturating_sub(1).saturating_mul(6) as u64,
    }
}

// Returns `len` bytes `other`, with the key at offset 8.
fn buffer_with(alloc: Global, key: &[u8], other: u8, len: usize) -> Result<Vec<u8>, AllocError> {
    let mut buf = vec![in alloc; other; 8]?;
    buf.extend_from_slice(key)?;
    buf.resize(len, other)?;
    Ok(buf)
}

// Changes one bit. Bit 0 is the first byte's most significant. A bit past the end is ignored.
fn change_bit(bytes: &mut [u8], bit: usize) {
    if let Some(byte) = bytes.get_mut(bit / 8) {
        *byte ^= 0x80 >> (bit % 8);
    }
}
