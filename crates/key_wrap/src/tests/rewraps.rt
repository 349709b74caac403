//! Rewrapping from the drill block to a pair that leaves each block as it is. Under this pair a
//! wrapping of two words is worked by hand: the first word is the initial value xored with 12, which
//! is 1 xor 2 .. xor 12, and the others are the key.

use super::doubles::Unchanged;
use super::rows::{CHANGED, EIGHT, NINE, PADDED, PADDING, PLAIN, SEVEN, spelled};
use block_pair::{Meter, SwapHalves};
use key_wrap_core::*;
use std::test::Fail;

// The wrappings of the same keys under the other pair.
const NEW_PLAIN: [u64; 3] = [
    0xA6A6_A6A6_A6A6_A6AA,
    0x0011_2233_4455_6677,
    0x8899_AABB_CCDD_EEFF,
];

const NEW_PADDED: [u64; 3] = [
    0xA659_59A6_0000_001C,
    0x0011_2233_4455_6677,
    0x8899_AABB_CCDD_EEFF,
];

const NEW_NINE: [u64; 3] = [
    0xA659_59A6_0000_0005,
    0x1122_3344_5566_7788,
    0x9900_0000_0000_0000,
];

const NEW_SEVEN: [u64; 2] = [0xA659_59A6_0000_0007, 0x466F_7250_6173_6900];

// A result.
type Answer = Result<Rewrapped, Refusal>;

const FRESH: Answer = Ok(Rewrapped::Fresh);

const NEW: Answer = Ok(Rewrapped::AlreadyNew);

const BAD_LENGTH: Answer = Err(Refusal::BadLength);

const NONE: Answer = Err(Refusal::Integrity);

const NOT_PLAIN: Answer = Err(Refusal::KeyNotPlain);

// From one form to another.
const PLAIN_TO_PLAIN: Option<(Form, Form)> = Some((Form::Plain, Form::Plain));

const TO_PADDED: Option<(Form, Form)> = Some((Form::Plain, Form::Padded));

const TO_PLAIN: Option<(Form, Form)> = Some((Form::Padded, Form::Plain));

const PADDED_TO_PADDED: Option<(Form, Form)> = Some((Form::Padded, Form::Padded));

// The old form and the new, or `None` to keep the form; whether new ones pass; the words before; the
// result; and the words after.
const ROWS: [(Option<(Form, Form)>, bool, &[u64], Answer, &[u64]); 30] = [
    (PLAIN_TO_PLAIN, false, &PLAIN, FRESH, &NEW_PLAIN),
    (TO_PADDED, false, &PLAIN, FRESH, &NEW_PADDED),
    (TO_PLAIN, false, &PADDED, FRESH, &NEW_PLAIN),
    (PADDED_TO_PADDED, false, &PADDED, FRESH, &NEW_PADDED),
    (PADDED_TO_PADDED, false, &NINE, FRESH, &NEW_NINE),
    (PADDED_TO_PADDED, true, &SEVEN, FRESH, &NEW_SEVEN),
    (None, false, &PLAIN, FRESH, &NEW_PLAIN),
    (None, false, &PADDED, FRESH, &NEW_PADDED),
    (None, true, &SEVEN, FRESH, &NEW_SEVEN),
    // under the new pair already
    (TO_PADDED, true, &NEW_PADDED, NEW, &NEW_PADDED),
    (TO_PLAIN, true, &NEW_PLAIN, NEW, &NEW_PLAIN),
    (None, true, &NEW_PLAIN, NEW, &NEW_PLAIN),
    (None, true, &NEW_SEVEN, NEW, &NEW_SEVEN),
    (None, false, &NEW_SEVEN, NONE, &NEW_SEVEN),
    (TO_PADDED, false, &NEW_PADDED, NONE, &NEW_PADDED),
    // but in the old form
    (TO_PADDED, true, &NEW_PLAIN, NONE, &NEW_PLAIN),
    (TO_PLAIN, true, &NEW_PADDED, NONE, &NEW_PADDED),
    // a length that only the padded form has
    (TO_PADDED, false, &SEVEN, BAD_LENGTH, &SEVEN),
    (TO_PADDED, true, &SEVEN, BAD_LENGTH, &SEVEN),
    (TO_PADDED, true, &NEW_SEVEN, NEW, &NEW_SEVEN),
    (TO_PLAIN, true, &NEW_SEVEN, NONE, &NEW_SEVEN),
    // a key that no plain key can be
    (TO_PLAIN, false, &NINE, NOT_PLAIN, &NINE),
    (TO_PLAIN, true, &NINE, NOT_PLAIN, &NINE),
    (TO_PLAIN, true, &EIGHT, NOT_PLAIN, &EIGHT),
    // another form, and no wrapping
    (PLAIN_TO_PLAIN, true, &NINE, NONE, &NINE),
    (PADDED_TO_PADDED, false, &PLAIN, NONE, &PLAIN),
    (TO_PADDED, true, &CHANGED, NONE, &CHANGED),
    (TO_PLAIN, false, &PADDING, NONE, &PADDING),
    (None, true, &CHANGED, NONE, &CHANGED),
    (None, false, &PADDING, NONE, &PADDING),
];

fn forms_of(forms: Option<(Form, Form)>) -> RewrapForms {
    match forms {
        None => RewrapForms::Kept,
        Some((old, new)) => RewrapForms::by_default(old, new),
    }
}

#[test]
fn rewraps_or_leaves_the_buffer(rt: HostRuntime) -> Result<(), Fail> {
    for (forms, pass_new, words, want, after) in ROWS {
        let (mut old, mut new) = (Meter::new(&SwapHalves), Meter::new(&Unchanged));
        let mut buffer = spelled(rt.alloc(), words)?;
        let after = spelled(rt.alloc(), after)?;
        let answer = rewrap(&mut old, &mut new, &forms_of(forms), pass_new, &mut buffer);
        assert!(rt; answer == want && buffer == after, "{words:?}");
    }
    Ok(())
}

// The same pair on both sides: from a form to itself the text stays, and is fresh.
#[test]
fn rewraps_under_one_pair(rt: HostRuntime) -> Result<(), Fail> {
    for (forms, words) in [(None, PLAIN), (None, NINE), (PLAIN_TO_PLAIN, PLAIN)] {
        let (mut old, mut new) = (Meter::new(&SwapHalves), Meter::new(&SwapHalves));
        let text = spelled(rt.alloc(), &words)?;
        let mut buffer = spelled(rt.alloc(), &words)?;
        let answer = rewrap(&mut old, &mut new, &forms_of(forms), true, &mut buffer);
        assert!(rt; answer == FRESH && buffer == text, "{words:?}");
    }
    Ok(())
}

// No form has this length.
#[test]
fn refuses_half_a_word(rt: HostRuntime) {
    for forms in [None, PLAIN_TO_PLAIN, TO_PADDED, TO_PLAIN, PADDED_TO_PADDED] {
        let (mut old, mut new) = (Meter::new(&SwapHalves), Meter::new(&Unchanged));
        let mut buffer = [0x5A; 20];
        let answer = rewrap(&mut old, &mut new, &forms_of(forms), true, &mut buffer);
        assert!(rt; answer == BAD_LENGTH && buffer == [0x5A; 20]);
        assert!(rt; old.count() == 0 && new.count() == 0);
    }
}
