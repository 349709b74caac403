//! Initial values other than the default, over the drill block.

use super::memory::OTHER;
use super::rows::{KEY, PADDED, is_cleared, spelled};
use block_pair::{Meter, SwapHalves};
use key_wrap_core::*;
use std::test::Fail;

// Under each value the plain wrapping of the 16-byte key is the value and these two words, which do
// not depend on it. Besides the default value: the smallest, the largest, only the top bit, and the
// neighbours of the reserved values.
const REST: [u8; 16] = *b"\x00\x11\x22\x33\x44\x55\x66\x7F\x88\x99\xAA\xBB\xCC\xDD\xEE\xFB";

const VALUES: [[u8; 8]; 6] = [
    OTHER,
    [0; 8],
    [0xFF; 8],
    *b"\x80\0\0\0\0\0\0\0",
    *b"\xA6\x59\x59\xA5\xFF\xFF\xFF\xFF",
    *b"\xA6\x59\x59\xA7\0\0\0\0",
];

/// The wrapping of the key under this value.
pub fn wrapping_under(value: [u8; 8]) -> [u8; 24] {
    let mut text = [0; 24];
    text[..8].copy_from_slice(&value);
    text[8..].copy_from_slice(&REST);
    text
}

#[test]
fn wraps_under_other_initial_values_and_back(rt: HostRuntime) -> Result<(), Fail> {
    for bytes in VALUES {
        let iv = InitialValue::new(bytes)?;
        let mut meter = Meter::new(&SwapHalves);
        let want = wrapping_under(bytes);
        let (mut there, mut back) = ([0x5A; 24], [0x5A; 16]);
        let wraps = wrap_into_with(&mut meter, &iv, &KEY, &mut there);
        let unwraps = unwrap_into_with(&mut meter, &iv, &there, &mut back);
        assert!(rt; wraps == Ok(()) && there == want, "{bytes:?}");
        assert!(rt; unwraps == Ok(()) && back == KEY, "{bytes:?}");
        let refused = unwrap_into(&mut meter, &there, &mut back);
        assert!(rt; refused == Err(InPlaceFault::Integrity), "{bytes:?}");
    }
    Ok(())
}

// Another.
const NEXT: [u8; 8] = [0xFF; 8];

// What is rewrapped once is no wrapping as that which it was.
#[test]
fn rewraps_from_value_to_value(rt: HostRuntime) -> Result<(), Fail> {
    let padded = spelled(rt.alloc(), &PADDED)?;
    let (old, new) = (InitialValue::new(OTHER)?, InitialValue::new(NEXT)?);
    let (old, new) = (AgreedForm::Plain(old), AgreedForm::Plain(new));
    let default = AgreedForm::by_default(Form::Plain);
    let (under_old, under_new) = (wrapping_under(OTHER), wrapping_under(NEXT));
    let under_default = wrapping_under([0xA6; 8]);
    for (from, to, text, want) in [
        (old, new, under_old.as_slice(), under_new.as_slice()),
        (new, old, &under_new, &under_old),
        (old, default, &under_old, &under_default),
        (default, old, &under_default, &under_old),
        (old, AgreedForm::Padded, &under_old, &padded),
        (AgreedForm::Padded, new, &padded, &under_new),
    ] {
        let (mut unwraps, mut wraps) = (Meter::new(&SwapHalves), Meter::new(&SwapHalves));
        let mut buffer = Vec::from_slice(rt.alloc(), text)?;
        let forms = RewrapForms::Changed { old: from, new: to };
        let answer = rewrap(&mut unwraps, &mut wraps, &forms, false, &mut buffer);
        assert!(rt;
            answer == Ok(Rewrapped::Fresh) && buffer.as_slice() == want,
            "{text:?}"
        );
        let answer = rewrap(&mut unwraps, &mut wraps, &forms, false, &mut buffer);
        assert!(rt;
            answer == Err(Refusal::Integrity) && buffer.as_slice() == want,
            "{text:?}"
        );
        let answer = rewrap(&mut unwraps, &mut wraps, &forms, true, &mut buffer);
        assert!(rt;
            answer == Ok(Rewrapped::AlreadyNew) && buffer.as_slice() == want,
            "{text:?}"
        );
    }
    Ok(())
}

#[test]
fn finds_the_kind_under_a_value(rt: HostRuntime) -> Result<(), Fail> {
    let (mut meter, mut room) = (Meter::new(&SwapHalves), [0x5A; 16]);
    let padded = spelled(rt.alloc(), &PADDED)?;
    for value in VALUES {
        let iv = InitialValue::new(value)?;
        let text = wrapping_under(value);
        let other = wrapping_under([0xA6; 8]);
        let is = kind_into_with(&mut meter, &iv, &text, &mut room);
        assert!(rt; is == Ok(Kind::Plain(16)) && room == [0; 16], "{value:?}");
        assert!(rt;
            kind_into(&mut meter, &text, &mut room) == Ok(Kind::Neither),
            "{value:?}"
        );
        let is = kind_into_with(&mut meter, &iv, &other, &mut room);
        assert!(rt; is == Ok(Kind::Neither) && room == [0; 16], "{value:?}");
        let is = kind_into_with(&mut meter, &iv, &padded, &mut room);
        assert!(rt; is == Ok(Kind::Padded(16)), "{value:?}");
    }
    Ok(())
}
