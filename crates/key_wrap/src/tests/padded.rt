//! The calls of the padded form.

use super::rows::{NOT_PADDED, PADDED_KEYS, is_cleared, spelled};
use block_pair::{Meter, SwapHalves};
use key_wrap_core::*;
use std::test::Fail;

#[test]
fn wraps_padded_keys_and_back(rt: HostRuntime) -> Result<(), Fail> {
    let iv = InitialValue::default();
    for (key, words) in PADDED_KEYS {
        let len = key.len();
        let found = Ok(FoundKey {
            form: Form::Padded,
            len,
        });
        let mut meter = Meter::new(&SwapHalves);
        let text = spelled(rt.alloc(), words)?;
        let mut there = vec![in rt.alloc(); 0x5A; text.len()]?;
        let mut room = vec![in rt.alloc(); 0x5A; text.len().saturating_sub(8)]?;
        let wraps = wrap_padded_into(&mut meter, key, &mut there);
        let unwraps = unwrap_padded_into(&mut meter, &there, &mut room);
        assert!(rt; wraps == Ok(()) && unwraps == Ok(len) && there == text);
        let unwraps = unwrap_padded_in_place(&mut meter, &mut there);
        assert!(rt; unwraps == Ok(len) && room.starts_with(key) && there.ends_with(&room));
        let wraps = wrap_padded_in_place(&mut meter, &mut there, len);
        let is = kind_into(&mut meter, &text, &mut room);
        assert!(rt;
            wraps == Ok(()) && is == Ok(Kind::Padded(len)) && there == text,
            "{key:?}"
        );
        let unwraps = unwrap_any_into(&mut meter, &iv, &text, &mut room);
        assert!(rt; unwraps == found && room.starts_with(key), "{key:?}");
        let unwraps = unwrap_any_in_place(&mut meter, &iv, &mut there);
        assert!(rt; unwraps == found && there.ends_with(&room), "{key:?}");
    }
    Ok(())
}

// Of each call in either form the result that the kind of the words gives.
#[test]
fn refuses_what_is_no_padded_wrapping(rt: HostRuntime) -> Result<(), Fail> {
    for (words, want, what) in NOT_PADDED {
        let (mut meter, iv) = (Meter::new(&SwapHalves), InitialValue::default());
        let mut text = spelled(rt.alloc(), words)?;
        let mut room = vec![in rt.alloc(); 0x5A; text.len().saturating_sub(8)]?;
        let refused = Err(InPlaceFault::Integrity);
        let is = kind_into(&mut meter, &text, &mut room);
        let into = unwrap_padded_into(&mut meter, &text, &mut room);
        assert!(rt;
            is == Ok(want) && into == refused && is_cleared(&room),
            "{what}"
        );
        let any = unwrap_any_into(&mut meter, &iv, &text, &mut room);
        let is_none = want == Kind::Neither;
        assert!(rt;
            any.is_err() == is_none && is_cleared(&room) == is_none,
            "{what}"
        );
        let in_place = unwrap_padded_in_place(&mut meter, &mut text);
        assert!(rt; in_place == refused && is_cleared(&text), "{what}");
    }
    Ok(())
}

#[test]
fn refuses_lengths_of_neither_form(rt: HostRuntime) {
    let (mut meter, iv) = (Meter::new(&SwapHalves), InitialValue::default());
    let mut key = [0x5A; 15];
    let any = unwrap_any_into(&mut meter, &iv, &[0x5A; 24], &mut key);
    assert!(rt; any == Err(InPlaceFault::BadLength) && key == [0x5A; 15]);
    let is = kind_into(&mut meter, &[0x5A; 24], &mut key);
    assert!(rt; is == Err(InPlaceFault::BadLength) && key == [0x5A; 15]);
    let is = kind_into(&mut meter, &[0x5A; 20], &mut key);
    assert!(rt; is == Ok(Kind::Neither) && key == [0x5A; 15] && meter.count() == 0);
}
