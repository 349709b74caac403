//! The calls of the plain form.

use super::rows::{IV, KEY, NOT_PLAIN, PLAIN, is_cleared, spelled};
use block_pair::{Meter, SwapHalves};
use key_wrap_core::*;
use std::test::Fail;

const FOUND: FoundKey = FoundKey {
    form: Form::Plain,
    len: 16,
};

#[test]
fn wraps_a_plain_key_and_back(rt: HostRuntime) -> Result<(), Fail> {
    let (mut meter, iv) = (Meter::new(&SwapHalves), InitialValue::default());
    let text = spelled(rt.alloc(), &PLAIN)?;
    let mut there = vec![in rt.alloc(); 0x5A; 24]?;
    let mut back = [0x5A; 16];
    assert!(rt; wrap_into(&mut meter, &KEY, &mut there) == Ok(()) && there == text);
    assert!(rt; unwrap_into(&mut meter, &text, &mut back) == Ok(()) && back == KEY);
    assert!(rt; unwrap_in_place(&mut meter, &mut there) == Ok(()) && there.ends_with(&KEY));
    assert!(rt; wrap_in_place(&mut meter, &mut there) == Ok(()) && there == text);
    assert!(rt; kind_into(&mut meter, &text, &mut back) == Ok(Kind::Plain(16)));
    assert!(rt; back == [0; 16] && meter.count() == 60);
    let found = unwrap_any_into(&mut meter, &iv, &text, &mut back);
    assert!(rt; found == Ok(FOUND) && back == KEY);
    let found = unwrap_any_in_place(&mut meter, &iv, &mut there);
    assert!(rt; found == Ok(FOUND) && there.ends_with(&KEY) && meter.count() == 84);
    Ok(())
}

#[test]
fn refuses_what_is_no_plain_wrapping(rt: HostRuntime) -> Result<(), Fail> {
    let mut meter = Meter::new(&SwapHalves);
    for (words, want) in NOT_PLAIN {
        let mut text = spelled(rt.alloc(), &words)?;
        let mut key = [0x5A; 16];
        let refused = Err(InPlaceFault::Integrity);
        assert!(rt; unwrap_into(&mut meter, &text, &mut key) == refused && key == [0; 16]);
        assert!(rt;
            kind_into(&mut meter, &text, &mut key) == Ok(want),
            "{want:?}"
        );
        assert!(rt; unwrap_in_place(&mut meter, &mut text) == refused);
        assert!(rt; is_cleared(&text), "{want:?}");
    }
    assert!(rt; meter.count() == 108);
    Ok(())
}

// The bytes of key data, and words of its wrapping at some places.
const ZEROS: [(usize, &[(usize, u64)]); 4] = [
    (24, &[(0, 0x12), (8, 0), (16, IV ^ 0x10), (24, 0x11)]),
    (
        344,
        &[
            (0, 0x174),
            (8, 0x77),
            (48, 0xA6A6_A6A6_A6A6_A63A),
            (336, 0x174),
            (344, 0x174),
        ],
    ),
    (
        4_096,
        &[(0, 0x5FB), (8, 0xA00), (48, 0xA6A6_A6A6_A6A6_A4A7)],
    ),
    (
        1_048_576,
        &[(0, 0x5_FFFB), (8, 0xA_0000), (48, 0xA6A6_A6A6_A6A4_A6A7)],
    ),
];

#[test]
fn wraps_zero_words(rt: HostRuntime) -> Result<(), Fail> {
    for (len, words) in ZEROS {
        let key = vec![in rt.alloc(); 0; len]?;
        let mut text = vec![in rt.alloc(); 0x5A; len.saturating_add(8)]?;
        let wraps = wrap_into(&mut Meter::new(&SwapHalves), &key, &mut text);
        assert!(rt; wraps == Ok(()), "{len} zeros");
        for (from, word) in words {
            let there = text.get(*from..).unwrap_or(&[]);
            assert!(rt;
                there.starts_with(&word.to_be_bytes()),
                "at {from} of {len} zeros"
            );
        }
    }
    Ok(())
}
