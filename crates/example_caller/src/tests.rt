//! The examples at a vector of RFC 3394.

use crate::in_place::{unwrap_here, wrap_here};
use crate::under_kek::{unwrap_under, wrap_under};
use aes_block::Aes;
use key_wrap::WrapFault;
use std::test::Fail;

// RFC 3394, section 4.3: the KEK, the key and the wrapped key.
const KEK: [u8; 32] = [
    0x00, 0x01, 0x02, 0x03, 0x04, 0x05, 0x06, 0x07, 0x08, 0x09, 0x0A, 0x0B, 0x0C, 0x0D, 0x0E, 0x0F,
    0x10, 0x11, 0x12, 0x13, 0x14, 0x15, 0x16, 0x17, 0x18, 0x19, 0x1A, 0x1B, 0x1C, 0x1D, 0x1E, 0x1F,
];

const KEY: [u8; 16] = *b"\x00\x11\x22\x33\x44\x55\x66\x77\x88\x99\xAA\xBB\xCC\xDD\xEE\xFF";

const WRAPPED: [u8; 24] = [
    0x64, 0xE8, 0xC3, 0xF9, 0xCE, 0x0F, 0x5B, 0xA2, 0x63, 0xE9, 0x77, 0x79, 0x05, 0x81, 0x8A, 0x2A,
    0x93, 0xC8, 0x19, 0x1E, 0x7D, 0x6E, 0x8A, 0xE7,
];

#[test]
fn wraps_and_unwraps_under_a_kek(rt: HostRuntime) -> Result<(), Fail> {
    let wrapped = wrap_under(rt.alloc(), &KEK, &KEY)?;
    assert_eq!(rt; wrapped.as_slice(), WRAPPED.as_slice());
    let key = unwrap_under(rt.alloc(), &KEK, &wrapped)?;
    assert_eq!(rt; key.as_deref(), Some(KEY.as_slice()));
    let refused = wrap_under(rt.alloc(), &KEK, &KEY[1..]).err();
    assert_eq!(rt; refused, Some(WrapFault::BadLength));
    Ok(())
}

#[test]
fn wraps_and_unwraps_in_a_buffer(rt: HostRuntime) -> Result<(), Fail> {
    let aes = Aes::new(&KEK)?;
    let mut buffer = [0; 24];
    buffer[8..].copy_from_slice(&KEY);
    assert_eq!(rt; wrap_here(&aes, &mut buffer), Ok(12));
    assert_eq!(rt; buffer, WRAPPED);
    assert_eq!(rt; unwrap_here(&aes, &mut buffer), Ok(12));
    assert!(rt; buffer.starts_with(&[0; 8]) && buffer.ends_with(&KEY));
    Ok(())
}
