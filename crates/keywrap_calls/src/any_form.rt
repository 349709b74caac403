//! The unwrapping of a wrapped key in either form.

ghost use Rattle.std.specs.Prelude.{◌≡◌, ◌<◌};
ghost use Rattle.keywrap_calls.specs.Keks.{aes_of};
ghost use Rattle.keywrap_calls.specs.Any.{UnwrapsAny, form_of};

use crate::keks::aes_of;
use crate::status::{BAD_KEK, DONE, fault_status};
use block_pair::Meter;
use fips197::KeyInit;
use key_wrap_core::{Form, InitialValue, unwrap_any_into};

/// Unwraps `text` under `kek`, in whichever form it is, into the first `*key_len` bytes of `key`,
/// with zero bytes after it (RFC 3394, RFC 5649). `*padded` is 0 in the plain form, under the
/// default initial value, and 1 in the padded form.
///
/// At `INTEGRITY` every byte of `key` is zero. Both numbers are 0 at each refusal.
pub fn unwrap_any<A: KeyInit>(
    schedule: A::Schedule,
    kek: &[u8],
    text: &[u8],
    key: &mut [u8],
    padded: &mut u32,
    key_len: &mut usize,
) -> i32
    ensures { UnwrapsAny (aes_of kek.now) kek.now text.now key.old key.new padded.new
        key_len.new result }
{
    *padded = 0;
    *key_len = 0;
    let Some(aes) = aes_of::<A>(kek, schedule) else {
        return BAD_KEK;
    };
    match unwrap_any_into(&mut Meter::new(&aes), &InitialValue::default(), text, key) {
        Ok(found) => {
            *key_len = found.len;
            *padded = flag_of(found.form);
            DONE
        }
        Err(fault) => fault_status(fault),
    }
}

// 1 for the padded form, else 0.
pub(crate) fn flag_of(form: Form) -> u32
    ensures is { form_of result ≡ form }
    ensures bit { result < 2 }
{
    match form {
        Form::Plain => 0,
        Form::Padded => 1,
    }
}
