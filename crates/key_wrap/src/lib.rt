//! The AES Key Wrap of RFC 3394 and RFC 5649 over any block permutation.
//!
//! A key is wrapped under a block permutation, a `pair`, AES under a KEK for one, and unwrapped
//! again; `rt` is the runtime that `main` is given:
//!
//! ```
//! let pair = Aes::new(&kek)?;
//! let wrapped = wrap_padded(rt.alloc(), &pair, b"a key of any length")?;
//! let key = unwrap_padded(rt.alloc(), &pair, &wrapped)?;
//! ```
//!
//! The calls that end in `_in_place` and `_into` take no memory and count their block calls. They
//! come from `key_wrap_core`.
#![tactic(auto)]

mod faults;
mod kinds;
mod padded;
mod plain;
mod rewrapping;

pub use faults::{KindFault, UnwrapFault, WrapFault};
pub use key_wrap_core::{
    AgreedForm, Form, FoundKey, InPlaceFault, InitialValue, Kind, MAX_KEY, Refusal, ReservedIv,
    RewrapForms, Rewrapped, key_length_ok, kind_into, kind_into_with, one_form_law, one_key_law,
    one_result_law, one_text_law, padded_length_ok, padded_text_length_ok,
    rewrap as rewrap_in_place, rewrap_length_ok, text_length_ok, unwrap_any_in_place,
    unwrap_any_into, unwrap_in_place, unwrap_into, unwrap_into_with, unwrap_padded_in_place,
    unwrap_padded_into, wrap_in_place, wrap_into, wrap_into_with, wrap_padded_in_place,
    wrap_padded_into,
};
pub use key_wrap_steps::{
    begin_unwrap, begin_unwrap_padded, begin_wrap, begin_wrap_padded, end_unwrap,
    end_unwrap_padded, end_wrap, step_unwrap, step_wrap, whole_unwrap_law, whole_wrap_law,
};
pub use kinds::kind;
pub use padded::{unwrap_padded, wrap_padded};
pub use plain::{unwrap, unwrap_with, wrap, wrap_with};
pub use rewrapping::{rewrap, rewrap_keeping_form};

#[cfg(test)]
mod tests;
