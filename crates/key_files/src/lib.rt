//! Key files: readers and writers of raw bytes, hex and base64. A text is written whole, or a
//! counted prefix of it.

#![tactic(auto)]

mod base64_text;
mod digit;
mod fault;
mod hex_text;
mod read;
mod write;

pub use base64_text::{Alphabet, decode_symbols_into, print_base64};
pub use fault::{FileFault, HexWriteFault, WriteFault};
pub use hex_text::{decode_digits_into, decode_hex};
pub use read::{MAX_FILE, read_base64, read_hex, read_raw};
pub use write::{print_hex, write_hex, write_raw};

#[cfg(test)]
mod tests;
