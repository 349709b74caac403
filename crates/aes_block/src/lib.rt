//! AES (FIPS 197) by word tables, proved: its field, its S-boxes, its key schedule, and the cipher
//! with its inverse, as a block permutation. The definitions and their laws are in `fips197`.
//!
//! ```rust
//! use aes_block::{Aes, BadKekLength};
//! use block_pair::BlockPair;
//!
//! fn deciphers_again(kek: &[u8; 32], block: [u8; 16]) -> Result<bool, BadKekLength> {
//!     let aes = Aes::new(kek)?;
//!     Ok(aes.dec(aes.enc(block)) == block)
//! }
//! ```

#![tactic(auto)]

mod cipher;
mod columns;
pub mod field;
mod key_init;
mod s_box;
mod schedule;
mod word_tables;

pub use fips197::{BadKekLength, KeyInit};
pub use s_box::{inv_sbox, sbox};
pub use schedule::Aes;

#[cfg(test)]
mod tests;
