//! AES (FIPS 197) by byte shuffles within a vector: no branch and no address depends on a key or a
//! block. The definitions and their laws are in `fips197`.
//!
//! A block is 16 lanes of a vector. Each byte of the state is kept as an element of the field of
//! 256 elements in a tower over the field of 16, where its inverse, and so its S-box, is a few
//! look-ups in tables of 16 bytes: shuffles of a table that is itself a vector.

#![tactic(auto)]

mod cipher;
mod expansion;
mod key_init;
mod key_schedule;
mod keys;
mod lanes;
mod lent;
mod owned;
mod rounds;
mod rows;
mod schedule;
mod tables;
mod tower;

pub use key_schedule::KeySchedule;
pub use lent::LentAes;
pub use owned::VectorAes;

#[cfg(test)]
mod tests;
