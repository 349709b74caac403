//! AES (FIPS 197) by a few functions over bytes, the leaves, in whose place a build can put C.
//!
//! Here each leaf is proved, over `aes_vector`. A build with the processor's AES calls C instead, which
//! has to meet the same contract, and keeps the proved leaf. Everything above the leaves is proved from
//! their contracts only.
#![tactic(auto)]

mod aes;
mod key_room;
mod leaves;
mod owned;

pub use aes::LeafAes;
pub use key_room::KeyRoom;
pub use leaves::available;
pub use owned::OwnedAes;
