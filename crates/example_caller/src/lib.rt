//! An example of a caller: code that a repository that takes the crates may write over them. No
//! crate depends on it. `docs/CONTRACTS.md` shows parts of it unchanged.
#![tactic(auto)]

pub mod in_place;
#[cfg(test)]
mod tests;
pub mod under_kek;
