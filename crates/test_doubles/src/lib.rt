//! Test doubles: a reader and writers that fail at a chosen byte, and a block permutation that counts
//! its calls. Only tests use them.
#![tactic(auto)]

mod reader;
mod tally;
mod writers;

pub use reader::Trickle;
pub use tally::Tally;
pub use writers::{Narrow, STOPPINGS, Stopping, Unflushed};

/// How often a double fails: once, after which it continues, or at every call.
pub const FAULTS: [usize; 2] = [1, usize::MAX];
