//! Tests of the public calls: worked examples and published vectors.

mod block_calls;
mod cases;
mod changed_texts;
mod drills;
mod failures;
mod faults;
mod fixed_calls;
mod initial_values;
mod jobs;
mod lines;
mod memory_is_ample;
mod published;
mod vectors;
