//! The exports for C, over AES by the processor's instructions. `keywrap.h` and `keywrap_steps.h` declare
//! them.
#![tactic(auto)]

mod exports;
mod many_steps;
mod steps;
