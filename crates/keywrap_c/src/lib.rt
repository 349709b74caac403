//! The exports for C, over AES by byte shuffles. `keywrap.h` and `keywrap_steps.h` declare them.
#![tactic(auto)]

mod exports;
mod many_steps;
mod steps;
