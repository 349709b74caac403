//! The exports of `keywrap.c`: the calls over AES by word tables, and once more over AES by the leaves, in
//! whose place it has the processor's instructions. `keywrap.h` and `keywrap_steps.h` declare them.
#![tactic(auto)]

mod exports;
mod leaves;
mod many_steps;
mod steps;
