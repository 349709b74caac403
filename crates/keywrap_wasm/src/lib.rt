//! The exports for WebAssembly, over AES by word tables: those for C without the steps of many
//! wrappings. The host clears the memory of the module after each call.
#![tactic(auto)]

mod exports;
mod steps;
