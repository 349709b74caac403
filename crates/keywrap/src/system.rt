//! What the program needs of the system.

use std::fs::File;
use std::rt::{Env, Files};
use std::time::Clock;

/// Standard streams, memory, files, the environment and a clock.
pub trait System: Print + Eprint + Input + AllocGlobal + Files<File = File> + Env + Clock {}

impl<R: Print + Eprint + Input + AllocGlobal + Files<File = File> + Env + Clock> System for R {}
