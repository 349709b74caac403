//! The exit statuses of the program.

/// The answer was written.
pub const DONE: u8 = 0;

/// The command line or the value of `--iv` was refused, or raw bytes would go to a terminal.
pub const USAGE: u8 = 2;

/// A KEK is not 16, 24 or 32 bytes long.
pub const KEK_LENGTH: u8 = 3;

/// The length of the key or the wrapped key is not legal in its form.
pub const BAD_LENGTH: u8 = 4;

/// The integrity check failed, a check found no wrapping, or a vector failed.
pub const FAILED: u8 = 5;

/// A file or the output could not be opened, read or written.
pub const INPUT_OUTPUT: u8 = 6;

/// An allocation failed.
pub const MEMORY: u8 = 7;
