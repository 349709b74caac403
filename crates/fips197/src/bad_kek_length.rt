//! The error for a key-encryption key of the wrong length.

use std::error::Error;
use std::fmt;

/// A key's length is not 16, 24 or 32 bytes.
#[derive(Clone, Copy, Debug, PartialEq, Eq)]
pub struct BadKekLength;

impl fmt::Display for BadKekLength {
    fn fmt<W: fmt::Write>(&self, f: &mut fmt::Formatter<W>) -> fmt::Result {
        write!(f, "key length is not 16, 24 or 32 bytes")
    }
}

impl Error for BadKekLength {}
