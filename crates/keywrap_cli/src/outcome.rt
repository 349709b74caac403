//! The outcome of an operation, or why it was refused.

use key_files::{FileFault, WriteFault};
use key_wrap_core::InPlaceFault;
use thiserror::Error;

/// The outcome of an operation on a whole input.
#[derive(Clone, Copy, Debug, PartialEq)]
pub enum Done {
    Written,
    /// The input is not a wrapping in either form, and `none` was written.
    Neither,
}

/// The result of an operation, and whether its KEKs are the same key.
#[derive(Clone, Copy)]
pub struct Outcome<T> {
    pub result: T,
    /// Whether there is a new KEK that is the same key as the KEK.
    pub same_kek: bool,
}

/// Why an operation was refused.
#[derive(Clone, Copy, Debug, PartialEq, Error)]
pub enum JobFault {
    /// The KEK file cannot be read, is too long, or does not decode.
    #[error("key file: {0}")]
    KekFile(FileFault),
    #[error("key length is not 16, 24 or 32 bytes")]
    KekLength,
    /// The new KEK file of a rewrap cannot be read, is too long, or does not decode.
    #[error("new key file: {0}")]
    NewKekFile(FileFault),
    #[error("new key length is not 16, 24 or 32 bytes")]
    NewKekLength,
    #[error("input: {0}")]
    InputFile(FileFault),
    /// The length of the key or the wrapped key is not legal in this form.
    #[error("{}", InPlaceFault::BadLength)]
    BadLength,
    /// The input is not a wrapping in this form under this KEK.
    #[error("{}", InPlaceFault::Integrity)]
    Integrity,
    /// A rewrap found the key, but no plain key has its length. `run_rewrap` returns BadLength
    /// instead.
    #[error("{}", InPlaceFault::BadLength)]
    KeyNotPlain,
    /// The writer took only `written` bytes of the output.
    #[error("output: {}", WriteFault {written: *written})]
    Write {
        /// The number of bytes that were written.
        written: usize,
    },
    #[error("{}", FileFault::Memory)]
    Memory,
}
