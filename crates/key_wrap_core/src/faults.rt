//! Why a call refuses.

use thiserror::Error;

/// Why a call in the caller's buffers refuses.
#[derive(Clone, Copy, Debug, PartialEq, Eq, Error)]
pub enum InPlaceFault {
    /// A length is not legal, or a buffer is of another length than the one that goes with it.
    #[error("bad length")]
    BadLength,
    /// It is not a valid wrapped key (RFC 3394, section 2.2.3; RFC 5649, section 3).
    #[error("integrity check failed")]
    Integrity,
}

/// Why a job refuses a key or a wrapped key.
#[derive(Clone, Copy, Debug, PartialEq, Eq, Error)]
pub enum Refusal {
    /// The length is not legal in the form, or, if the wrapped key may have several forms, in any.
    #[error("{}", InPlaceFault::BadLength)]
    BadLength,
    /// It is not a valid wrapped key.
    #[error("{}", InPlaceFault::Integrity)]
    Integrity,
    /// It is a valid wrapped key in the padded form, but no plain key has the length of its key.
    #[error("{}", InPlaceFault::BadLength)]
    KeyNotPlain,
}

/// The first four bytes of an initial value are A65959A6, as in the padded form (RFC 5649, section
/// 3).
#[derive(Clone, Copy, Debug, PartialEq, Eq, Error)]
#[error("initial value is reserved for the padded form")]
pub struct ReservedIv;
