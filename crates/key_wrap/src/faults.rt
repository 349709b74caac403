//! Why a call that takes memory refuses.

ghost use Rattle.std.specs.Prelude.{◌≡◌};
ghost use Rattle.key_wrap.specs.declared.faults.KindFault.TheVariants as kind_faults;
ghost use Rattle.key_wrap.specs.declared.faults.UnwrapFault.TheVariants as unwrap_faults;
ghost use Rattle.key_wrap.specs.declared.faults.WrapFault.TheVariants as wrap_faults;
ghost use Rattle.key_wrap.specs.Results.{rewrap_fault, unwrap_fault};

use key_wrap_core::{InPlaceFault, Refusal};
use std::alloc::AllocError;
use thiserror::Error;

/// Why a wrapping call refuses.
#[derive(Clone, Copy, Debug, PartialEq, Eq, Error)]
pub enum WrapFault {
    /// The key has no legal length.
    #[error("{}", InPlaceFault::BadLength)]
    BadLength,
    /// There is no memory for the wrapping.
    #[error("out of memory")]
    Memory,
}

impl From<AllocError> for WrapFault {
    ghost from_gives = { λ _ fault. fault ≡ wrap_faults.Memory };

    fn from(_: AllocError) -> WrapFault {
        WrapFault::Memory
    }
}

/// Why an unwrapping call refuses.
#[derive(Clone, Copy, Debug, PartialEq, Eq, Error)]
pub enum UnwrapFault {
    /// The wrapped key has no legal length; of a rewrapping also: its key has none in the new form.
    #[error("{}", InPlaceFault::BadLength)]
    BadLength,
    /// It is not a valid wrapped key (RFC 3394, section 2.2.3; RFC 5649, section 3).
    #[error("{}", InPlaceFault::Integrity)]
    Integrity,
    /// There is no memory for the key, or of a rewrapping for the new wrapping.
    #[error("{}", WrapFault::Memory)]
    Memory,
}

impl From<InPlaceFault> for UnwrapFault {
    ghost from_gives = { λ fault given. given ≡ unwrap_fault fault };

    fn from(fault: InPlaceFault) -> UnwrapFault {
        match fault {
            InPlaceFault::BadLength => UnwrapFault::BadLength,
            InPlaceFault::Integrity => UnwrapFault::Integrity,
        }
    }
}

impl From<Refusal> for UnwrapFault {
    ghost from_gives = { λ fault given. given ≡ rewrap_fault fault };

    fn from(fault: Refusal) -> UnwrapFault {
        match fault {
            Refusal::BadLength => UnwrapFault::BadLength,
            Refusal::Integrity => UnwrapFault::Integrity,
            Refusal::KeyNotPlain => UnwrapFault::BadLength,
        }
    }
}

impl From<AllocError> for UnwrapFault {
    ghost from_gives = { λ _ fault. fault ≡ unwrap_faults.Memory };

    fn from(_: AllocError) -> UnwrapFault {
        UnwrapFault::Memory
    }
}

/// Why `kind` has no answer.
#[derive(Clone, Copy, Debug, PartialEq, Eq, Error)]
pub enum KindFault {
    /// There is no memory to unwrap in.
    #[error("{}", WrapFault::Memory)]
    Memory,
}

impl From<AllocError> for KindFault {
    ghost from_gives = { λ _ fault. fault ≡ kind_faults.Memory };

    fn from(_: AllocError) -> KindFault {
        KindFault::Memory
    }
}
