//! Why a text isn't put. What is put then is said by specs/Put.antt.

ghost use Rattle.std.specs.Prelude.{◌≡◌};

use crate::memory::NoMemory;
use crate::outside::SinkFault;
use std::alloc::{AllocError, AllocFailed};

/// Why a text wasn't put whole.
#[derive(Clone, Copy, Debug, PartialEq, Eq)]
pub enum PutError {
    /// There is no memory for the text, or for a later part of it. The sink got a front of it, and no put failed.
    Memory,
    /// A put failed, and the sink has counted it. The sink got a front of the text.
    SinkFailed,
}

impl From<NoMemory> for PutError {
    ghost use Rattle.bound_base.specs.declared.put.PutError.TheVariants as put;

    ghost from_gives = { λ _ e. e ≡ put.Memory };

    fn from(_: NoMemory) -> PutError {
        PutError::Memory
    }
}

impl From<AllocError> for PutError {
    ghost use Rattle.bound_base.specs.declared.put.PutError.TheVariants as put;

    ghost from_gives = { λ _ e. e ≡ put.Memory };

    fn from(_: AllocError) -> PutError {
        PutError::Memory
    }
}

impl<T: Drop> From<AllocFailed<T>> for PutError {
    ghost use Rattle.bound_base.specs.declared.put.PutError.TheVariants as put;

    ghost from_gives = { λ _ e. e ≡ put.Memory };

    fn from(_: AllocFailed<T>) -> PutError {
        PutError::Memory
    }
}

impl From<SinkFault> for PutError {
    ghost use Rattle.bound_base.specs.declared.put.PutError.TheVariants as put;

    ghost from_gives = { λ _ e. e ≡ put.SinkFailed };

    fn from(_: SinkFault) -> PutError {
        PutError::SinkFailed
    }
}
