//! Why an object isn't made.

ghost use Rattle.std.specs.Prelude.{◌≡◌};
ghost use Rattle.object_store.specs.declared.fault.ObjBad.TheVariants.{Memory};

use bound_base::NoMemory;
use std::alloc::{AllocError, AllocFailed};
use thiserror::Error;

/// Why an object isn't made.
#[derive(Clone, Copy, Debug, PartialEq, Eq, Error)]
pub enum ObjBad {
    /// The bytes that objects count would pass the limit.
    #[error("no room")]
    Full,
    /// There is no memory for the object.
    #[error("out of memory")]
    Memory,
}

impl From<AllocError> for ObjBad {
    ghost from_gives = { λ _ bad. bad ≡ Memory };

    fn from(_: AllocError) -> ObjBad {
        ObjBad::Memory
    }
}

impl<T: Drop> From<AllocFailed<T>> for ObjBad {
    ghost from_gives = { λ _ bad. bad ≡ Memory };

    fn from(_: AllocFailed<T>) -> ObjBad {
        ObjBad::Memory
    }
}

impl From<NoMemory> for ObjBad {
    ghost from_gives = { λ _ bad. bad ≡ Memory };

    fn from(_: NoMemory) -> ObjBad {
        ObjBad::Memory
    }
}
