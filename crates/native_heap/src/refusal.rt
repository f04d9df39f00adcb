//! Why nothing comes of a call.

ghost use Rattle.std.specs.Prelude.{◌≡◌};
ghost use Rattle.native_heap.specs.declared.refusal.HeapBad.TheVariants.{Memory, Fault as Faults};

use native_memory::Fault;
use std::alloc::{AllocError, AllocFailed};
use thiserror::Error;

/// Why nothing comes of a call of a host function. Registers and memory are then as they were.
#[derive(Clone, Copy, Debug, PartialEq, Eq, Error)]
pub enum HeapBad {
    /// The function was called with arguments for which it isn't defined, or it is `abort`.
    #[error("host function faults")]
    Fault,
    /// There is no memory for what the function does.
    #[error("out of memory")]
    Memory,
}

impl From<AllocError> for HeapBad {
    ghost from_gives = { λ _ bad. bad ≡ Memory };

    fn from(_: AllocError) -> HeapBad {
        HeapBad::Memory
    }
}

impl<T: Drop> From<AllocFailed<T>> for HeapBad {
    ghost from_gives = { λ _ bad. bad ≡ Memory };

    fn from(_: AllocFailed<T>) -> HeapBad {
        HeapBad::Memory
    }
}

impl From<Fault> for HeapBad {
    ghost from_gives = { λ _ bad. bad ≡ Faults };

    fn from(_: Fault) -> HeapBad {
        HeapBad::Fault
    }
}
