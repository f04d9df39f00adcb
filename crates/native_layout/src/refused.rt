//! Why a struct has no layout.

ghost use Rattle.std.specs.Prelude.{◌≡◌};
ghost use Rattle.native_layout.specs.declared.refused.LayoutBad.TheVariants.{Memory};

use std::alloc::{AllocError, AllocFailed};
use thiserror::Error;

/// Why a struct has no layout.
#[derive(Clone, Copy, Debug, PartialEq, Eq, Error)]
pub enum LayoutBad {
    /// It can't be laid out. The number is that of the first field that breaks the first broken rule, and 0
    /// where that rule speaks of no field.
    #[error("no layout at field {0}")]
    Outside(u32),
    /// There is no memory for the offsets.
    #[error("out of memory")]
    Memory,
}

impl From<AllocError> for LayoutBad {
    ghost from_gives = { λ _ bad. bad ≡ Memory };

    fn from(_: AllocError) -> LayoutBad {
        LayoutBad::Memory
    }
}

impl<T: Drop> From<AllocFailed<T>> for LayoutBad {
    ghost from_gives = { λ _ bad. bad ≡ Memory };

    fn from(_: AllocFailed<T>) -> LayoutBad {
        LayoutBad::Memory
    }
}
