//! Why an access or a placement is refused.

ghost use Rattle.std.specs.Prelude.{◌≡◌};
ghost use Rattle.native_memory.specs.declared.faults.PlaceBad.TheVariants.{Memory};

use std::alloc::{AllocError, AllocFailed};
use thiserror::Error;

/// An access to a range that no one live block with the right covers.
#[derive(Clone, Copy, Debug, PartialEq, Eq, Error)]
#[error("no access to {len} bytes at {addr}")]
pub struct Fault {
    /// The first address of the range.
    pub addr: u64,
    /// The length of the range in bytes.
    pub len: u64,
    /// It was to be written.
    pub write: bool,
}

/// Why a block isn't placed.
#[derive(Clone, Copy, Debug, PartialEq, Eq, Error)]
pub enum PlaceBad {
    /// The live bytes would pass the limit, or the next address would pass 2^46.
    #[error("no room")]
    Room,
    /// There is no memory for the block.
    #[error("out of memory")]
    Memory,
}

impl From<AllocError> for PlaceBad {
    ghost from_gives = { λ _ bad. bad ≡ Memory };

    fn from(_: AllocError) -> PlaceBad {
        PlaceBad::Memory
    }
}

impl<T: Drop> From<AllocFailed<T>> for PlaceBad {
    ghost from_gives = { λ _ bad. bad ≡ Memory };

    fn from(_: AllocFailed<T>) -> PlaceBad {
        PlaceBad::Memory
    }
}
