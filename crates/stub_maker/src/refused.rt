//! Why an import, a delegate or a type has no stub.

ghost use Rattle.std.specs.Prelude.{◌≡◌};
ghost use Rattle.stub_maker.specs.declared.refused.StubBad.TheVariants.{Memory};

use bound_base::NoMemory;
use std::alloc::{AllocError, AllocFailed};
use thiserror::Error;

/// What has no row in the marshalling table.
#[derive(Clone, Copy, Debug, PartialEq, Eq)]
pub enum Param {
    /// A parameter, by its number from 0.
    Arg(u32),
    Result,
    /// The import, the delegate or the type as a whole.
    Whole,
}

/// What of it the table has no row for.
#[derive(Clone, Copy, Debug, PartialEq, Eq)]
pub enum Why {
    Type0,
    Descriptor,
    Mark,
    Layout,
    PreserveSig,
}

/// Why there is no stub.
#[derive(Clone, Copy, Debug, PartialEq, Eq, Error)]
pub enum StubBad {
    /// It is outside the marshalling table: the first parameter from the left without a row, or the result where every
    /// parameter has one.
    #[error("outside the marshalling table")]
    Outside { param: Param, why: Why },
    /// There is no memory for it.
    #[error("out of memory")]
    Memory,
}

impl From<AllocError> for StubBad {
    ghost from_gives = { λ _ bad. bad ≡ Memory };

    fn from(_: AllocError) -> StubBad {
        StubBad::Memory
    }
}

impl<T: Drop> From<AllocFailed<T>> for StubBad {
    ghost from_gives = { λ _ bad. bad ≡ Memory };

    fn from(_: AllocFailed<T>) -> StubBad {
        StubBad::Memory
    }
}

impl From<NoMemory> for StubBad {
    ghost from_gives = { λ _ bad. bad ≡ Memory };

    fn from(_: NoMemory) -> StubBad {
        StubBad::Memory
    }
}
