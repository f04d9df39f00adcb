//! Why libraries aren't bound.

ghost use Rattle.std.specs.Prelude.{◌≡◌};
ghost use Rattle.elf_binder.specs.declared.refusal.BindBad.TheVariants.{Memory};

use bound_base::NoMemory;
use elf_reader::ElfPart;
use std::alloc::{AllocError, AllocFailed};
use thiserror::Error;

/// Why libraries aren't bound.
#[derive(Clone, Copy, Debug, PartialEq, Eq, Error)]
pub enum BindBad {
    /// The first library that is broken, by its number from 0, its part, and the file offset of the field that is wrong.
    #[error("bad library {which}: {part} at {at}")]
    BadLib { which: u32, part: ElfPart, at: u64 },
    /// There is no memory for what is bound.
    #[error("out of memory")]
    Memory,
}

impl From<AllocError> for BindBad {
    ghost from_gives = { λ _ e. e ≡ Memory };

    fn from(_: AllocError) -> BindBad {
        BindBad::Memory
    }
}

impl<T: Drop> From<AllocFailed<T>> for BindBad {
    ghost from_gives = { λ _ e. e ≡ Memory };

    fn from(_: AllocFailed<T>) -> BindBad {
        BindBad::Memory
    }
}

impl From<NoMemory> for BindBad {
    ghost from_gives = { λ _ e. e ≡ Memory };

    fn from(_: NoMemory) -> BindBad {
        BindBad::Memory
    }
}
