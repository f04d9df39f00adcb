//! Why a blob isn't read.

ghost use Rattle.std.specs.Prelude.{◌≡◌};
ghost use Rattle.sig_reader.specs.declared.bad.SigBad.TheVariants.{Memory};

use std::alloc::{AllocError, AllocFailed};
use thiserror::Error;

/// A blob isn't read.
#[derive(Clone, Copy, Debug, PartialEq, Eq, Error)]
pub enum SigBad {
    /// It is no signature of its kind: its first `0` bytes begin one, and no signature goes on with
    /// the byte there, or the blob ends there too early.
    #[error("no signature, from byte {0} on")]
    BadSig(usize),
    /// There is no memory for the signature.
    #[error("out of memory")]
    Memory,
}

impl From<AllocError> for SigBad {
    ghost from_gives = { λ _ e. e ≡ Memory };

    fn from(_: AllocError) -> SigBad {
        SigBad::Memory
    }
}

impl<T: Drop> From<AllocFailed<T>> for SigBad {
    ghost from_gives = { λ _ e. e ≡ Memory };

    fn from(_: AllocFailed<T>) -> SigBad {
        SigBad::Memory
    }
}
