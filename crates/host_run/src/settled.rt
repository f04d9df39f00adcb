//! How a call ends.

ghost use Rattle.std.specs.Prelude.{◌≡◌, []};

use crate::command::Word;
use bound_base::{Bytes, Items, NoMemory, PutError};
use std::alloc::{AllocError, Global};

/// Texts in order.
pub type Texts = Items<Bytes>;

/// How a call ends that came to its end: with this status, after these texts are put on err. All of them are made before
/// the first is put.
#[derive(Debug, Drop)]
pub struct Settled {
    pub status: u8,
    pub texts: Texts,
}

impl Settled {
    /// All is done, and err gets nothing. It takes no memory.
    pub fn done(alloc: Global) -> Settled
        ensures status { result.status ≡ 0 }
        ensures texts { result.texts ≡ [] }
    {
        Settled {
            status: 0,
            texts: Texts::new(alloc),
        }
    }
}

/// Why a call doesn't come to its end.
#[derive(Debug, Drop)]
pub enum Halt {
    /// A read of this file failed.
    Unreadable(Word),
    /// A put failed; nothing more is written.
    SinkFailed,
    /// There is no memory.
    Memory,
}

impl From<PutError> for Halt {
    ghost use Rattle.host_run.specs.Settled.{put_halt};

    ghost from_gives = { λ error e. e ≡ put_halt error };

    fn from(error: PutError) -> Halt {
        match error {
            PutError::Memory => Halt::Memory,
            PutError::SinkFailed => Halt::SinkFailed,
        }
    }
}

impl From<NoMemory> for Halt {
    ghost use Rattle.host_run.specs.declared.settled.Halt.TheVariants as halt;

    ghost from_gives = { λ _ e. e ≡ halt.Memory };

    fn from(_: NoMemory) -> Halt {
        Halt::Memory
    }
}

impl From<AllocError> for Halt {
    ghost use Rattle.host_run.specs.declared.settled.Halt.TheVariants as halt;

    ghost from_gives = { λ _ e. e ≡ halt.Memory };

    fn from(_: AllocError) -> Halt {
        Halt::Memory
    }
}
