//! Steps of reading: a value and the bytes after it, or where reading stops.

ghost use Rattle.std.specs.Prelude.{◌≡◌, ◌==◌, length, Some, None, if◌then◌else◌};
ghost use Rattle.std.specs.Option.{option_copied};
ghost use Rattle.byte_view.specs.Reading.{Reads};
ghost use Rattle.sig_reader.specs.Reading.{byte_in, comes, after_first};
ghost use Rattle.sig_reader.specs.View.{left_at};
ghost use Rattle.sig_reader.specs.declared.parts.Stop.TheVariants.{Memory};

use std::alloc::{AllocError, AllocFailed};

/// Reading stops.
#[derive(Clone, Copy, Debug)]
pub enum Stop {
    /// At a byte that no signature has there, or at the end: so many bytes are left.
    Left(usize),
    Memory,
}

impl From<AllocError> for Stop {
    ghost from_gives = { λ _ e. e ≡ Memory };

    fn from(_: AllocError) -> Stop {
        Stop::Memory
    }
}

impl<T: Drop> From<AllocFailed<T>> for Stop {
    ghost from_gives = { λ _ e. e ≡ Memory };

    fn from(_: AllocFailed<T>) -> Stop {
        Stop::Memory
    }
}

/// The next byte.
pub fn first(b: &[u8]) -> Result<(u8, &[u8]), Stop>
    ensures { Reads left_at (λ r. (r.0, r.1.now)) result (byte_in b.now) }
{
    match b {
        [c, rest @ ..] => Ok((*c, rest)),
        [] => Err(Stop::Left(0)),
    }
}

/// The bytes after a byte that comes next; None where it doesn't.
pub fn after(b: &[u8], e: u8) -> Option<&[u8]>
    ensures { option_copied result ≡ (if comes (λ c. c == e) b.now then Some (after_first b.now) else None) }
{
    match b {
        [c, rest @ ..] if *c == e => Some(rest),
        _ => None,
    }
}
