//! Why bytes are no body.

ghost use Rattle.std.specs.Prelude.{◌≡◌, Some};
ghost use Rattle.std.specs.Option.{ok_or};
ghost use Rattle.byte_view.specs.Reading.{Reads};
ghost use Rattle.byte_view.specs.Reading as reading;
ghost use Rattle.body_reader.specs.Refusals.{refusal};
ghost use Rattle.body_reader.specs.Clauses.{number_in};
ghost use Rattle.body_reader.specs.declared.bad.BodyBad.TheVariants.{Memory};

use byte_view::{le8, le16, le32};
use std::alloc::{AllocError, AllocFailed};
use thiserror::Error;

/// Bytes aren't read as a body.
#[derive(Clone, Copy, Debug, PartialEq, Eq, Error)]
pub enum BodyBad {
    /// They are no body: the place of the first header field that is missing or wrong; else of the
    /// first instruction that isn't whole; else of the first distance of a branch that doesn't lead
    /// to an instruction; else of the first field of a section, or clause, that is missing or wrong.
    #[error("no method body, from byte {0} on")]
    BadBody(u64),
    /// There is no memory for the body.
    #[error("out of memory")]
    Memory,
}

impl From<AllocError> for BodyBad {
    ghost from_gives = { λ _ e. e ≡ Memory };

    fn from(_: AllocError) -> BodyBad {
        BodyBad::Memory
    }
}

impl<T: Drop> From<AllocFailed<T>> for BodyBad {
    ghost from_gives = { λ _ e. e ≡ Memory };

    fn from(_: AllocFailed<T>) -> BodyBad {
        BodyBad::Memory
    }
}

/// The refusal of a place.
pub fn bad(at: usize) -> BodyBad
    ensures { refusal result ≡ Some at }
{
    BodyBad::BadBody(at as u64)
}

/// Refuses a place unless a test holds.
pub fn must(holds: bool, at: usize) -> Result<(), BodyBad>
    ensures { Reads refusal (λ _. 0) result (reading.must holds at) }
{
    if holds { Ok(()) } else { Err(bad(at)) }
}

/// The byte at a place, which is refused where there is none.
pub fn field8(b: &[u8], at: usize) -> Result<u8, BodyBad>
    ensures { Reads refusal (λ x. x) result (number_in b.now at 1) }
{
    le8(b, at).ok_or(bad(at))
}

/// The number in the two bytes at a place, which is refused where they aren't there.
pub fn field16(b: &[u8], at: usize) -> Result<u16, BodyBad>
    ensures { Reads refusal (λ x. x) result (number_in b.now at 2) }
{
    le16(b, at).ok_or(bad(at))
}

/// The number in the four bytes at a place, which is refused where they aren't there.
pub fn field32(b: &[u8], at: usize) -> Result<u32, BodyBad>
    ensures { Reads refusal (λ x. x) result (number_in b.now at 4) }
{
    le32(b, at).ok_or(bad(at))
}
