//! The fields of a header, and what is refused where one is missing or wrong. None of these takes
//! memory.

ghost use Rattle.std.specs.Prelude.{◌≡◌};
ghost use Rattle.bound_base.specs.Image.{part_place, refusal};
ghost use Rattle.byte_view.specs.Reading.{Reads, WantsMemory, field};
ghost use Rattle.byte_view.specs.Reading as reading;

use bound_base::{BadImage, Part};
use byte_view::{le16, le32};

/// The refusal of a part at a file offset.
pub fn bad(part: Part, at: usize) -> BadImage
    ensures { refusal result ≡ Some (part_place part, at) }
{
    BadImage::Bad {
        part,
        at: at as u64,
    }
}

/// The number in the two bytes at `at`; the part is refused there if the file ends before they do.
pub fn field16(part: Part, bytes: &[u8], at: usize) -> Result<u16, BadImage>
    ensures reads { Reads refusal (λ x. x) result (field (part_place part) bytes.now at 2) }
    ensures memory { ¬ WantsMemory refusal result }
{
    le16(bytes, at).ok_or(bad(part, at))
}

/// The number in the four bytes at `at`; the part is refused there if the file ends before they do.
pub fn field32(part: Part, bytes: &[u8], at: usize) -> Result<u32, BadImage>
    ensures reads { Reads refusal (λ x. x) result (field (part_place part) bytes.now at 4) }
    ensures memory { ¬ WantsMemory refusal result }
{
    le32(bytes, at).ok_or(bad(part, at))
}

/// Refuses the part at `at` unless a test of it holds.
pub fn must(holds: bool, part: Part, at: usize) -> Result<(), BadImage>
    ensures reads { Reads refusal (λ _. 0) result (reading.must holds (part_place part, at)) }
    ensures memory { ¬ WantsMemory refusal result }
{
    if holds { Ok(()) } else { Err(bad(part, at)) }
}
