//! The fields of a header, and what is refused where one is missing or wrong.

ghost use Rattle.std.specs.Prelude.{◌≡◌};
ghost use Rattle.byte_view.specs.Reading as reading;
ghost use Rattle.elf_reader.specs.Refusals.{broken_part, part_place};

use crate::part::{Broken, ElfPart};
use byte_view::{le8, le16, le32};

/// The refusal of a part at a file offset.
pub fn broken(part: ElfPart, at: usize) -> Broken
    ensures { result ≡ record { part = part; at = at } }
{
    Broken {
        part,
        at: at as u64,
    }
}

/// Refuses the part at `at` unless a test of it holds.
pub fn must(holds: bool, part: ElfPart, at: usize) -> Result<(), Broken>
    ensures { reading.Reads broken_part (λ _. 0) result (reading.must holds (part_place part, at)) }
{
    if holds { Ok(()) } else { Err(broken(part, at)) }
}

/// The number in the byte at `at`; the part is refused there if the file ends before it does.
pub fn field8(part: ElfPart, bytes: &[u8], at: usize) -> Result<u8, Broken>
    ensures { reading.Reads broken_part (λ x. x) result
        (reading.field (part_place part) bytes.now at 1) }
{
    le8(bytes, at).ok_or(broken(part, at))
}

/// The number in the two bytes at `at`; the part is refused there if the file ends before they do.
pub fn field16(part: ElfPart, bytes: &[u8], at: usize) -> Result<u16, Broken>
    ensures { reading.Reads broken_part (λ x. x) result
        (reading.field (part_place part) bytes.now at 2) }
{
    le16(bytes, at).ok_or(broken(part, at))
}

/// The number in the four bytes at `at`; the part is refused there if the file ends before they do.
pub fn field32(part: ElfPart, bytes: &[u8], at: usize) -> Result<u32, Broken>
    ensures { reading.Reads broken_part (λ x. x) result
        (reading.field (part_place part) bytes.now at 4) }
{
    le32(bytes, at).ok_or(broken(part, at))
}
