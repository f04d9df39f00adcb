//! The bytes at an address of the loaded image, by the sections' raw data.

ghost use Rattle.std.specs.Prelude.{◌≡◌, ◌+◌, ◌≤◌, map, find, option_map, IfSome, IsTrue};
ghost use Rattle.std.specs.Option.{option_copied};
ghost use Rattle.byte_view.specs.Headers as definition;
ghost use Rattle.pe_reader.specs.Pe.{section_of, sections_of};

use crate::headers::Pe;
use crate::sections::{Section, Sections};

/// The `len` bytes from the address `rva` on. None exactly where no section's raw data in the file
/// holds them all; the first section that does counts (ECMA-335 II.25.3).
pub fn at_rva<'a>(bytes: &'a [u8], pe: &Pe, rva: u32, len: u32) -> Option<&'a [u8]>
    ensures { option_copied result ≡ definition.bytes_at bytes.now (sections_of pe.now) rva len }
{
    let at = file_place(&pe.sections, bytes.len(), rva, len)?;
    Some(&bytes[at..at + len as usize])
}

/// The bytes from the address `rva` to the end of its section's raw data in the file. None exactly
/// where no section's raw data in the file holds the byte at `rva`; the first section that does
/// counts (ECMA-335 II.25.3).
#[tactic(auto, unfolding(byte_view::specs::Headers::holds_range))]
pub fn rest_at<'a>(bytes: &'a [u8], pe: &Pe, rva: u32) -> Option<&'a [u8]>
    ensures { option_copied result ≡ definition.bytes_from bytes.now (sections_of pe.now) rva }
{
    let section = section_that_holds(&pe.sections, bytes.len(), rva, 1)?;
    let end = bytes.len().min(section.raw_end());
    Some(&bytes[section.raw_place(rva)..end])
}

/// The file offset of a range of addresses, in a file of `size` bytes; None where no section holds
/// the range.
#[tactic(auto, unfolding(byte_view::specs::Headers::file_place, byte_view::specs::Headers::holds_range))]
pub fn file_place(sections: &Sections, size: usize, rva: u32, len: u32) -> Option<usize>
    ensures place { result ≡ definition.file_place (map section_of sections.now) size rva len }
    ensures within { IfSome result (λ at. at + len ≤ size) }
{
    let section = section_that_holds(sections, size, rva, len)?;
    Some(section.raw_place(rva))
}

/// The first section whose raw data, in a file of `size` bytes, holds the range of addresses.
fn section_that_holds(sections: &Sections, size: usize, rva: u32, len: u32) -> Option<Section>
    ensures first { option_map section_of result
        ≡ find (definition.holds_range size rva len) (map section_of sections.now) }
    ensures holds { IfSome result (λ section.
        IsTrue (definition.holds_range size rva len (section_of section))) }
{
    sections
        .as_slice()
        .iter()
        .copied()
        .find(|section| section.holds(size, rva, len))
}
