//! The sections of a PE file.

ghost use Rattle.std.specs.Prelude.{◌≡◌, ◌+◌, ◌*◌, ◌<◌, ◌≤◌, ◌^◌, map};
ghost use Rattle.bound_base.specs.Image.{refusal};
ghost use Rattle.byte_view.specs.Headers as definition;
ghost use Rattle.byte_view.specs.Reading.{Reads, WantsMemory, listed};
ghost use Rattle.pe_reader.specs.Pe.{section_of};

use crate::fields::must;
use bound_base::{BadImage, Items, Part};
use byte_view::number32;
use std::alloc::Global;

/// How many sections a file may have.
const SECTION_LIMIT: usize = 96;

/// The size of a section header, in bytes.
const HEADER_SIZE: usize = 40;

/// A section: where it is loaded, and where its raw data lies (ECMA-335 II.25.3).
#[derive(Clone, Copy, Debug, PartialEq, Eq)]
pub struct Section {
    /// The address at which it is loaded, from the start of the image: `VirtualAddress`.
    pub rva: u32,
    /// The file offset of its raw data: `PointerToRawData`.
    pub raw_at: u32,
    /// The size of its raw data, in bytes: `SizeOfRawData`.
    pub raw_size: u32,
}

/// The sections of a file, in the order of their headers.
pub type Sections = Items<Section>;

impl Section {
    /// Whether the raw data, in a file of `size` bytes, has each of the `len` bytes from the
    /// address `rva` on.
    #[tactic(auto, unfolding(byte_view::specs::Headers::holds_range))]
    pub fn holds(&self, size: usize, rva: u32, len: u32) -> bool
        ensures { result ≡ definition.holds_range size rva len (section_of self.now) }
    {
        if rva < self.rva {
            return false;
        }
        let end = (rva - self.rva) as usize + len as usize;
        end <= self.raw_size as usize && self.raw_at as usize + end <= size
    }

    /// The file offset of the byte at the address `rva`, which isn't before the section.
    pub fn raw_place(&self, rva: u32) -> usize
        requires { self.now.rva ≤ rva }
        ensures { result ≡ definition.raw_place rva (section_of self.now) }
    {
        self.raw_at as usize + (rva - self.rva) as usize
    }

    /// The file offset at which the raw data ends.
    pub fn raw_end(&self) -> usize
        ensures { result ≡ self.now.raw_at + self.now.raw_size }
    {
        self.raw_at as usize + self.raw_size as usize
    }
}

/// The sections of a file whose PE signature is at `pe_at`: `count` headers from `at` on, one after
/// another.
#[tactic(auto, unfolding(byte_view::specs::Headers::sections_of))]
pub fn read_sections(
    alloc: Global,
    bytes: &[u8],
    pe_at: usize,
    count: usize,
    at: usize,
) -> Result<Sections, BadImage>
    requires signature { pe_at < 2 ^ 32 }
    requires table { at < 2 ^ 33 }
    ensures sections { Reads refusal (map section_of) result
        (definition.sections_of bytes.now pe_at count at) }
    ensures memory { WantsMemory refusal result → (1 ≤ count) × (count ≤ 96) }
{
    must(count <= SECTION_LIMIT, Part::Sections, pe_at + 6)?;
    section_headers(alloc, bytes, count, at)
}

/// `count` section headers from `at` on, one after another.
fn section_headers(
    alloc: Global,
    bytes: &[u8],
    count: usize,
    at: usize,
) -> Result<Sections, BadImage>
    requires few { count ≤ 96 }
    requires table { at < 2 ^ 33 }
    ensures sections { Reads refusal (map section_of) result
        (listed (λ k. definition.section_at bytes.now (at + 40 * k)) count) }
    ensures memory { WantsMemory refusal result → 1 ≤ count }
{
    let mut sections = Sections::new(alloc);
    for k in 0..count {
        let section = section_at(bytes, at + HEADER_SIZE * k)?;
        sections.push(section)?;
    }
    Ok(sections)
}

/// The section whose header is at `at`.
fn section_at(bytes: &[u8], at: usize) -> Result<Section, BadImage>
    requires { at < 2 ^ 34 }
    ensures section { Reads refusal section_of result (definition.section_at bytes.now at) }
    ensures memory { ¬ WantsMemory refusal result }
{
    must(at + HEADER_SIZE <= bytes.len(), Part::Sections, at)?;
    Ok(Section {
        rva: number32(bytes, at + 12),
        raw_at: number32(bytes, at + 20),
        raw_size: number32(bytes, at + 16),
    })
}
