//! The headers of a PE file, one after another, up to the range of the metadata.

ghost use Rattle.std.specs.Prelude.{◌≡◌, ◌+◌, ◌<◌, ◌≤◌, ◌^◌, length, map, IfOk, IsOkAnd};
ghost use Rattle.bound_base.specs.Image.{refusal};
ghost use Rattle.byte_view.specs.Headers as definition;
ghost use Rattle.byte_view.specs.Numbers.{le};
ghost use Rattle.byte_view.specs.Reading.{Reads, WantsMemory};
ghost use Rattle.pe_reader.specs.Pe.{section_of, headers_of, front_of};

use crate::addresses::file_place;
use crate::fields::{bad, field16, field32, must};
use crate::sections::{Sections, read_sections};
use bound_base::{BadImage, Part};
use byte_view::{number16, number32};
use std::alloc::Global;

/// The magic of an MS-DOS header: `MZ`.
const MZ: u16 = 0x5A4D;

/// The signature of a PE file: `PE` and two zeros.
const PE_SIGNATURE: u32 = 0x4550;

/// The magic of the optional header of a PE32 file.
const PE32: u16 = 0x10B;

/// The magic of the optional header of a PE32+ file.
const PE32_PLUS: u16 = 0x20B;

/// The place of the CLI header's data directory among the directories, from 0.
const CLI_DIRECTORY: usize = 14;

/// The size of the CLI header, in bytes.
const CLI_HEADER_SIZE: u32 = 72;

/// The CLI flag of an image that has only IL.
const IL_ONLY: u32 = 0x01;

/// The CLI flag of an image whose entry point is native code.
const NATIVE_ENTRY_POINT: u32 = 0x10;

/// What the headers of a PE file tell of the assembly in it.
#[derive(Debug, Drop)]
pub struct Pe {
    /// The file offset of the metadata.
    pub meta_at: u64,
    /// The size of the metadata, in bytes.
    pub meta_size: u32,
    /// The token of the entry point, or 0 (ECMA-335 II.25.3.3.2).
    pub entry: u32,
    /// The file offset of the CLI header.
    pub cli_at: u64,
    /// The sections, in the order of their headers.
    pub sections: Sections,
}

/// Reads the headers of a PE file up to the range of the metadata, which lies in the file (ECMA-335
/// II.25).
///
/// `Bad` names the first part that is broken, of those from `mz` to `cli flags`, and the file
/// offset of its first field that is missing or wrong. Where no section holds the range of the
/// metadata, it is `metadata root` at the CLI header's field of that range. `Memory` says that
/// there is no memory for the sections: it comes only where the headers before those of the
/// sections are sound, and the file has 1 to 96 sections.
#[tactic(auto, unfolding(byte_view::specs::Headers::headers))]
pub fn read_pe(alloc: Global, bytes: &[u8]) -> Result<Pe, BadImage>
    ensures headers { Reads refusal headers_of result (definition.headers bytes.now) }
    ensures within { IfOk result (λ pe. pe.meta_at + pe.meta_size ≤ length bytes.now) }
    ensures memory { WantsMemory refusal result
        → IsOkAnd (definition.front bytes.now) (λ front. (1 ≤ front.count) × (front.count ≤ 96)) }
{
    let front = read_front(bytes)?;
    let sections = read_sections(alloc, bytes, front.signature, front.count, front.table)?;
    let cli_at = cli_header_place(bytes, &sections, front.directory)?;
    let meta_at = metadata_place(bytes, &sections, cli_at)?;
    Ok(Pe {
        meta_at: meta_at as u64,
        meta_size: number32(bytes, cli_at + 12),
        entry: number32(bytes, cli_at + 20),
        cli_at: cli_at as u64,
        sections,
    })
}

/// The headers before those of the sections: where the PE signature stands, how many section
/// headers there are and the file offset of the first, and that of the CLI header's directory.
#[derive(Clone, Copy)]
pub struct Front {
    pub signature: usize,
    pub count: usize,
    pub table: usize,
    pub directory: usize,
}

/// Reads the headers before those of the sections.
#[tactic(auto, unfolding(byte_view::specs::Headers::front))]
fn read_front(bytes: &[u8]) -> Result<Front, BadImage>
    ensures front { Reads refusal front_of result (definition.front bytes.now) }
    ensures memory { ¬ WantsMemory refusal result }
    ensures small { IfOk result (λ front. (front.signature < 2 ^ 32) × (front.table < 2 ^ 33)) }
    ensures within { IfOk result (λ front. front.directory + 8 ≤ length bytes.now) }
{
    let signature = signature_place(bytes)?;
    let table = section_table(bytes, signature)?;
    let count_at = directory_count_place(bytes, signature + 24)?;
    let directory = cli_directory(bytes, count_at)?;
    Ok(Front {
        signature,
        count: table.count,
        table: table.at,
        directory,
    })
}

/// Where the PE signature stands, which the MS-DOS header tells at 60 (II.25.2.1).
#[tactic(auto, unfolding(byte_view::specs::Headers::signature_place))]
fn signature_place(bytes: &[u8]) -> Result<usize, BadImage>
    ensures place { Reads refusal (λ x. x) result (definition.signature_place bytes.now) }
    ensures memory { ¬ WantsMemory refusal result }
    ensures small { IfOk result (λ pe_at. pe_at < 2 ^ 32) }
{
    let magic = field16(Part::Mz, bytes, 0)?;
    must(magic == MZ, Part::Mz, 0)?;
    let pe_at = field32(Part::PeOffset, bytes, 60)? as usize;
    let signature = field32(Part::PeSignature, bytes, pe_at)?;
    must(signature == PE_SIGNATURE, Part::PeSignature, pe_at)?;
    Ok(pe_at)
}

/// The section headers: how many, and the file offset of the first.
#[derive(Clone, Copy)]
struct SectionTable {
    count: usize,
    at: usize,
}

/// The section headers that the file header tells of, which stand after the optional header
/// (II.25.2.2).
#[tactic(auto, unfolding(byte_view::specs::Headers::section_table))]
fn section_table(bytes: &[u8], pe_at: usize) -> Result<SectionTable, BadImage>
    requires { pe_at < 2 ^ 32 }
    ensures table { Reads refusal (λ table. (table.count, table.at)) result
        (definition.section_table bytes.now pe_at) }
    ensures memory { ¬ WantsMemory refusal result }
    ensures small { IfOk result (λ table. table.at < 2 ^ 33) }
{
    must(pe_at + 24 <= bytes.len(), Part::CoffHeader, pe_at + 4)?;
    let optional_size = number16(bytes, pe_at + 20);
    Ok(SectionTable {
        count: usize::from(number16(bytes, pe_at + 6)),
        at: pe_at + 24 + usize::from(optional_size),
    })
}

/// Where the optional header has the number of its data directories (II.25.2.3).
#[tactic(auto, unfolding(byte_view::specs::Headers::directory_count_place))]
fn directory_count_place(bytes: &[u8], optional: usize) -> Result<usize, BadImage>
    requires { optional < 2 ^ 33 }
    ensures place { Reads refusal (λ x. x) result
        (definition.directory_count_place bytes.now optional) }
    ensures memory { ¬ WantsMemory refusal result }
    ensures small { IfOk result (λ at. at < 2 ^ 34) }
{
    let magic = field16(Part::OptionalHeader, bytes, optional)?;
    match magic {
        PE32 => Ok(optional + 92),
        PE32_PLUS => Ok(optional + 108),
        _ => Err(bad(Part::OptionalHeader, optional)),
    }
}

/// Where the CLI header's data directory stands, the fifteenth of 8 bytes each after their number
/// (II.25.2.3.3).
#[tactic(auto, unfolding(byte_view::specs::Headers::cli_directory))]
fn cli_directory(bytes: &[u8], count_at: usize) -> Result<usize, BadImage>
    requires { count_at < 2 ^ 34 }
    ensures place { Reads refusal (λ x. x) result (definition.cli_directory bytes.now count_at) }
    ensures memory { ¬ WantsMemory refusal result }
    ensures within { IfOk result (λ at. at + 8 ≤ length bytes.now) }
{
    let count = field32(Part::Directories, bytes, count_at)? as usize;
    must(count > CLI_DIRECTORY, Part::Directories, count_at)?;
    let at = count_at + 4 + 8 * CLI_DIRECTORY;
    must(at + 8 <= bytes.len(), Part::Directories, at)?;
    must(number32(bytes, at) != 0, Part::Directories, at)?;
    Ok(at)
}

/// Where the CLI header lies, whose flags say that there is only IL and no native entry point
/// (II.25.3.3.1).
#[tactic(auto, unfolding(byte_view::specs::Headers::cli_header_place))]
fn cli_header_place(bytes: &[u8], sections: &Sections, directory: usize) -> Result<usize, BadImage>
    requires { directory + 8 ≤ length bytes.now }
    ensures place { Reads refusal (λ x. x) result
        (definition.cli_header_place bytes.now (map section_of sections.now) directory) }
    ensures memory { ¬ WantsMemory refusal result }
    ensures within { IfOk result (λ at. at + 72 ≤ length bytes.now) }
{
    let rva = number32(bytes, directory);
    let at = file_place(sections, bytes.len(), rva, CLI_HEADER_SIZE).ok_or(bad(
        Part::CliHeader,
        directory,
    ))?;
    let flags = number32(bytes, at + 16);
    must(
        flags & (IL_ONLY | NATIVE_ENTRY_POINT) == IL_ONLY,
        Part::CliFlags,
        at + 16,
    )?;
    Ok(at)
}

/// Where the metadata lies, by the directory at 8 of the CLI header (II.25.3.3).
#[tactic(auto, unfolding(byte_view::specs::Headers::metadata_place))]
fn metadata_place(bytes: &[u8], sections: &Sections, cli_at: usize) -> Result<usize, BadImage>
    requires { cli_at + 72 ≤ length bytes.now }
    ensures place { Reads refusal (λ x. x) result
        (definition.metadata_place bytes.now (map section_of sections.now) cli_at) }
    ensures memory { ¬ WantsMemory refusal result }
    ensures within { IfOk result (λ at. at + le bytes.now (cli_at + 12) 4 ≤ length bytes.now) }
{
    let rva = number32(bytes, cli_at + 8);
    let size = number32(bytes, cli_at + 12);
    file_place(sections, bytes.len(), rva, size).ok_or(bad(Part::MetadataRoot, cli_at + 8))
}
