//! The headers of a PE32 file with one section, and its CLI header (ECMA-335 II.25).

ghost use Rattle.std.specs.Prelude.{◌≡◌, ◌+◌, ◌≤◌, ◌++◌, OnOk};
ghost use Rattle.image_kit.specs.AssemblyFile.{rounded, section_rva, dos_front, dos_program, dos_header, coff_header, standard_fields, windows_versions, stack_and_heap, windows_fields, directories, section_header, pe_headers, cli_header};

use crate::put::{put_zeros, put16, put32};
use bound_base::Bytes;
use std::alloc::AllocError;

/// The MS-DOS header up to the place of the PE signature (II.25.2.1).
const DOS_FRONT: [u8; 60] = [
    0x4D, 0x5A, 0x90, 0, 3, 0, 0, 0, 4, 0, 0, 0, 0xFF, 0xFF, 0, 0, 0xB8, 0, 0, 0, 0, 0, 0, 0, 0x40,
    0, 0, 0, 0, 0, 0, 0, 0, 0, 0, 0, 0, 0, 0, 0, 0, 0, 0, 0, 0, 0, 0, 0, 0, 0, 0, 0, 0, 0, 0, 0, 0,
    0, 0, 0,
];

/// A program that prints the line behind it.
const DOS_PROGRAM: [u8; 14] = [
    0x0E, 0x1F, 0xBA, 0x0E, 0, 0xB4, 9, 0xCD, 0x21, 0xB8, 1, 0x4C, 0xCD, 0x21,
];

const DOS_LINE: [u8; 43] = *b"This program cannot be run in DOS mode.\r\r\n$";

const PE_SIGNATURE: [u8; 4] = *b"PE\0\0";

const SIGNATURE_PLACE: u32 = 128;

const INTEL_386: u16 = 0x14C;

const OPTIONAL_HEADER_SIZE: u16 = 224;

/// An executable image for a 32-bit machine.
const CHARACTERISTICS: u16 = 0x102;

const PE32: u16 = 0x10B;

const SECTION_RVA: u32 = 0x2000;

const SECTION_PLACE: u32 = 512;

const IMAGE_BASE: u32 = 0x400000;

const SECTION_ALIGNMENT: u32 = 0x2000;

const FILE_ALIGNMENT: u32 = 0x200;

const CONSOLE: u16 = 3;

const RESERVED: u32 = 0x100000;

const COMMITTED: u32 = 0x1000;

const DIRECTORIES: u32 = 16;

const SECTION_NAME: [u8; 8] = *b".text\0\0\0";

/// Code, to be executed and read.
const CODE: u32 = 0x60000020;

const CLI_HEADER_SIZE: u32 = 72;

const IL_ONLY: u32 = 1;

/// The headers of a file whose section and its raw data have these sizes.
#[tactic(auto, unfolding(crate::specs::AssemblyFile::pe_headers))]
pub(crate) fn put_pe_headers(out: &mut Bytes, size: u32, raw: u32) -> Result<(), AllocError>
    requires { size ≤ 67108864 }
    ensures { OnOk result (out.new ≡ out.old ++ pe_headers size raw) }
{
    put_dos_header(out)?;
    put_coff_header(out)?;
    put_standard_fields(out, raw)?;
    put_windows_fields(out, size)?;
    put_directories(out)?;
    put_section_header(out, size, raw)?;
    put_zeros(out, 96)
}

#[tactic(auto, unfolding(crate::specs::AssemblyFile::dos_header))]
fn put_dos_header(out: &mut Bytes) -> Result<(), AllocError>
    ensures { OnOk result (out.new ≡ out.old ++ dos_header) }
{
    put_dos_front(out)?;
    put32(out, SIGNATURE_PLACE)?;
    put_dos_program(out)?;
    out.extend_from_slice(&[0; 7])
}

#[tactic(auto, unfolding(crate::specs::AssemblyFile::dos_front))]
fn put_dos_front(out: &mut Bytes) -> Result<(), AllocError>
    ensures { OnOk result (out.new ≡ out.old ++ dos_front) }
{
    out.extend_from_slice(&DOS_FRONT)
}

#[tactic(auto, unfolding(crate::specs::AssemblyFile::dos_program))]
fn put_dos_program(out: &mut Bytes) -> Result<(), AllocError>
    ensures { OnOk result (out.new ≡ out.old ++ dos_program) }
{
    out.extend_from_slice(&DOS_PROGRAM)?;
    out.extend_from_slice(&DOS_LINE)
}

#[tactic(auto, unfolding(crate::specs::AssemblyFile::coff_header))]
fn put_coff_header(out: &mut Bytes) -> Result<(), AllocError>
    ensures { OnOk result (out.new ≡ out.old ++ coff_header) }
{
    out.extend_from_slice(&PE_SIGNATURE)?;
    put16(out, INTEL_386)?;
    put16(out, 1)?;
    out.extend_from_slice(&[0; 12])?;
    put16(out, OPTIONAL_HEADER_SIZE)?;
    put16(out, CHARACTERISTICS)
}

#[tactic(auto, unfolding(crate::specs::AssemblyFile::standard_fields))]
fn put_standard_fields(out: &mut Bytes, size: u32) -> Result<(), AllocError>
    ensures { OnOk result (out.new ≡ out.old ++ standard_fields size) }
{
    put16(out, PE32)?;
    out.extend_from_slice(&[6, 0])?;
    put32(out, size)?;
    put32(out, 0)?;
    put32(out, 0)?;
    put32(out, 0)?;
    put32(out, SECTION_RVA)?;
    put32(out, 0)
}

#[tactic(auto, unfolding(crate::specs::AssemblyFile::windows_fields))]
fn put_windows_fields(out: &mut Bytes, size: u32) -> Result<(), AllocError>
    requires { size ≤ 67108864 }
    ensures { OnOk result (out.new ≡ out.old ++ windows_fields size) }
{
    put_versions(out)?;
    put32(out, image_size(size))?;
    put32(out, SECTION_PLACE)?;
    put32(out, 0)?;
    put16(out, CONSOLE)?;
    put16(out, 0)?;
    put_stack_and_heap(out)?;
    put32(out, 0)?;
    put32(out, DIRECTORIES)
}

/// Where the image is loaded, how its parts are aligned, and the versions of what the file wants.
#[tactic(auto, unfolding(crate::specs::AssemblyFile::windows_versions))]
fn put_versions(out: &mut Bytes) -> Result<(), AllocError>
    ensures { OnOk result (out.new ≡ out.old ++ windows_versions) }
{
    put32(out, IMAGE_BASE)?;
    put32(out, SECTION_ALIGNMENT)?;
    put32(out, FILE_ALIGNMENT)?;
    put16(out, 5)?;
    put16(out, 0)?;
    put32(out, 0)?;
    put16(out, 5)?;
    put16(out, 0)?;
    put32(out, 0)
}

#[tactic(auto, unfolding(crate::specs::AssemblyFile::stack_and_heap))]
fn put_stack_and_heap(out: &mut Bytes) -> Result<(), AllocError>
    ensures { OnOk result (out.new ≡ out.old ++ stack_and_heap) }
{
    put32(out, RESERVED)?;
    put32(out, COMMITTED)?;
    put32(out, RESERVED)?;
    put32(out, COMMITTED)
}

/// How much memory the headers and a section of a size take.
fn image_size(size: u32) -> u32
    requires { size ≤ 67108864 }
    ensures { result ≡ section_rva + rounded 8192 size }
{
    SECTION_RVA + size + (8192 - size % 8192) % 8192
}

#[tactic(auto, unfolding(crate::specs::AssemblyFile::directories))]
fn put_directories(out: &mut Bytes) -> Result<(), AllocError>
    ensures { OnOk result (out.new ≡ out.old ++ directories) }
{
    out.extend_from_slice(&[0; 112])?;
    put32(out, SECTION_RVA)?;
    put32(out, CLI_HEADER_SIZE)?;
    out.extend_from_slice(&[0; 8])
}

#[tactic(auto, unfolding(crate::specs::AssemblyFile::section_header))]
fn put_section_header(out: &mut Bytes, size: u32, raw: u32) -> Result<(), AllocError>
    ensures { OnOk result (out.new ≡ out.old ++ section_header size raw) }
{
    out.extend_from_slice(&SECTION_NAME)?;
    put32(out, size)?;
    put32(out, SECTION_RVA)?;
    put32(out, raw)?;
    put32(out, SECTION_PLACE)?;
    out.extend_from_slice(&[0; 12])?;
    put32(out, CODE)
}

/// The CLI header, by the address and the size of the metadata, and the entry point's token.
#[tactic(auto, unfolding(crate::specs::AssemblyFile::cli_header))]
pub(crate) fn put_cli_header(
    out: &mut Bytes,
    rva: u32,
    size: u32,
    entry: u32,
) -> Result<(), AllocError>
    ensures { OnOk result (out.new ≡ out.old ++ cli_header rva size entry) }
{
    put32(out, CLI_HEADER_SIZE)?;
    put16(out, 2)?;
    put16(out, 5)?;
    put32(out, rva)?;
    put32(out, size)?;
    put32(out, IL_ONLY)?;
    put32(out, entry)?;
    out.extend_from_slice(&[0; 48])
}
