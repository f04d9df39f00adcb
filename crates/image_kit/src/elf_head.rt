//! The headers and the dynamic section of a library file (System V gABI, 'ELF Header', 'Program Header' and 'Dynamic
//! Section').

ghost use Rattle.std.specs.Prelude.{◌≡◌, ◌++◌, OnOk};
ghost use Rattle.image_kit.specs.LibraryFile.{file_kind, header_sizes, elf_header, program_header, program_header_table, entry, dynamic_section};

use crate::put::{put16, put32, put64};
use bound_base::Bytes;
use std::alloc::AllocError;

/// ELF, 64 bits, lowest byte first, version 1, System V.
const IDENT: [u8; 16] = [0x7F, 0x45, 0x4C, 0x46, 2, 1, 1, 0, 0, 0, 0, 0, 0, 0, 0, 0];

const ET_DYN: u16 = 3;

const EM_RISCV: u16 = 243;

const HEADER_SIZE: u16 = 64;

const PROGRAM_HEADER_SIZE: u16 = 56;

const SECTION_HEADER_SIZE: u16 = 64;

const PT_LOAD: u32 = 1;

const PT_DYNAMIC: u32 = 2;

const PF_X: u32 = 1;

const PF_R: u32 = 4;

const PAGE: u64 = 4096;

const DYNAMIC_OFFSET: u64 = 176;

const DYNAMIC_SIZE: u64 = 208;

const SYMBOLS_OFFSET: u64 = 384;

const SYMBOL_SIZE: u64 = 24;

const DT_HASH: u64 = 4;

const DT_STRTAB: u64 = 5;

const DT_SYMTAB: u64 = 6;

const DT_STRSZ: u64 = 10;

const DT_SYMENT: u64 = 11;

/// DT_NULL, and 7 spare entries.
const NO_ENTRIES: [u8; 128] = [0; 128];

/// A shared library for RISC-V without flags, with two program headers after this one and no section headers.
#[tactic(auto, unfolding(crate::specs::LibraryFile::ident, crate::specs::LibraryFile::elf_header))]
pub(crate) fn put_elf_header(out: &mut Bytes) -> Result<(), AllocError>
    ensures { OnOk result (out.new ≡ out.old ++ elf_header) }
{
    out.extend_from_slice(&IDENT)?;
    put_file_kind(out)?;
    put_header_sizes(out)
}

#[tactic(auto, unfolding(crate::specs::LibraryFile::file_kind))]
fn put_file_kind(out: &mut Bytes) -> Result<(), AllocError>
    ensures { OnOk result (out.new ≡ out.old ++ file_kind) }
{
    put16(out, ET_DYN)?;
    put16(out, EM_RISCV)?;
    put32(out, 1)?;
    put64(out, 0)?;
    put64(out, u64::from(HEADER_SIZE))?;
    put64(out, 0)
}

#[tactic(auto, unfolding(crate::specs::LibraryFile::header_sizes))]
fn put_header_sizes(out: &mut Bytes) -> Result<(), AllocError>
    ensures { OnOk result (out.new ≡ out.old ++ header_sizes) }
{
    put32(out, 0)?;
    put16(out, HEADER_SIZE)?;
    put16(out, PROGRAM_HEADER_SIZE)?;
    put16(out, 2)?;
    put16(out, SECTION_HEADER_SIZE)?;
    put16(out, 0)?;
    put16(out, 0)
}

/// A load of a file of a size, all of it, at address 0, and the dynamic section.
#[tactic(auto, unfolding(crate::specs::LibraryFile::program_header_table))]
pub(crate) fn put_program_headers(out: &mut Bytes, size: u64) -> Result<(), AllocError>
    ensures { OnOk result (out.new ≡ out.old ++ program_header_table size) }
{
    put_program_header(out, PT_LOAD, PF_R + PF_X, 0, size, PAGE)?;
    put_program_header(out, PT_DYNAMIC, PF_R, DYNAMIC_OFFSET, DYNAMIC_SIZE, 8)
}

/// What stands at one place in the file and in memory, as large in both.
#[tactic(auto, unfolding(crate::specs::LibraryFile::program_header))]
fn put_program_header(
    out: &mut Bytes,
    kind: u32,
    flags: u32,
    place: u64,
    size: u64,
    align: u64,
) -> Result<(), AllocError>
    ensures { OnOk result (out.new ≡ out.old ++ program_header kind flags place size align) }
{
    put32(out, kind)?;
    put32(out, flags)?;
    put64(out, place)?;
    put64(out, place)?;
    put64(out, place)?;
    put64(out, size)?;
    put64(out, size)?;
    put64(out, align)
}

/// The dynamic section, by the places of the hash table and the strings, and the strings' size.
#[tactic(auto, unfolding(crate::specs::LibraryFile::dynamic_section))]
pub(crate) fn put_dynamic_section(
    out: &mut Bytes,
    hash: u64,
    strings: u64,
    strings_size: u64,
) -> Result<(), AllocError>
    ensures { OnOk result (out.new ≡ out.old ++ dynamic_section hash strings strings_size) }
{
    put_entry(out, DT_HASH, hash)?;
    put_entry(out, DT_STRTAB, strings)?;
    put_entry(out, DT_SYMTAB, SYMBOLS_OFFSET)?;
    put_entry(out, DT_STRSZ, strings_size)?;
    put_entry(out, DT_SYMENT, SYMBOL_SIZE)?;
    out.extend_from_slice(&NO_ENTRIES)
}

fn put_entry(out: &mut Bytes, tag: u64, value: u64) -> Result<(), AllocError>
    ensures { OnOk result (out.new ≡ out.old ++ entry tag value) }
{
    put64(out, tag)?;
    put64(out, value)
}
