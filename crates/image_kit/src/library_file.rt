//! A library file (System V gABI, 'Object Files').

ghost use Rattle.std.specs.Prelude.{◌≡◌, ◌++◌, length, IfOk, OnOk};
ghost use Rattle.image_kit.specs.LibraryFile.{library_file, code_bytes, hash_offset, code_offset, strings_offset, file_end};
ghost use Rattle.image_kit.specs.LibraryReads.{Fits, ReadsBack};

use crate::elf_head::{put_dynamic_section, put_elf_header, put_program_headers};
use crate::elf_symbols::{put_hash_table, put_string_table, put_symbol_table};
use crate::library_plan::{LibraryPlan, code_size, strings_size};
use crate::put::put32;
use bound_base::{Bytes, NoMemory};
use rv_decode::{Instr, encode};
use std::alloc::{AllocError, Global};

/// The file of a library with one load, readable and executable: the code at an address that is a multiple of 4, after it
/// the plan's bytes, and a symbol for each name. It has no relocation and no initializer.
///
/// After the DT_NULL of the dynamic section stand 7 entries of zeros.
pub fn library(alloc: Global, p: &LibraryPlan) -> Result<Bytes, NoMemory>
    requires { Fits p.now }
    ensures file { IfOk result (λ bytes. bytes ≡ library_file p.now) }
    ensures read { IfOk result (λ bytes. ReadsBack p.now bytes) }
{
    let mut out = Bytes::new(alloc);
    put_library(&mut out, p)?;
    Ok(out)
}

#[tactic(auto, unfolding(crate::specs::LibraryFile::library_file))]
fn put_library(out: &mut Bytes, p: &LibraryPlan) -> Result<(), AllocError>
    requires { Fits p.now }
    ensures { OnOk result (out.new ≡ out.old ++ library_file p.now) }
{
    let offsets = Offsets::of(p);
    let names = p.names.as_slice();
    put_elf_header(out)?;
    put_program_headers(out, offsets.end)?;
    put_dynamic_section(
        out,
        offsets.hash,
        offsets.strings,
        offsets.end - offsets.strings,
    )?;
    put_symbol_table(out, offsets.code, names)?;
    put_hash_table(out, names.len() as u32)?;
    put_code(out, p.code.as_slice())?;
    out.extend_from_slice(p.bytes.as_slice())?;
    put_string_table(out, names)
}

/// The file offsets of the parts of a file.
#[derive(Clone, Copy)]
struct Offsets {
    hash: u64,
    code: u64,
    strings: u64,
    end: u64,
}

impl Offsets {
    fn of(p: &LibraryPlan) -> Offsets
        requires { Fits p.now }
        ensures hash { result.hash ≡ hash_offset (length p.now.names) }
        ensures code { result.code ≡ code_offset (length p.now.names) }
        ensures strings { result.strings ≡ strings_offset p.now }
        ensures end { result.end ≡ file_end p.now }
    {
        let names = p.names.len() as u64;
        let hash = 384 + 24 * (names + 1);
        let code = hash + 4 * (names + 4);
        let strings = code + code_size(p.code.as_slice()) + p.bytes.len() as u64;
        Offsets {
            hash,
            code,
            strings,
            end: strings + strings_size(p.names.as_slice()),
        }
    }
}

/// The words of the instructions.
#[tactic(auto, unfolding(crate::specs::LibraryFile::code_bytes))]
fn put_code(out: &mut Bytes, code: &[Instr]) -> Result<(), AllocError>
    ensures { OnOk result (out.new ≡ out.old ++ code_bytes code.now) }
{
    for instr in code {
        put32(out, encode(instr).unwrap_or(0))?;
    }
    Ok(())
}
