//! The dynamic section (System V gABI, 'Dynamic Section').

ghost use Rattle.std.specs.Prelude.{◌≡◌, ◌+◌, ◌*◌, ◌<◌, ◌≤◌, length, map, option_map, IfOk, IfSome};
ghost use Rattle.byte_view.specs.Numbers.{le};
ghost use Rattle.byte_view.specs.ElfDynamic as definition;
ghost use Rattle.byte_view.specs.Reading.{Reads};
ghost use Rattle.elf_reader.specs.Elf.{dynamic_entry};
ghost use Rattle.elf_reader.specs.Refusals.{broken_part, refusal};

use crate::entry::{Entry, Table};
use crate::fields::{broken, must};
use crate::headers::{HEADER_SIZE, Headers, header_type};
use crate::part::{Broken, ElfBad, ElfPart};
use byte_view::number64;
use std::alloc::Global;

/// `p_type` of the dynamic section.
const PT_DYNAMIC: u32 = 2;

/// The size of an entry of the dynamic section, in bytes.
const ENTRY_SIZE: usize = 16;

/// The size that entries of symbols and of relocations have, in bytes.
const TABLE_ENTRY_SIZE: u64 = 24;

/// The tags of the dynamic section that are used.
pub const DT_NULL: u64 = 0;

pub const DT_PLTRELSZ: u64 = 2;

pub const DT_HASH: u64 = 4;

pub const DT_STRTAB: u64 = 5;

pub const DT_SYMTAB: u64 = 6;

pub const DT_RELA: u64 = 7;

pub const DT_RELASZ: u64 = 8;

pub const DT_RELAENT: u64 = 9;

pub const DT_SYMENT: u64 = 11;

pub const DT_INIT: u64 = 12;

pub const DT_REL: u64 = 17;

pub const DT_TEXTREL: u64 = 22;

pub const DT_JMPREL: u64 = 23;

pub const DT_INIT_ARRAY: u64 = 25;

pub const DT_INIT_ARRAYSZ: u64 = 27;

pub const DT_GNU_HASH: u64 = 0x6FFF_FEF5;

/// The file offset of the one program header of the dynamic section.
#[tactic(auto, unfolding(byte_view::specs::ElfDynamic::dynamic_header))]
pub fn dynamic_header(bytes: &[u8], headers: Headers) -> Result<usize, Broken>
    requires { 0 < headers.count → headers.start + 56 * headers.count ≤ length bytes.now }
    ensures header { Reads broken_part (λ x. x) result
        (definition.dynamic_header bytes.now headers.start headers.count) }
    ensures within { IfOk result (λ at. at + 56 ≤ length bytes.now) }
{
    dynamic_among(bytes, headers)?.ok_or(broken(ElfPart::Dynamic, 32))
}

/// The file offset of the program header of the dynamic section, if there is one; a second one is refused.
fn dynamic_among(bytes: &[u8], headers: Headers) -> Result<Option<usize>, Broken>
    requires { 0 < headers.count → headers.start + 56 * headers.count ≤ length bytes.now }
    ensures header { Reads broken_part (λ x. x) result
        (definition.dynamic_among bytes.now headers.start headers.count) }
    ensures within { IfOk result (λ found. IfSome found (λ at. at + 56 ≤ length bytes.now)) }
{
    let mut found = None;
    for k in 0..headers.count {
        let at = headers.start + HEADER_SIZE * k;
        if header_type(bytes, at) == PT_DYNAMIC {
            must(found.is_none(), ElfPart::Dynamic, at)?;
            found = Some(at);
        }
    }
    Ok(found)
}

/// The entries before `DT_NULL`, which has to stand in the file and in the segment of the program header at `header`.
pub fn dynamic_table(alloc: Global, bytes: &[u8], header: usize) -> Result<Table, ElfBad>
    requires { header + 56 ≤ length bytes.now }
    ensures { Reads refusal (map dynamic_entry) result (definition.dynamic_table bytes.now header) }
{
    let start = number64(bytes, header + 8) as usize;
    let mut table = Table::new(alloc);
    let count = entry_count(bytes, header);
    for k in 0..count {
        let entry = entry_at(bytes, start + ENTRY_SIZE * k);
        if entry.tag == DT_NULL {
            return Ok(table);
        }
        check_entry(entry)?;
        table.push(entry)?;
    }
    Err(broken(ElfPart::Dynamic, header + 8).into())
}

/// How many whole entries the segment of the program header at `header` and the file have.
#[tactic(auto, unfolding(byte_view::specs::ElfDynamic::entry_count))]
fn entry_count(bytes: &[u8], header: usize) -> usize
    requires { header + 56 ≤ length bytes.now }
    ensures count { result ≡ definition.entry_count bytes.now header }
    ensures within { 0 < result → le bytes.now (header + 8) 8 + 16 * result ≤ length bytes.now }
{
    let start = number64(bytes, header + 8) as usize;
    let size = number64(bytes, header + 32) as usize;
    size.min(bytes.len().saturating_sub(start)) / ENTRY_SIZE
}

/// The entry at `at`.
fn entry_at(bytes: &[u8], at: usize) -> Entry
    requires { at + 16 ≤ length bytes.now }
    ensures { dynamic_entry result ≡ definition.entry_at bytes.now at }
{
    Entry {
        at,
        tag: number64(bytes, at),
        value: number64(bytes, at + 8),
    }
}

/// Asks that an entry isn't of text relocations or of relocations without addends, and of the size of a table's entry
/// that it is 24 bytes.
#[tactic(auto, unfolding(byte_view::specs::ElfDynamic::check_entry))]
fn check_entry(entry: Entry) -> Result<(), Broken>
    ensures { Reads broken_part (λ _. 0) result (definition.check_entry (dynamic_entry entry)) }
{
    let is_refused = entry.tag == DT_TEXTREL || entry.tag == DT_REL;
    must(!is_refused, ElfPart::Dynamic, entry.at)?;
    let is_size = entry.tag == DT_SYMENT || entry.tag == DT_RELAENT;
    must(
        !is_size || entry.value == TABLE_ENTRY_SIZE,
        ElfPart::Dynamic,
        entry.at + 8,
    )
}

/// The first entry of a tag.
#[tactic(auto, unfolding(byte_view::specs::ElfDynamic::entry_of))]
pub fn first_of(table: &[Entry], tag: u64) -> Option<Entry>
    ensures { option_map dynamic_entry result
        ≡ definition.entry_of (map dynamic_entry table.now) tag }
{
    table.iter().copied().find(|entry| entry.tag == tag)
}

/// The value of the first entry of a tag, 0 where there is none.
#[tactic(auto, unfolding(byte_view::specs::ElfDynamic::value_of))]
pub fn value_of(table: &[Entry], tag: u64) -> u64
    ensures { result ≡ definition.value_of (map dynamic_entry table.now) tag }
{
    first_of(table, tag).map_or(0, |entry| entry.value)
}
