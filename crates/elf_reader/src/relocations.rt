//! The relocations of a library (System V gABI, 'Relocation').

ghost use Rattle.std.specs.Prelude.{◌≡◌, ◌+◌, ◌≤◌, length, map, option_map, ◌*◌, Ok};
ghost use Rattle.std.specs.List.{range_with_len};
ghost use Rattle.byte_view.specs.ElfRelocations as definition;
ghost use Rattle.byte_view.specs.Reading.{Reads};
ghost use Rattle.elf_reader.specs.Elf.{dynamic_entry, load_of, relocation_of};
ghost use Rattle.elf_reader.specs.Loads.{AreSound};
ghost use Rattle.elf_reader.specs.Refusals.{refusal};

use crate::dynamic::{DT_JMPREL, DT_PLTRELSZ, DT_RELA, DT_RELASZ, first_of, value_of};
use crate::elf::{Load, Relocation, Relocations};
use crate::entry::Entry;
use crate::loads::table_place;
use crate::part::{ElfBad, ElfPart};
use byte_view::number64;
use std::alloc::Global;

/// The size of a relocation, in bytes.
const RELOCATION_SIZE: usize = 24;

/// The relocations of `DT_RELA`, then those of `DT_JMPREL`. `table` has the entries of the dynamic section.
#[tactic(auto, unfolding(byte_view::specs::ElfRelocations::relocations))]
pub fn read_relocations(
    alloc: Global,
    bytes: &[u8],
    loads: &[Load],
    table: &[Entry],
) -> Result<Relocations, ElfBad>
    requires { AreSound (length bytes.now) loads.now }
    ensures { Reads refusal (map relocation_of) result
        (definition.relocations bytes.now (map load_of loads.now) (map dynamic_entry table.now)) }
{
    let own = first_of(table, DT_RELA);
    let mut all = relocation_table(alloc, bytes, loads, own, value_of(table, DT_RELASZ))?;
    let jumps = first_of(table, DT_JMPREL);
    let jumps = relocation_table(alloc, bytes, loads, jumps, value_of(table, DT_PLTRELSZ))?;
    all.extend_from_slice(jumps.as_slice())?;
    Ok(all)
}

/// The relocations of a table of `size` bytes; one that isn't there has none.
#[tactic(auto, unfolding(byte_view::specs::ElfRelocations::relocation_table))]
fn relocation_table(
    alloc: Global,
    bytes: &[u8],
    loads: &[Load],
    entry: Option<Entry>,
    size: u64,
) -> Result<Relocations, ElfBad>
    requires { AreSound (length bytes.now) loads.now }
    ensures { Reads refusal (map relocation_of) result
        (definition.relocation_table bytes.now (map load_of loads.now)
        (option_map dynamic_entry entry) size) }
{
    let Some(entry) = entry else {
        return Ok(Relocations::new(alloc));
    };
    let at = table_place(ElfPart::Relocs, bytes.len(), loads, entry, 0, size)?;
    listed_relocations(alloc, bytes, at, size as usize / RELOCATION_SIZE)
}

/// The `count` relocations from `at` on, one after another.
fn listed_relocations(
    alloc: Global,
    bytes: &[u8],
    at: usize,
    count: usize,
) -> Result<Relocations, ElfBad>
    requires { at + 24 * count ≤ length bytes.now }
    ensures { Reads refusal (map relocation_of) result
        (Ok (map (λ k. definition.relocation_at bytes.now (at + 24 * k))
        (range_with_len 0 count))) }
{
    let mut relocations = Relocations::with_capacity(alloc, count)?;
    for k in 0..count {
        relocations.push(relocation_at(bytes, at + RELOCATION_SIZE * k))?;
    }
    Ok(relocations)
}

/// The relocation at `at`.
fn relocation_at(bytes: &[u8], at: usize) -> Relocation
    requires { at + 24 ≤ length bytes.now }
    ensures { relocation_of result ≡ definition.relocation_at bytes.now at }
{
    let info = number64(bytes, at + 8);
    Relocation {
        at: at as u64,
        offset: number64(bytes, at),
        symbol: (info >> 32) as u32,
        kind: (info & 0xFFFF_FFFF) as u32,
        addend: number64(bytes, at + 16).cast_signed(),
    }
}
