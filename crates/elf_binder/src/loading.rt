//! Places libraries in memory (System V gABI, 'Program Loading').

ghost use Rattle.std.specs.Prelude.{◌≡◌, ◌+◌, ◌<◌, ◌≤◌, ◌^◌, length, All, IfOk, IfErr, IsOk, IsSome};
ghost use Rattle.byte_view.specs.ElfLoads.{end_of};
ghost use Rattle.byte_view.specs.Reading.{Reads};
ghost use Rattle.elf_reader.specs.Elf.{load_of};
ghost use Rattle.elf_binder.specs.Loading.{base_for, placing, place_load, place_loads, place_library, place_all, first_of, first_load};
ghost use Rattle.elf_binder.specs.Refusals.{refusal};
ghost use Rattle.elf_binder.specs.Sources.{source_of, IsRead};

use crate::refusal::BindBad;
use crate::source::{Source, Sources, broken};
use bound_base::Items;
use elf_reader::{ElfPart, Load};
use native_memory::{Memory, PlaceBad};
use std::alloc::Global;

/// Places all libraries, one after another, and gives their bases.
///
/// The refusal is that of the first load for which there is no room, at the field of its size in memory.
pub fn place_all(
    alloc: Global,
    sources: &Sources<'_>,
    memory: &mut Memory,
) -> Result<Items<u64>, BindBad>
    requires { All IsRead sources.now }
    ensures placed { Reads refusal (λ bases. record { bases = bases; space = memory.new.space })
        result (place_all memory.old.space sources.now) }
    ensures count { IfOk result (λ bases. length bases ≡ length sources.now) }
    ensures low { IfOk result (λ bases. All (λ base. base ≤ 2 ^ 46) bases) }
    ensures memory { IfErr result (λ bad. bad ≡ BindBad.Memory
        → IsOk (first_load memory.old.space sources.now)) }
{
    let mut bases = Items::new(alloc);
    let count = sources.len();
    for number in 0..count {
        let source = sources.at(number);
        place_library(&source, &mut bases, memory)?;
    }
    Ok(bases)
}

/// Places one more library.
fn place_library(
    source: &Source<'_>,
    bases: &mut Items<u64>,
    memory: &mut Memory,
) -> Result<(), BindBad>
    requires { IsRead (source_of source.now) }
    ensures placed { Reads refusal (λ _. record { bases = bases.new; space = memory.new.space })
        result (place_library (record { bases = bases.old; space = memory.old.space })
        (source_of source.now)) }
    ensures count { IfOk result (λ _. length bases.new ≡ length bases.old + 1) }
    ensures memory { IfErr result (λ bad. bad ≡ BindBad.Memory
        → IsOk (first_of (source_of source.now) (base_for memory.old.space) memory.old.space)) }
    ensures low { All (λ base. base ≤ 2 ^ 46) bases.old
        → IfOk result (λ _. All (λ base. base ≤ 2 ^ 46) bases.new) }
{
    let base = base_for(memory);
    place_loads(source, base, memory)?;
    bases.push(base)?;
    Ok(())
}

/// The base of the next library: the least multiple of 65,536 that isn't below the next address.
fn base_for(memory: &Memory) -> u64
    ensures base { result ≡ base_for memory.now.space }
    ensures after { memory.now.space.edge ≤ result }
    ensures low { result ≤ 2 ^ 46 }
{
    memory.blocks_lie_apart();
    (memory.next() + 65_535) / 65_536 * 65_536
}

/// Places the loads of a library, which stands at a base.
fn place_loads(source: &Source<'_>, base: u64, memory: &mut Memory) -> Result<(), BindBad>
    requires read { IsRead (source_of source.now) }
    requires low { base ≤ 2 ^ 46 }
    requires after { memory.old.space.edge ≤ base }
    ensures placed { Reads refusal (λ _. memory.new.space) result
        (place_loads (source_of source.now) base memory.old.space) }
    ensures memory { IfErr result (λ bad. bad ≡ BindBad.Memory
        → IsOk (first_of (source_of source.now) base memory.old.space)) }
{
    for load in source.elf.loads.as_slice() {
        place_load(source, base, load, memory)?;
    }
    Ok(())
}

/// Places one load. Zeros follow its bytes of the file; a load of no bytes places no block. It wants memory only where there
/// is room for the block.
fn place_load(
    source: &Source<'_>,
    base: u64,
    load: &Load,
    memory: &mut Memory,
) -> Result<(), BindBad>
    requires low { base ≤ 2 ^ 46 }
    requires header { load.now.at + 56 ≤ length source.now.file.now }
    requires file { load.now.file_at + load.now.file_size ≤ length source.now.file.now }
    requires sizes { load.now.file_size ≤ load.now.size }
    requires end { end_of (load_of load.now) < 2 ^ 32 }
    requires after { memory.old.space.edge ≤ base + load.now.vaddr }
    ensures placed { Reads refusal (λ _. memory.new.space) result
        (place_load (source_of source.now) base memory.old.space (load_of load.now)) }
    ensures memory { IfErr result (λ bad. bad ≡ BindBad.Memory
        → IsSome (placing (source_of source.now) base memory.old.space (load_of load.now))) }
{
    if load.size == 0 {
        return Ok(());
    }
    let from = load.file_at as usize;
    let bytes = &source.file[from..from + load.file_size as usize];
    match memory.place_at(base + load.vaddr, bytes, load.size, load.rights) {
        Ok(()) => Ok(()),
        Err(PlaceBad::Room) => Err(broken(source, ElfPart::Load, load.at + 40)),
        Err(PlaceBad::Memory) => Err(BindBad::Memory),
    }
}
