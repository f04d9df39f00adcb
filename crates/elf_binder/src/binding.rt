//! Binds libraries: all are placed, then all relocated, then their initializers are listed (System V gABI, 'Program Loading and
//! Dynamic Linking').

ghost use Rattle.std.specs.Prelude.{◌≡◌, ◌≤◌, ◌^◌, [], length, map, zip, All, IfOk, IfErr, IsOk};
ghost use Rattle.byte_view.specs.Reading.{Reads, steps};
ghost use Rattle.elf_reader.specs.Elf.{library_of};
ghost use Rattle.elf_binder.specs.Loading.{first_load};
ghost use Rattle.elf_binder.specs.Relocating.{relocate_library};
ghost use Rattle.elf_binder.specs.Binding.{sources_from, module_of, and_initializers, bindings};
ghost use Rattle.elf_binder.specs.Refusals.{AreRead, refusal};
ghost use Rattle.elf_binder.specs.Sources.{IsRead};

use crate::bound::Bound;
use crate::initializers::add_initializers;
use crate::loading::place_all;
use crate::module::Module;
use crate::refusal::BindBad;
use crate::relocating::relocate_library;
use crate::source::Sources;
use bound_base::{Bytes, Items, NoMemory};
use elf_reader::Elf;
use native_memory::Memory;
use std::alloc::Global;

/// Binds libraries under their names: each `Elf` with the file from which it was read.
///
/// The refusal is that of the first library for which there is no room, else that of the first relocation that can't be
/// applied, else that of the first array of initializers that can't be read. After a refusal the memory isn't what any
/// library expects. `Memory` never comes where there is no room for the first load.
pub fn bind(
    alloc: Global,
    elfs: &[Elf],
    files: &[Bytes],
    names: &[Bytes],
    memory: &mut Memory,
) -> Result<Bound, BindBad>
    requires files { length files.now ≡ length elfs.now }
    requires names { length names.now ≡ length elfs.now }
    requires few { length elfs.now ≤ 16 }
    requires read { AreRead elfs.now files.now }
    ensures bound { Reads refusal (λ bound. (bound, memory.new.space)) result
        (bindings (sources_from 0 (map library_of elfs.now) files.now names.now) memory.old.space) }
    ensures memory { IfErr result (λ bad. bad ≡ BindBad.Memory
        → IsOk (first_load memory.old.space
        (sources_from 0 (map library_of elfs.now) files.now names.now))) }
{
    bind_all(alloc, &Sources::joined(elfs, files, names), memory)
}

/// Binds libraries that were read.
fn bind_all(alloc: Global, sources: &Sources<'_>, memory: &mut Memory) -> Result<Bound, BindBad>
    requires { All IsRead sources.now }
    ensures bound { Reads refusal (λ bound. (bound, memory.new.space)) result
        (bindings sources.now memory.old.space) }
    ensures memory { IfErr result (λ bad. bad ≡ BindBad.Memory
        → IsOk (first_load memory.old.space sources.now)) }
{
    let bases = place_all(alloc, sources, memory)?;
    let bases = bases.as_slice();
    let modules = modules(alloc, sources, bases)?;
    relocate_all(modules.as_slice(), sources, bases, memory)?;
    let inits = initializers(alloc, sources, bases, memory)?;
    Ok(Bound::new(modules, inits))
}

/// The libraries under their names, by what they define.
fn modules(alloc: Global, sources: &Sources<'_>, bases: &[u64]) -> Result<Items<Module>, NoMemory>
    requires { length bases.now ≡ length sources.now }
    ensures all { IfOk result (λ modules. modules ≡ map module_of (zip sources.now bases.now)) }
    ensures few { IfOk result (λ modules. length modules ≤ 16) }
{
    let mut modules = Items::new(alloc);
    let count = sources.len();
    for number in 0..count {
        let source = sources.at(number);
        let symbols = source.elf.symbols.as_slice();
        modules.push(Module::new(alloc, source.name, bases[number], symbols)?)?;
    }
    Ok(modules)
}

/// Applies the relocations of all libraries, in order.
fn relocate_all(
    modules: &[Module],
    sources: &Sources<'_>,
    bases: &[u64],
    memory: &mut Memory,
) -> Result<(), BindBad>
    requires bases { length bases.now ≡ length sources.now }
    requires low { All (λ base. base ≤ 2 ^ 46) bases.now }
    requires read { All IsRead sources.now }
    ensures { Reads refusal (λ _. memory.new.space) result
        (steps (relocate_library modules.now) memory.old.space (zip sources.now bases.now)) }
{
    let count = sources.len();
    for number in 0..count {
        let source = sources.at(number);
        relocate_library(modules, &source, bases[number], memory)?;
    }
    Ok(())
}

/// The initializers of all libraries, in order.
fn initializers(
    alloc: Global,
    sources: &Sources<'_>,
    bases: &[u64],
    memory: &Memory,
) -> Result<Items<u64>, BindBad>
    requires bases { length bases.now ≡ length sources.now }
    requires read { All IsRead sources.now }
    ensures { Reads refusal (λ inits. inits) result
        (steps (and_initializers memory.now.space) [] (zip sources.now bases.now)) }
{
    let mut inits = Items::new(alloc);
    let count = sources.len();
    for number in 0..count {
        let source = sources.at(number);
        add_initializers(&source, bases[number], memory, &mut inits)?;
    }
    Ok(inits)
}
