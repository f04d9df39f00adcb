//! A whole library, read from the bytes of its file.

ghost use Rattle.std.specs.Prelude.{◌≡◌, IfErr, IsOk};
ghost use Rattle.byte_view.specs.ElfLoads as headers;
ghost use Rattle.byte_view.specs.Library.{library};
ghost use Rattle.byte_view.specs.Reading.{Reads};
ghost use Rattle.elf_reader.specs.declared.part.ElfBad.TheVariants.{Memory};
ghost use Rattle.elf_reader.specs.Elf.{library_of};
ghost use Rattle.elf_reader.specs.Refusals.{refusal};

use crate::dynamic::{
    DT_INIT, DT_INIT_ARRAY, DT_INIT_ARRAYSZ, dynamic_header, dynamic_table, first_of, value_of,
};
use crate::elf::Elf;
use crate::headers::{identified, program_headers};
use crate::loads::{read_loads, without_tls};
use crate::part::ElfBad;
use crate::relocations::read_relocations;
use crate::symbols::read_symbols;
use std::alloc::Global;

/// Reads a shared library of 64 bits for RISC-V (System V gABI, 'Object Files' and 'Program Loading and Dynamic
/// Linking'; RISC-V psABI, 'ELF Object Files').
///
/// `BadElf` names the first part that is broken, of those from `ident` to `relocs`, and the file offset of its first
/// field that is missing or wrong. `Memory` says that there is no memory for what is read: also where the names of the
/// symbols have more than 2^30 bytes together. It never comes for a file whose headers are broken before the loads.
#[tactic(auto, unfolding(byte_view::specs::Library::library))]
pub fn read_elf(alloc: Global, b: &[u8]) -> Result<Elf, ElfBad>
    ensures library { Reads refusal library_of result (library b.now) }
    ensures memory { IfErr result (λ bad. bad ≡ Memory
        → IsOk (headers.identified b.now) × IsOk (headers.program_headers b.now)) }
{
    identified(b)?;
    let headers = program_headers(b)?;
    let loads = read_loads(alloc, b, headers)?;
    without_tls(b, headers)?;
    let header = dynamic_header(b, headers)?;
    let entries = dynamic_table(alloc, b, header)?;
    let table = entries.as_slice();
    let symbols = read_symbols(alloc, b, loads.as_slice(), header, table)?;
    let relocs = read_relocations(alloc, b, loads.as_slice(), table)?;
    let (init_array_at, init_array) = match first_of(table, DT_INIT_ARRAY) {
        Some(entry) => (
            entry.at as u64,
            (entry.value, value_of(table, DT_INIT_ARRAYSZ)),
        ),
        None => (0, (0, 0)),
    };
    Ok(Elf {
        loads,
        symbols,
        relocs,
        init: value_of(table, DT_INIT),
        init_array,
        init_array_at,
    })
}
