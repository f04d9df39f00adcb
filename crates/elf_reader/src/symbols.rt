//! The symbols of a library (System V gABI, 'Symbol Table').

ghost use Rattle.std.specs.Prelude.{◌≡◌, ◌+◌, ◌*◌, ◌<◌, ◌≤◌, length, map, IfOk, IfErr};
ghost use Rattle.byte_view.specs.Reading.{Reads, listed};
ghost use Rattle.byte_view.specs.ElfParts as parts;
ghost use Rattle.byte_view.specs.ElfSymbols as definition;
ghost use Rattle.elf_reader.specs.Elf.{dynamic_entry, load_of, symbol_of};
ghost use Rattle.elf_reader.specs.Loads.{AreSound};
ghost use Rattle.elf_reader.specs.Names.{AreOf};
ghost use Rattle.elf_reader.specs.Refusals.{broken_part, refusal};
ghost use Rattle.elf_reader.specs.declared.part.ElfBad.TheVariants.{Memory};

use crate::dynamic::{DT_STRTAB, DT_SYMTAB, first_of};
use crate::elf::{Load, Symbol, Symbols};
use crate::entry::Entry;
use crate::fields::broken;
use crate::hashes::symbol_count;
use crate::loads::table_place;
use crate::names::{Zeros, find_zeros, name_at};
use crate::part::{Broken, ElfBad, ElfPart};
use bound_base::Bytes;
use byte_view::{number8, number16, number32, number64};
use std::alloc::Global;

/// The size of a symbol, in bytes.
const SYMBOL_SIZE: usize = 24;

/// How many bytes the names of a library may have together.
const NAMES_LIMIT: usize = 0x4000_0000;

/// Where the symbols of a library stand: the file offset of the first, how many, and the address of their names.
#[derive(Clone, Copy, Debug)]
struct SymbolTable {
    at: usize,
    count: usize,
    strings: u64,
}

/// All symbols, number 0 included, each with its name. `header` is the file offset of the program header of the dynamic
/// section, `table` its entries.
#[tactic(auto, unfolding(byte_view::specs::ElfSymbols::symbols))]
pub fn read_symbols(
    alloc: Global,
    bytes: &[u8],
    loads: &[Load],
    header: usize,
    table: &[Entry],
) -> Result<Symbols, ElfBad>
    requires sound { AreSound (length bytes.now) loads.now }
    requires header { header + 56 ≤ length bytes.now }
    ensures { Reads refusal (map symbol_of) result
        (definition.symbols bytes.now (map load_of loads.now) header
        (map dynamic_entry table.now)) }
{
    let count = symbol_count(bytes, loads, table)?;
    if count == 0 {
        return Ok(Symbols::new(alloc));
    }
    symbols_of(alloc, bytes, loads, header, table, count)
}

/// So many symbols, of which there is a table, and one of their names.
#[tactic(auto, unfolding(byte_view::specs::ElfSymbols::symbols_of))]
fn symbols_of(
    alloc: Global,
    bytes: &[u8],
    loads: &[Load],
    header: usize,
    table: &[Entry],
    count: u64,
) -> Result<Symbols, ElfBad>
    requires sound { AreSound (length bytes.now) loads.now }
    requires header { header + 56 ≤ length bytes.now }
    requires some { 0 < count }
    ensures { Reads refusal (map symbol_of) result
        (definition.symbols_of bytes.now (map load_of loads.now) header
        (map dynamic_entry table.now) count) }
{
    let missing = broken(ElfPart::Symbols, header + 8);
    let symbols = first_of(table, DT_SYMTAB).ok_or(missing)?;
    let strings = first_of(table, DT_STRTAB).ok_or(missing)?;
    let at = symbols_place(bytes.len(), loads, symbols, count)?;
    table_place(ElfPart::Symbols, bytes.len(), loads, strings, 0, 1)?;
    let zeros = find_zeros(alloc, bytes)?;
    let table = SymbolTable {
        at,
        count: count as usize,
        strings: strings.value,
    };
    check_names(bytes, loads, &zeros, table)?;
    listed_symbols(alloc, bytes, loads, &zeros, table)
}

/// Where the table of `count` symbols stands in the file.
fn symbols_place(size: usize, loads: &[Load], entry: Entry, count: u64) -> Result<usize, Broken>
    requires { AreSound size loads.now }
    ensures place { Reads broken_part (λ x. x) result
        (definition.table_place parts.symbols (map load_of loads.now) (dynamic_entry entry)
        entry.value (24 * count)) }
    ensures within { IfOk result (λ at. at + 24 * count ≤ size) }
{
    match count.checked_mul(SYMBOL_SIZE as u64) {
        Some(len) => table_place(ElfPart::Symbols, size, loads, entry, 0, len),
        None => Err(broken(ElfPart::Symbols, entry.at + 8)),
    }
}

/// Asks that the names have not too many bytes together, before any is copied. A symbol without a name ends it: it is
/// refused where it is read.
fn check_names(
    bytes: &[u8],
    loads: &[Load],
    zeros: &Zeros,
    table: SymbolTable,
) -> Result<(), ElfBad>
    requires sound { AreSound (length bytes.now) loads.now }
    requires zeros { AreOf bytes.now zeros.now.from_block.items }
    requires within { table.at + 24 * table.count ≤ length bytes.now }
    ensures { IfErr result (λ e. e ≡ Memory) }
{
    let mut total = 0;
    for k in 0..table.count {
        let name = number32(bytes, table.at + SYMBOL_SIZE * k);
        let Some(name) = name_at(bytes, loads, zeros, table.strings, u64::from(name)) else {
            return Ok(());
        };
        total += name.len();
        if total > NAMES_LIMIT {
            return Err(ElfBad::Memory);
        }
    }
    Ok(())
}

/// The symbols, one after another.
fn listed_symbols(
    alloc: Global,
    bytes: &[u8],
    loads: &[Load],
    zeros: &Zeros,
    table: SymbolTable,
) -> Result<Symbols, ElfBad>
    requires sound { AreSound (length bytes.now) loads.now }
    requires zeros { AreOf bytes.now zeros.now.from_block.items }
    requires within { table.at + 24 * table.count ≤ length bytes.now }
    ensures { Reads refusal (map symbol_of) result
        (listed (λ k. definition.symbol_at bytes.now (map load_of loads.now) table.strings
        (table.at + 24 * k)) table.count) }
{
    let mut symbols = Symbols::with_capacity(alloc, table.count)?;
    for k in 0..table.count {
        let at = table.at + SYMBOL_SIZE * k;
        let symbol = symbol_at(alloc, bytes, loads, zeros, table.strings, at)?;
        symbols.push(symbol)?;
    }
    Ok(symbols)
}

/// The symbol at `at`, whose name stands in the texts at the address `strings`.
#[tactic(auto, unfolding(byte_view::specs::ElfSymbols::symbol_at))]
fn symbol_at(
    alloc: Global,
    bytes: &[u8],
    loads: &[Load],
    zeros: &Zeros,
    strings: u64,
    at: usize,
) -> Result<Symbol, ElfBad>
    requires sound { AreSound (length bytes.now) loads.now }
    requires zeros { AreOf bytes.now zeros.now.from_block.items }
    requires within { at + 24 ≤ length bytes.now }
    ensures { Reads refusal symbol_of result
        (definition.symbol_at bytes.now (map load_of loads.now) strings at) }
{
    let offset = u64::from(number32(bytes, at));
    let text = name_at(bytes, loads, zeros, strings, offset).ok_or(broken(ElfPart::Symbols, at))?;
    let mut name = Bytes::with_capacity(alloc, text.len())?;
    name.extend_from_slice(text)?;
    let info = number8(bytes, at + 4);
    Ok(Symbol {
        name,
        value: number64(bytes, at + 8),
        binding: info / 16,
        kind: info % 16,
        visibility: number8(bytes, at + 5) % 4,
        section: number16(bytes, at + 6),
    })
}
