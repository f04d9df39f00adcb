//! The symbols of a library file with their names and their hash table (System V gABI, 'Symbol Table', 'String Table' and
//! 'Hash Table').

ghost use Rattle.std.specs.Prelude.{◌≡◌, ◌<◌, ◌≤◌, ◌++◌, length, OnOk};
ghost use Rattle.image_kit.specs.LibraryFile.{symbol_entry, symbol_table, string_table, hash_table};

use crate::library_plan::NamedPlace;
use crate::put::{put16, put32, put64};
use bound_base::Bytes;
use std::alloc::AllocError;

/// STB_GLOBAL and STT_FUNC.
const GLOBAL_FUNCTION: u8 = 0x12;

const DEFAULT_VISIBILITY: u8 = 0;

/// The number of a section, which each symbol that is defined has.
const SECTION: u16 = 1;

const NO_SYMBOL: [u8; 24] = [0; 24];

/// Entry 0, and an entry for each name, whose address is its offset from the code's.
#[tactic(auto, unfolding(crate::specs::LibraryFile::symbol_table, crate::specs::LibraryFile::symbol_entries, crate::specs::LibraryFile::string_table))]
pub(crate) fn put_symbol_table(
    out: &mut Bytes,
    code: u64,
    names: &[NamedPlace],
) -> Result<(), AllocError>
    requires { length (string_table names.now) ≤ 67108864 }
    ensures { OnOk result (out.new ≡ out.old ++ symbol_table code names.now) }
{
    out.extend_from_slice(&NO_SYMBOL)?;
    let mut name: u32 = 1;
    for place in names {
        let value = code.wrapping_add(place.offset);
        put_symbol(out, name, value)?;
        name += place.name.len() as u32 + 1;
    }
    Ok(())
}

/// A global function with a name, by its place among the strings, and an address.
#[tactic(auto, unfolding(crate::specs::LibraryFile::symbol_entry))]
fn put_symbol(out: &mut Bytes, name: u32, value: u64) -> Result<(), AllocError>
    ensures { OnOk result (out.new ≡ out.old ++ symbol_entry name value) }
{
    put32(out, name)?;
    out.extend_from_slice(&[GLOBAL_FUNCTION, DEFAULT_VISIBILITY])?;
    put16(out, SECTION)?;
    put64(out, value)?;
    put64(out, 0)
}

/// One bucket, whose chain goes from the last symbol down to the first.
#[tactic(auto, unfolding(crate::specs::LibraryFile::hash_table))]
pub(crate) fn put_hash_table(out: &mut Bytes, names: u32) -> Result<(), AllocError>
    requires { names < 67108864 }
    ensures { OnOk result (out.new ≡ out.old ++ hash_table names) }
{
    put32(out, 1)?;
    put32(out, names + 1)?;
    put32(out, names)?;
    for symbol in 0..names + 1 {
        put32(out, symbol.saturating_sub(1))?;
    }
    Ok(())
}

/// The empty string, and each name with a zero after it.
#[tactic(auto, unfolding(crate::specs::LibraryFile::string_table))]
pub(crate) fn put_string_table(out: &mut Bytes, names: &[NamedPlace]) -> Result<(), AllocError>
    ensures { OnOk result (out.new ≡ out.old ++ string_table names.now) }
{
    out.push(0)?;
    for place in names {
        out.extend_from_slice(place.name.as_slice())?;
        out.push(0)?;
    }
    Ok(())
}
