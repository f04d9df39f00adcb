//! The values of the symbols that relocations name (System V gABI, 'Symbol Values' and 'Relocation').

ghost use Rattle.std.specs.Prelude.{◌≡◌, map};
ghost use Rattle.elf_reader.specs.Elf.{symbol_of};
ghost use Rattle.elf_binder.specs.Relocating.{unresolved_value, named_value, symbol_value, value_for};

use crate::module::Module;
use crate::relocation::Kind;
use crate::scope::address_of;
use elf_reader::Symbol;

/// The binding of a weak symbol (`STB_WEAK`).
const WEAK: u8 = 2;

/// A call through the jump slot of an unknown function faults when it is made: no function stands at this address.
const UNKNOWN_FUNCTION: u64 = 16;

/// The value of a relocation's symbol, 0 where its kind has no use for one. None where the symbol can't be resolved.
pub fn value_for(modules: &[Module], symbols: &[Symbol], kind: Kind, number: u32) -> Option<u64>
    ensures { result ≡ value_for modules.now (map symbol_of symbols.now) kind number }
{
    match kind {
        Kind::Nothing | Kind::Relative => Some(0),
        Kind::Absolute32 | Kind::Absolute64 | Kind::JumpSlot => {
            symbol_value(modules, symbols, kind, number)
        }
    }
}

/// The value of a symbol by its number: number 0 stands for none, whose value is 0.
fn symbol_value(modules: &[Module], symbols: &[Symbol], kind: Kind, number: u32) -> Option<u64>
    ensures { result ≡ symbol_value modules.now (map symbol_of symbols.now) kind number }
{
    if number == 0 {
        return Some(0);
    }
    let symbol = symbols.get(number as usize)?;
    named_value(modules, kind, symbol)
}

/// The value of a symbol by its name.
fn named_value(modules: &[Module], kind: Kind, symbol: &Symbol) -> Option<u64>
    ensures { result ≡ named_value modules.now kind (symbol_of symbol.now) }
{
    match address_of(modules, symbol.name.as_slice()) {
        Some(address) => Some(address),
        None => unresolved_value(kind, symbol),
    }
}

/// What a symbol stands for that nobody defines: 0 if it is weak; else in a jump slot an address for calls that fault, and
/// elsewhere nothing.
fn unresolved_value(kind: Kind, symbol: &Symbol) -> Option<u64>
    ensures { result ≡ unresolved_value kind (symbol_of symbol.now) }
{
    if symbol.binding == WEAK {
        return Some(0);
    }
    match kind {
        Kind::JumpSlot => Some(UNKNOWN_FUNCTION),
        Kind::Nothing | Kind::Absolute32 | Kind::Absolute64 | Kind::Relative => None,
    }
}
