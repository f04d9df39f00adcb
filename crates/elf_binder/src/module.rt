//! A library in memory, and what it defines.

ghost use Rattle.std.specs.Prelude.{◌≡◌, map, IfOk};
ghost use Rattle.elf_reader.specs.Elf.{symbol_of};
ghost use Rattle.elf_binder.specs.Modules.{is_defined as defines_its_name, exports_of, export_of, defined_in, callable_in};

use crate::index::{address_by, index_of};
use bound_base::{Bytes, Items, NoMemory};
use elf_reader::Symbol;
use std::alloc::{AllocError, Global};
use std::marker::Model;

/// A name that a library defines.
#[derive(Debug, Drop)]
pub struct Export {
    pub name: Bytes,
    /// Its address in memory.
    pub address: u64,
    /// It is a function, or a symbol without a type.
    pub callable: bool,
}

/// A library in memory: its name, and what it defines, in the order of its symbols.
#[derive(Debug, Drop)]
pub struct Module {
    name: Bytes,
    exports: Items<Export>,
    /// The indexes of the exports in order of their names, those of one name in the order of the exports.
    by_name: Items<usize>,
    /// The same of the exports that may be called.
    callable_by_name: Items<usize>,
}

impl Model for Module {
    ghost use Rattle.elf_binder.specs.Modules as modules;
    ghost use Rattle.std.specs.Prelude.{true, false};

    ghost Value = { modules.Module };

    ghost use Rattle.elf_binder.specs.Index.{IsByName};

    ghost view = { λ m. record { name = m.name; exports = m.exports } };

    ghost invariant = { λ m. IsByName false m.exports m.by_name
        × IsByName true m.exports m.callable_by_name };
}

impl Module {
    /// The library of a name that stands at a base, by its symbols.
    pub fn new(
        alloc: Global,
        name: &[u8],
        base: u64,
        symbols: &[Symbol],
    ) -> Result<Module, NoMemory>
        ensures { IfOk result (λ m. m
            ≡ record { name = name.now; exports = exports_of base (map symbol_of symbols.now) }) }
    {
        let name = Items::from_vec(name.to_vec(alloc)?);
        let exports = exports(alloc, base, symbols)?;
        let by_name = index_of(alloc, &exports, false)?;
        let callable_by_name = index_of(alloc, &exports, true)?;
        Ok(Module {
            name,
            exports,
            by_name,
            callable_by_name,
        })
    }

    /// Its name.
    pub fn name(&self) -> &[u8]
        ensures { result.now ≡ self.now.name }
    {
        self.name.as_slice()
    }

    /// The address that the library defines for a name, by its first symbol that does.
    pub fn defined(&self, name: &[u8]) -> Option<u64>
        ensures { result ≡ defined_in name.now self.now }
    {
        address_by(&self.exports, &self.by_name, name)
    }

    /// The address of a name that may be called, by the first symbol that defines it and may be.
    pub fn callable(&self, name: &[u8]) -> Option<u64>
        ensures { result ≡ callable_in name.now self.now }
    {
        address_by(&self.exports, &self.callable_by_name, name)
    }
}

/// The symbol defines its name for other libraries (System V gABI, 'Symbol Table'): it is global or weak, has a section, is an
/// object, a function or has no type, and its visibility is default or protected.
#[tactic(auto, unfolding(crate::specs::Modules::is_defined))]
pub fn is_defined(symbol: &Symbol) -> bool
    ensures { result ≡ defines_its_name (symbol_of symbol.now) }
{
    (symbol.binding == 1 || symbol.binding == 2)
        && symbol.section != 0
        && (symbol.kind == 0 || symbol.kind == 1 || symbol.kind == 2)
        && (symbol.visibility == 0 || symbol.visibility == 3)
}

/// What a symbol that defines its name exports, in a library at a base.
fn export_from(alloc: Global, base: u64, symbol: &Symbol) -> Result<Export, AllocError>
    ensures { IfOk result (λ e. e ≡ export_of base (symbol_of symbol.now)) }
{
    Ok(Export {
        name: Items::from_vec(symbol.name.as_slice().to_vec(alloc)?),
        address: base.wrapping_add(symbol.value),
        callable: symbol.kind == 0 || symbol.kind == 2,
    })
}

/// What the symbols of a library at a base export, in their order.
fn exports(alloc: Global, base: u64, symbols: &[Symbol]) -> Result<Items<Export>, AllocError>
    ensures { IfOk result (λ e. e ≡ exports_of base (map symbol_of symbols.now)) }
{
    let mut exports = Items::new(alloc);
    for symbol in symbols {
        if is_defined(symbol) {
            exports.push(export_from(alloc, base, symbol)?)?;
        }
    }
    Ok(exports)
}
