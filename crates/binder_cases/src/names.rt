//! Symbols, and modules that define names.

use bound_base::Bytes;
use elf_binder::Module;
use elf_reader::Symbol;
use std::alloc::{AllocError, Global};
use std::io;

/// A symbol with its name, its value, its binding, kind and visibility, and its section.
pub fn symbol(
    alloc: Global,
    name: &str,
    value: u64,
    [binding, kind, visibility]: [u64; 3],
    section: u64,
) -> Result<Symbol, AllocError> {
    let name = Bytes::from_vec(name.as_bytes().to_vec(alloc)?);
    Ok(Symbol {
        name,
        value,
        binding: (binding % 256) as u8,
        kind: (kind % 256) as u8,
        visibility: (visibility % 256) as u8,
        section: (section % 65536) as u16,
    })
}

/// Prints what the last module defines for a name, and the address under which it may be called.
pub fn print_exports(rt: &impl Print, modules: &[Module], name: &[u8]) -> io::Result<()> {
    match modules.last() {
        Some(module) => {
            print_found(rt, module.defined(name))?;
            print_found(rt, module.callable(name))
        }
        None => println!(rt; "no module"),
    }
}

/// Prints an address, or that there is none.
pub fn print_found(rt: &impl Print, address: Option<u64>) -> io::Result<()> {
    match address {
        Some(address) => println!(rt; "{address:x}"),
        None => println!(rt; "none"),
    }
}
