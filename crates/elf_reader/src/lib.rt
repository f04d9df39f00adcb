//! Reads a RISC-V shared library (System V gABI, ELF64; RISC-V ELF psABI).
#![tactic(auto)]

mod dynamic;
mod elf;
mod entry;
mod fields;
mod hashes;
mod headers;
mod loads;
mod names;
mod part;
mod reader;
mod relocations;
mod symbols;

pub use elf::{Elf, Load, Loads, Relocation, Relocations, Symbol, Symbols};
pub use part::{ElfBad, ElfPart, parts_are_where_defined};
pub use reader::read_elf;
