//! What is read from a library file.

use bound_base::{Bytes, Items, Rights};

/// A load: a range of the file that is put into memory (System V gABI, 'Program Header').
#[derive(Clone, Copy, Debug, PartialEq, Eq)]
pub struct Load {
    /// The file offset of its header.
    pub at: u64,
    /// The file offset of its bytes.
    pub file_at: u64,
    /// How many bytes of it the file has.
    pub file_size: u64,
    /// Its address, from the base of the library.
    pub vaddr: u64,
    /// Its size in memory, in bytes. After the bytes of the file come zeros.
    pub size: u64,
    /// What its memory may be used for.
    pub rights: Rights,
}

/// Loads, in order of their addresses.
pub type Loads = Items<Load>;

/// A symbol (System V gABI, 'Symbol Table').
#[derive(Debug, Drop)]
pub struct Symbol {
    /// Its name, without the zero at its end.
    pub name: Bytes,
    /// Its address, from the base of the library: `st_value`.
    pub value: u64,
    /// The high four bits of `st_info`: local 0, global 1, weak 2.
    pub binding: u8,
    /// The low four bits of `st_info`: no type 0, object 1, function 2.
    pub kind: u8,
    /// The low two bits of `st_other`: default 0, internal 1, hidden 2, protected 3.
    pub visibility: u8,
    /// The section in which it is defined, 0 where it isn't: `st_shndx`.
    pub section: u16,
}

/// Symbols, by their numbers.
pub type Symbols = Items<Symbol>;

/// A relocation with an addend (System V gABI, 'Relocation').
#[derive(Clone, Copy, Debug, PartialEq, Eq)]
pub struct Relocation {
    /// The file offset of its entry.
    pub at: u64,
    /// The address that it writes, from the base of the library.
    pub offset: u64,
    /// The number of its symbol.
    pub symbol: u32,
    /// Its type.
    pub kind: u32,
    pub addend: i64,
}

/// Relocations, in the order in which they are applied.
pub type Relocations = Items<Relocation>;

/// A library file, as far as it is used.
#[derive(Debug, Drop)]
pub struct Elf {
    pub loads: Loads,
    /// All symbols, number 0 included.
    pub symbols: Symbols,
    /// Those of `DT_RELA`, then those of `DT_JMPREL`.
    pub relocs: Relocations,
    /// The address of the first initializer, from the base of the library: `DT_INIT`, 0 where there is none.
    pub init: u64,
    /// The array of initializers: its address, from the base of the library, and its size in bytes.
    pub init_array: (u64, u64),
    /// The file offset of the entry of `DT_INIT_ARRAY`, 0 where there is none.
    pub init_array_at: u64,
}
