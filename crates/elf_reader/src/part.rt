//! The parts of a library file, in the order in which they are read, and why a file is refused.

ghost use Rattle.std.specs.Prelude.{◌≡◌, Some};
ghost use Rattle.elf_reader.specs.declared.part.ElfBad.TheVariants.{BadElf, Memory};
ghost use Rattle.elf_reader.specs.Refusals.{PartsAreWhereDefined};

use std::alloc::{AllocError, AllocFailed};
use std::fmt;
use thiserror::Error;

/// A part of a library file, in reading order (System V gABI). The last four are found where libraries are bound.
#[derive(Clone, Copy, Debug, PartialEq, Eq)]
pub enum ElfPart {
    /// The identification: magic, class, byte order and version ('ELF Identification').
    Ident,
    /// The type of the file ('ELF Header').
    Type,
    /// The machine ('ELF Header').
    Machine,
    /// The flags of the machine ('ELF Header'; RISC-V psABI, 'e_flags').
    Flags,
    /// The program headers ('Program Header').
    ProgramHeaders,
    /// A load.
    Load,
    /// Thread-local storage, which no library may have.
    Tls,
    /// The dynamic section ('Dynamic Section').
    Dynamic,
    /// The symbols and their names ('Symbol Table', 'Hash Table').
    Symbols,
    /// The tables of relocations ('Relocation').
    Relocs,
    /// The type of a relocation.
    RelocType,
    /// The place that a relocation writes.
    RelocTarget,
    /// A symbol that no library defines.
    Unresolved,
    /// The array of initializers ('Initialization and Termination Functions').
    Init,
}

impl fmt::Display for ElfPart {
    ghost use Rattle.elf_reader.specs.Refusals.{part_name};

    ghost output = { λ part. Some (part_name part) };

    fn fmt<W: fmt::Write>(&self, f: &mut fmt::Formatter<W>) -> fmt::Result {
        match self {
            ElfPart::Ident => write!(f, "ident"),
            ElfPart::Type => write!(f, "type"),
            ElfPart::Machine => write!(f, "machine"),
            ElfPart::Flags => write!(f, "flags"),
            ElfPart::ProgramHeaders => write!(f, "program headers"),
            ElfPart::Load => write!(f, "load"),
            ElfPart::Tls => write!(f, "tls"),
            ElfPart::Dynamic => write!(f, "dynamic"),
            ElfPart::Symbols => write!(f, "symbols"),
            ElfPart::Relocs => write!(f, "relocs"),
            ElfPart::RelocType => write!(f, "reloc type"),
            ElfPart::RelocTarget => write!(f, "reloc target"),
            ElfPart::Unresolved => write!(f, "unresolved"),
            ElfPart::Init => write!(f, "init"),
        }
    }
}

/// Why a library file is refused.
#[derive(Clone, Copy, Debug, PartialEq, Eq, Error)]
pub enum ElfBad {
    /// The first broken part, and the file offset of its first field that is missing or wrong.
    #[error("bad library: {part} at {at}")]
    BadElf { part: ElfPart, at: u64 },
    /// There is no memory for what is read.
    #[error("out of memory")]
    Memory,
}

/// A part that is broken, and the file offset of its first field that is missing or wrong: the error of a reader that takes
/// no memory.
#[derive(Clone, Copy, Debug)]
pub struct Broken {
    pub part: ElfPart,
    pub at: u64,
}

impl From<Broken> for ElfBad {
    ghost from_gives = { λ broken e. e ≡ BadElf broken.part broken.at };

    fn from(broken: Broken) -> ElfBad {
        ElfBad::BadElf {
            part: broken.part,
            at: broken.at,
        }
    }
}

impl From<AllocError> for ElfBad {
    ghost from_gives = { λ _ e. e ≡ Memory };

    fn from(_: AllocError) -> ElfBad {
        ElfBad::Memory
    }
}

impl<T: Drop> From<AllocFailed<T>> for ElfBad {
    ghost from_gives = { λ _ e. e ≡ Memory };

    fn from(_: AllocFailed<T>) -> ElfBad {
        ElfBad::Memory
    }
}

/// The parts stand in the order in which the definitions of the format number them. The contract is the law; the call does
/// nothing.
pub fn parts_are_where_defined()
    ensures { PartsAreWhereDefined }
{}
