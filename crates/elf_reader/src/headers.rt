//! The identification of a library, and where its program headers stand (System V gABI, 'ELF Header').

ghost use Rattle.std.specs.Prelude.{◌≡◌, ◌+◌, ◌*◌, ◌<◌, ◌≤◌, length, IfOk};
ghost use Rattle.byte_view.specs.Numbers.{le};
ghost use Rattle.byte_view.specs.Reading.{field_where};
ghost use Rattle.byte_view.specs.ElfLoads as definition;
ghost use Rattle.byte_view.specs.ElfParts as parts;
ghost use Rattle.byte_view.specs.Reading.{Reads};
ghost use Rattle.elf_reader.specs.Refusals.{broken_part};

use crate::fields::{field8, field16, field32, must};
use crate::part::{Broken, ElfPart};
use byte_view::{number32, number64};

/// The first four bytes of an ELF file: 0x7F and `ELF`.
const MAGIC: u32 = 0x464C_457F;

/// `EI_CLASS` of a file of 64 bits.
const CLASS_64: u8 = 2;

/// `EI_DATA` of a file whose numbers stand lowest byte first.
const LOWEST_FIRST: u8 = 1;

/// `EI_VERSION`.
const VERSION: u8 = 1;

/// `e_type` of a shared library.
const SHARED: u16 = 3;

/// `e_machine` of RISC-V.
const RISC_V: u16 = 243;

/// The flags that no library may have: compressed instructions (1), and RV32E or RV64E (8).
const FLAGS_REFUSED: u32 = 9;

/// The size of a program header, in bytes.
pub const HEADER_SIZE: usize = 56;

/// The program headers: the file offset of the first, and how many.
#[derive(Clone, Copy, Debug)]
pub struct Headers {
    pub start: usize,
    pub count: usize,
}

/// Asks that the file is a shared library of 64 bits for RISC-V, lowest byte first, without compressed instructions
/// ('ELF Identification'; RISC-V psABI, 'File Header').
#[tactic(auto, unfolding(byte_view::specs::ElfLoads::identified))]
pub fn identified(bytes: &[u8]) -> Result<(), Broken>
    ensures { Reads broken_part (λ _. le bytes.now 48 4) result (definition.identified bytes.now) }
{
    let magic = field32(ElfPart::Ident, bytes, 0)?;
    must(magic == MAGIC, ElfPart::Ident, 0)?;
    let class = field8(ElfPart::Ident, bytes, 4)?;
    must(class == CLASS_64, ElfPart::Ident, 4)?;
    let order = field8(ElfPart::Ident, bytes, 5)?;
    must(order == LOWEST_FIRST, ElfPart::Ident, 5)?;
    let version = field8(ElfPart::Ident, bytes, 6)?;
    must(version == VERSION, ElfPart::Ident, 6)?;
    let kind = field16(ElfPart::Type, bytes, 16)?;
    must(kind == SHARED, ElfPart::Type, 16)?;
    let machine = field16(ElfPart::Machine, bytes, 18)?;
    must(machine == RISC_V, ElfPart::Machine, 18)?;
    let flags = field32(ElfPart::Flags, bytes, 48)?;
    must(flags & FLAGS_REFUSED == 0, ElfPart::Flags, 48)
}

/// Where the program headers stand; they are all in the file.
#[tactic(auto, unfolding(byte_view::specs::ElfLoads::program_headers))]
pub fn program_headers(bytes: &[u8]) -> Result<Headers, Broken>
    ensures headers { Reads broken_part (λ h. (h.start, h.count)) result
        (definition.program_headers bytes.now) }
    ensures within { IfOk result (λ h. 0 < h.count → h.start + 56 * h.count ≤ length bytes.now) }
{
    let size = field16(ElfPart::ProgramHeaders, bytes, 54)?;
    must(
        usize::from(size) == HEADER_SIZE,
        ElfPart::ProgramHeaders,
        54,
    )?;
    let count = usize::from(field16(ElfPart::ProgramHeaders, bytes, 56)?);
    let start = number64(bytes, 32) as usize;
    let is_in_file = start <= bytes.len() && HEADER_SIZE * count <= bytes.len() - start;
    must(count == 0 || is_in_file, ElfPart::ProgramHeaders, 32)?;
    Ok(Headers { start, count })
}

/// The type of the program header at `at`.
pub fn header_type(bytes: &[u8], at: usize) -> u32
    requires { at + 56 ≤ length bytes.now }
    ensures { result ≡ le bytes.now at 4 }
{
    number32(bytes, at)
}
