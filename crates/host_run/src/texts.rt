//! The lines that plhost prints.

ghost use Rattle.std.specs.Prelude.{◌≡◌, IfOk};
ghost use Rattle.host_run.specs.Texts.{line_on as named_line, bad_image_line as broken_image, bad_library_line as broken_library, native_fault_line as fault_at, number_line as line_of};
ghost use Rattle.bound_base.specs.Image as image;
ghost use Rattle.elf_reader.specs.Refusals as library;

use crate::command::Word;
use bound_base::{Bytes, NoMemory, Part, escape};
use elf_reader::ElfPart;
use std::alloc::Global;

/// A text of its own.
pub fn copy_of(alloc: Global, text: &[u8]) -> Result<Bytes, NoMemory>
    ensures { IfOk result (λ copy. copy ≡ text.now) }
{
    let mut copy = Bytes::new(alloc);
    copy.extend_from_slice(text)?;
    Ok(copy)
}

/// A line about a file or a symbol: what it says, and the name.
#[tactic(auto, unfolding(crate::specs::Texts::line_on))]
pub fn line_on(alloc: Global, says: &[u8], name: &Word) -> Result<Bytes, NoMemory>
    ensures { IfOk result (λ line. line ≡ named_line says.now name.now) }
{
    let name = escape(alloc, name.as_bytes())?;
    let mut line = Bytes::new(alloc);
    line.extend_from_slice(says)?;
    line.extend_from_slice(name.as_slice())?;
    line.push(b'\n')?;
    Ok(line)
}

/// The line of a broken part of an image, and its file offset.
#[tactic(auto, unfolding(crate::specs::Texts::bad_image_line))]
pub fn bad_image_line(alloc: Global, part: Part, at: u64) -> Result<Bytes, NoMemory>
    ensures { IfOk result (λ line. line ≡ broken_image (image.part_place part) at) }
{
    let line = format!(in alloc; "plhost: bad image: {part} at {at}\n")?;
    copy_of(alloc, line.as_bytes())
}

/// The line of a broken part of a library: the library's name, the part and its file offset.
#[tactic(auto, unfolding(crate::specs::Texts::bad_library_line))]
pub fn bad_library_line(
    alloc: Global,
    name: &Word,
    part: ElfPart,
    at: u64,
) -> Result<Bytes, NoMemory>
    ensures { IfOk result (λ line. line ≡ broken_library name.now (library.part_place part) at) }
{
    let place = format!(in alloc; ": {part} at {at}\n")?;
    let printed_name = escape(alloc, name.as_bytes())?;
    let mut line = copy_of(alloc, b"plhost: bad library ")?;
    line.extend_from_slice(printed_name.as_slice())?;
    line.extend_from_slice(place.as_bytes())?;
    Ok(line)
}

/// The line of a fault of native code at a pc.
#[tactic(auto, unfolding(crate::specs::Texts::native_fault_line))]
pub fn native_fault_line(alloc: Global, pc: u64) -> Result<Bytes, NoMemory>
    ensures { IfOk result (λ line. line ≡ fault_at pc) }
{
    let line = format!(in alloc; "plhost: native fault at 0x{pc:016x}\n")?;
    copy_of(alloc, line.as_bytes())
}

/// A number as `native` prints it, in sixteen hexadecimal digits.
#[tactic(auto, unfolding(crate::specs::Texts::number_line))]
pub fn number_line(alloc: Global, number: u64) -> Result<Bytes, NoMemory>
    ensures { IfOk result (λ line. line ≡ line_of number) }
{
    let line = format!(in alloc; "0x{number:016x}\n")?;
    copy_of(alloc, line.as_bytes())
}
