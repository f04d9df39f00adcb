//! What the errors of the parts come to: a call that is settled with a status and one line, or halted.

ghost use Rattle.std.specs.Prelude.{◌≡◌};
ghost use Rattle.host_run.specs.Answer.{refused, usage, absent, too_large, bad_image, bad_library, no_symbol, ended};
ghost use Rattle.host_run.specs.Settled.{SettlesAs, SettlesFile, SettlesBroken, SettlesEnding, IsNativeEnding};
ghost use Rattle.bound_base.specs.Image as image;
ghost use Rattle.elf_reader.specs.Refusals as library;

use crate::command::Word;
use crate::files::FileError;
use crate::settled::{Halt, Settled, Texts};
use crate::texts::{bad_image_line, bad_library_line, copy_of, line_on, native_fault_line};
use bound_base::{BadImage, Bytes, Ending, status_of};
use elf_reader::ElfBad;
use std::alloc::Global;

const USAGE: &[u8] =
    b"usage: plhost imports FILE | stubs FILE | native LIB SYMBOL WORD.. | run FILE [--lib F].. [--fuel N] [--report] [--log] [-- WORD..] | drill N\n";

const FUEL_SPENT: &[u8] = b"plhost: fuel spent\n";

/// A call that is refused with a status and a line.
fn refused(alloc: Global, status: u8, line: Bytes) -> Result<Settled, Halt>
    ensures { SettlesAs (refused status line) result }
{
    let mut texts = Texts::new(alloc);
    texts.push(line)?;
    Ok(Settled { status, texts })
}

/// Words outside the grammar, or whose command isn't built.
#[tactic(auto, unfolding(crate::specs::Texts::usage_line))]
pub fn usage(alloc: Global) -> Result<Settled, Halt>
    ensures { SettlesAs usage result }
{
    refused(alloc, 201, copy_of(alloc, USAGE)?)
}

/// A library that doesn't define the symbol.
#[tactic(auto, unfolding(crate::specs::Texts::no_symbol_line))]
pub fn no_symbol(alloc: Global, symbol: &Word) -> Result<Settled, Halt>
    ensures { SettlesAs (no_symbol symbol.now) result }
{
    refused(alloc, 214, line_on(alloc, b"plhost: no symbol: ", symbol)?)
}

/// A file that wasn't read.
#[tactic(auto, unfolding(crate::specs::Texts::absent_line, crate::specs::Texts::too_large_line))]
pub fn unread(alloc: Global, file: Word, error: FileError) -> Result<Settled, Halt>
    ensures { SettlesFile file error result }
{
    match error {
        FileError::Absent => refused(alloc, 202, line_on(alloc, b"plhost: absent: ", &file)?),
        FileError::Failed => Err(Halt::Unreadable(file)),
        FileError::TooLarge => refused(alloc, 212, line_on(alloc, b"plhost: too large: ", &file)?),
        FileError::Memory => Err(Halt::Memory),
    }
}

/// An image that is broken.
pub fn broken_image(alloc: Global, error: BadImage) -> Result<Settled, Halt>
    ensures { SettlesBroken bad_image (image.refusal error) result }
{
    match error {
        BadImage::Bad { part, at } => refused(alloc, 204, bad_image_line(alloc, part, at)?),
        BadImage::Memory => Err(Halt::Memory),
    }
}

/// A library that is broken.
pub fn broken_library(alloc: Global, name: &Word, error: ElfBad) -> Result<Settled, Halt>
    ensures { SettlesBroken (bad_library name.now) (library.refusal error) result }
{
    match error {
        ElfBad::BadElf { part, at } => {
            refused(alloc, 205, bad_library_line(alloc, name, part, at)?)
        }
        ElfBad::Memory => Err(Halt::Memory),
    }
}

/// Native code that gave no number.
#[tactic(auto, unfolding(crate::specs::Texts::fuel_line))]
pub fn ended(alloc: Global, ending: Ending) -> Result<Settled, Halt>
    requires { IsNativeEnding ending }
    ensures { SettlesEnding ending result }
{
    match ending {
        Ending::Spent => refused(alloc, status_of(&ending), copy_of(alloc, FUEL_SPENT)?),
        Ending::InitFault(pc) => {
            refused(alloc, status_of(&ending), native_fault_line(alloc, pc)?)
        }
        Ending::Memory => Err(Halt::Memory),
        Ending::Returned(_)
        | Ending::Exited(_)
        | Ending::Unhandled(_)
        | Ending::Bad { .. }
        | Ending::Deep
        | Ending::SinkFailed => unreachable!(),
    }
}
