//! Relocates libraries (RISC-V psABI, 'Relocations').

ghost use Rattle.std.specs.Prelude.{◌≡◌, ◌+◌, ◌<◌, ◌≤◌, ◌%◌, ◌^◌, length, Some, None, OnOk, OnErr};
ghost use Rattle.std.specs.Int.{w64, cast_unsigned};
ghost use Rattle.native_memory.specs.Ranges.{written_at};
ghost use Rattle.byte_view.specs.Reading.{Reads};
ghost use Rattle.elf_reader.specs.Elf.{relocation_of};
ghost use Rattle.elf_binder.specs.Relocating.{width_of, bytes_for, write_relocation, relocate, relocate_library};
ghost use Rattle.elf_binder.specs.Refusals.{refusal};
ghost use Rattle.elf_binder.specs.Sources.{source_of, IsRead};

use crate::module::Module;
use crate::refusal::BindBad;
use crate::relocation::Kind;
use crate::source::{Source, broken};
use crate::symbol_values::value_for;
use crate::targets::is_writable;
use elf_reader::{ElfPart, Relocation};
use native_memory::{Fault, Memory};

/// Applies the relocations of a library, which stands at a base, in order.
pub fn relocate_library(
    modules: &[Module],
    source: &Source<'_>,
    base: u64,
    memory: &mut Memory,
) -> Result<(), BindBad>
    requires read { IsRead (source_of source.now) }
    requires low { base ≤ 2 ^ 46 }
    ensures { Reads refusal (λ _. memory.new.space) result
        (relocate_library modules.now memory.old.space (source_of source.now, base)) }
{
    for r in source.elf.relocs.as_slice() {
        relocate(modules, source, base, r, memory)?;
    }
    Ok(())
}

/// Applies one relocation.
fn relocate(
    modules: &[Module],
    source: &Source<'_>,
    base: u64,
    r: &Relocation,
    memory: &mut Memory,
) -> Result<(), BindBad>
    requires read { IsRead (source_of source.now) }
    requires low { base ≤ 2 ^ 46 }
    requires entry { r.now.at + 24 ≤ length source.now.file.now }
    ensures { Reads refusal (λ _. memory.new.space) result
        (relocate modules.now (source_of source.now) base memory.old.space (relocation_of r.now)) }
{
    let Some(kind) = Kind::of(r.kind) else {
        return Err(broken(source, ElfPart::RelocType, r.at + 8));
    };
    if kind == Kind::Nothing {
        return Ok(());
    }
    write_relocation(modules, source, base, r, kind, memory)
}

/// Writes what a relocation of a kind stands for. Its bytes have to lie in one writable load of its own library.
fn write_relocation(
    modules: &[Module],
    source: &Source<'_>,
    base: u64,
    r: &Relocation,
    kind: Kind,
    memory: &mut Memory,
) -> Result<(), BindBad>
    requires read { IsRead (source_of source.now) }
    requires low { base ≤ 2 ^ 46 }
    requires entry { r.now.at + 24 ≤ length source.now.file.now }
    requires some { 0 < width_of kind }
    ensures { Reads refusal (λ _. memory.new.space) result
        (write_relocation modules.now (source_of source.now) base memory.old.space
        (relocation_of r.now) kind) }
{
    if !is_writable(source, r.offset, kind.width()) {
        return Err(broken(source, ElfPart::RelocTarget, r.at));
    }
    let Some(symbol) = value_for(modules, source.elf.symbols.as_slice(), kind, r.symbol) else {
        return Err(broken(source, ElfPart::Unresolved, r.at + 8));
    };
    match write_value(memory, base + r.offset, kind, base, symbol, addend_bits(r)) {
        Ok(()) => Ok(()),
        Err(_) => Err(broken(source, ElfPart::RelocTarget, r.at)),
    }
}

/// The addend as 64 bits.
fn addend_bits(r: &Relocation) -> u64
    ensures { result ≡ cast_unsigned w64 r.now.addend }
{
    r.addend.cast_unsigned()
}

/// Writes what a kind makes of a base, a symbol's value and an addend.
fn write_value(
    memory: &mut Memory,
    addr: u64,
    kind: Kind,
    base: u64,
    symbol: u64,
    addend: u64,
) -> Result<(), Fault>
    ensures ok { OnOk result (written_at memory.old.space addr
        (bytes_for kind base symbol addend) ≡ Some memory.new.space) }
    ensures err { OnErr result (written_at memory.old.space addr
        (bytes_for kind base symbol addend) ≡ None) }
{
    let sum = symbol.wrapping_add(addend);
    match kind {
        Kind::Nothing => memory.write(addr, &[]),
        Kind::Absolute32 => memory.write(addr, &low_half(sum).to_le_bytes()),
        Kind::Absolute64 => memory.write(addr, &sum.to_le_bytes()),
        Kind::Relative => memory.write(addr, &base.wrapping_add(addend).to_le_bytes()),
        Kind::JumpSlot => memory.write(addr, &symbol.to_le_bytes()),
    }
}

fn low_half(n: u64) -> u32
    ensures { result ≡ n % 2 ^ 32 }
{
    (n % (1 << 32)) as u32
}
