//! Loads and stores (RISC-V unprivileged ISA, Load and Store Instructions). An address may be any: misaligned accesses
//! work, and read or write the same bytes.

ghost use Rattle.std.specs.Prelude.{◌≡◌, option_map, IfOk, IfErr, OnErr, OnOk, Some, None, false};
ghost use Rattle.std.specs.Prelude.{true};
ghost use Rattle.std.specs.Int.{byte_len};
ghost use Rattle.byteorder.specs.Endian.{little_bytes};
ghost use Rattle.native_memory.specs.Ranges.{written_at};
ghost use Rattle.rv_machine.specs.Machine.{number_at, extended_from, size_of};

use crate::effect::Width;
use crate::words::extended;
use byteorder::{ByteOrder, LittleEndian};
use native_memory::{Fault, Memory};

/// The word that a load makes of the number at an address.
pub fn load(memory: &Memory, addr: u64, width: Width, signed: bool) -> Result<u64, Fault>
    ensures ok { IfOk result (λ value.
        option_map (extended_from width signed)
        (number_at memory.now.space addr (byte_len (size_of width))) ≡ Some value) }
    ensures err { OnErr result (number_at memory.now.space addr (byte_len (size_of width)) ≡ None) }
    ensures fault { IfErr result (λ fault.
        fault ≡ record { addr = addr; len = byte_len (size_of width); write = false }) }
{
    match (width, signed) {
        (Width::Byte, true) => Ok(extended(i64::from(byte(memory, addr)?.cast_signed()))),
        (Width::Byte, false) => Ok(u64::from(byte(memory, addr)?)),
        (Width::Half, true) => Ok(extended(i64::from(half(memory, addr)?.cast_signed()))),
        (Width::Half, false) => Ok(u64::from(half(memory, addr)?)),
        (Width::Word, true) => Ok(extended(i64::from(word(memory, addr)?.cast_signed()))),
        (Width::Word, false) => Ok(u64::from(word(memory, addr)?)),
        (Width::Double, _) => double(memory, addr),
    }
}

/// Writes the low bytes of a word to an address.
pub fn store(memory: &mut Memory, addr: u64, width: Width, value: u64) -> Result<(), Fault>
    ensures ok { OnOk result
        (written_at memory.old.space addr (little_bytes (byte_len (size_of width)) value)
        ≡ Some memory.new.space) }
    ensures err { OnErr result
        (written_at memory.old.space addr (little_bytes (byte_len (size_of width)) value) ≡ None) }
    ensures unchanged { OnErr result (memory.new ≡ memory.old) }
    ensures fault { IfErr result (λ fault.
        fault ≡ record { addr = addr; len = byte_len (size_of width); write = true }) }
{
    let bytes = value.to_le_bytes();
    match width {
        Width::Byte => memory.write(addr, &bytes[..1]),
        Width::Half => memory.write(addr, &bytes[..2]),
        Width::Word => memory.write(addr, &bytes[..4]),
        Width::Double => memory.write(addr, &bytes),
    }
}

fn byte(memory: &Memory, addr: u64) -> Result<u8, Fault>
    ensures ok { IfOk result (λ n. number_at memory.now.space addr 1 ≡ Some n) }
    ensures err { OnErr result (number_at memory.now.space addr 1 ≡ None) }
    ensures fault { IfErr result (λ fault.
        fault ≡ record { addr = addr; len = 1; write = false }) }
{
    let mut bytes = [0; 1];
    memory.read(addr, &mut bytes)?;
    Ok(bytes[0])
}

fn half(memory: &Memory, addr: u64) -> Result<u16, Fault>
    ensures ok { IfOk result (λ n. number_at memory.now.space addr 2 ≡ Some n) }
    ensures err { OnErr result (number_at memory.now.space addr 2 ≡ None) }
    ensures fault { IfErr result (λ fault.
        fault ≡ record { addr = addr; len = 2; write = false }) }
{
    let mut bytes = [0; 2];
    memory.read(addr, &mut bytes)?;
    Ok(LittleEndian::read_u16(&bytes))
}

fn word(memory: &Memory, addr: u64) -> Result<u32, Fault>
    ensures ok { IfOk result (λ n. number_at memory.now.space addr 4 ≡ Some n) }
    ensures err { OnErr result (number_at memory.now.space addr 4 ≡ None) }
    ensures fault { IfErr result (λ fault.
        fault ≡ record { addr = addr; len = 4; write = false }) }
{
    let mut bytes = [0; 4];
    memory.read(addr, &mut bytes)?;
    Ok(LittleEndian::read_u32(&bytes))
}

fn double(memory: &Memory, addr: u64) -> Result<u64, Fault>
    ensures ok { IfOk result (λ n. number_at memory.now.space addr 8 ≡ Some n) }
    ensures err { OnErr result (number_at memory.now.space addr 8 ≡ None) }
    ensures fault { IfErr result (λ fault.
        fault ≡ record { addr = addr; len = 8; write = false }) }
{
    let mut bytes = [0; 8];
    memory.read(addr, &mut bytes)?;
    Ok(LittleEndian::read_u64(&bytes))
}
