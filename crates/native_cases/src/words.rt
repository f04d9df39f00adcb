//! The words of a case.

use anyhow::bail;
use bound_base::Rights;
use native_memory::{Fault, Kind};
use std::alloc::Global;

/// A number: hexadecimal after 0x, else decimal.
pub fn number(word: &str) -> anyhow::Result<u64> {
    match word.strip_prefix("0x") {
        Some(digits) => Ok(u64::from_str_radix(digits, 16)?),
        None => Ok(word.parse::<u64>()?),
    }
}

/// The bytes of a text of two digits for each, `-` for no bytes.
pub fn bytes_of(alloc: Global, word: &str) -> anyhow::Result<Vec<u8>> {
    if word == "-" {
        return Ok(Vec::new(alloc));
    }
    Ok(hex::decode(alloc, word)?)
}

/// Rights: those of the letters r, w and x that the word has.
pub fn rights(word: &str) -> Rights {
    Rights {
        r: word.contains("r"),
        w: word.contains("w"),
        x: word.contains("x"),
    }
}

/// What a block is for.
pub fn kind(word: &str) -> anyhow::Result<Kind> {
    Ok(match word {
        "segment" => Kind::Segment,
        "stack" => Kind::Stack,
        "errno" => Kind::Errno,
        "heap" => Kind::Heap,
        "temp" => Kind::Temp,
        "in_place" => Kind::InPlace,
        _ => bail!("no such kind"),
    })
}

/// Prints bytes, or that there are none.
pub fn print_bytes(rt: &impl Print, bytes: Option<&[u8]>) -> anyhow::Result<()> {
    let Some(bytes) = bytes else {
        print!(rt; " = none")?;
        return Ok(());
    };
    print!(rt; " = [")?;
    for byte in bytes {
        print!(rt; "{byte:02x}")?;
    }
    print!(rt; "]")?;
    Ok(())
}

/// Prints a fault: what was to be done with how many bytes, and where.
pub fn print_fault(rt: &impl Print, fault: Fault) -> anyhow::Result<()> {
    let used = if fault.write { "write" } else { "read" };
    print!(rt; " = fault, {used} {} at {:x}", fault.len, fault.addr)?;
    Ok(())
}
