//! Texts: `utf8z` and `utf16z` print the bytes of a text with its end, `inline utf8 N` and `inline utf16 N` those of a text in
//! place of N bytes or units, and `units` the units that bytes of UTF-8 spell. A text is its UTF-16 units, each four hexadecimal
//! digits, `-` where there are none.

use crate::hexadecimal::bytes_of;
use anyhow::bail;
use native_layout::Enc;
use std::alloc::Global;
use string_images::{from_utf8, inline_text, to_utf8z, to_utf16z};

pub fn print(rt: &HostRuntime, words: &[&str]) -> anyhow::Result<bool> {
    let alloc = rt.alloc();
    match words {
        ["utf8z", text] => {
            print_bytes(
                rt,
                to_utf8z(alloc, units_of(alloc, text)?.as_slice())?.as_slice(),
            )?
        }
        ["utf16z", text] => {
            print_bytes(
                rt,
                to_utf16z(alloc, units_of(alloc, text)?.as_slice())?.as_slice(),
            )?
        }
        ["inline", enc, count, text] => {
            let units = units_of(alloc, text)?;
            let bytes = inline_text(alloc, units.as_slice(), enc_of(enc)?, count.parse()?)?;
            print_bytes(rt, bytes.as_slice())?
        }
        ["units", bytes] => print_units(rt, bytes_of(alloc, bytes)?.as_slice())?,
        _ => return Ok(false),
    }
    Ok(true)
}

fn enc_of(word: &str) -> anyhow::Result<Enc> {
    match word {
        "utf8" => Ok(Enc::Utf8),
        "utf16" => Ok(Enc::Utf16),
        _ => bail!("an encoding that is none"),
    }
}

fn units_of(alloc: Global, word: &str) -> anyhow::Result<Vec<u16>> {
    let mut units = Vec::new(alloc);
    for unit in bytes_of(alloc, word)?.chunks_exact(2) {
        if let [high, low] = unit {
            units.push(u16::from_be_bytes([*high, *low]))?;
        }
    }
    Ok(units)
}

fn print_bytes(rt: &HostRuntime, bytes: &[u8]) -> anyhow::Result<()> {
    if bytes.is_empty() {
        println!(rt; "-")?;
    } else {
        println!(rt; "{}", hex::encode(rt.alloc(), bytes)?)?;
    }
    Ok(())
}

fn print_units(rt: &HostRuntime, bytes: &[u8]) -> anyhow::Result<()> {
    let units = from_utf8(rt.alloc(), bytes)?;
    if units.is_empty() {
        print!(rt; "-")?;
    }
    for unit in units.as_slice() {
        print!(rt; "{unit:04x}")?;
    }
    println!(rt)?;
    Ok(())
}
