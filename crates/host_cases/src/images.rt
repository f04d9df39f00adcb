//! Small libraries.

use anyhow::{Context, bail};
use bound_base::{Bytes, Items};
use image_kit::{LibraryPlan, NamedPlace, library};
use rv_decode::{Instr, decode};
use std::alloc::Global;

/// The file of a library: its one symbol, which stands at the first instruction, how many zero bytes come after the code,
/// and the code's words in hexadecimal.
pub fn library_of(alloc: Global, row: &str) -> anyhow::Result<Vec<u8>> {
    let mut words = row.split(' ');
    let mut plan = LibraryPlan {
        code: Items::new(alloc),
        names: Items::new(alloc),
        bytes: Bytes::new(alloc),
    };
    let mut name = Bytes::new(alloc);
    name.extend_from_slice(words.next().context("a symbol is missing")?.as_bytes())?;
    plan.names.push(NamedPlace { name, offset: 0 })?;
    let spare = words.next().context("a number is missing")?;
    for _ in 0..spare.parse::<u16>()? {
        plan.bytes.push(0)?;
    }
    for word in words {
        plan.code.push(instruction(word)?)?;
    }
    if !plan.fits() {
        bail!("the plan doesn't fit");
    }
    Ok(library(alloc, &plan)?.into_vec())
}

fn instruction(digits: &str) -> anyhow::Result<Instr> {
    decode(u32::from_str_radix(digits, 16)?).context("no instruction")
}
