//! Library files that are made from plans.

use anyhow::Context;
use bound_base::{Bytes, Items};
use image_kit::{LibraryPlan, library};
use rv_decode::{Instr, decode};
use std::alloc::Global;

pub fn empty_plan(alloc: Global) -> LibraryPlan {
    LibraryPlan {
        code: Items::new(alloc),
        names: Items::new(alloc),
        bytes: Bytes::new(alloc),
    }
}

/// The instruction of a word.
pub fn instruction(word: &str) -> anyhow::Result<Instr> {
    let word = u32::from_str_radix(word, 16)?;
    decode(word).context("no instruction has the word")
}

/// A jump by an odd distance, which has no word.
pub fn odd_jump() -> Instr {
    Instr::Jal { rd: 0, offset: 3 }
}

/// The plan's file; its size and weight are printed, or that the plan doesn't fit.
pub fn write(
    rt: &(impl Print + AllocGlobal),
    plan: &LibraryPlan,
) -> anyhow::Result<Option<Vec<u8>>> {
    if !plan.fits() {
        println!(rt; "the plan doesn't fit")?;
        return Ok(None);
    }
    let file = library(rt.alloc(), plan)?.into_vec();
    println!(rt; "{} bytes of weight {}", file.len(), weight(&file))?;
    Ok(Some(file))
}

/// A number that all bytes of a file make: 31 times that of those before the last, and the last, modulo 2^32.
fn weight(file: &[u8]) -> u32 {
    let mut weight: u32 = 0;
    for byte in file {
        weight = weight.wrapping_mul(31).wrapping_add(u32::from(*byte));
    }
    weight
}
