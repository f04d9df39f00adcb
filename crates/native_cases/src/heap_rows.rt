//! Cases of host functions.

use crate::words::{bytes_of, kind, number};
use anyhow::bail;
use host_functions::number_named;
use native_heap::{HeapBad, Regs0, call};
use native_memory::{DATA_RIGHTS, Memory};

/// Where the number of the last error stands.
const ERRNO: u64 = 0x1_0000;

/// What all registers hold but those of the arguments.
const OTHERS: u64 = 7;

/// Answers where the verb is one of these, and tells whether it is.
pub fn answer(
    rt: &(impl Print + AllocGlobal),
    memory: &mut Memory,
    words: &[&str],
) -> anyhow::Result<bool> {
    match *words {
        ["new", for_what, bytes] => {
            let bytes = bytes_of(rt.alloc(), bytes)?;
            let base = memory.place(bytes.len() as u64, DATA_RIGHTS, kind(for_what)?)?;
            memory.write(base, &bytes)?;
            print!(rt; " = {base:x}")?;
        }
        ["call", name, a, b, c] => {
            print_call(rt, memory, name, [number(a)?, number(b)?, number(c)?])?;
        }
        _ => return Ok(false),
    }
    Ok(true)
}

/// Prints the answer of a host function, and whether it changed another register.
fn print_call(
    rt: &(impl Print + AllocGlobal),
    memory: &mut Memory,
    name: &str,
    args: [u64; 3],
) -> anyhow::Result<()> {
    let Some(k) = number_named(name.as_bytes()) else {
        bail!("no such function");
    };
    let mut regs: Regs0 = [OTHERS; 32];
    regs[10] = args[0];
    regs[11] = args[1];
    regs[12] = args[2];
    let before = regs;
    let done = call(rt.alloc(), k, &mut regs, memory, ERRNO);
    let answer = regs[10];
    regs[10] = before[10];
    match done {
        Ok(()) => print!(rt; " = {answer:x}")?,
        Err(HeapBad::Fault) => print!(rt; " = fault")?,
        Err(HeapBad::Memory) => print!(rt; " = out of memory")?,
    }
    if regs != before {
        print!(rt; ", other registers changed")?;
    }
    Ok(())
}
