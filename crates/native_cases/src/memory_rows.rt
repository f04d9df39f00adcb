//! Cases of blocks and ranges.

use crate::words::{bytes_of, kind, number, print_bytes, print_fault, rights};
use anyhow::ensure;
use bound_base::Rights;
use native_memory::{Fault, Memory, PlaceBad};

/// Changes memory where the verb does, and tells whether it is one that does.
pub fn change(
    rt: &(impl Print + AllocGlobal),
    memory: &mut Memory,
    words: &[&str],
) -> anyhow::Result<bool> {
    match *words {
        ["place", size, may, for_what] => {
            let placed = memory.place(number(size)?, rights(may), kind(for_what)?);
            print_placed(rt, placed)?;
        }
        ["place_at", base, size, may, bytes] => {
            let bytes = bytes_of(rt.alloc(), bytes)?;
            place_at(
                rt,
                memory,
                [number(base)?, number(size)?],
                rights(may),
                &bytes,
            )?;
        }
        ["end", base] => print_told(rt, memory.end(number(base)?))?,
        ["write", addr, bytes] => {
            print_written(
                rt,
                memory.write(number(addr)?, &bytes_of(rt.alloc(), bytes)?),
            )?
        }
        _ => return Ok(false),
    }
    Ok(true)
}

fn place_at(
    rt: &impl Print,
    memory: &mut Memory,
    [base, size]: [u64; 2],
    rights: Rights,
    bytes: &[u8],
) -> anyhow::Result<()> {
    ensure!(memory.edge() <= base, "a base below the edge");
    ensure!(bytes.len() as u64 <= size, "more bytes than the block has");
    let placed = memory.place_at(base, bytes, size, rights);
    print_placed(rt, placed.map(|()| base))
}

fn print_told(rt: &impl Print, told: bool) -> anyhow::Result<()> {
    print!(rt; " = {told}")?;
    Ok(())
}

fn print_written(rt: &impl Print, written: Result<(), Fault>) -> anyhow::Result<()> {
    match written {
        Ok(()) => print!(rt; " = done")?,
        Err(fault) => print_fault(rt, fault)?,
    }
    Ok(())
}

fn print_placed(rt: &impl Print, placed: Result<u64, PlaceBad>) -> anyhow::Result<()> {
    match placed {
        Ok(base) => print!(rt; " = {base:x}")?,
        Err(bad) => print!(rt; " = {bad}")?,
    }
    Ok(())
}

/// Looks at memory where the verb does, and tells whether it is one that does.
pub fn look(
    rt: &(impl Print + AllocGlobal),
    memory: &Memory,
    words: &[&str],
) -> anyhow::Result<bool> {
    match *words {
        ["state"] => print_state(rt, memory)?,
        ["block", base] => print_block(rt, memory, number(base)?)?,
        ["read", addr, len] => print_read(rt, memory, number(addr)?, number(len)?)?,
        ["contents", addr, len] => print_bytes(rt, memory.contents(number(addr)?, number(len)?))?,
        ["rest", addr] => print_bytes(rt, memory.rest(number(addr)?))?,
        ["heap_contents", base] => print_bytes(rt, memory.heap_contents(number(base)?))?,
        ["fetch", pc] => print_fetched(rt, memory.fetch(number(pc)?))?,
        ["holds", addr, len, used] => {
            print_told(
                rt,
                memory.holds(number(addr)?, number(len)?, used == "write"),
            )?
        }
        _ => return Ok(false),
    }
    Ok(true)
}

fn print_read(
    rt: &(impl Print + AllocGlobal),
    memory: &Memory,
    addr: u64,
    len: u64,
) -> anyhow::Result<()> {
    let mut into = vec![in rt.alloc(); 0xFFu8; len as usize]?;
    match memory.read(addr, &mut into) {
        Ok(()) => print_bytes(rt, Some(&into)),
        Err(fault) => print_fault(rt, fault),
    }
}

fn print_fetched(rt: &impl Print, fetched: Result<u32, Fault>) -> anyhow::Result<()> {
    match fetched {
        Ok(word) => print!(rt; " = {word:08x}")?,
        Err(fault) => print_fault(rt, fault)?,
    }
    Ok(())
}

fn print_state(rt: &impl Print, memory: &Memory) -> anyhow::Result<()> {
    let (next, edge, live) = (memory.next(), memory.edge(), memory.live());
    let (heap, written, here) = (memory.heap(), memory.written(), memory.all_here());
    print!(rt; " = next {next:x}, edge {edge:x}, {live} live, {heap} heap blocks")?;
    print!(rt; ", {written} written, all here {here}")?;
    Ok(())
}

fn print_block(rt: &impl Print, memory: &Memory, base: u64) -> anyhow::Result<()> {
    match memory.block_at(base) {
        Some((size, Rights { r, w, x }, kind)) => {
            print!(rt; " = {size} bytes, r {r}, w {w}, x {x}, {kind:?}")?;
        }
        None => print!(rt; " = none")?,
    }
    Ok(())
}
