//! Reads cases, one a line of stdin, and prints each with what `native_memory`, `native_heap` or `rv_machine` answers. A line is
//! a verb and its words: numbers are decimal, or hexadecimal after 0x; bytes are in hexadecimal, and `-` is none. Addresses,
//! bases and answers of host functions are printed in hexadecimal, counts in decimal. A line that has none of the verbs is
//! printed as it is.
#![tactic(auto)]

mod heap_rows;
mod in_place_rows;
mod machine_rows;
mod memory_rows;
mod words;

use native_memory::Memory;
use std::io::{BufRead, BufReader};
use words::number;

fn main(rt: HostRuntime) -> anyhow::Result<()> {
    let mut memory = Memory::new(rt.alloc(), 0);
    for line in BufReader::new(rt.alloc(), rt.reader())?.lines(rt.alloc()) {
        let line = line?;
        let words: Vec<&str> = line.split_whitespace().collect(rt.alloc())?;
        print!(rt; "{line}")?;
        let _ = answer(&rt, &mut memory, &words)?;
        println!(rt; "")?;
    }
    Ok(())
}

/// Prints what a call answers, and tells whether the line has one of the verbs. The memory stays from line to line.
fn answer(
    rt: &(impl Print + AllocGlobal),
    memory: &mut Memory,
    words: &[&str],
) -> anyhow::Result<bool> {
    if let ["memory", limit] = *words {
        *memory = Memory::new(rt.alloc(), number(limit)?);
        return Ok(true);
    }
    Ok(
        memory_rows::change(rt, memory, words)?
            || memory_rows::look(rt, memory, words)?
            || in_place_rows::answer(rt, memory, words)?
            || heap_rows::answer(rt, memory, words)?
            || machine_rows::answer(rt, memory, words)?,
    )
}
