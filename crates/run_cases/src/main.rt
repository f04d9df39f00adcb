//! Reads cases, one a line of stdin, and prints each with what `host_bridge` or `native_code`
//! answers. A line is a verb and its words, and a number is decimal, or hexadecimal after 0x. A
//! line that has none of the verbs is printed as it is. And it shows by `countdown` that the laws of runs can be had of a machine.
//!
//! - `memory`: native memory anew, with the blocks that are placed first, and 1,024 bytes of zeros at 0x120000 that may be
//!   read, written and executed.
//! - `code AT WORD..`: writes instruction words.
//! - `run AT FUEL WORD..`: `run_symbol` with argument words, where no library is bound.
//! - `init AT FUEL ADDRESS..`: `run_calls` with initializers, and without argument words.
//! - `event AT ERRNO WORD..`: one event from the entry at an address with argument words, and another from where it led.
#![tactic(auto)]

mod answers;
mod countdown;
mod words;

use answers::{print_events, run, run_with_initializers};
use bound_base::Rights;
use native_memory::{DATA_RIGHTS, Kind, Memory};
use std::alloc::Global;
use std::io::{BufRead, BufReader};
use words::{number, numbers};

const ALL: Rights = Rights {
    r: true,
    w: true,
    x: true,
};

/// Where code and data stand, and how many bytes they have.
const CODE: u64 = 0x12_0000;

const SIZE: u64 = 0x400;

fn main(rt: HostRuntime) -> anyhow::Result<()> {
    countdown::laws_hold();
    let mut memory = started(rt.alloc())?;
    for line in BufReader::new(rt.alloc(), rt.reader())?.lines(rt.alloc()) {
        let line = line?;
        let words: Vec<&str> = line.split_whitespace().collect(rt.alloc())?;
        print!(rt; "{line}")?;
        answer(&rt, &mut memory, &words)?;
        println!(rt; "")?;
    }
    Ok(())
}

/// Prints what a call answers, and nothing where the verb is none. The memory stays from line to
/// line.
fn answer(
    rt: &(impl Print + AllocGlobal),
    memory: &mut Memory,
    words: &[&str],
) -> anyhow::Result<()> {
    match *words {
        ["memory"] => *memory = started(rt.alloc())?,
        ["code", at, ..] => write_code(memory, number(at)?, &numbers(rt.alloc(), &words[2..])?)?,
        ["run", at, fuel, ..] => {
            let arguments = numbers(rt.alloc(), &words[3..])?;
            run(rt, memory, number(at)?, &arguments, number(fuel)?)?;
        }
        ["init", at, fuel, ..] => {
            let inits = numbers(rt.alloc(), &words[3..])?;
            run_with_initializers(rt, memory, &inits, number(at)?, number(fuel)?)?;
        }
        ["event", at, errno, ..] => {
            let arguments = numbers(rt.alloc(), &words[3..])?;
            print_events(rt, memory, number(at)?, number(errno)?, &arguments)?;
        }
        _ => {}
    }
    Ok(())
}

/// Memory with the first blocks, and a segment for code and data.
fn started(alloc: Global) -> anyhow::Result<Memory> {
    let mut memory = Memory::new(alloc, 1 << 24);
    memory.place(4, DATA_RIGHTS, Kind::Errno)?;
    memory.place(1 << 20, DATA_RIGHTS, Kind::Stack)?;
    if CODE < memory.edge() {
        anyhow::bail!("the segment's place is taken");
    }
    memory.place_at(CODE, &[], SIZE, ALL)?;
    Ok(memory)
}

/// Writes instruction words from an address on.
fn write_code(memory: &mut Memory, at: u64, code: &[u64]) -> anyhow::Result<()> {
    let mut to = at;
    for word in code {
        let word = u32::try_from(*word)?;
        memory.write(to, &word.to_le_bytes())?;
        to = to.wrapping_add(4);
    }
    Ok(())
}
