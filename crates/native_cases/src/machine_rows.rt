//! Cases of single steps.

use crate::words::{number, print_fault};
use bound_base::Rights;
use native_memory::{Memory, PlaceBad};
use rv_machine::{Regs, Step, step};
use std::alloc::Global;

/// Where the instruction stands.
const CODE: u64 = 0x1_0000;

/// What all registers hold but x10 and x11, x0 too.
const OTHERS: u64 = 7;

/// Answers where the verb is one of these, and tells whether it is: `step WORD A B` executes an instruction with two words in
/// x10 and x11, and `step_at PC WORD A B` the same with another pc. It leaves the memory after the step.
pub fn answer(
    rt: &(impl Print + AllocGlobal),
    memory: &mut Memory,
    words: &[&str],
) -> anyhow::Result<bool> {
    match *words {
        ["step", word, a, b] => {
            *memory = memory_with(rt.alloc(), number(word)?)?;
            print_step(rt, memory, registers(CODE, number(a)?, number(b)?))?;
        }
        ["step_at", pc, word, a, b] => {
            *memory = memory_with(rt.alloc(), number(word)?)?;
            print_step(rt, memory, registers(number(pc)?, number(a)?, number(b)?))?;
        }
        _ => return Ok(false),
    }
    Ok(true)
}

/// Memory with one word at `CODE`, the bytes 80 to 87 from `CODE` + 5 on, and zeros up to `CODE` + 64, all in one block that may
/// be read, written and executed.
fn memory_with(alloc: Global, word: u64) -> Result<Memory, PlaceBad> {
    let [a, b, c, d, _, _, _, _] = word.to_le_bytes();
    let bytes = [
        a, b, c, d, 0, 0x80, 0x81, 0x82, 0x83, 0x84, 0x85, 0x86, 0x87,
    ];
    let rights = Rights {
        r: true,
        w: true,
        x: true,
    };
    let mut memory = Memory::new(alloc, 4096);
    memory.place_at(CODE, &bytes, 64, rights)?;
    Ok(memory)
}

fn registers(pc: u64, a: u64, b: u64) -> Regs {
    let mut x = [OTHERS; 32];
    x[10] = a;
    x[11] = b;
    Regs { pc, x }
}

/// Prints what a step comes to, the pc after it, and the registers that it changed.
fn print_step(rt: &impl Print, memory: &mut Memory, mut regs: Regs) -> anyhow::Result<()> {
    let before = regs.x;
    match step(&mut regs, memory) {
        Step::Went => print!(rt; " = went")?,
        Step::At(place) => print!(rt; " = at {place:x}")?,
        Step::Fault(fault) => print_fault(rt, fault)?,
    }
    print!(rt; ", pc {:x}", regs.pc)?;
    for number in 0..32 {
        if regs.x[number] != before[number] {
            print!(rt; ", x{number} {:x}", regs.x[number])?;
        }
    }
    Ok(())
}
