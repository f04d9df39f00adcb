//! What runs and events answer.

use anyhow::bail;
use bound_base::{Ending, Lane};
use elf_binder::bind;
use host_bridge::{run_calls, run_symbol};
use native_code::{Event, entry_registers, first_sp, native_event};
use native_memory::Memory;
use rv_machine::Regs;

/// The most argument words of a run.
const MOST_WORDS: usize = 8;

/// The blocks that are placed first, and the bytes of the stack.
const LANE: Lane = Lane {
    errno: 0x1_0000,
    stack: 0x1_0020,
};

const STACK: u64 = 1 << 20;

/// Runs a function with argument words, where no library is bound.
pub fn run(
    rt: &(impl Print + AllocGlobal),
    memory: &mut Memory,
    at: u64,
    arguments: &[u64],
    fuel: u64,
) -> anyhow::Result<()> {
    if arguments.len() > MOST_WORDS {
        bail!("too many words");
    }
    let bound = bind(rt.alloc(), &[], &[], &[], memory)?;
    let answer = run_symbol(rt.alloc(), &bound, memory, at, arguments, fuel);
    print_answer(rt, answer)
}

/// Runs a function without arguments, after initializers.
pub fn run_with_initializers(
    rt: &(impl Print + AllocGlobal),
    memory: &mut Memory,
    inits: &[u64],
    at: u64,
    fuel: u64,
) -> anyhow::Result<()> {
    let answer = run_calls(rt.alloc(), LANE, STACK, inits, memory, at, &[], fuel);
    print_answer(rt, answer)
}

/// Prints the number that a run gave, or how it ended.
fn print_answer(rt: &impl Print, answer: Result<u64, Ending>) -> anyhow::Result<()> {
    match answer {
        Ok(number) => print!(rt; ": {number:#x}")?,
        Err(Ending::Spent) => print!(rt; ": out of fuel")?,
        Err(Ending::InitFault(pc)) => print!(rt; ": fault at {pc:#x}")?,
        Err(Ending::Memory) => print!(rt; ": out of memory")?,
        Err(ending) => print!(rt; ": {ending:?}")?,
    }
    Ok(())
}

/// Prints what two events come to, from the entry at an address on.
pub fn print_events(
    rt: &(impl Print + AllocGlobal),
    memory: &mut Memory,
    at: u64,
    errno: u64,
    arguments: &[u64],
) -> anyhow::Result<()> {
    if arguments.len() > MOST_WORDS {
        bail!("too many words");
    }
    let mut regs = entry_registers(at, first_sp(LANE, STACK), arguments);
    print_event(rt, memory, errno, &mut regs)?;
    print_event(rt, memory, errno, &mut regs)
}

fn print_event(
    rt: &(impl Print + AllocGlobal),
    memory: &mut Memory,
    errno: u64,
    regs: &mut Regs,
) -> anyhow::Result<()> {
    match native_event(rt.alloc(), errno, regs, memory) {
        Event::Went => print!(rt; ": went to {:#x}, a0 is {:#x}", regs.pc, regs.x[10])?,
        Event::Arrived(place) => print!(rt; ": arrived at {place:#x}")?,
        Event::Faulted(pc) => print!(rt; ": fault at {pc:#x}")?,
        Event::Memory => print!(rt; ": out of memory")?,
    }
    Ok(())
}
