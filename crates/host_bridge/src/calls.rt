//! Calls of native code that no import makes: the initializers of libraries, and a function.

ghost use Rattle.std.specs.Prelude.{◌≡◌, ◌≤◌, ◌<◌, ◌^◌, ℕ, List, [], ◌∷◌, length, Ok, IfOk, IfErr};
ghost use Rattle.native_code.specs.Entry.{first_sp, stack_top};
ghost use Rattle.host_bridge.specs.SymbolRun.{Call, start, symbol_run};
ghost use Rattle.host_bridge.specs.SymbolParts.{Comes, EndsBy, waiting, running};

use bound_base::{Ending, Lane};
use native_code::{Event, RETURN, entry_registers, first_sp, native_event};
use native_memory::Memory;
use rv_machine::Regs;
use std::alloc::Global;

/// Runs the initializers at `inits` in order, then the function at `at` with its argument words,
/// and gives a0 as the function left it. Each starts with the stack of `stack` bytes empty, `ra` at
/// the return place, and 0 in the other registers.
///
/// Each instruction and each host function is one event, and so are the beginning and the end of
/// each call. `Spent` comes where as many events as `fuel` don't end the run. `InitFault` comes
/// where an instruction or a host function faults before that, or native code comes to a place
/// below memory that no call returns to, and names its address. With either, `memory` is as the
/// last event left it. `Memory` comes where an event wants memory, with which the run would go on
/// there; no other ending comes.
pub fn run_calls(
    alloc: Global,
    lane: Lane,
    stack: u64,
    inits: &[u64],
    memory: &mut Memory,
    at: u64,
    words: &[u64],
    fuel: u64,
) -> Result<u64, Ending>
    requires words { length words.now ≤ 8 }
    requires stack { stack_top lane stack < 2 ^ 64 }
    ensures ok { IfOk result (λ answer.
        symbol_run lane stack inits.now at words.now fuel memory.old.space
        ≡ record { answer = Ok answer; space = memory.new.space }) }
    ensures err { IfErr result (λ ending.
        EndsBy ending lane stack (start inits.now at words.now fuel memory.old.space)
        memory.new.space) }
{
    let mut left = fuel;
    for init in inits {
        run_call(alloc, lane, stack, *init, &[], memory, &mut left)?;
    }
    run_call(alloc, lane, stack, at, words, memory, &mut left)
}

/// Runs one call from its beginning to its end, and gives a0.
fn run_call(
    alloc: Global,
    lane: Lane,
    stack: u64,
    at: u64,
    words: &[u64],
    memory: &mut Memory,
    fuel: &mut u64,
) -> Result<u64, Ending>
    requires words { length words.now ≤ 8 }
    requires stack { stack_top lane stack < 2 ^ 64 }
    ensures { (rest : List Call) (before : ℕ) → Comes lane stack result
        (waiting (record { at = at; words = words.now } ∷ rest) before memory.old.space fuel.old)
        (λ answer. waiting rest answer memory.new.space fuel.new) }
{
    if *fuel == 0 {
        return Err(Ending::Spent);
    }
    *fuel -= 1;
    let regs = entry_registers(at, first_sp(lane, stack), words);
    run_to_return(alloc, lane, regs, memory, fuel)
}

/// Runs native code to the end of its call, and gives a0.
fn run_to_return(
    alloc: Global,
    lane: Lane,
    mut regs: Regs,
    memory: &mut Memory,
    fuel: &mut u64,
) -> Result<u64, Ending>
    ensures { (stack : ℕ) (rest : List Call) (before : ℕ) → Comes lane stack result
        (running regs rest before memory.old.space fuel.old)
        (λ answer. waiting rest answer memory.new.space fuel.new) }
{
    while *fuel > 0 {
        match native_event(alloc, lane.errno, &mut regs, memory) {
            Event::Went => *fuel -= 1,
            Event::Arrived(place) => {
                if place != RETURN {
                    return Err(Ending::InitFault(place));
                }
                *fuel -= 1;
                return Ok(regs.x[10]);
            }
            Event::Faulted(pc) => return Err(Ending::InitFault(pc)),
            Event::Memory => return Err(Ending::Memory),
        }
    }
    Err(Ending::Spent)
}
