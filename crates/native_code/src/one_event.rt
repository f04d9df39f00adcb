//! One event of native code.

ghost use Rattle.std.specs.Prelude.{◌≡◌, ◌≢◌, true};
ghost use Rattle.host_functions.specs.HostFunctions.{number_at};
ghost use Rattle.native_code.specs.Events.{at_place, native_next, wants_at, event_wants};
ghost use Rattle.native_code.specs.EventAnswers.{EventIs};

use host_functions::number_at;
use native_heap::HeapBad;
use native_memory::Memory;
use rv_machine::{Regs, Step, step};
use std::alloc::Global;

/// What native code came to in one event.
#[derive(Clone, Copy, Debug, PartialEq, Eq)]
pub enum Event {
    /// An instruction or a host function was done.
    Went,
    /// `pc` is this place below memory, at which no host function stands. What it means there is
    /// for the caller to say: a return, or a fault.
    Arrived(u64),
    /// The instruction at `pc`, which is this address, faults, or the host function there.
    Faulted(u64),
    /// There is no memory for what the host function at `pc` does.
    Memory,
}

/// Does the instruction or the host function at `pc`. `errno` is the address of the number of the
/// last error.
///
/// Where the answer isn't `Went`, registers and memory are as they were. `Memory` comes only where
/// the host function at `pc` takes some, and native code would go on after it.
#[tactic(auto, unfolding(crate::specs::Events::native_next))]
pub fn native_event(alloc: Global, errno: u64, regs: &mut Regs, memory: &mut Memory) -> Event
    ensures next { EventIs result (native_next errno regs.old memory.old.space)
        regs.new memory.new.space }
    ensures wants { result ≡ Event.Memory → event_wants regs.old memory.old.space ≡ true }
    ensures registers { result ≢ Event.Went → regs.new ≡ regs.old }
    ensures memory { result ≢ Event.Went → memory.new ≡ memory.old }
{
    match step(regs, memory) {
        Step::Went => Event::Went,
        Step::At(place) => arrive(alloc, errno, place, regs, memory),
        Step::Fault(_) => Event::Faulted(regs.pc),
    }
}

/// Does the host function at a place, if one stands there, and returns to `ra`.
fn arrive(alloc: Global, errno: u64, place: u64, regs: &mut Regs, memory: &mut Memory) -> Event
    ensures next { EventIs result
        (at_place errno place regs.old.x memory.old.space (number_at place))
        regs.new memory.new.space }
    ensures wants { result ≡ Event.Memory
        → wants_at regs.old.x memory.old.space (number_at place) ≡ true }
    ensures registers { result ≢ Event.Went → regs.new ≡ regs.old }
    ensures memory { result ≢ Event.Went → memory.new ≡ memory.old }
{
    let Some(k) = number_at(place) else {
        return Event::Arrived(place);
    };
    match native_heap::call(alloc, k, &mut regs.x, memory, errno) {
        Ok(()) => {
            regs.pc = regs.x[1];
            Event::Went
        }
        Err(HeapBad::Fault) => Event::Faulted(place),
        Err(HeapBad::Memory) => Event::Memory,
    }
}
