//! A call of a host function.

ghost use Rattle.std.specs.Prelude.{◌≡◌, ◌<◌, Some, OnOk, IfOk, IfErr, OnErr};
ghost use Rattle.native_heap.specs.Outcome.{FailsBy};
ghost use Rattle.native_heap.specs.Calls.{outcome, called, takes_memory, wants_memory};

use crate::allocation::{calloc, free, malloc, realloc};
use crate::bytes::{memcmp, memmove, memset};
use crate::refusal::HeapBad;
use crate::texts::{strcmp, strcpy, strlen};
use host_functions::{HostFunction, host_function};
use native_memory::Memory;
use std::alloc::Global;

/// The integer registers, of which x10, x11 and x12 are a0, a1 and a2.
pub type Regs0 = [u64; 32];

/// Does the host function of a number, but for the return to `ra`. Its arguments stand in a0, a1 and a2, and its answer goes to
/// a0; all other registers stay. `errno` is the address of the number of the last error, which `__errno_location` answers.
///
/// `Fault` comes exactly where the function isn't defined for its arguments:
/// - `realloc` and `free` where a0 isn't 0 or the base of a live heap block;
/// - `memcpy`, `memmove`, `memset` and `memcmp` where a range can't be read, or can't be written;
/// - `strlen` and `strcpy` where the block has no zero from the text on or can't be read, `strcpy` also where the copy can't be
///   written;
/// - `strcmp` where a byte that it needs can't be read;
/// - `abort` always.
///
/// `Memory` comes where memory for it is wanting: at `malloc` and `calloc`, and `realloc` of 0, only where there is room for the
/// block; at the other functions only where they would be done, and at `free`, `memcmp`, `strlen`, `strcmp`,
/// `__errno_location` and `abort` never. With `Fault` and with `Memory`, registers and memory are as they were.
#[tactic(auto, unfolding(crate::specs::Calls::called))]
pub fn call(
    alloc: Global,
    k: u8,
    regs: &mut Regs0,
    memory: &mut Memory,
    errno: u64,
) -> Result<(), HeapBad>
    ensures ok { OnOk result
        (called k regs.old memory.old.space errno ≡ Some (regs.new, memory.new.space)) }
    ensures err { IfErr result (λ bad.
        FailsBy bad (called k regs.old memory.old.space errno)
        (wants_memory k regs.old memory.old.space)) }
    ensures registers { OnErr result (regs.new ≡ regs.old) }
    ensures memory { OnErr result (memory.new ≡ memory.old) }
{
    let Some(function) = host_function(k) else {
        return Err(HeapBad::Fault);
    };
    let [a, b, c] = [regs[10], regs[11], regs[12]];
    let answer = answer(alloc, function, a, b, c, memory, errno)?;
    regs[10] = answer;
    Ok(())
}

/// Does a host function, and gives its answer.
fn answer(
    alloc: Global,
    function: HostFunction,
    a: u64,
    b: u64,
    c: u64,
    memory: &mut Memory,
    errno: u64,
) -> Result<u64, HeapBad>
    ensures ok { IfOk result (λ answer.
        outcome function a b c memory.old.space errno ≡ Some (answer, memory.new.space)) }
    ensures err { IfErr result (λ bad.
        FailsBy bad (outcome function a b c memory.old.space errno)
        (takes_memory function a b c memory.old.space)) }
    ensures unchanged { OnErr result (memory.new ≡ memory.old) }
{
    match function {
        HostFunction::Malloc => malloc(memory, a),
        HostFunction::Calloc => calloc(memory, a, b),
        HostFunction::Realloc => realloc(alloc, memory, a, b),
        HostFunction::Free => free(memory, a),
        HostFunction::Memcpy | HostFunction::Memmove => memmove(alloc, memory, a, b, c),
        HostFunction::Memset => memset(alloc, memory, a, b, c),
        HostFunction::Memcmp => memcmp(memory, a, b, c),
        HostFunction::Strlen => strlen(memory, a),
        HostFunction::Strcmp => strcmp(memory, a, b),
        HostFunction::Strcpy => strcpy(alloc, memory, a, b),
        HostFunction::ErrnoLocation => Ok(errno),
        HostFunction::Abort => Err(HeapBad::Fault),
    }
}
