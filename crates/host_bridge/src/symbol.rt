//! A function of a library, called for itself.

ghost use Rattle.std.specs.Prelude.{◌≡◌, ◌≤◌, length, Ok, IfOk, IfErr};
ghost use Rattle.bound_base.specs.Limits.{standard};
ghost use Rattle.host_bridge.specs.Places.{first_lane};
ghost use Rattle.host_bridge.specs.SymbolRun.{start, symbol_run};
ghost use Rattle.host_bridge.specs.SymbolParts.{EndsBy};

use crate::calls::run_calls;
use bound_base::{Ending, Lane};
use elf_binder::Bound;
use native_memory::Memory;
use std::alloc::Global;

/// The blocks that are placed first: the number of the last error, and the stack.
const LANE: Lane = Lane {
    errno: 0x1_0000,
    stack: 0x1_0020,
};

/// The bytes of the stack.
const STACK: u64 = 1_048_576;

/// Runs the initializers of libraries that are bound in this memory, then the function at `at` with
/// its argument words, and gives a0 as the function left it. The blocks of native code are those
/// that are placed first in memory.
///
/// The errors are those of `run_calls`.
pub fn run_symbol(
    alloc: Global,
    bound: &Bound,
    memory: &mut Memory,
    at: u64,
    words: &[u64],
    fuel: u64,
) -> Result<u64, Ending>
    requires { length words.now ≤ 8 }
    ensures ok { IfOk result (λ answer.
        symbol_run first_lane standard.stack bound.now.inits at words.now fuel memory.old.space
        ≡ record { answer = Ok answer; space = memory.new.space }) }
    ensures err { IfErr result (λ ending.
        EndsBy ending first_lane standard.stack
        (start bound.now.inits at words.now fuel memory.old.space) memory.new.space) }
{
    run_calls(alloc, LANE, STACK, bound.inits(), memory, at, words, fuel)
}
