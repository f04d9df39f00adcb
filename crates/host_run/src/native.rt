//! The command `native`: a symbol of a library is called with numbers, and what it gives is printed.

ghost use Rattle.std.specs.Prelude.{◌≡◌, ◌≤◌, [], length, Some, IfOk, OnOk, IsSome};
ghost use Rattle.native_memory.specs.Placement.{placed};
ghost use Rattle.bound_base.specs.Limits.{standard};
ghost use Rattle.byte_view.specs.Reading.{Reads};
ghost use Rattle.native_memory.specs.AddressSpace.{data_rights};
ghost use Rattle.elf_reader.specs.Refusals.{refusal};
ghost use Rattle.host_bridge.specs.Places.{first_lane};
ghost use Rattle.host_bridge.specs.SymbolRun.{symbol_run};
ghost use Rattle.host_run.specs.Commands.{IsAnswer};
ghost use Rattle.host_run.specs.Answer.{done};
ghost use Rattle.host_run.specs.Native.{start_space, bound_alone, native_fuel, run_answer, native_of};
ghost use Rattle.bound_base.specs.Put.{Puts, CountsPut};
ghost use Rattle.host_run.specs.Readings.{readings, names_of};
ghost use Rattle.host_run.specs.Called.{of_store, of_sink, Finishes, Obeys};
ghost use Rattle.host_run.specs.Texts.{number_line as line_of};
ghost use Rattle.host_run.specs.declared.command.Command.TheVariants.{Native};

use crate::command::{Word, Words8};
use crate::file_names::file_name;
use crate::files::read_file;
use crate::refusals::{broken_library, ended, no_symbol, unread};
use crate::settled::{Halt, Settled};
use crate::texts::{copy_of, number_line};
use bound_base::{Bytes, NoMemory, PutError, Sink, Store, standard_limits};
use elf_binder::{BindBad, Bound, bind};
use elf_reader::{ElfBad, read_elf};
use host_bridge::run_symbol;
use native_memory::{DATA_RIGHTS, Kind, Memory, PlaceBad};
use std::alloc::Global;
use std::slice::from_ref;

/// The most events of the call and of the initializers before it.
const FUEL: u64 = 10_000_000;

/// The command `native` of a library: its symbol is called with the numbers, and a line with what it gives is put.
pub fn native<S: Store, O: Sink>(
    alloc: Global,
    lib: Word,
    symbol: Word,
    numbers: &Words8,
    store: &mut S,
    out: &mut O,
) -> Result<Settled, Halt>
    requires { length numbers.now ≤ 8 }
    ensures { Obeys (IsAnswer (Some (Native lib symbol numbers.now)) [])
        (names_of (readings (Some (Native lib symbol numbers.now)) [])) result
        (of_store (S.held store.old) (S.held store.new) (S.faults store.old) (S.faults store.new))
        (of_sink (O.contents out.old) (O.contents out.new) (O.faults out.old) (O.faults out.new)) }
{
    match read_file(alloc, lib.as_str(), store) {
        Ok(bytes) => call_in(alloc, &lib, &symbol, numbers.as_slice(), &bytes, out),
        Err(error) => unread(alloc, lib, error),
    }
}

/// Calls a symbol of a library with the numbers, after the library's initializers, and puts what it gives. `bytes` are those
/// of the library's file.
fn call_in<O: Sink>(
    alloc: Global,
    lib: &Word,
    symbol: &Word,
    numbers: &[u64],
    bytes: &Bytes,
    out: &mut O,
) -> Result<Settled, Halt>
    requires { length numbers.now ≤ 8 }
    ensures { Finishes (native_of lib.now symbol.now numbers.now bytes.now) result
        (of_sink (O.contents out.old) (O.contents out.new) (O.faults out.old) (O.faults out.new)) }
{
    let name = copy_of(alloc, file_name(lib.as_bytes()))?;
    let mut memory = start_memory(alloc)?;
    match bind_alone(alloc, &name, bytes, &mut memory) {
        Ok(bound) => match bound.symbol(0, symbol.as_bytes()) {
            Some(at) => call(alloc, &bound, &mut memory, at, numbers, out),
            None => no_symbol(alloc, symbol),
        },
        Err(error) => broken_library(alloc, lib, error),
    }
}

/// Calls native code at an address, after the initializers, and puts what it gives.
fn call<O: Sink>(
    alloc: Global,
    bound: &Bound,
    memory: &mut Memory,
    at: u64,
    numbers: &[u64],
    out: &mut O,
) -> Result<Settled, Halt>
    requires { length numbers.now ≤ 8 }
    ensures { Finishes
        (run_answer (symbol_run first_lane standard.stack bound.now.inits at numbers.now native_fuel
        memory.old.space).answer) result
        (of_sink (O.contents out.old) (O.contents out.new) (O.faults out.old) (O.faults out.new)) }
{
    match run_symbol(alloc, bound, memory, at, numbers, FUEL) {
        Ok(number) => put_result(alloc, number, out),
        Err(ending) => ended(alloc, ending),
    }
}

/// Puts a line with a number, which is all of the answer.
fn put_result<O: Sink>(alloc: Global, number: u64, out: &mut O) -> Result<Settled, Halt>
    ensures { Finishes (done (line_of number)) result
        (of_sink (O.contents out.old) (O.contents out.new) (O.faults out.old) (O.faults out.new)) }
{
    put_number(alloc, number, out)?;
    Ok(Settled::done(alloc))
}

/// Puts a line with a number.
fn put_number<O: Sink>(alloc: Global, number: u64, out: &mut O) -> Result<(), PutError>
    ensures puts { Puts (line_of number) result (O.contents out.old) (O.contents out.new) }
    ensures counted { CountsPut result (O.faults out.old) (O.faults out.new) }
    ensures count { O.faults out.old ≤ O.faults out.new }
{
    let line = number_line(alloc, number)?;
    out.put(line.as_slice())?;
    Ok(())
}

/// A library that is bound under a name, without others; or its first broken part.
#[tactic(auto, unfolding(crate::specs::Native::bound_alone))]
fn bind_alone(
    alloc: Global,
    name: &Bytes,
    bytes: &Bytes,
    memory: &mut Memory,
) -> Result<Bound, ElfBad>
    ensures { Reads refusal (λ bound. (bound, memory.new.space)) result
        (bound_alone memory.old.space name.now bytes.now) }
{
    let elf = read_elf(alloc, bytes.as_slice())?;
    match bind(
        alloc,
        from_ref(&elf),
        from_ref(bytes),
        from_ref(name),
        memory,
    ) {
        Ok(bound) => Ok(bound),
        Err(BindBad::BadLib { part, at, .. }) => Err(ElfBad::BadElf { part, at }),
        Err(BindBad::Memory) => Err(ElfBad::Memory),
    }
}

/// Memory with the blocks that stand first: the number of the last error, and the stack.
fn start_memory(alloc: Global) -> Result<Memory, NoMemory>
    ensures { IfOk result (λ memory. memory.space ≡ start_space) }
{
    let limits = standard_limits();
    let mut memory = Memory::new(alloc, limits.native);
    place_first(&mut memory, 4, Kind::Errno)?;
    place_first(&mut memory, limits.stack, Kind::Stack)?;
    Ok(memory)
}

/// Places a block that has room, for data.
fn place_first(memory: &mut Memory, size: u64, kind: Kind) -> Result<(), NoMemory>
    requires { IsSome (placed memory.old.space size data_rights kind) }
    ensures { OnOk result (placed memory.old.space size data_rights kind ≡ Some memory.new.space) }
{
    match memory.place(size, DATA_RIGHTS, kind) {
        Ok(_) => Ok(()),
        Err(PlaceBad::Room) => unreachable!(),
        Err(PlaceBad::Memory) => Err(NoMemory),
    }
}
