//! Calls of `host`.

use crate::setting::{Bounds, Setting};
use crate::words::words_of;
use bound_base::Items;
use host_run::host;
use outside_kit::{MemSink, MemStore};
use std::alloc::Global;

/// What a call gave: the status, and both streams.
#[derive(Drop)]
struct Given {
    status: u8,
    out: MemSink,
    err: MemSink,
}

fn one_call(alloc: Global, number: Option<u64>) -> anyhow::Result<Items<u64>> {
    let mut calls = Items::new(alloc);
    if let Some(number) = number {
        calls.push(number)?;
    }
    Ok(calls)
}

fn sink(alloc: Global, room: usize, failing: Option<u64>) -> anyhow::Result<MemSink> {
    let mut sink = MemSink::new(alloc, room)?;
    sink.fail(one_call(alloc, failing)?);
    Ok(sink)
}

/// Calls `host` with the words of a row after its first, over the file, if it is held.
fn call(
    alloc: Global,
    row: &str,
    name: &str,
    file: Option<&[u8]>,
    bounds: &Bounds,
) -> anyhow::Result<Given> {
    let words = words_of(alloc, row)?;
    let mut store = MemStore::new(alloc);
    if let Some(bytes) = file {
        store.hold(name, bytes)?;
    }
    store.fail(one_call(alloc, bounds.read)?);
    let mut out = sink(alloc, bounds.out_room, bounds.out)?;
    let mut err = sink(alloc, bounds.err_room, bounds.err)?;
    let status = host(alloc, &words, &mut store, &mut out, &mut err);
    Ok(Given { status, out, err })
}

/// Prints what a call gives.
pub fn print_call(
    rt: &(impl Print + AllocGlobal),
    setting: &mut Setting,
    row: &str,
) -> anyhow::Result<()> {
    let alloc = rt.alloc();
    let bounds = setting.take_bounds();
    let given = call(alloc, row, setting.name.as_str(), setting.held(), &bounds)?;
    print!(rt; "{row} = {} [", given.status)?;
    print_bytes(rt, given.out.bytes())?;
    print!(rt; "] [")?;
    print_bytes(rt, given.err.bytes())?;
    println!(rt; "]")?;
    Ok(())
}

/// Prints bytes, those that don't show in hexadecimal.
fn print_bytes(rt: &impl Print, bytes: &[u8]) -> anyhow::Result<()> {
    for byte in bytes {
        match *byte {
            b' '..=b'~' => print!(rt; "{}", char::from(*byte))?,
            _ => print!(rt; "\\{byte:02x}")?,
        }
    }
    Ok(())
}

/// Prints how many proper fronts of the file have the status of the empty one, put nothing on out, and are answered alike
/// twice.
pub fn print_fronts(
    rt: &(impl Print + AllocGlobal),
    setting: &Setting,
    row: &str,
) -> anyhow::Result<()> {
    let alloc = rt.alloc();
    let name = setting.name.as_str();
    let bounds = Bounds::none();
    let status = call(alloc, row, name, Some(&[]), &bounds)?.status;
    let mut alike = 0u64;
    for len in 0..setting.file.len() {
        let front = setting.file.get(..len);
        let once = call(alloc, row, name, front, &bounds)?;
        let again = call(alloc, row, name, front, &bounds)?;
        let same = once.status == again.status && once.err.bytes() == again.err.bytes();
        if same && once.status == status && once.out.bytes().is_empty() {
            alike = alike.saturating_add(1);
        }
    }
    println!(rt; "{row} = {alike} of {} with {status}", setting.file.len())?;
    Ok(())
}
