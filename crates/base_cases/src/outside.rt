//! A store and a sink in memory, which go from case to case, and files beside the program. Names are words, contents are in
//! hexadecimal.

use crate::numbers::{bytes_of, digits_of};
use bound_base::{Sink, Store};
use outside_kit::{Bytes64, FileStore, MemSink, MemStore};

/// The most bytes that a case reads.
const MOST: usize = 16;

#[derive(Drop)]
pub struct Outside {
    store: MemStore,
    sink: MemSink,
    files: FileStore<HostRuntime>,
}

impl Outside {
    /// Nothing held, and a sink with room for 5 bytes.
    pub fn new(rt: &HostRuntime) -> anyhow::Result<Outside> {
        Ok(Outside {
            store: MemStore::new(rt.alloc()),
            sink: MemSink::new(rt.alloc(), 5)?,
            files: FileStore::new(rt.clone()?),
        })
    }

    pub fn print(&mut self, rt: &HostRuntime, words: &[&str]) -> anyhow::Result<bool> {
        match words {
            ["hold", name, bytes] => self.hold(rt, name, bytes)?,
            ["reads_fail", numbers @ ..] => {
                self.store.fail(calls(rt, numbers)?);
                println!(rt; "reads {numbers:?} fail")?;
            }
            ["read", name, at, size] => print_read(rt, &mut self.store, name, at, size)?,
            ["read_file", name, at, size] => print_read(rt, &mut self.files, name, at, size)?,
            ["writes_fail", numbers @ ..] => {
                self.sink.fail(calls(rt, numbers)?);
                println!(rt; "writes {numbers:?} fail")?;
            }
            ["put", bytes] => self.put(rt, bytes_of(rt.alloc(), bytes)?.as_slice())?,
            _ => return Ok(false),
        }
        Ok(true)
    }

    fn hold(&mut self, rt: &HostRuntime, name: &str, bytes: &str) -> anyhow::Result<()> {
        self.store
            .hold(name, bytes_of(rt.alloc(), bytes)?.as_slice())?;
        println!(rt; "held")?;
        Ok(())
    }

    fn put(&mut self, rt: &HostRuntime, bytes: &[u8]) -> anyhow::Result<()> {
        match self.sink.put(bytes) {
            Ok(()) => print!(rt; "put")?,
            Err(fault) => print!(rt; "{fault}")?,
        }
        println!(rt; ", then [{}]", digits_of(rt.alloc(), self.sink.bytes())?)?;
        Ok(())
    }
}

fn calls(rt: &HostRuntime, numbers: &[&str]) -> anyhow::Result<Bytes64> {
    let mut calls = Bytes64::new(rt.alloc());
    for number in numbers {
        calls.push(number.parse::<u64>()?)?;
    }
    Ok(calls)
}

/// Reads into as many zeros as the size says, 16 at most, and prints the answer and what stands there then.
fn print_read<S: Store>(
    rt: &HostRuntime,
    store: &mut S,
    name: &str,
    at: &str,
    size: &str,
) -> anyhow::Result<()> {
    let at = at.parse::<u64>()?;
    let mut into = [0u8; MOST];
    let size = size.parse::<usize>()?.min(MOST);
    match store.read(name, at, &mut into[..size]) {
        Ok(count) => print!(rt; "{count} of ")?,
        Err(fault) => print!(rt; "{fault}, then ")?,
    }
    println!(rt; "[{}]", digits_of(rt.alloc(), &into[..size])?)?;
    Ok(())
}
