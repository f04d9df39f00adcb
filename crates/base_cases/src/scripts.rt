//! A writer and a reader that do what a script says, one turn a call: `3` takes or gives at most three bytes, `i` is
//! interrupted, `f` fails. Past the script's end they take and give nothing.

ghost use Rattle.std.specs.Prelude.{◌≤◌, IfOk};

use crate::numbers::{bytes_of, digits_of};
use bound_base::Sink;
use outside_kit::{StreamSink, read_from};
use std::alloc::Global;
use std::io::{self, ErrorKind, Read, Seek, SeekFrom, Write};
use std::vec::IntoIter;

#[derive(Clone, Copy)]
enum Turn {
    Most(usize),
    Interrupted,
    Fails,
}

/// The turns of a script, in order.
fn turns_of(alloc: Global, script: &str) -> anyhow::Result<Vec<Turn>> {
    let mut turns = Vec::new(alloc);
    for turn in script.split(',') {
        turns.push(match turn {
            "i" => Turn::Interrupted,
            "f" => Turn::Fails,
            most => Turn::Most(most.parse::<usize>()?),
        })?;
    }
    Ok(turns)
}

/// How many bytes the next turn takes or gives of some.
fn next_turn(turns: &mut IntoIter<Turn>, bytes: usize) -> io::Result<usize>
    ensures { IfOk result (λ count. count ≤ bytes) }
{
    match turns.next() {
        None => Ok(0),
        Some(Turn::Most(most)) => Ok(most.min(bytes)),
        Some(Turn::Interrupted) => Err(io::Error::from(ErrorKind::Interrupted)),
        Some(Turn::Fails) => Err(io::Error::from(ErrorKind::StorageFull)),
    }
}

#[derive(Drop)]
struct Writer<'a> {
    turns: IntoIter<Turn>,
    taken: &'a mut Vec<u8>,
}

impl Write for Writer<'_> {
    fn write(&mut self, bytes: &[u8]) -> io::Result<usize> {
        let count = next_turn(&mut self.turns, bytes.len())?;
        self.taken.extend_from_slice(&bytes[..count])?;
        Ok(count)
    }

    fn flush(&mut self) -> io::Result<()> {
        Ok(())
    }
}

#[derive(Drop)]
struct Reader<'a> {
    turns: IntoIter<Turn>,
    rest: &'a [u8],
}

impl Read for Reader<'_> {
    fn read(&mut self, into: &mut [u8]) -> io::Result<usize> {
        let count = next_turn(&mut self.turns, into.len().min(self.rest.len()))?;
        into[..count].copy_from_slice(&self.rest[..count]);
        self.rest = &self.rest[count..];
        Ok(count)
    }
}

impl Seek for Reader<'_> {
    /// From the start alone, which is where it stands.
    fn seek(&mut self, to: SeekFrom) -> io::Result<u64> {
        let SeekFrom::Start(at) = to else {
            return Err(io::Error::from(ErrorKind::Unsupported));
        };
        let skipped = self
            .rest
            .len()
            .min(usize::try_from(at).unwrap_or(usize::MAX));
        self.rest = &self.rest[skipped..];
        Ok(at)
    }
}

pub fn print(rt: &HostRuntime, words: &[&str]) -> anyhow::Result<bool> {
    match words {
        ["stream", script, pieces @ ..] => print_stream(rt, script, pieces)?,
        ["read_from", script, bytes, at] => {
            print_from(
                rt,
                script,
                bytes_of(rt.alloc(), bytes)?.as_slice(),
                at.parse()?,
            )?;
        }
        _ => return Ok(false),
    }
    Ok(true)
}

fn print_stream(rt: &HostRuntime, script: &str, pieces: &[&str]) -> anyhow::Result<()> {
    let mut taken = Vec::new(rt.alloc());
    put_pieces(rt, turns_of(rt.alloc(), script)?, &mut taken, pieces)?;
    println!(rt; "then [{}]", digits_of(rt.alloc(), taken.as_slice())?)?;
    Ok(())
}

/// Puts pieces into a writer that does what the turns say.
fn put_pieces(
    rt: &HostRuntime,
    turns: Vec<Turn>,
    taken: &mut Vec<u8>,
    pieces: &[&str],
) -> anyhow::Result<()> {
    let mut sink = StreamSink::new(Writer {
        turns: turns.into_iter(),
        taken,
    });
    for piece in pieces {
        match sink.put(bytes_of(rt.alloc(), piece)?.as_slice()) {
            Ok(()) => print!(rt; "put, ")?,
            Err(fault) => print!(rt; "{fault}, ")?,
        }
    }
    Ok(())
}

fn print_from(rt: &HostRuntime, script: &str, bytes: &[u8], at: u64) -> anyhow::Result<()> {
    let mut reader = Reader {
        turns: turns_of(rt.alloc(), script)?.into_iter(),
        rest: bytes,
    };
    let mut into = [0u8; 4];
    match read_from(&mut reader, at, &mut into) {
        Ok(count) => print!(rt; "{count} of ")?,
        Err(_) => print!(rt; "cannot read, then ")?,
    }
    println!(rt; "[{}]", digits_of(rt.alloc(), &into)?)?;
    Ok(())
}
