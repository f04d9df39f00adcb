//! Reads of one byte among blocks of one byte.

ghost use Rattle.std.specs.Prelude.{◌<◌, ◌≤◌};

use anyhow::ensure;
use native_memory::{DATA_RIGHTS, Kind, Memory};
use std::alloc::Global;

/// How many blocks on the next read is: a prime, so that all are read in turn.
const STRIDE: u64 = 77_777;

/// The most blocks.
const MOST: u64 = 1_000_000_000;

/// Prints the sum of the bytes that so many reads find among so many blocks, which hold 0, 1 .. 255, 0, 1 ..
pub fn print(rt: &(impl Print + AllocGlobal), blocks: u64, reads: u64) -> anyhow::Result<()> {
    ensure!(0 < blocks && blocks <= MOST, "too few or too many blocks");
    let mut memory = Memory::new(rt.alloc(), blocks);
    let first = memory.next();
    place(&mut memory, blocks)?;
    let sum = sum_of_reads(&memory, first, blocks, reads)?;
    println!(rt; "{blocks} blocks, {reads} reads, sum {sum}")?;
    Ok(())
}

/// Places blocks of one byte. Each stands 32 bytes after the one before.
fn place(memory: &mut Memory, blocks: u64) -> anyhow::Result<()> {
    for number in 0..blocks {
        let base = memory.place(1, DATA_RIGHTS, Kind::Heap)?;
        memory.write(base, &[(number % 256) as u8])?;
    }
    Ok(())
}

fn sum_of_reads(memory: &Memory, first: u64, blocks: u64, reads: u64) -> anyhow::Result<u64>
    requires some { 0 < blocks }
    requires few { blocks ≤ MOST }
    requires first { first ≤ MOST }
{
    let stride = STRIDE % blocks;
    let mut number = 0;
    let mut sum = 0u64;
    for _turn in 0..reads {
        let mut byte = [0];
        memory.read(first + 32 * number, &mut byte)?;
        sum = sum.wrapping_add(u64::from(byte[0]));
        number += stride;
        if number >= blocks {
            number -= blocks;
        }
    }
    Ok(sum)
}
