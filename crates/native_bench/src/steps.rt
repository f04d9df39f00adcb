//! Ten million steps of the machine, in a loop of ten instructions.

use crate::rights::CODE;
use anyhow::ensure;
use native_memory::{DATA_RIGHTS, Kind, Memory};
use rv_machine::{Regs, Step, step};
use std::alloc::Global;

const STEPS: u64 = 10_000_000;

/// How often the loop runs: until the last step.
const TURNS: u64 = 1_000_000;

/// What the hash is multiplied by, that of FNV-1a.
const FACTOR: u64 = 0x100_0000_01B3;

const STACK: u64 = 1 << 20;

/// Numbers of registers, by their names in the calling convention.
const SP: usize = 2;

const A0: usize = 10;

const A2: usize = 12;

const A3: usize = 13;

/// a1 counts from 0 to a2. Each turn adds a1 to one of 64 words at sp, in turn, and mixes the sum into a0.
const LOOP: [u32; 10] = [
    0x03F5_F293, // andi t0, a1, 63
    0x0032_9293, // slli t0, t0, 3
    0x0022_82B3, // add t0, t0, sp
    0x0002_B303, // ld t1, 0(t0)
    0x00B3_0333, // add t1, t1, a1
    0x0062_B023, // sd t1, 0(t0)
    0x0065_4533, // xor a0, a0, t1
    0x02D5_0533, // mul a0, a0, a3
    0x0015_8593, // addi a1, a1, 1
    0xFCC5_9EE3, // bne a1, a2, -36
];

/// Prints what stands in a0 after all steps.
pub fn print(rt: &(impl Print + AllocGlobal)) -> anyhow::Result<()> {
    let mut memory = Memory::new(rt.alloc(), 1 << 30);
    let mut regs = start(rt.alloc(), &mut memory)?;
    for _ in 0..STEPS {
        ensure!(step(&mut regs, &mut memory) == Step::Went, "a step faults");
    }
    println!(rt; "{STEPS} steps, a0 {:016x}", regs.x[A0])?;
    Ok(())
}

/// Places the loop and a stack, and gives the registers before the first step.
fn start(alloc: Global, memory: &mut Memory) -> anyhow::Result<Regs> {
    let mut code = Vec::new(alloc);
    for word in &LOOP {
        code.extend_from_slice(&word.to_le_bytes())?;
    }
    let pc = memory.edge();
    memory.place_at(pc, code.as_slice(), code.len() as u64, CODE)?;
    let mut x = [0; 32];
    x[SP] = memory.place(STACK, DATA_RIGHTS, Kind::Stack)?;
    x[A2] = TURNS;
    x[A3] = FACTOR;
    Ok(Regs { pc, x })
}
