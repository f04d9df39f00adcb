//! Many blocks, placed and ended.

use native_memory::{DATA_RIGHTS, Kind, Memory};
use std::alloc::Global;

const BLOCKS: u64 = 200_000;

/// Those of Knuth's generator of numbers by chance.
const MULTIPLIER: u64 = 6_364_136_223_846_793_005;

const INCREMENT: u64 = 1_442_695_040_888_963_407;

/// The order in which blocks end, by their age.
#[derive(Clone, Copy)]
pub enum Order {
    OldestFirst,
    NewestFirst,
    Shuffled,
}

impl Order {
    /// The order that a word names.
    pub fn named(word: &str) -> Option<Order> {
        match word {
            "age" => Some(Order::OldestFirst),
            "reverse" => Some(Order::NewestFirst),
            "random" => Some(Order::Shuffled),
            _ => None,
        }
    }
}

/// Prints how many blocks were ended, and how many bytes live then.
pub fn print(rt: &(impl Print + AllocGlobal), order: Order) -> anyhow::Result<()> {
    let mut memory = Memory::new(rt.alloc(), BLOCKS);
    let mut bases = placed(rt.alloc(), &mut memory)?;
    match order {
        Order::OldestFirst => {}
        Order::NewestFirst => bases.reverse(),
        Order::Shuffled => shuffle(&mut bases),
    }
    let ended = count_of_ended(&mut memory, &bases);
    println!(rt; "{ended} ended, {} bytes live", memory.live())?;
    Ok(())
}

/// Places blocks of one byte, and gives their bases.
fn placed(alloc: Global, memory: &mut Memory) -> anyhow::Result<Vec<u64>> {
    let mut bases = Vec::new(alloc);
    for _ in 0..BLOCKS {
        bases.push(memory.place(1, DATA_RIGHTS, Kind::Heap)?)?;
    }
    Ok(bases)
}

/// Puts them into an order that is the same at each call and looks as if by chance.
fn shuffle(bases: &mut [u64]) {
    let mut state = 1u64;
    for last in (1..bases.len()).rev() {
        state = state.wrapping_mul(MULTIPLIER).wrapping_add(INCREMENT);
        bases.swap(last, (state >> 33) as usize % (last + 1));
    }
}

fn count_of_ended(memory: &mut Memory, bases: &[u64]) -> usize {
    let mut ended = 0;
    for base in bases {
        if memory.end(*base) {
            ended += 1;
        }
    }
    ended
}
