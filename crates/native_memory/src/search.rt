//! Bisection of the list of blocks, which stand in order of their bases.

ghost use Rattle.std.specs.Prelude.{◌≡◌, ◌+◌, ◌-◌, ◌*◌, ◌^◌, ◌<◌, ◌≤◌, length};
ghost use Rattle.native_memory.specs.Search.{Ascends, IsEntry, FindsLast};

use crate::block::LiveBlock;
use crate::steps::Steps;
use std::collections::VecDeque;
use std::marker::Brand;
use std::sync::ledger::{Blank, Ledger};

/// An entry of the list as it was read: its place, its base and its size.
#[derive(Clone, Copy)]
pub struct Candidate {
    pub at: usize,
    pub base: u64,
    pub size: u64,
}

/// The last block whose base is at most `addr`, None where each base is above it. A step is an entry read.
pub fn last_not_above<L: Ledger>(
    blocks: &VecDeque<LiveBlock>,
    addr: u64,
    steps: &mut Steps<L>,
) -> Option<Candidate>
    requires { Ascends blocks.now.items }
    ensures last { FindsLast blocks.now.items addr result }
    ensures cost { 2 ^ (steps.new - steps.old) ≤ 2 * length blocks.now.items + 1 }
    ensures count { steps.old ≤ steps.new }
    ensures read { 0 < length blocks.now.items → steps.old < steps.new }
{
    let mut low = 0;
    let mut high = blocks.len();
    let mut found = None;
    while low < high {
        let middle = low + (high - low) / 2;
        let it = probe(blocks, middle, steps);
        if it.base <= addr {
            found = Some(it);
            low = middle + 1;
        } else {
            high = middle;
        }
    }
    found
}

/// The same where nobody counts the steps.
pub fn last_at(blocks: &VecDeque<LiveBlock>, addr: u64) -> Option<Candidate>
    requires { Ascends blocks.now.items }
    ensures { FindsLast blocks.now.items addr result }
{
    counted::<Brand>(blocks, addr, Blank::new(1))
}

fn counted<L: Ledger>(blocks: &VecDeque<LiveBlock>, addr: u64, blank: Blank) -> Option<Candidate>
    requires ascends { Ascends blocks.now.items }
    requires name { blank.name ≡ L.name }
    requires parts { (blank.parts ≡ L.parts) × (L.parts ≡ 1) }
    ensures { FindsLast blocks.now.items addr result }
{
    let mut steps = Steps::<L>::new(blank);
    last_not_above(blocks, addr, &mut steps)
}

/// Reads an entry, which is one step.
fn probe<L: Ledger>(blocks: &VecDeque<LiveBlock>, at: usize, steps: &mut Steps<L>) -> Candidate
    requires { at < length blocks.now.items }
    ensures entry { IsEntry blocks.now.items result }
    ensures place { result.at ≡ at }
    ensures step { steps.new ≡ steps.old + 1 }
{
    let block = &blocks[at];
    steps.tick();
    Candidate {
        at,
        base: block.base(),
        size: block.size(),
    }
}
