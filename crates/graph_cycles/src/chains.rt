//! Chains: where nodes lead in a number of steps.

ghost use Rattle.std.specs.Prelude.{◌≡◌, map, IfOk};
ghost use Rattle.graph_cycles.specs.Chains.{next_in as next_of, after};

use std::alloc::{AllocError, Global};

/// Where each of some nodes leads in a number of steps, if a table names the next node of each: a node past the table's end
/// leads to itself.
///
/// Time grows with the nodes and the table, and with the number of binary digits of `steps`.
pub fn after_steps(
    alloc: Global,
    table: &[u32],
    nodes: &[u32],
    steps: u64,
) -> Result<Vec<u32>, AllocError>
    ensures { IfOk result (λ ends. ends.items ≡ map (after table.now steps) nodes.now) }
{
    let mut ends = Vec::from_slice(alloc, nodes)?;
    let mut jumps = Vec::from_slice(alloc, table)?;
    let mut left = steps;
    while left > 0 {
        if left % 2 == 1 {
            ends = led(alloc, &jumps, &ends)?;
        }
        jumps = led(alloc, &jumps, &jumps)?;
        left /= 2;
    }
    Ok(ends)
}

/// Where each of some nodes leads in one step.
fn led(alloc: Global, table: &[u32], nodes: &[u32]) -> Result<Vec<u32>, AllocError>
    ensures { IfOk result (λ ends. ends.items ≡ map (next_of table.now) nodes.now) }
{
    nodes
        .iter()
        .map(|node| next_in(table, *node))
        .collect(alloc)
}

/// The next node of one.
fn next_in(table: &[u32], node: u32) -> u32
    ensures { result ≡ next_of table.now node }
{
    table.get(node as usize).copied().unwrap_or(node)
}
