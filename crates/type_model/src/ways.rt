//! Ways along a table that says of each node which node follows, and in how many more brackets.

ghost use Rattle.std.specs.Prelude.{◌≡◌, ◌≤◌, ◌^◌, length, map, IfOk};
ghost use Rattle.std.specs.List.{range_with_len};
ghost use Rattle.type_model.specs.Ways.{staying as staying_at, way_from as way_of, joined as join_of, way_after};

use std::alloc::{AllocError, Global};

/// Where a node leads, and in how many more brackets.
#[derive(Clone, Copy, Debug)]
pub struct Way {
    pub to: u32,
    /// 2^32 stands for so many and for more.
    pub brackets: u64,
}

/// So many brackets are too many to count, and so are more.
pub const TOO_MANY: u64 = 1 << 32;

/// Where each node of a table leads in a number of steps.
///
/// Time grows with the table, and with the number of binary digits of `steps`.
#[tactic(auto, using(crate::proofs::WaysOn::from_start, crate::proofs::WaysOn::starts_counted))]
pub fn ways_after(alloc: Global, table: &[Way], steps: u64) -> Result<Vec<Way>, AllocError>
    requires { length table.now ≤ 2 ^ 32 }
    ensures { IfOk result (λ ways. ways.items
        ≡ map (way_after table.now steps) (range_with_len 0 (length table.now))) }
{
    let mut ways = starts(alloc, table.len() as u64)?;
    let mut jumps = Vec::from_slice(alloc, table)?;
    let mut left = steps;
    while left > 0 {
        if left % 2 == 1 {
            ways = joined(alloc, &jumps, &ways)?;
        }
        jumps = joined(alloc, &jumps, &jumps)?;
        left /= 2;
    }
    Ok(ways)
}

/// The nodes from 0 on, from which no step was taken.
fn starts(alloc: Global, count: u64) -> Result<Vec<Way>, AllocError>
    requires { count ≤ 2 ^ 32 }
    ensures { IfOk result (λ ways. ways.items ≡ map staying_at (range_with_len 0 count)) }
{
    (0..count).map(|node| stay(node as u32)).collect(alloc)
}

/// The way from a node to itself.
pub fn stay(node: u32) -> Way
    ensures { result ≡ staying_at node }
{
    Way {
        to: node,
        brackets: 0,
    }
}

/// Each of some ways, and what a table says of its end.
fn joined(alloc: Global, table: &[Way], ways: &[Way]) -> Result<Vec<Way>, AllocError>
    ensures { IfOk result (λ on. on.items ≡ map (λ way. join_of way (way_of table.now way.to)) ways.now) }
{
    ways.iter().map(|way| join(table, *way)).collect(alloc)
}

/// A way, and what a table says of its end.
fn join(table: &[Way], way: Way) -> Way
    ensures { result ≡ join_of way (way_of table.now way.to) }
{
    let next = way_from(table, way.to);
    Way {
        to: next.to,
        brackets: way.brackets.saturating_add(next.brackets).min(TOO_MANY),
    }
}

/// What a table says of a node; one past its end stays.
pub fn way_from(table: &[Way], node: u32) -> Way
    ensures { result ≡ way_of table.now node }
{
    table.get(node as usize).copied().unwrap_or(stay(node))
}
