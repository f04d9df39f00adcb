//! The first node that lies on a cycle.

ghost use Rattle.std.specs.Prelude.{◌≡◌, ◌↔◌, IsTrue, IfOk, IfSome, IfNone};
ghost use Rattle.graph_cycles.specs.Cycles.{IsFirstOnCycle, HasNoCycle};
ghost use Rattle.graph_cycles.specs.Parts.{IsRising, may_close as may_close_of};

use crate::graph::{Edge, Graph};
use crate::numbering::{number, numbers_of};
use crate::search::is_on_cycle;
use std::alloc::{AllocError, Global};

/// The least node that lies on a cycle: one edge or more lead from it back to it. None where no
/// node does.
///
/// Time and memory grow with the number of edges, and memory with the greatest node that one of them names.
pub fn first_on_cycle(alloc: Global, edges: &[Edge]) -> Result<Option<u32>, AllocError>
    ensures found { IfOk result (λ first. IfSome first (IsFirstOnCycle edges.now)) }
    ensures none { IfOk result (λ first. IfNone first (HasNoCycle edges.now)) }
{
    first_in(alloc, &Graph::new(alloc, edges)?)
}

/// The least node of a graph that lies on a cycle.
fn first_in(alloc: Global, graph: &Graph) -> Result<Option<u32>, AllocError>
    ensures found { IfOk result (λ first. IfSome first (IsFirstOnCycle graph.now.edges.items)) }
    ensures none { IfOk result (λ first. IfNone first (HasNoCycle graph.now.edges.items)) }
{
    let numbers = numbers_of(alloc, graph)?;
    let rising = is_rising(&numbers, &graph.edges);
    for edge in &graph.edges {
        if may_close(rising, &numbers, edge) && is_on_cycle(alloc, graph, edge.from)? {
            return Ok(Some(edge.from));
        }
    }
    Ok(None)
}

/// Whether no edge leads to a lesser number.
fn is_rising(numbers: &[u32], edges: &[Edge]) -> bool
    ensures { IsTrue result ↔ IsRising numbers.now edges.now }
{
    edges.iter().all(|edge| number(numbers, edge.from) <= number(numbers, edge.to))
}

/// Whether an edge may be one of a cycle.
fn may_close(rising: bool, numbers: &[u32], edge: &Edge) -> bool
    ensures { result ≡ may_close_of rising numbers.now edge.now }
{
    !rising || number(numbers, edge.from) == number(numbers, edge.to)
}
