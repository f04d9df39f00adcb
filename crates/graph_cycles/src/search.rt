//! Searches: which nodes are reached from one node.

ghost use Rattle.std.specs.Prelude.{◌≡◌, ◌<◌, ◌↔◌, ℕ, List, [], IsTrue, IfOk, OnOk, length, slice_index_or, true, false};
ghost use Rattle.graph_cycles.specs.Cycles.{OnCycle, Leads};
ghost use Rattle.graph_cycles.specs.Parts.{Continues, IsFollowed, IsSearch, Grows};
ghost use Rattle.graph_cycles.specs.declared.graph.Edge.{Edge};

use crate::graph::Graph;
use std::alloc::{AllocError, Global};

/// What a search has come to.
#[derive(Drop)]
struct Search {
    /// Whether a node has been reached, by nodes.
    marks: Vec<bool>,
    /// The nodes that have been reached, in the order in which they were.
    queue: Vec<u32>,
}

impl Search {
    /// A search that has reached nothing yet.
    fn new(alloc: Global, graph: &Graph) -> Result<Search, AllocError>
        ensures search { IfOk result (λ search. (start : ℕ) → IsSearch graph.now.edges.items start search.marks.items search.queue.items) }
        ensures marks { IfOk result (λ search. length search.marks.items ≡ graph.now.node_count) }
        ensures queue { IfOk result (λ search. search.queue.items ≡ []) }
    {
        let marks = vec![in alloc; false; graph.node_count]?;
        let queue = Vec::new(alloc);
        Ok(Search { marks, queue })
    }

    /// Whether a node has been reached.
    fn has_reached(&self, node: u32) -> bool
        ensures { result ≡ slice_index_or self.now.marks.items node false }
    {
        self.marks.get(node as usize).copied().unwrap_or(false)
    }

    /// Reaches a node, unless it has been reached.
    fn reach(&mut self, node: u32) -> Result<(), AllocError>
        requires { node < length self.old.marks.items }
        ensures marked { OnOk result (slice_index_or self.new.marks.items node false ≡ true) }
        ensures grows { OnOk result (Grows self.old.marks.items self.new.marks.items self.old.queue.items self.new.queue.items) }
        ensures search { OnOk result ((edges : List Edge) (start : ℕ) → Leads edges start node
            → IsSearch edges start self.old.marks.items self.old.queue.items
            → IsSearch edges start self.new.marks.items self.new.queue.items) }
    {
        if !self.marks[node as usize] {
            self.queue.push(node)?;
            self.marks[node as usize] = true;
        }
        Ok(())
    }

    /// Reaches each node to which an edge leads from a node.
    fn follow(&mut self, graph: &Graph, node: u32) -> Result<(), AllocError>
        requires { length self.old.marks.items ≡ graph.now.node_count }
        ensures followed { OnOk result (IsFollowed graph.now.edges.items self.new.marks.items node) }
        ensures grows { OnOk result (Grows self.old.marks.items self.new.marks.items self.old.queue.items self.new.queue.items) }
        ensures search { OnOk result ((start : ℕ) → Continues graph.now.edges.items start node
            → IsSearch graph.now.edges.items start self.old.marks.items self.old.queue.items
            → IsSearch graph.now.edges.items start self.new.marks.items self.new.queue.items) }
    {
        for edge in graph.edges_from(node) {
            self.reach(edge.to)?;
        }
        Ok(())
    }
}

/// Whether a node lies on a cycle.
pub fn is_on_cycle(alloc: Global, graph: &Graph, node: u32) -> Result<bool, AllocError>
    ensures { IfOk result (λ found. IsTrue found ↔ OnCycle graph.now.edges.items node) }
{
    leads(alloc, graph, node, node)
}

/// Whether one edge or more lead from a node to another, or to itself.
///
/// Time and memory grow with the graph.
pub fn leads(alloc: Global, graph: &Graph, from: u32, to: u32) -> Result<bool, AllocError>
    ensures { IfOk result (λ found. IsTrue found ↔ Leads graph.now.edges.items from to) }
{
    let mut search = Search::new(alloc, graph)?;
    search.follow(graph, from)?;
    let mut next = 0;
    while next < search.queue.len() {
        let reached = search.queue[next];
        search.follow(graph, reached)?;
        next += 1;
    }
    Ok(search.has_reached(to))
}
