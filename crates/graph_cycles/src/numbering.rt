//! Numbers of nodes, by which most nodes are seen to lie on no cycle.
//!
//! Two nodes that reach each other get one number, and no edge leads to a lesser one (Tarjan, "Depth-first search and linear
//! graph algorithms", SIAM Journal on Computing 1, 1972). No contract says so: who uses the numbers looks whether it is so.

ghost use Rattle.std.specs.Prelude.{◌≡◌};
ghost use Rattle.graph_cycles.specs.Parts.{number_of};

use crate::graph::Graph;
use std::alloc::{AllocError, Global};

/// The number of a node, 0 where it has none.
pub fn number(numbers: &[u32], node: u32) -> u32
    ensures { result ≡ number_of numbers.now node }
{
    numbers.get(node as usize).copied().unwrap_or(0)
}

/// A number for each node that an edge names.
pub fn numbers_of(alloc: Global, graph: &Graph) -> Result<Vec<u32>, AllocError> {
    let mut walk = Walk::new(alloc, graph)?;
    for edge in &graph.edges {
        walk.visit_all(graph, edge.from)?;
    }
    Ok(walk.numbers)
}

/// A node whose edges are being followed.
#[derive(Clone, Copy)]
struct Visit {
    node: u32,
    /// What it was numbered when it was met.
    number: u32,
    /// The place of the edge that is followed next.
    next: usize,
}

/// A walk over all nodes, in depth first. Nodes that reach each other are a component, which is closed
/// once all edges from its nodes have been followed.
#[derive(Drop)]
struct Walk {
    /// By nodes: 0 where one hasn't been met. Then, until its component is closed, the least number of a node that it is
    /// known to reach among those that are met and not closed; in the end its component's number.
    numbers: Vec<u32>,
    /// The nodes that the walk has come through, the last one last.
    path: Vec<Visit>,
    /// The nodes that the walk has left, and whose components aren't closed.
    open: Vec<u32>,
    /// How many nodes have been met.
    met: u32,
    /// The number of the component that is closed next. They fall, so that they are above those of the nodes that are met.
    component: u32,
}

impl Walk {
    fn new(alloc: Global, graph: &Graph) -> Result<Walk, AllocError> {
        let numbers = vec![in alloc; 0; graph.node_count]?;
        let path = Vec::new(alloc);
        let open = Vec::new(alloc);
        Ok(Walk {
            numbers,
            path,
            open,
            met: 0,
            component: u32::MAX,
        })
    }

    /// Numbers a node, and all nodes that are reached from it. A step enters a node, follows an edge or leaves a node.
    fn visit_all(&mut self, graph: &Graph, node: u32) -> Result<(), AllocError> {
        let steps = graph.edges.len().saturating_mul(4);
        self.enter(graph, node)?;
        for _ in 0..steps {
            let Some(visit) = self.path.pop() else { break };
            self.step(graph, visit)?;
        }
        Ok(())
    }

    /// Meets a node, unless it has been met.
    fn enter(&mut self, graph: &Graph, node: u32) -> Result<(), AllocError> {
        if number(&self.numbers, node) != 0 {
            return Ok(());
        }
        self.met = self.met.saturating_add(1);
        set(&mut self.numbers, node, self.met);
        let visit = Visit {
            node,
            number: self.met,
            next: graph.first_from(node),
        };
        self.path.push(visit)?;
        Ok(())
    }

    /// Follows one edge from the last node of the path, which has been taken off, or leaves that node.
    fn step(&mut self, graph: &Graph, visit: Visit) -> Result<(), AllocError> {
        match graph.edges.get(visit.next) {
            Some(edge) if edge.from == visit.node => self.follow(graph, visit, edge.to),
            _ => self.leave(visit),
        }
    }

    /// Enters the node that an edge leads to. Where it has been met before, what is known of it counts for this one.
    fn follow(&mut self, graph: &Graph, visit: Visit, to: u32) -> Result<(), AllocError> {
        let known = number(&self.numbers, to);
        if known == 0 {
            self.path.push(visit)?;
            return self.enter(graph, to);
        }
        let least = known.min(number(&self.numbers, visit.node));
        set(&mut self.numbers, visit.node, least);
        self.path.push(Visit {
            next: visit.next.saturating_add(1),
            ..visit
        })?;
        Ok(())
    }

    /// Leaves a node, all of whose edges have been followed. Where it reaches none that was met before it, its component is
    /// closed.
    fn leave(&mut self, visit: Visit) -> Result<(), AllocError> {
        self.open.push(visit.node)?;
        if number(&self.numbers, visit.node) == visit.number {
            self.close(visit.number);
        }
        Ok(())
    }

    /// Closes the component of the nodes that were left and were met at a number or later.
    fn close(&mut self, from: u32) {
        let first = self
            .open
            .partition_point(|node| number(&self.numbers, *node) < from);
        for node in &self.open[first..] {
            set(&mut self.numbers, *node, self.component);
        }
        self.open.truncate(first);
        self.component = self.component.saturating_sub(1);
    }
}

/// Numbers a node.
fn set(numbers: &mut [u32], node: u32, number: u32) {
    if let Some(place) = numbers.get_mut(node as usize) {
        *place = number;
    }
}
