//! Graphs, whose edges are found by the node that they come from.

ghost use Rattle.std.specs.Prelude.{◌<◌, ◌≤◌, All, IfOk, length};
ghost use Rattle.std.specs.List.Sorted.{IsPermutation, IsNonDecreasingBy, IsPartitionPoint};

use std::alloc::{AllocError, Global};

/// An edge of a directed graph. Nodes are numbers.
#[derive(Clone, Copy, Debug, PartialEq, Eq)]
pub struct Edge {
    /// The node that it comes from.
    pub from: u32,
    /// The node that it leads to.
    pub to: u32,
}

/// The edges of a graph, in order of the nodes that they come from.
#[derive(Drop)]
pub struct Graph {
    /// The edges.
    pub edges: Vec<Edge>,
    /// More than each node that an edge names.
    pub node_count: usize,
    ghost in_order: { IsNonDecreasingBy (λ edge. edge.from) edges.items },
    ghost below: { All (λ edge. (edge.from < node_count) × (edge.to < node_count)) edges.items },
}

impl Graph {
    ghost use Rattle.graph_cycles.specs.Parts.{AreEdgesFrom};

    /// The graph of these edges.
    pub fn new(alloc: Global, edges: &[Edge]) -> Result<Graph, AllocError>
        ensures { IfOk result (λ graph. IsPermutation edges.now graph.edges.items) }
    {
        let node_count = node_count(edges);
        let mut edges = Vec::from_slice(alloc, edges)?;
        edges.sort_unstable_by_key(|edge| edge.from);
        Ok(Graph { edges, node_count })
    }

    /// The edges that come from a node.
    pub fn edges_from(&self, node: u32) -> &[Edge]
        ensures { AreEdgesFrom self.now.edges.items node result.now }
    {
        let rest = &self.edges[self.first_from(node)..];
        let count = rest.partition_point(|edge| edge.from <= node);
        &rest[..count]
    }

    /// The place of the first edge that comes from a node or from one above it.
    pub fn first_from(&self, node: u32) -> usize
        ensures within { result ≤ length self.now.edges.items }
        ensures splits { IsPartitionPoint (λ edge. edge.from < node) (λ edge. node ≤ edge.from) self.now.edges.items result }
    {
        self.edges.partition_point(|edge| edge.from < node)
    }
}

/// A number above each node that an edge names.
fn node_count(edges: &[Edge]) -> usize
    ensures { All (λ edge. (edge.from < result) × (edge.to < result)) edges.now }
{
    let mut count = 0;
    for edge in edges {
        count = count.max(edge.from as usize + 1).max(edge.to as usize + 1);
    }
    count
}
