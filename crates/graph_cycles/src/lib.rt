//! Which nodes of a directed graph lie on a cycle, in time that grows with the graph.
//!
//! `first_on_cycle` answers the least node from which some edges lead back to it. What that means
//! stands in `specs/Cycles.antt`, by walks alone.
#![tactic(auto)]

mod chains;
mod first;
mod graph;
mod laws;
mod numbering;
mod search;

pub use chains::after_steps;
pub use first::first_on_cycle;
pub use graph::{Edge, Graph};
pub use laws::{ranks_rule_out_cycles, walks_are_decided, walks_join};
pub use search::leads;
