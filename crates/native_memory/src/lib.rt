//! Native memory: blocks of bytes in one address space, each with its rights.
#![tactic(auto)]

mod access;
mod block;
mod faults;
mod kind;
mod laws;
mod memory;
mod placement;
mod rights;
mod search;
mod steps;

pub use faults::{Fault, PlaceBad};
pub use kind::Kind;
pub use laws::{
    ended_addresses_stay_free, ended_bases_stay_free, heap_calls_keep_others,
    writes_change_their_range,
};
pub use memory::Memory;
pub use rights::DATA_RIGHTS;
pub use steps::Steps;
