//! The managed objects of a run, and the bytes that they count.
#![tactic(auto)]

mod arrays;
mod body;
mod elements;
mod fault;
mod hidden;
pub mod laws;
mod object;
mod store;
mod weights;

pub use body::Body0;
pub use fault::ObjBad;
pub use hidden::{HandleData, Hidden};
pub use store::ObjectStore;
