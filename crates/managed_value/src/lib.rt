//! Managed values, and the places that hold them.
#![tactic(auto)]

mod kind;
pub mod laws;
mod names;
mod parts;
mod place;
mod putting;
mod value;

pub use kind::Kind;
pub use names::{ObjId, TypeId};
pub use parts::{copy_of, copy_of_place, get_at, kind as kind_of};
pub use place::{Path, PathStep, Place, Root};
pub use putting::put_at;
pub use value::{Value, Values};
