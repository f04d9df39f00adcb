//! What every crate of plhost speaks of: the files and streams outside, limits, endings and statuses,
//! the parts of an image, and lists that contracts see as lists.
#![tactic(auto)]

mod ending;
mod image;
mod items;
pub mod laws;
mod limits;
mod memory;
mod names;
mod outside;
mod put;
mod report;
mod reserved;

pub use ending::{Ending, status_of};
pub use image::{BadImage, Part};
pub use items::{Bytes, Items, Units};
pub use limits::{Lane, Limits, Rights, standard_limits};
pub use memory::NoMemory;
pub use names::escape;
pub use outside::{Sink, SinkFault, Store, StoreFault};
pub use put::PutError;
pub use report::{Lending, LogEntry, Report};
pub use reserved::Reserved;
