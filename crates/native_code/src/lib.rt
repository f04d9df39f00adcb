//! Native code: the places below memory, the registers at an entry, and one event.
#![tactic(auto)]

mod entry;
pub mod laws;
mod one_event;
mod places;

pub use entry::{entry_registers, first_sp, keeps_preserved};
pub use one_event::{Event, native_event};
pub use places::RETURN;
