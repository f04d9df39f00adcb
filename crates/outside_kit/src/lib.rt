//! What stands outside a run, as it is handed in: files and streams of the system, and files and a stream in memory
//! that can be made to fail.
#![tactic(auto)]

mod calls;
mod file_store;
mod mem_sink;
mod mem_store;
mod stream_sink;

pub use calls::Bytes64;
pub use file_store::{FileStore, read_from};
pub use mem_sink::MemSink;
pub use mem_store::MemStore;
pub use stream_sink::StreamSink;
