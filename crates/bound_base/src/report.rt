//! What a run tells beside its output.

use crate::items::Bytes;

/// The counts of a run.
#[derive(Clone, Copy, Debug, PartialEq, Eq)]
pub struct Report {
    /// Events.
    pub steps: u64,
    /// Native entries.
    pub entries: u64,
    /// Calls back from native code.
    pub callbacks: u64,
    /// Loans made.
    pub made: u64,
    /// Loans ended.
    pub released: u64,
    /// Heap blocks that native code still holds.
    pub heap: u64,
}

/// What a loan lends; the number is its size in bytes.
#[derive(Clone, Copy, Debug, PartialEq, Eq)]
pub enum Lending {
    Temp(u64),
    Array(u64),
    Value(u64),
    Handle,
}

/// One line of the log of crossings. Its numbers are those of the line, in order.
#[derive(Debug, Drop)]
pub enum LogEntry {
    /// The call's group, and the import's escaped name.
    Enter(u64, Bytes),
    Make(u64, Lending),
    Leave(u64),
    Fault(u64),
    Full(u64),
    Drop(u64),
    Close(u64),
    Release(u64),
    Callback(u32),
    Answer(u32),
    /// The place of the reason, from 0: library, symbol, type, null, closed, depth, stack, blocks, bytes, thunks.
    Refuse(u8),
}
