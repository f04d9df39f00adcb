//! A stream in memory.

ghost use Rattle.std.specs.Prelude.{◌≡◌, ◌≤◌, ◌↔◌, ◌++◌, [], length, if◌then◌else◌, false, vec_capacity, Some, IfOk, OnOk, OnErr, IsErr, is_err};
ghost use Rattle.bound_base.specs.Outside.{appended, AppendsFront, Rose};
ghost use Rattle.outside_kit.specs.Calls.{no_calls, failing_at, after_call};

use crate::calls::{Bytes64, Calls};
use bound_base::{NoMemory, Sink, SinkFault};
use std::alloc::Global;

/// A stream that keeps what is written in memory that it was made with, some of whose writes can be made to fail. It
/// tells what it has got.
#[derive(Drop)]
pub struct MemSink {
    bytes: Vec<u8>,
    room: usize,
    calls: Calls,
    ghost within: { length bytes.items ≤ room },
    ghost reserved: { room ≤ vec_capacity bytes },
}

impl MemSink {
    ghost use Rattle.outside_kit.specs.MemSink.{sink_bytes, sink_room, sink_calls, Fails};

    /// An empty sink with room for `room` bytes in all.
    pub fn new(alloc: Global, room: usize) -> Result<MemSink, NoMemory>
        ensures bytes { IfOk result (λ sink. sink_bytes sink ≡ []) }
        ensures room { IfOk result (λ sink. sink_room sink ≡ room) }
        ensures calls { IfOk result (λ sink. sink_calls sink ≡ no_calls) }
    {
        Ok(MemSink {
            bytes: Vec::with_capacity(alloc, room)?,
            room,
            calls: Calls::new(alloc),
        })
    }

    /// From here on the writes of these numbers fail, counted from 0 since the sink was made, and no others that
    /// there is room for.
    pub fn fail(&mut self, calls: Bytes64)
        ensures calls { sink_calls self.new ≡ failing_at (sink_calls self.old) calls }
        ensures bytes { sink_bytes self.new ≡ sink_bytes self.old }
        ensures room { sink_room self.new ≡ sink_room self.old }
    {
        self.calls.fail(calls);
    }

    /// All that was written.
    pub fn bytes(&self) -> &[u8]
        ensures { result.now ≡ sink_bytes self.now }
    {
        self.bytes.as_slice()
    }

    /// Appends the piece where the call isn't to fail and there is room for it, and answers whether it did.
    fn append(&mut self, piece: &[u8]) -> bool
        ensures fails { (result ≡ false) ↔ Fails self.old (length piece.now) }
        ensures bytes { sink_bytes self.new
            ≡ (if result then sink_bytes self.old ++ piece.now else sink_bytes self.old) }
        ensures room { sink_room self.new ≡ sink_room self.old }
        ensures calls { sink_calls self.new ≡ sink_calls self.old }
    {
        if self.calls.is_to_fail() || self.room - self.bytes.len() < piece.len() {
            return false;
        }
        self.bytes.extend_from_slice(piece).is_ok()
    }
}

impl Sink for MemSink {
    ghost use Rattle.outside_kit.specs.MemSink.{sink_bytes, sink_room, sink_calls, Fails};

    ghost contents = { λ sink. Some (sink_bytes sink) };

    ghost faults = { λ sink. (sink_calls sink).faults };

    /// It fails just where the call is one of those that are to fail or the piece is past the room, and appends
    /// nothing then.
    fn put(&mut self, piece: &[u8]) -> Result<(), SinkFault>
        ensures ok { OnOk result
            (Some (sink_bytes self.new) ≡ appended (Some (sink_bytes self.old)) piece.now) }
        ensures err { OnErr result
            (AppendsFront (Some (sink_bytes self.old)) (Some (sink_bytes self.new)) piece.now) }
        ensures failed { OnErr result
            (Rose (sink_calls self.old).faults (sink_calls self.new).faults) }
        ensures uncounted { OnOk result
            ((sink_calls self.new).faults ≡ (sink_calls self.old).faults) }
        ensures count { (sink_calls self.old).faults ≤ (sink_calls self.new).faults }

        ensures fails { IsErr result ↔ Fails self.old (length piece.now) }
        ensures calls { sink_calls self.new ≡ after_call (sink_calls self.old) (is_err result) }
        ensures nothing { OnErr result (sink_bytes self.new ≡ sink_bytes self.old) }
        ensures room { sink_room self.new ≡ sink_room self.old }
    {
        if !self.append(piece) {
            self.calls.count_fault();
            return Err(SinkFault);
        }
        self.calls.count();
        Ok(())
    }
}
