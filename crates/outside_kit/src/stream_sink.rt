//! A stream of the system.

ghost use Rattle.std.specs.Prelude.{◌≡◌, None};

use bound_base::{Sink, SinkFault};
use std::io::{self, ErrorKind, Write};

/// A stream that writes to `W`. It tells nothing of what was written. It doesn't flush: what `W` holds back may be lost
/// without a fault.
#[derive(Drop)]
pub struct StreamSink<W: Write + Drop> {
    writer: W,
    faults: u64,
}

impl<W: Write + Drop> StreamSink<W> {
    /// A sink that writes to `writer`, of whose writes none has failed.
    pub fn new(writer: W) -> StreamSink<W>
        ensures { ⟦<StreamSink<W> as Sink>⟧.faults result ≡ 0 }
    {
        StreamSink { writer, faults: 0 }
    }
}

impl<W: Write + Drop> Sink for StreamSink<W> {
    ghost contents = { λ _. None };

    ghost faults = { λ sink. sink.faults };

    /// It fails where the writer does, or takes nothing. A write that was interrupted is done again, as std's
    /// `write_all` does; after 2^64 - 1 writes of one piece it fails.
    fn put(&mut self, piece: &[u8]) -> Result<(), SinkFault> {
        match write_whole(&mut self.writer, piece) {
            Ok(()) => Ok(()),
            Err(_) => {
                self.faults = self.faults.saturating_add(1);
                Err(SinkFault)
            }
        }
    }
}

/// Writes the whole piece, in as many writes as it takes.
fn write_whole<W: Write>(writer: &mut W, piece: &[u8]) -> io::Result<()> {
    let mut rest = piece;
    'writes: for _ in 0..u64::MAX {
        if rest.is_empty() {
            return Ok(());
        }
        match writer.write(rest) {
            Ok(0) => return Err(io::Error::from(ErrorKind::WriteZero)),
            Ok(count) => rest = &rest[count..],
            Err(error) if error.kind() == ErrorKind::Interrupted => {}
            Err(error) => return Err(error),
        }
    }
    Err(io::Error::from(ErrorKind::Interrupted))
}
