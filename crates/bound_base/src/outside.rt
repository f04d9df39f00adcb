//! Files to read and streams to write, as traits: what they hold is ghost, and told or not told.

ghost use Rattle.std.specs.Prelude.{◌≡◌, ◌≤◌, ℕ, List, length, Option, IfOk, OnOk, OnErr, IsErrOf};
ghost use Rattle.bound_base.specs.Outside.{Files, contents_under, IsReadOf, Rose, CountsOnlyFailed, appended, AppendsFront};

use thiserror::Error;

/// Why a read gave nothing.
#[derive(Clone, Copy, Debug, PartialEq, Eq, Error)]
pub enum StoreFault {
    /// Nothing is held under the name.
    #[error("absent")]
    Absent,
    /// The read failed, and the store has counted it.
    #[error("cannot read")]
    Failed,
    /// There is no memory for the read.
    #[error("out of memory")]
    Memory,
}

/// A write failed, and the sink has counted it.
#[derive(Clone, Copy, Debug, PartialEq, Eq, Error)]
#[error("cannot write")]
pub struct SinkFault;

/// Named contents that are read in pieces.
pub trait Store {
    /// What is held under each name, where that is told.
    ghost held: { Self → Option Files };

    /// A count of failed reads that never falls, and stays at 2^64 - 1 once there.
    ghost faults: { Self → ℕ };

    /// Reads bytes of `name` from the offset `at` on into the front of `into`, and answers how many.
    /// 0 into a slice that isn't empty means that the contents end there.
    fn read(&mut self, name: &str, at: u64, into: &mut [u8]) -> Result<usize, StoreFault>
        ensures within { IfOk result (λ n. n ≤ length into.old) }
        ensures answer { IsReadOf (contents_under (held self.old) name.now) at into.new result }
        ensures failed { IsErrOf result StoreFault.Failed
            → Rose (faults self.old) (faults self.new) }
        ensures uncounted { CountsOnlyFailed result (faults self.old) (faults self.new) }
        ensures count { faults self.old ≤ faults self.new }
        ensures kept { held self.new ≡ held self.old };
}

/// A stream of bytes that is written piece by piece.
pub trait Sink {
    /// The bytes written so far, where that is told.
    ghost contents: { Self → Option (List ℕ) };

    /// A count of failed writes that never falls, and stays at 2^64 - 1 once there.
    ghost faults: { Self → ℕ };

    /// Appends the piece. After a failure some front of it was appended.
    fn put(&mut self, piece: &[u8]) -> Result<(), SinkFault>
        ensures ok { OnOk result (contents self.new ≡ appended (contents self.old) piece.now) }
        ensures err { OnErr result
            (AppendsFront (contents self.old) (contents self.new) piece.now) }
        ensures failed { OnErr result (Rose (faults self.old) (faults self.new)) }
        ensures uncounted { OnOk result (faults self.new ≡ faults self.old) }
        ensures count { faults self.old ≤ faults self.new };
}
