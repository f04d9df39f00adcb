//! Calls that are to fail, and how many did.

ghost use Rattle.std.specs.Prelude.{◌≡◌, ◌≤◌, [], Contains, IsTrue, ◌↔◌, false, true};
ghost use Rattle.outside_kit.specs.Calls.{no_calls, failing_at, after_call};

use bound_base::Items;
use std::alloc::Global;

/// Numbers of calls, counted from 0.
pub type Bytes64 = Items<u64>;

/// The number of the next call, the calls that are to fail, and how many have failed. Both counts stop at 2^64 - 1.
#[derive(Drop)]
pub(crate) struct Calls {
    next: u64,
    failing: Bytes64,
    faults: u64,
}

impl Calls {
    pub(crate) fn new(alloc: Global) -> Calls
        ensures { result ≡ no_calls }
    {
        Calls {
            next: 0,
            failing: Bytes64::new(alloc),
            faults: 0,
        }
    }

    /// From here on these calls are to fail, and no others.
    pub(crate) fn fail(&mut self, failing: Bytes64)
        ensures { self.new ≡ failing_at self.old failing }
    {
        self.failing = failing;
    }

    /// Whether the next call is to fail.
    pub(crate) fn is_to_fail(&self) -> bool
        ensures { IsTrue result ↔ Contains self.now.failing self.now.next }
    {
        self.failing.as_slice().contains(&self.next)
    }

    /// Counts a call that doesn't fail.
    pub(crate) fn count(&mut self)
        ensures { self.new ≡ after_call self.old false }
    {
        self.next = self.next.saturating_add(1);
    }

    /// Counts a call that fails.
    pub(crate) fn count_fault(&mut self)
        ensures after { self.new ≡ after_call self.old true }
        ensures faults { self.old.faults ≤ self.new.faults }
    {
        self.next = self.next.saturating_add(1);
        self.faults = self.faults.saturating_add(1);
    }
}
