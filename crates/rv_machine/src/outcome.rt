//! What a step comes to.

use native_memory::Fault;

/// What a step comes to.
#[derive(Clone, Copy, Debug, PartialEq, Eq)]
pub enum Step {
    /// The instruction was executed.
    Went,
    /// `pc` is this address below 65,536, where no instruction stands.
    At(u64),
    /// The instruction wasn't executed: its fetch or its access of memory faults, or no access does, and the fault names the
    /// four bytes at `pc` (no instruction has the word, or it is ECALL or EBREAK) or at the target of a jump that isn't a
    /// multiple of 4.
    Fault(Fault),
}
