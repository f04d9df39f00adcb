//! What a block is for.

/// What a block is for.
#[derive(Clone, Copy, Debug, PartialEq, Eq)]
pub enum Kind {
    /// A load of a library.
    Segment,
    /// The native stack.
    Stack,
    /// The number of the last error of native code.
    Errno,
    /// A block that native code got by `malloc` or owns otherwise.
    Heap,
    /// A block that lives as long as one native call.
    Temp,
    /// The body of a managed array that is lent to native code. It is placed without bytes.
    InPlace,
}
