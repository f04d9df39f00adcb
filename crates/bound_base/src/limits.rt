//! Limits of a run, and what parts of it share.

ghost use Rattle.std.specs.Prelude.{◌≡◌};
ghost use Rattle.bound_base.specs.Limits.{standard};

/// What a block of native memory may be used for.
#[derive(Clone, Copy, Debug, PartialEq, Eq)]
pub struct Rights {
    /// It may be read.
    pub r: bool,
    /// It may be written.
    pub w: bool,
    /// It may be executed.
    pub x: bool,
}

/// The greatest numbers of a run.
#[derive(Clone, Copy, Debug, PartialEq, Eq)]
pub struct Limits {
    /// Live native bytes, segments, stack and in-place blocks included.
    pub native: u64,
    /// Managed bytes.
    pub managed: u64,
    /// Bytes of the native stack.
    pub stack: u64,
    /// Managed frames over all activations.
    pub frames: u32,
    /// Nested calls of imports.
    pub depth: u32,
    /// New blocks of one native entry.
    pub blocks: u32,
    /// Thunks, the native addresses of delegates.
    pub thunks: u32,
}

/// The blocks that a native entry uses: the bases of the errno block and of the stack block.
#[derive(Clone, Copy, Debug, PartialEq, Eq)]
pub struct Lane {
    pub errno: u64,
    pub stack: u64,
}

/// The limits of `plhost`: 256 MiB of native and of managed bytes, a native stack of 1 MiB, 10,000 frames,
/// imports nested to 64, 4,096 new blocks of one entry, 2,048 thunks.
pub fn standard_limits() -> Limits
    ensures { result ≡ standard }
{
    Limits {
        native: 268_435_456,
        managed: 268_435_456,
        stack: 1_048_576,
        frames: 10_000,
        depth: 64,
        blocks: 4_096,
        thunks: 2_048,
    }
}
