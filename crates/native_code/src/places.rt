//! The places of code that isn't in memory. Host functions stand at those of `host_functions`.

/// Where native code returns to when it is done.
pub const RETURN: u64 = 0x100;
