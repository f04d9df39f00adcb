//! Laws of native memory. The contract of each function is the law; the call does nothing.

ghost use Rattle.native_memory.specs.Laws.{WritesChangeTheirRange, EndedAddressesStayFree};
ghost use Rattle.native_memory.specs.Laws.{EndedBasesStayFree, HeapCallsKeepOthers};

/// A write changes the bytes of its range and no others.
pub fn writes_change_their_range()
    ensures { WritesChangeTheirRange }
{}

/// An address in which a block lay that has ended is in no block ever after.
pub fn ended_addresses_stay_free()
    ensures { EndedAddressesStayFree }
{}

/// The base of a block that has ended is the base of none ever after, that of an empty block included.
pub fn ended_bases_stay_free()
    ensures { EndedBasesStayFree }
{}

/// Writes, and heap blocks that are placed and ended, leave all other blocks as they are, but for their bytes, and what is free
/// stays free: so does any number of them.
pub fn heap_calls_keep_others()
    ensures { HeapCallsKeepOthers }
{}
