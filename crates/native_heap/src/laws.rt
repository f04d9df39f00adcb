//! Laws of the host functions. The contract of each function is the law; the call does nothing.

ghost use Rattle.native_heap.specs.Laws.{CopiesReadTheSame, TextsReadTheSame, NewBlocksAreNew};
ghost use Rattle.native_heap.specs.Laws.{OnlyHeapBlocksAreFreed, HeapBlocksAreFreed};
ghost use Rattle.native_heap.specs.Laws.{CallsKeepOthers, WantingCallsAreDefined};

/// After `memcpy` or `memmove` the range reads, where it can be read, as the other did before, also where they overlap.
pub fn copies_read_the_same()
    ensures { CopiesReadTheSame }
{}

/// After `strcpy` the copy reads, where it can be read, as the text did before.
pub fn texts_read_the_same()
    ensures { TextsReadTheSame }
{}

/// A block that `malloc` gives has a base that no live block had, and holds zeros; freed at once, it leaves the blocks that
/// there were.
pub fn new_blocks_are_new()
    ensures { NewBlocksAreNew }
{}

/// `free` and `realloc` fault at what isn't 0 or the base of a live heap block, as the base of a block of another kind.
pub fn only_heap_blocks_are_freed()
    ensures { OnlyHeapBlocksAreFreed }
{}

/// `free` and `realloc` fault at the base of no live heap block, whatever its rights.
pub fn heap_blocks_are_freed()
    ensures { HeapBlocksAreFreed }
{}

/// Where memory may be wanting for a call, the call is defined.
pub fn wanting_calls_are_defined()
    ensures { WantingCallsAreDefined }
{}

/// A call changes no register but a0, and places and ends no block but heap blocks; of the others it changes bytes alone, and
/// what is free stays free.
pub fn calls_keep_others()
    ensures { CallsKeepOthers }
{}
