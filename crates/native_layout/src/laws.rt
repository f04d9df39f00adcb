//! Laws of where fields lie: what the contracts say; the calls do nothing.

ghost use Rattle.native_layout.specs.Laws.{FieldsAscend, FieldsLieWithin, PackingOneLeavesNoGaps, SizesAreMultiples};
ghost use Rattle.native_layout.specs.OverlapLaws.{OverlapsAreFound};

/// Fields in sequence ascend without overlap, each at a multiple of its alignment.
pub fn fields_ascend()
    ensures { FieldsAscend }
{}

/// Packing 1 leaves no gaps between fields in sequence.
pub fn packing_one_leaves_no_gaps()
    ensures { PackingOneLeavesNoGaps }
{}

/// The size of a struct is a multiple of its alignment, unless a greater least size is set.
pub fn sizes_are_multiples()
    ensures { SizesAreMultiples }
{}

/// No field ends after its struct.
pub fn fields_lie_within()
    ensures { FieldsLieWithin }
{}

/// The first overlap is that of the first field that shares a byte with another one.
pub fn overlaps_are_found()
    ensures { OverlapsAreFound }
{}
