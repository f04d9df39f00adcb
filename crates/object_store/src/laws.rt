//! Laws of the managed heap. The contract of each function is the law; the call does nothing.

ghost use Rattle.object_store.specs.Laws.{GivesBack, NewLeavesOthers, ChangeLeavesOthers, HiddenCountsNothing};

/// Bytes that an array gets back are where they were, and so is all else.
pub fn gives_back()
    ensures { GivesBack }
{}

/// A new object leaves all others as they are.
pub fn new_leaves_others()
    ensures { NewLeavesOthers }
{}

/// A change of one object leaves all others as they are.
pub fn change_leaves_others()
    ensures { ChangeLeavesOthers }
{}

/// An object that the host itself makes counts nothing.
pub fn hidden_counts_nothing()
    ensures { HiddenCountsNothing }
{}
