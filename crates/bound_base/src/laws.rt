//! Laws of what the crates speak of: what the contracts say; the calls do nothing.

ghost use Rattle.bound_base.specs.Image.{PartsAreInOrder};
ghost use Rattle.bound_base.specs.Names.{PrintedNamesDiffer, PrintedNamesShow};

/// The parts of an image are listed in reading order, with their names.
pub fn parts_are_in_order()
    ensures { PartsAreInOrder }
{}

/// Names that differ differ in print.
pub fn printed_names_differ()
    ensures { PrintedNamesDiffer }
{}

/// A printed name has no space and no line end.
pub fn printed_names_show()
    ensures { PrintedNamesShow }
{}
