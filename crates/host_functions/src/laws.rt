//! Laws of the table: what the contracts say; the calls do nothing.

ghost use Rattle.host_functions.specs.Laws.{NamesAreFound, PlacesAreFound, PlacesAreBelowMemory};

/// No two host functions have one name.
pub fn names_are_found()
    ensures { NamesAreFound }
{}

/// No two host functions have one place.
pub fn places_are_found()
    ensures { PlacesAreFound }
{}

/// Each place is an address below all memory.
pub fn places_are_below_memory()
    ensures { PlacesAreBelowMemory }
{}
