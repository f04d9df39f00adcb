//! What holds of the parts of an image: a proof, in a function that does nothing.

ghost use Rattle.pe_reader.specs.Laws.{PartsHaveTheirPlaces};

/// Each part that an error names has the place in the reading order that the definitions give it.
pub fn parts_have_their_places()
    ensures { PartsHaveTheirPlaces }
{}
