//! Laws of texts: what the contracts say; the calls do nothing.

ghost use Rattle.string_images.specs.Laws.{TextsRoundTrip, ReadSurrogatesArePaired, EndsAreFirst};

/// A text in which each surrogate has its other half is read back from its UTF-8.
pub fn texts_round_trip()
    ensures { TextsRoundTrip }
{}

/// In what is read from UTF-8, whatever the bytes, each surrogate has its other half.
pub fn read_surrogates_are_paired()
    ensures { ReadSurrogatesArePaired }
{}

/// The UTF-8 of a text without a zero unit has no zero byte, so that the zero behind it is the first one.
pub fn ends_are_first()
    ensures { EndsAreFirst }
{}
