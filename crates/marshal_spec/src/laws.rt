//! What holds of all descriptors: a proof for all bytes, in a function that does nothing.

ghost use Rattle.marshal_spec.specs.Laws.{ReadingIsTheGrammar, BytesSpellOne, WrittenIsRead, RefusedByFront};

/// Reading, as the definitions of other crates have it, gives a descriptor exactly for its
/// spellings, and refuses bytes exactly where the grammar does.
pub fn reading_is_the_grammar()
    ensures { ReadingIsTheGrammar }
{}

/// Bytes spell one descriptor at most.
pub fn bytes_spell_one()
    ensures { BytesSpellOne }
{}

/// A place of refusal is at most the length, and bytes that begin alike, up to the place and with
/// the byte there, are refused alike.
pub fn refused_by_front()
    ensures { RefusedByFront }
{}

/// What is written of a descriptor is read as that descriptor.
pub fn written_is_read()
    ensures { WrittenIsRead }
{}
