//! What holds of every word and every instruction: a proof, in a function that does nothing.

ghost use Rattle.rv_decode.specs.Laws.{DecodedIsEncoded, UndecodedIsNoEncoding, EncodedIsReadBack, EncodingsDiffer, EncodingsAreWords, FencesKeepFields};

/// A word decodes to an instruction exactly where it is the instruction's encoding.
pub fn decoded_is_encoded()
    ensures { DecodedIsEncoded }
{}

/// A word decodes to nothing exactly where no instruction has it.
pub fn undecoded_is_no_encoding()
    ensures { UndecodedIsNoEncoding }
{}

/// An instruction whose fields are in their ranges is read back from its word.
pub fn encoded_is_read_back()
    ensures { EncodedIsReadBack }
{}

/// Two instructions that differ have words that differ.
pub fn encodings_differ()
    ensures { EncodingsDiffer }
{}

/// An encoding is a word of 32 bits, the lowest two of which are set.
pub fn encodings_are_words()
    ensures { EncodingsAreWords }
{}

/// A word of opcode MISC-MEM and funct3 0 is a FENCE, whatever its other fields are, and keeps them.
pub fn fences_keep_fields()
    ensures { FencesKeepFields }
{}
