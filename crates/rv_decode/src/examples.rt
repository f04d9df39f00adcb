//! Words that the GNU assembler gives: a proof that the definitions say the same, in a function that does nothing.

ghost use Rattle.rv_decode.specs.Examples.{WorkedWords, WordsOfNone, FieldsOutOfRange};

/// Ten words, one or more of each format, with their instructions: `00B5053B` is `addw a0,a0,a1`, `00008067` is `ret`.
pub fn worked_words_are_instructions()
    ensures { WorkedWords }
{}

/// FENCE.I, and SLLIW with a sixth bit of amount, are no instructions.
pub fn other_words_are_none()
    ensures { WordsOfNone }
{}

/// An odd distance, a register above 31, a shift of 32 bits by 32, and immediates one past their ranges have no word.
pub fn fields_out_of_range_have_no_word()
    ensures { FieldsOutOfRange }
{}
