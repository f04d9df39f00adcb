//! Laws of the calling convention: each function's contract is one.

ghost use Rattle.lp64_convention.specs.Laws.{WordsHaveOwnPlaces, StackWordsAreAligned, FirstWordsHaveRegisters, PreservedRegistersHaveNoWord, WidenedOnceIsWide, OnlyLowBytesMatter, SignedIntegersReadBack, UnsignedWordsAreSignExtended, NarrowUnsignedIntegersReadBack};

/// No two words of the arguments have one place.
pub fn words_have_own_places()
    ensures { WordsHaveOwnPlaces }
{}

/// Each word on the stack stands at a multiple of 8 bytes.
pub fn stack_words_are_aligned()
    ensures { StackWordsAreAligned }
{}

/// The first eight words are passed in `a0` to `a7`, in order, and no further word in a register.
pub fn first_words_have_registers()
    ensures { FirstWordsHaveRegisters }
{}

/// No word is passed in a register that the function leaves as it was.
pub fn preserved_registers_have_no_word()
    ensures { PreservedRegistersHaveNoWord }
{}

/// To widen what is widened changes nothing.
pub fn widened_once_is_wide()
    ensures { WidenedOnceIsWide }
{}

/// Whatever stands above an integer's bytes, it is widened to the same register.
pub fn only_low_bytes_matter()
    ensures { OnlyLowBytesMatter }
{}

/// A widened signed integer, read as a signed number of 64 bits, is that integer.
pub fn signed_integers_read_back()
    ensures { SignedIntegersReadBack }
{}

/// An unsigned integer of 32 bits is sign-extended as a signed one is.
pub fn unsigned_words_are_sign_extended()
    ensures { UnsignedWordsAreSignExtended }
{}

/// An unsigned integer of 8 or 16 bits fills its register as its own number.
pub fn narrow_unsigned_integers_read_back()
    ensures { NarrowUnsignedIntegersReadBack }
{}
