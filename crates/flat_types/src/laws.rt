//! Laws of value types that are kept as bytes, each as a contract.

ghost use Rattle.flat_types.specs.Laws.{DeeperFindsTheSame, KeptTypesAreOfIntegers};

/// More levels find what fewer levels find.
pub fn deeper_finds_the_same()
    ensures { DeeperFindsTheSame }
{}

/// What is kept as bytes is made of integers alone, at any depth, and can be laid out.
pub fn kept_types_are_of_integers()
    ensures { KeptTypesAreOfIntegers }
{}
