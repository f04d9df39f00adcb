//! Laws of stubs: each function's contract is one.

ghost use Rattle.stub_maker.specs.Examples.{RowsAreAnswered};
ghost use Rattle.stub_maker.specs.Needs.{NeedsAreEnough, OnlyNeedsAreAsked};
ghost use Rattle.stub_maker.specs.Laws.{BacksAreSized, BareShapesAreSized, FiveDescriptorsTell, KnownIsInOrder, NamesDoNotMatter, StubsAreOrderly, StubsAreSized};

/// A stub has one step for each parameter, in order. Just the places and copies that native code may have written are read back, from
/// left to right, and just what may be lent ends, from right to left.
pub fn stubs_are_orderly()
    ensures { StubsAreOrderly }
{}

/// The definitions answer the rows that were worked out by hand: parameters and results of imports and callbacks, and fields,
/// of each row of the marshalling table; and some imports as a whole.
pub fn rows_are_answered()
    ensures { RowsAreAnswered }
{}

/// Each width in a shape of a file's value type is one that its kind has.
pub fn known_is_in_order()
    ensures { KnownIsInOrder }
{}

/// A stub can be printed: each shape of it is in order and laid out, and its size has 64 bits.
pub fn stubs_are_sized()
    ensures { StubsAreSized }
{}

/// So can how a callback crosses.
pub fn backs_are_sized()
    ensures { BacksAreSized }
{}

/// So can the shape of a type without a descriptor.
pub fn bare_shapes_are_sized()
    ensures { BareShapesAreSized }
{}

/// Imports that are alike in their flags, and in the signatures, the marks and the descriptors of their methods, have one stub or
/// one refusal, whatever they are called.
pub fn names_do_not_matter()
    ensures { NamesDoNotMatter }
{}

/// Five descriptors tell whether a type crosses in a column at all: it does under one of them, or under none.
pub fn five_descriptors_tell()
    ensures { FiveDescriptorsTell }
{}

/// What is known of value types and delegate types is the same when only they and what they need are looked at: the types of fields,
/// the inherited ones among them, and those that Invoke names. The bases of a value type themselves aren't needed.
pub fn needs_are_enough()
    ensures { NeedsAreEnough }
{}

/// The stub of an import, a callback and the shape of a type rest on what is known of the types that they name, and of no other.
pub fn only_needs_are_asked()
    ensures { OnlyNeedsAreAsked }
{}
