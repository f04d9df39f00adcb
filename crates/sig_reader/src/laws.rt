//! What holds of reading, for all blobs: a proof, in a function that does nothing.

ghost use Rattle.sig_reader.specs.Laws.{CompressedNumbersAreThoseOfBlobs, FieldsAreReadAsSpelled, MethodsAreReadAsSpelled, LocalsAreReadAsSpelled, TypeSpecsAreReadAsSpelled};

/// A field's signature is read just where the blob spells it; a blob has at most one value. The
/// refused place is the length of the longest front with which some spelling begins, and bytes after
/// it aren't looked at.
#[tactic(auto, using(crate::proofs::Wholes::fields))]
pub fn fields_are_read_as_spelled()
    ensures { FieldsAreReadAsSpelled }
{}

/// The same for a method's signature.
#[tactic(auto, using(crate::proofs::Wholes::methods))]
pub fn methods_are_read_as_spelled()
    ensures { MethodsAreReadAsSpelled }
{}

/// The same for the signature of locals.
#[tactic(auto, using(crate::proofs::Wholes::all_locals))]
pub fn locals_are_read_as_spelled()
    ensures { LocalsAreReadAsSpelled }
{}

/// The same for the blob of a TypeSpec.
#[tactic(auto, using(crate::proofs::Wholes::type_specs))]
pub fn type_specs_are_read_as_spelled()
    ensures { TypeSpecsAreReadAsSpelled }
{}

/// A number in a signature is spelled as the lengths of blobs are (`byte_view::compressed`).
#[tactic(auto, using(crate::proofs::Compressed::to_blob))]
pub fn compressed_numbers_are_those_of_blobs()
    ensures { CompressedNumbersAreThoseOfBlobs }
{}
