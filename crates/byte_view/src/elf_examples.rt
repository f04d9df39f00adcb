//! A library that was worked out by hand, and what reading gives for it: a proof that the
//! definitions say so, in a function that does nothing.

ghost use Rattle.byte_view.specs.ElfExamples.{AddLibrary, OtherMachine, CompressedCode};

/// A whole library with one load and one function.
#[tactic(auto, using(crate::proofs::WorkedElf::add_library_reads))]
pub fn add_library_is_read()
    ensures { AddLibrary }
{}

/// The same library for another machine: its machine is refused.
#[tactic(auto, using(crate::proofs::WorkedElf::other_machine))]
pub fn other_machine_is_refused()
    ensures { OtherMachine }
{}

/// The same library with compressed instructions: its flags are refused.
#[tactic(auto, using(crate::proofs::WorkedElf::compressed_code))]
pub fn compressed_code_is_refused()
    ensures { CompressedCode }
{}
