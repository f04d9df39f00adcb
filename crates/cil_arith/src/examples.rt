//! Numbers that were worked out by hand, each with what an operation gives for it: a proof that the definitions say so, in
//! a function that does nothing.

ghost use Rattle.cil_arith.specs.Examples.{
  WorkedDivisions,
  WorkedSums,
  WorkedShifts,
  WorkedConversions,
  WorkedComparisons,
};

/// -7 by 2 is -3 and leaves -1; a division by 0, and of the least number by -1, gives none.
#[tactic(auto, using(crate::proofs::Worked::divisions))]
pub fn divisions_are_worked()
    ensures { WorkedDivisions }
{}

/// 0xFFFFFFFF and 1 overflow without a sign; 5 as a native int and -1 as an int32 are 4 as a native int.
#[tactic(auto, using(crate::proofs::Worked::sums))]
pub fn sums_are_worked()
    ensures { WorkedSums }
{}

/// An int32 is shifted by the low 5 bits of 33, an int64 by the low 6 bits of 65; -7 shifted to the right by 1 is -4.
#[tactic(auto, using(crate::proofs::Worked::shifts))]
pub fn shifts_are_worked()
    ensures { WorkedShifts }
{}

/// 0x1FF cut to an int8 is -1; -1 is no uint32; an int32 of -1 widened without a sign is 0xFFFFFFFF.
#[tactic(auto, using(crate::proofs::Worked::conversions))]
pub fn conversions_are_worked()
    ensures { WorkedConversions }
{}

/// -1 is less than 1 with its sign, and greater without it.
#[tactic(auto, using(crate::proofs::Worked::comparisons))]
pub fn comparisons_are_worked()
    ensures { WorkedComparisons }
{}
