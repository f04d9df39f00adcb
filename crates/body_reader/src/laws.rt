//! What holds of all code and of all bodies: a proof for all bytes, in a function that does nothing.

ghost use Rattle.body_reader.specs.Laws.{StartsAreReached, InstructionsFillCode, InstructionsFollow, BranchesLeadToInstructions, SwitchesLeadToInstructions, RestIsNotRead};

/// An instruction begins exactly at the offsets inside the code to which instructions lead: at 0, and where one ends that
/// begins at such an offset.
pub fn starts_are_reached()
    ensures { StartsAreReached }
{}

/// Instructions fill the code of a body end to end.
pub fn instructions_fill_code()
    ensures { InstructionsFillCode }
{}

/// Behind each instruction of a body the next begins, or the code ends.
pub fn instructions_follow()
    ensures { InstructionsFollow }
{}

/// Each branch of a body leads to an instruction.
pub fn branches_lead_to_instructions()
    ensures { BranchesLeadToInstructions }
{}

/// A switch of a body leads to an instruction for each number below that of its targets.
pub fn switches_lead_to_instructions()
    ensures { SwitchesLeadToInstructions }
{}

/// Bytes that begin with a body are read as that body, whatever follows it.
pub fn rest_is_not_read()
    ensures { RestIsNotRead }
{}
