//! Laws of members, each as a contract.

ghost use Rattle.type_members.specs.Laws.{HandleIsACoreMember, PlainMethodsAnswerThemselves, SubtypesAreReflexive, SubtypesCompose};

/// The first core member is SafeHandle's field, the value of a handle.
pub fn handle_is_a_core_member()
    ensures { HandleIsACoreMember }
{}

/// A method that isn't virtual answers its own calls, if it has a body.
pub fn plain_methods_answer_themselves()
    ensures { PlainMethodsAnswerThemselves }
{}

/// A value of a type may stand where that type is wanted.
pub fn subtypes_are_reflexive()
    ensures { SubtypesAreReflexive }
{}

/// What may stand for a type may stand for whatever that one may stand for.
pub fn subtypes_compose()
    ensures { SubtypesCompose }
{}
