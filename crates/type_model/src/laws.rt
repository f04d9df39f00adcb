//! Laws of types, each as a contract.

ghost use Rattle.type_model.specs.Examples.{CorePlacesAreNamed};
ghost use Rattle.type_model.specs.Laws.{AcceptedTypesCloseNoCircle};

/// No type of an accepted file extends, encloses or holds itself, at whatever distance.
pub fn accepted_types_close_no_circle()
    ensures { AcceptedTypesCloseNoCircle }
{}

/// The core types of which definitions speak by a place have these names.
pub fn core_places_are_named()
    ensures { CorePlacesAreNamed }
{}
