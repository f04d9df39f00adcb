//! What holds of all values: a proof for all of them, in a function that does nothing.

ghost use Rattle.managed_value.specs.Laws.{PutIsThere, KindsStay, OthersStay, NoSuchField};

/// What is put at a path is what stands there then.
pub fn put_is_there()
    ensures { PutIsThere }
{}

/// What is put into a value leaves its kind.
pub fn kinds_stay()
    ensures { KindsStay }
{}

/// What is put at one path leaves what stands at another that parts ways with it.
pub fn others_stay()
    ensures { OthersStay }
{}

/// A field past the last is none.
pub fn no_such_field()
    ensures { NoSuchField }
{}
