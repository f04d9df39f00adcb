//! What holds of each search: a proof for all clauses, in a function that does nothing.

ghost use Rattle.cil_unwind.specs.Handlers.{HandlersAreFirst, SearchesGoForward};

/// The answer tells the first clause, from a number on, that covers the offset and takes the exception, by its number and its
/// kind; where there is none, it tells nothing.
pub fn handlers_are_first()
    ensures { HandlersAreFirst }
{}

/// No search comes to a clause before the number that it begins with.
pub fn searches_go_forward()
    ensures { SearchesGoForward }
{}
