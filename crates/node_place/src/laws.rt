//! Laws of places. Each is a function with an empty body, whose contract is the law.

ghost use Rattle.node_place.specs.Laws.{OnePlace};

/// A text names at most one place, or has at most one fault, and not both; what is printed of a socket names it.
pub fn one_place()
    ensures { OnePlace }
{}
