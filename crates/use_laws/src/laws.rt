//! How the values of every lowered source are used.

ghost use Rattle.use_laws.specs.Laws.{OperandsAreDefined, ArraysAreUsedOnce};

/// Each operand of an op is the value of one that stands before it, in its region or in one around it, and the value of an array
/// expression is used once.
pub fn every_use_keeps_the_rules()
    ensures defined { OperandsAreDefined }
    ensures once { ArraysAreUsedOnce }
{}
