//! What holds of every lowered FORALL.

ghost use Rattle.forall_laws.specs.Laws.{ForallsMean};

/// The op of a FORALL leaves the variables that its source leaves, in a world that fits the declares again, or faults alike.
pub fn foralls_mean()
    ensures { ForallsMean }
{}
