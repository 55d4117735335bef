//! What holds of lowered assignments and WHERE.

ghost use Rattle.where_laws.specs.Laws.{AssignmentsAndWheresMean, TermsHaveRanks};

/// The array operands of a term have the rank of its expression.
pub fn terms_have_their_ranks()
    ensures { TermsHaveRanks }
{}

/// Where lowered expressions and left sides mean what their sources mean, the op of an assignment or of a WHERE leaves the variables that its
/// source leaves, or faults alike.
pub fn assignments_and_wheres_mean()
    ensures { AssignmentsAndWheresMean }
{}
