//! What holds of every program that is accepted.

ghost use Rattle.small_laws.specs.Laws.{EveryAcceptedStatementIsSmall, EveryAcceptedDeclarationIsSmall};

/// An evaluation can take the numbers of every accepted program.
pub fn every_accepted_program_is_small()
    ensures statements { EveryAcceptedStatementIsSmall }
    ensures declarations { EveryAcceptedDeclarationIsSmall }
{}
