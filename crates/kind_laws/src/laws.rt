//! What holds of lowered expressions.

ghost use Rattle.kind_laws.specs.Laws.{
  TypesAreKnown,
  KindsAreTypes,
  ValuesAreFound,
  SidesAreExpressions,
  NamesAreKnown,
  InsideIsKnown,
  InsideIsFound,
  HeaderIsKnown,
  ForallIsKnown,
  LoopIsKnown,
  DeclaresAreFound,
  AllocatablesAreFound,
  LoopVariablesAreFound,
  RegionsAreHeld,
  LeftsAreFound,
};

/// An expression in which no rule is broken has a type, and what is lowered from it has the kind of this type.
pub fn lowered_expressions_have_their_types()
    ensures types { TypesAreKnown }
    ensures kinds { KindsAreTypes }
    ensures sides { SidesAreExpressions }
{}

/// What is lowered from an expression or a left side is found among the values of its module.
pub fn lowered_expressions_are_found()
    ensures values { ValuesAreFound }
    ensures lefts { LeftsAreFound }
{}

/// Each declared name stands for what its declaration says, in an accepted source and inside its constructs.
pub fn declared_names_are_known()
    ensures names { NamesAreKnown }
    ensures inner { InsideIsKnown }
    ensures headers { HeaderIsKnown }
    ensures foralls { ForallIsKnown }
    ensures loops { LoopIsKnown }
{}

/// Declares, index names and the ops of regions stand among the values of the module.
pub fn declares_and_regions_are_found()
    ensures inner { InsideIsFound }
    ensures regions { RegionsAreHeld }
    ensures declares { DeclaresAreFound }
    ensures allocatables { AllocatablesAreFound }
    ensures loops { LoopVariablesAreFound }
{}
