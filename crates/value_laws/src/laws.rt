//! What the lowering of a part of an expression leaves stands for what stage 1 of the source leaves.

ghost use Rattle.ws_base.specs.declared.op.CallWord.TheVariants.{Abs, Mod, Modulo, Merge, Min, Max};
ghost use Rattle.hlfir_ops.specs.declared.what.ValueBinary.TheVariants as binary;
ghost use Rattle.ws_base.specs.declared.op.UnOp.TheVariants.{Minus, Not, Plus};
ghost use Rattle.value_laws.specs.Laws.{ConstantsStand, VariablesStand, UnaryStands, BinaryStands, CallStands, CopiesStand, FoldedStand, NestedStand, InquiriesStand, NamesStand, ReductionsStand, ConstructorsStand, ValuesAreSame, WholesAreSame};
ghost use Rattle.value_laws.specs.Laws.{ExpressionsStand, ExpressionsSettle, ExpressionsAreClear, ExpressionsYield};
ghost use Rattle.value_laws.specs.Laws.{UnarySettles, BinarySettles, CallSettles, CopiesSettle, FoldedSettles, NestedSettles, SettledStays, SettledIsSubscript};

/// The op of a constant leaves a scalar, and the name of a variable its value, its declare or its box; it faults where the variable is
/// not allocated.
pub fn names_and_constants_stand()
    ensures constants { ConstantsStand }
    ensures variables { VariablesStand }
{}

/// An operator on scalars is evaluated at once, and faults as its source does. On arrays it is left for stage 2, which gives the values of
/// its source at all places, or the same fault at the same place.
pub fn operators_stand()
    ensures minus { UnaryStands Minus }
    ensures not { UnaryStands Not }
    ensures binary { BinaryStands }
{}

/// The same of the calls that take all their arguments at once.
pub fn calls_stand()
    ensures abs { CallStands Abs 1 }
    ensures modulo { CallStands Modulo 2 }
    ensures remainder { CallStands Mod 2 }
    ensures merge { CallStands Merge 3 }
{}

/// A reduction is evaluated at once: the conformance and the values of its argument, and then the exact total.
pub fn reductions_stand()
    ensures { ReductionsStand }
{}

/// Stage 2 of what stands for a term gives the term's values, or its fault.
pub fn values_are_the_same()
    ensures values { ValuesAreSame }
    ensures whole { WholesAreSame }
{}

/// A constructor of scalars leaves their values.
pub fn constructors_stand()
    ensures { ConstructorsStand }
{}

/// A whole array in parentheses or after a plus is copied; nothing is added to any other operand.
pub fn copies_stand()
    ensures parentheses { CopiesStand }
    ensures plus { UnaryStands Plus }
{}

/// A constant expression that has a value is one constant, and its source has this value.
pub fn constant_expressions_stand()
    ensures folded { FoldedStand }
    ensures settled { FoldedSettles }
{}

/// An operation, a call or a copy that is a vector subscript is evaluated whole where it stands, as its source is.
pub fn vector_subscripts_are_settled()
    ensures minus { UnarySettles Minus }
    ensures not { UnarySettles Not }
    ensures binary { BinarySettles }
    ensures copy { CopiesSettle }
    ensures stays { SettledStays }
    ensures subscript { SettledIsSubscript }
{}

/// The same of the calls that take all their arguments at once.
pub fn calls_are_settled()
    ensures abs { CallSettles Abs 1 }
    ensures modulo { CallSettles Modulo 2 }
    ensures remainder { CallSettles Mod 2 }
    ensures merge { CallSettles Merge 3 }
{}

/// MIN and MAX of several arguments nest to the left. No value of theirs can fault, so they are as one call of all.
pub fn nested_calls_stand()
    ensures min { NestedStand binary.Min Min }
    ensures max { NestedStand binary.Max Max }
    ensures min_settled { NestedSettles binary.Min Min }
    ensures max_settled { NestedSettles binary.Max Max }
{}

/// SIZE, LBOUND, UBOUND and ALLOCATED are asked of the declare or the box, and fault where an array is not allocated.
pub fn inquiries_stand()
    ensures { InquiriesStand }
{}

/// A name stands for what the source's world holds under it, where the declares and the constants agree with this world.
pub fn names_stand()
    ensures { NamesStand }
{}

/// A lowered expression leaves what stands for what stage 1 of its source leaves, and faults where its source does. Where designators
/// stand in it, this rests on the same of designators.
pub fn expressions_stand()
    ensures values { ExpressionsStand }
    ensures settled { ExpressionsSettle }
{}

/// In a region, the vector subscripts among the values of a lowered expression are what its own designators take.
pub fn expressions_are_clear()
    ensures { ExpressionsAreClear }
{}

/// The region of an expression yields what has the operands and the values of its source, or faults as stage 1 of its source does.
pub fn expressions_yield()
    ensures { ExpressionsYield }
{}
