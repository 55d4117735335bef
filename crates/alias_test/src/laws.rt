//! Laws of the definitions, for whoever reads them. The functions do nothing.

ghost use Rattle.hlfir_ops.specs.declared.op.Module.{Module};
ghost use Rattle.alias_test.specs.declared.designator.Designator.{Designator};
ghost use Rattle.alias_test.specs.Laws.{DisjointHaveNoElementInCommon, SameHaveTheSameElements, EachHasItsDimensions, EachIsOfADeclare};

/// Designators of one variable that are Disjoint have no element in common, whatever the run brings.
pub fn disjoint_have_no_element_in_common()
    ensures { (a b : Designator) → DisjointHaveNoElementInCommon a b }
{}

/// Designators that are Same have the same elements in the same order, whatever the run brings.
pub fn same_have_the_same_elements()
    ensures { (a b : Designator) → SameHaveTheSameElements a b }
{}

/// In a module that keeps the rules each designator has a form for each dimension of its variable, so that two of one variable have equally
/// many.
pub fn each_has_its_dimensions()
    ensures { (m : Module) → EachHasItsDimensions m }
{}

/// In a module that keeps the rules the variable of each designator is a declare, so that two variables are two declares.
pub fn each_is_of_a_declare()
    ensures { (m : Module) → EachIsOfADeclare m }
{}
