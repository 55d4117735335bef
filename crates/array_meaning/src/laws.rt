//! Laws of the meaning, beside its equations.

ghost use Rattle.array_meaning.specs.Laws.{AllPlacesOnce, AssignmentKeepsElements, AssignmentKeepsOthers, AssignmentKeepsShapes, AssignmentKeepsWellFormed, BlocksAreAll, BlocksAreDisjoint, ChosenOnce, ForallAssignmentKeepsElements, ForallAssignmentKeepsOthers, ForallAssignmentKeepsShapes, ForallAssignmentKeepsWellFormed, ForallKeepsShapes, MaskedAssignmentKeepsOthers, MaskedAssignmentKeepsShapes, MaskedAssignmentKeepsWellFormed, TypedTermsGiveValues, ValuesCombinationByCombination, ValuesPlaceByPlace, WhereKeepsShapes};

/// An assignment changes no variable but its target.
pub fn an_assignment_keeps_other_variables()
    ensures plain { AssignmentKeepsOthers }
    ensures masked { MaskedAssignmentKeepsOthers }
    ensures forall { ForallAssignmentKeepsOthers }
{}

/// An assignment to a selection of an array changes no element but its targets.
pub fn an_assignment_keeps_other_elements()
    ensures selection { AssignmentKeepsElements }
    ensures forall { ForallAssignmentKeepsElements }
{}

/// There are values over a list of places where there is one at each place alone, and they are those. So their order is free.
pub fn values_are_place_by_place()
    ensures places { ValuesPlaceByPlace }
    ensures combinations { ValuesCombinationByCombination }
{}

/// The places where a mask is true and those where it is false share none, and together are those that its control left.
pub fn blocks_of_a_where_are_disjoint()
    ensures places_once { AllPlacesOnce }
    ensures chosen_once { ChosenOnce }
    ensures all { BlocksAreAll }
    ensures disjoint { BlocksAreDisjoint }
{}

/// A step without a fault leaves all shapes as they were, but for that of a whole allocatable left side outside WHERE.
pub fn a_step_keeps_shapes()
    ensures plain { AssignmentKeepsShapes }
    ensures masked { MaskedAssignmentKeepsShapes }
    ensures forall { ForallAssignmentKeepsShapes }
    ensures where_construct { WhereKeepsShapes }
    ensures forall_construct { ForallKeepsShapes }
{}

/// A step keeps the variables well formed, where its right side has values of its left side's type and that is no whole allocatable
/// outside WHERE.
pub fn a_step_keeps_variables_well_formed()
    ensures plain { AssignmentKeepsWellFormed }
    ensures masked { MaskedAssignmentKeepsWellFormed }
    ensures forall { ForallAssignmentKeepsWellFormed }
{}

/// The values of a term of a type are values of that type, so that INTEGER values are in range and LOGICAL ones 0 or 1.
pub fn terms_have_values_of_their_type()
    ensures { TypedTermsGiveValues }
{}
