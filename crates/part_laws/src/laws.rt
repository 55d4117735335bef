//! What designators of a module select is what those of its source select.

ghost use Rattle.part_laws.specs.Laws.{ShapesAreSame, ChecksAreSame, ElementsAreSame, DesignatorsSelect, PartsStand, DesignatorsStand};
ghost use Rattle.part_laws.specs.Laws.{PartShapesAreSame, TargetsAreSame, WholeTargetsAreSame};
ghost use Rattle.part_laws.specs.Laws.{ReferencesStand, SubscriptsSelect, WholePartsSelect, WholePartsStand};
ghost use Rattle.part_laws.specs.Laws.{SettledIsTaken, VariablesAreTaken, SectionsStand};
ghost use Rattle.part_laws.specs.Joined as joined;
ghost use Rattle.part_laws.specs.Lefts.{LeftPartsReach, LeftNamesReach, LeftDeclaresReach};
ghost use Rattle.part_laws.specs.Yielded.{RegionsYield, OnlyNamesAreVariables};

/// Where each dimension selects the same, the shape, the first fault and the elements are the same.
pub fn selections_are_the_same()
    ensures shapes { ShapesAreSame }
    ensures checks { ChecksAreSame }
    ensures elements { ElementsAreSame }
{}

/// The op of a designator looks at the bounds, strides and number of elements as its source does, and leaves what its source selects.
pub fn designators_select()
    ensures { DesignatorsSelect }
{}

/// An element is loaded where it stands, and a section is left for stage 2, which gives its elements at all places.
pub fn parts_stand()
    ensures parts { PartsStand }
    ensures designators { DesignatorsStand }
{}

/// A left side has the shape of its source, and the same elements are replaced.
pub fn left_sides_are_the_same()
    ensures shapes { PartShapesAreSame }
    ensures targets { TargetsAreSame }
    ensures whole { WholeTargetsAreSame }
{}

/// The subscripts of a designator are lowered from left to right, and fault in the order of the source. An omitted part of a triplet is
/// a bound of the dimension, or the stride 1.
pub fn subscripts_select()
    ensures references { ReferencesStand }
    ensures subscripts { SubscriptsSelect }
{}

/// A designator with all its ops: the variable, its subscripts and what they select.
pub fn whole_parts_stand()
    ensures selected { WholePartsSelect }
    ensures value { WholePartsStand }
{}

/// What a designator may take as a vector subscript: what is evaluated whole, a whole array, a section or a constructor. Parentheses
/// around the last two are no operation.
pub fn subscripts_are_taken()
    ensures settled { SettledIsTaken }
    ensures variables { VariablesAreTaken }
    ensures sections { SectionsStand }
{}

/// Any expression outside FORALL, and any part of an array as a left side. This is `expressions_stand` of `value_laws` with what it rests on.
pub fn whole_expressions_stand()
    ensures designators { joined.PartsOfExpressionsStand }
    ensures expressions { joined.ExpressionsStand }
    ensures left_sides { joined.LeftPartsSelect }
{}

/// The region of a left side faults as its source does, or yields the whole variable, or the part whose elements its source replaces.
pub fn left_regions_reach()
    ensures parts { LeftPartsReach }
    ensures names { LeftNamesReach }
    ensures declares { LeftDeclaresReach }
{}

/// The region of an expression faults as its source does, or yields what has the values of its term.
pub fn regions_yield()
    ensures { RegionsYield }
{}

/// No region of an expression but a name yields a whole variable.
pub fn only_names_are_variables()
    ensures { OnlyNamesAreVariables }
{}
