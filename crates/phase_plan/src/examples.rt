//! Laws: the phases of the examples in specs/, as text, by computation. Each module keeps the rules.

ghost use Rattle.std.specs.Prelude.{[], ◌∷◌};
ghost use Rattle.phase_plan.specs.Example.{KeepRules, Prints};
ghost use Rattle.phase_plan.specs.AssignmentsExamples.{a_saved_right_side, targets_that_may_repeat, sides_of_unequal_shape, an_array_in_parentheses, a_vector_of_constants, one_element, an_empty_region};
ghost use Rattle.phase_plan.specs.ReductionsExamples.{a_sum_of_unequal_shapes, a_sum_of_constants, a_sum_in_the_argument_of_a_sum, a_sum_after_another};
ghost use Rattle.phase_plan.specs.MasksExamples.{a_mask_of_known_shape, a_mask_with_a_reduction_of_gathered_elements, a_mask_of_a_where_that_has_ended, a_mask_that_does_not_control};
ghost use Rattle.phase_plan.specs.CombinationsExamples.{a_stride_before_a_reduction, a_constant_index_before_a_reduction, a_reduction_in_a_header, a_forall_of_nothing, a_forall_of_a_mask};

/// Assignments, what is saved, and static steps.
pub fn assignments_examples()
    ensures a_saved_right_side { Prints a_saved_right_side }
    ensures targets_that_may_repeat { Prints targets_that_may_repeat }
    ensures sides_of_unequal_shape { Prints sides_of_unequal_shape }
    ensures an_array_in_parentheses { Prints an_array_in_parentheses }
    ensures a_vector_of_constants { Prints a_vector_of_constants }
    ensures one_element { Prints one_element }
    ensures an_empty_region { Prints an_empty_region }
    ensures rules { KeepRules (a_saved_right_side ∷ targets_that_may_repeat ∷ sides_of_unequal_shape ∷ an_array_in_parentheses ∷ a_vector_of_constants ∷ one_element ∷ an_empty_region ∷ []) }
{}

/// Reductions, and the stretches that they divide.
pub fn reductions_examples()
    ensures a_sum_of_unequal_shapes { Prints a_sum_of_unequal_shapes }
    ensures a_sum_of_constants { Prints a_sum_of_constants }
    ensures a_sum_in_the_argument_of_a_sum { Prints a_sum_in_the_argument_of_a_sum }
    ensures a_sum_after_another { Prints a_sum_after_another }
    ensures rules { KeepRules (a_sum_of_unequal_shapes ∷ a_sum_of_constants ∷ a_sum_in_the_argument_of_a_sum ∷ a_sum_after_another ∷ []) }
{}

/// WHERE, and the temporaries that a construct holds.
pub fn masks_examples()
    ensures a_mask_of_known_shape { Prints a_mask_of_known_shape }
    ensures a_mask_with_a_reduction_of_gathered_elements { Prints a_mask_with_a_reduction_of_gathered_elements }
    ensures a_mask_of_a_where_that_has_ended { Prints a_mask_of_a_where_that_has_ended }
    ensures a_mask_that_does_not_control { Prints a_mask_that_does_not_control }
    ensures rules { KeepRules (a_mask_of_known_shape ∷ a_mask_with_a_reduction_of_gathered_elements ∷ a_mask_of_a_where_that_has_ended ∷ a_mask_that_does_not_control ∷ []) }
{}

/// FORALL, its header, and steps without an assignment.
pub fn combinations_examples()
    ensures a_stride_before_a_reduction { Prints a_stride_before_a_reduction }
    ensures a_constant_index_before_a_reduction { Prints a_constant_index_before_a_reduction }
    ensures a_reduction_in_a_header { Prints a_reduction_in_a_header }
    ensures a_forall_of_nothing { Prints a_forall_of_nothing }
    ensures a_forall_of_a_mask { Prints a_forall_of_a_mask }
    ensures rules { KeepRules (a_stride_before_a_reduction ∷ a_constant_index_before_a_reduction ∷ a_reduction_in_a_header ∷ a_forall_of_nothing ∷ a_forall_of_a_mask ∷ []) }
{}
