//! Laws: what the meaning gives for the examples in specs/, by computation. Each module keeps the rules.

ghost use Rattle.std.specs.Prelude.{[], ◌∷◌};
ghost use Rattle.hlfir_meaning.specs.EntriesExamples.{Enters, EntersAfter, EndsAfter, EnteredAtTheLimit, NotEnteredPastTheLimit};
ghost use Rattle.hlfir_meaning.specs.Example.{KeepRules, Reports};
ghost use Rattle.hlfir_meaning.specs.SectionsExamples.{shift_by_one, add_the_first, odd_places_from_even, gather, scatter_with_a_repeat, sections_of_unequal_shape, vector_subscript_out_of_bounds, vector_of_a_vector_out_of_bounds, masked_vector_in_parentheses, whole_subscript_before_the_next, subscripts_from_an_expression, omitted_bounds, zero_stride_of_a_section};
ghost use Rattle.hlfir_meaning.specs.ArithmeticExamples.{first_operation_that_fails, minimum_and_product_of_little, exact_sum, sum_out_of_range, fault_inside_a_sum, sum_of_unequal_shapes, sum_before_the_others, calls_on_arrays, inquiries, bound_out_of_range};
ghost use Rattle.hlfir_meaning.specs.MasksExamples.{absolute_values, three_blocks, division_only_where_allowed, assignment_of_another_shape, mask_without_active_place, shape_in_a_sum_of_a_mask, mask_of_masks};
ghost use Rattle.hlfir_meaning.specs.CombinationsExamples.{reverse_by_combinations, combinations_with_one_target, header_with_zero_stride, stride_before_the_next_index, masked_pairs, subscript_before_the_array, target_not_allocated};
ghost use Rattle.hlfir_meaning.specs.RunsExamples.{bounds_handed_on, bounds_of_a_section, bounds_of_parentheses, scalar_to_nothing, never_allocated, allocated_too_large, later_item_sees_the_first, rest_of_a_line_is_skipped, item_that_is_no_number, later_item_reads_at_the_first, too_few_items, loop_that_counts_down, loop_that_leaves_the_range, regions_of_a_loop};
ghost use Rattle.hlfir_meaning.specs.BodiesExamples.{operations_of_one_body, elemental_before_a_section, section_applied_twice};

/// Sections, their replacement at once, and vector subscripts.
pub fn sections_examples()
    ensures shift_by_one { Reports shift_by_one }
    ensures add_the_first { Reports add_the_first }
    ensures odd_places_from_even { Reports odd_places_from_even }
    ensures gather { Reports gather }
    ensures scatter_with_a_repeat { Reports scatter_with_a_repeat }
    ensures sections_of_unequal_shape { Reports sections_of_unequal_shape }
    ensures vector_subscript_out_of_bounds { Reports vector_subscript_out_of_bounds }
    ensures vector_of_a_vector_out_of_bounds { Reports vector_of_a_vector_out_of_bounds }
    ensures masked_vector_in_parentheses { Reports masked_vector_in_parentheses }
    ensures whole_subscript_before_the_next { Reports whole_subscript_before_the_next }
    ensures subscripts_from_an_expression { Reports subscripts_from_an_expression }
    ensures omitted_bounds { Reports omitted_bounds }
    ensures zero_stride_of_a_section { Reports zero_stride_of_a_section }
    ensures rules { KeepRules (shift_by_one ∷ add_the_first ∷ odd_places_from_even ∷ gather ∷ scatter_with_a_repeat ∷ sections_of_unequal_shape ∷ vector_subscript_out_of_bounds ∷ vector_of_a_vector_out_of_bounds ∷ masked_vector_in_parentheses ∷ whole_subscript_before_the_next ∷ subscripts_from_an_expression ∷ omitted_bounds ∷ zero_stride_of_a_section ∷ []) }
{}

/// The order of operations, reductions and inquiries.
pub fn arithmetic_examples()
    ensures first_operation_that_fails { Reports first_operation_that_fails }
    ensures minimum_and_product_of_little { Reports minimum_and_product_of_little }
    ensures exact_sum { Reports exact_sum }
    ensures sum_out_of_range { Reports sum_out_of_range }
    ensures fault_inside_a_sum { Reports fault_inside_a_sum }
    ensures sum_of_unequal_shapes { Reports sum_of_unequal_shapes }
    ensures sum_before_the_others { Reports sum_before_the_others }
    ensures calls_on_arrays { Reports calls_on_arrays }
    ensures inquiries { Reports inquiries }
    ensures bound_out_of_range { Reports bound_out_of_range }
    ensures rules { KeepRules (first_operation_that_fails ∷ minimum_and_product_of_little ∷ exact_sum ∷ sum_out_of_range ∷ fault_inside_a_sum ∷ sum_of_unequal_shapes ∷ sum_before_the_others ∷ calls_on_arrays ∷ inquiries ∷ bound_out_of_range ∷ []) }
{}

/// WHERE.
pub fn masks_examples()
    ensures absolute_values { Reports absolute_values }
    ensures three_blocks { Reports three_blocks }
    ensures division_only_where_allowed { Reports division_only_where_allowed }
    ensures assignment_of_another_shape { Reports assignment_of_another_shape }
    ensures mask_without_active_place { Reports mask_without_active_place }
    ensures shape_in_a_sum_of_a_mask { Reports shape_in_a_sum_of_a_mask }
    ensures mask_of_masks { Reports mask_of_masks }
    ensures rules { KeepRules (absolute_values ∷ three_blocks ∷ division_only_where_allowed ∷ assignment_of_another_shape ∷ mask_without_active_place ∷ shape_in_a_sum_of_a_mask ∷ mask_of_masks ∷ []) }
{}

/// FORALL.
pub fn combinations_examples()
    ensures reverse_by_combinations { Reports reverse_by_combinations }
    ensures combinations_with_one_target { Reports combinations_with_one_target }
    ensures header_with_zero_stride { Reports header_with_zero_stride }
    ensures stride_before_the_next_index { Reports stride_before_the_next_index }
    ensures masked_pairs { Reports masked_pairs }
    ensures subscript_before_the_array { Reports subscript_before_the_array }
    ensures target_not_allocated { Reports target_not_allocated }
    ensures rules { KeepRules (reverse_by_combinations ∷ combinations_with_one_target ∷ header_with_zero_stride ∷ stride_before_the_next_index ∷ masked_pairs ∷ subscript_before_the_array ∷ target_not_allocated ∷ []) }
{}

/// Reallocation, ALLOCATE, READ and DO.
pub fn runs_examples()
    ensures bounds_handed_on { Reports bounds_handed_on }
    ensures bounds_of_a_section { Reports bounds_of_a_section }
    ensures bounds_of_parentheses { Reports bounds_of_parentheses }
    ensures scalar_to_nothing { Reports scalar_to_nothing }
    ensures never_allocated { Reports never_allocated }
    ensures allocated_too_large { Reports allocated_too_large }
    ensures later_item_sees_the_first { Reports later_item_sees_the_first }
    ensures rest_of_a_line_is_skipped { Reports rest_of_a_line_is_skipped }
    ensures item_that_is_no_number { Reports item_that_is_no_number }
    ensures later_item_reads_at_the_first { Reports later_item_reads_at_the_first }
    ensures too_few_items { Reports too_few_items }
    ensures loop_that_counts_down { Reports loop_that_counts_down }
    ensures loop_that_leaves_the_range { Reports loop_that_leaves_the_range }
    ensures regions_of_a_loop { Reports regions_of_a_loop }
    ensures rules { KeepRules (bounds_handed_on ∷ bounds_of_a_section ∷ bounds_of_parentheses ∷ scalar_to_nothing ∷ never_allocated ∷ allocated_too_large ∷ later_item_sees_the_first ∷ rest_of_a_line_is_skipped ∷ item_that_is_no_number ∷ later_item_reads_at_the_first ∷ too_few_items ∷ loop_that_counts_down ∷ loop_that_leaves_the_range ∷ regions_of_a_loop ∷ []) }
{}

/// Modules that no source is lowered to.
pub fn bodies_examples()
    ensures operations_of_one_body { Reports operations_of_one_body }
    ensures elemental_before_a_section { Reports elemental_before_a_section }
    ensures section_applied_twice { Reports section_applied_twice }
    ensures rules { KeepRules (operations_of_one_body ∷ elemental_before_a_section ∷ section_applied_twice ∷ []) }
{}

/// The regions that a run enters, and the count of statements.
pub fn entries_examples()
    ensures one_region { Enters shift_by_one (3 ∷ []) }
    ensures fault_inside { Enters scatter_with_a_repeat (4 ∷ []) }
    ensures each_iteration { Enters regions_of_a_loop (3 ∷ 3 ∷ 3 ∷ 8 ∷ []) }
    ensures counts { EntersAfter regions_of_a_loop (3 ∷ 5 ∷ 7 ∷ 9 ∷ []) }
    ensures items_count_once { EndsAfter later_item_sees_the_first 3 }
    ensures masks_count_once { EndsAfter mask_of_masks 2 }
    ensures past_the_limit { NotEnteredPastTheLimit }
    ensures at_the_limit { EnteredAtTheLimit }
{}
