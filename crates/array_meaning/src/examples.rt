//! Laws: what the meaning gives for the examples in specs/, by computation.

ghost use Rattle.std.specs.Prelude.{[], ◌∷◌};
ghost use Rattle.array_meaning.specs.EntriesExamples.{Enters, EntersAfter, EnteredAtTheLimit, NotEnteredPastTheLimit};
ghost use Rattle.array_meaning.specs.Example.{Reports};
ghost use Rattle.array_meaning.specs.SectionsExamples.{shift_by_one, reverse, add_the_first, odd_places_from_even, gather, scatter_with_a_repeat, sections_of_unequal_shape, empty_section_out_of_bounds, vector_subscript_out_of_bounds, vector_of_a_vector_out_of_bounds, masked_vector_in_parentheses, masked_sum_as_vector, vector_in_parentheses, columns_of_a_matrix, zero_stride_of_a_section, element_out_of_bounds};
ghost use Rattle.array_meaning.specs.ArithmeticExamples.{whole_array_of_sevens, first_operation_that_fails, fault_inside_a_sum, minimum_and_product_of_little, signs_and_powers, exact_sum, sum_out_of_range, sum_of_unequal_shapes, totals_of_nothing, truth_values, merge_of_both, calls_on_numbers, operators_on_truth, powers_below_zero, power_of_zero_below_zero, power_out_of_range, totals_of_an_array, greatest_of_nothing, named_constants, two_statements_on_a_line, extent_out_of_range, sum_over_a_huge_extent, omitted_bound_out_of_range, bound_out_of_range};
ghost use Rattle.array_meaning.specs.MasksExamples.{absolute_values, three_blocks, division_only_where_allowed, assignment_of_another_shape, mask_without_active_place, shape_in_a_sum_of_a_mask, mask_of_masks};
ghost use Rattle.array_meaning.specs.CombinationsExamples.{reverse_by_combinations, combinations_with_one_target, header_with_zero_stride, masked_pairs, no_combination_and_no_target, target_not_allocated, bound_out_of_range_by_position, header_too_large};
ghost use Rattle.array_meaning.specs.RunsExamples.{bounds_handed_on, bounds_of_a_section, bounds_of_parentheses, scalar_to_nothing, never_allocated, allocated_twice, allocated_too_large, allocated_and_freed, freed_twice, size_of_nothing_allocated, bounds_of_an_empty_dimension, later_item_sees_the_first, rest_of_a_line_is_skipped, line_skipped_for_no_value, item_that_is_no_number, too_few_items, later_item_reads_at_the_first, loop_that_counts_down, loop_without_iteration, loop_that_leaves_the_range, regions_of_a_loop};

/// Sections, their replacement at once, and vector subscripts.
pub fn sections_examples()
    ensures shift_by_one { Reports shift_by_one }
    ensures reverse { Reports reverse }
    ensures add_the_first { Reports add_the_first }
    ensures odd_places_from_even { Reports odd_places_from_even }
    ensures gather { Reports gather }
    ensures scatter_with_a_repeat { Reports scatter_with_a_repeat }
    ensures sections_of_unequal_shape { Reports sections_of_unequal_shape }
    ensures empty_section_out_of_bounds { Reports empty_section_out_of_bounds }
    ensures vector_subscript_out_of_bounds { Reports vector_subscript_out_of_bounds }
    ensures vector_of_a_vector_out_of_bounds { Reports vector_of_a_vector_out_of_bounds }
    ensures masked_vector_in_parentheses { Reports masked_vector_in_parentheses }
    ensures masked_sum_as_vector { Reports masked_sum_as_vector }
    ensures vector_in_parentheses { Reports vector_in_parentheses }
    ensures columns_of_a_matrix { Reports columns_of_a_matrix }
    ensures zero_stride_of_a_section { Reports zero_stride_of_a_section }
    ensures element_out_of_bounds { Reports element_out_of_bounds }
{}

/// Arithmetic, the order of operations, and reductions.
pub fn arithmetic_examples()
    ensures whole_array_of_sevens { Reports whole_array_of_sevens }
    ensures first_operation_that_fails { Reports first_operation_that_fails }
    ensures fault_inside_a_sum { Reports fault_inside_a_sum }
    ensures minimum_and_product_of_little { Reports minimum_and_product_of_little }
    ensures signs_and_powers { Reports signs_and_powers }
    ensures exact_sum { Reports exact_sum }
    ensures sum_out_of_range { Reports sum_out_of_range }
    ensures sum_of_unequal_shapes { Reports sum_of_unequal_shapes }
    ensures totals_of_nothing { Reports totals_of_nothing }
    ensures truth_values { Reports truth_values }
    ensures merge_of_both { Reports merge_of_both }
    ensures calls_on_numbers { Reports calls_on_numbers }
    ensures operators_on_truth { Reports operators_on_truth }
    ensures powers_below_zero { Reports powers_below_zero }
    ensures power_of_zero_below_zero { Reports power_of_zero_below_zero }
    ensures power_out_of_range { Reports power_out_of_range }
    ensures totals_of_an_array { Reports totals_of_an_array }
    ensures greatest_of_nothing { Reports greatest_of_nothing }
    ensures named_constants { Reports named_constants }
    ensures two_statements_on_a_line { Reports two_statements_on_a_line }
    ensures extent_out_of_range { Reports extent_out_of_range }
    ensures sum_over_a_huge_extent { Reports sum_over_a_huge_extent }
    ensures omitted_bound_out_of_range { Reports omitted_bound_out_of_range }
    ensures bound_out_of_range { Reports bound_out_of_range }
{}

/// WHERE.
pub fn masks_examples()
    ensures absolute_values { Reports absolute_values }
    ensures three_blocks { Reports three_blocks }
    ensures division_only_where_allowed { Reports division_only_where_allowed }
    ensures assignment_of_another_shape { Reports assignment_of_another_shape }
    ensures mask_without_active_place { Reports mask_without_active_place }
    ensures shape_in_a_sum_of_a_mask { Reports shape_in_a_sum_of_a_mask }
    ensures mask_of_masks { Reports mask_of_masks }
{}

/// FORALL.
pub fn combinations_examples()
    ensures reverse_by_combinations { Reports reverse_by_combinations }
    ensures combinations_with_one_target { Reports combinations_with_one_target }
    ensures header_with_zero_stride { Reports header_with_zero_stride }
    ensures masked_pairs { Reports masked_pairs }
    ensures no_combination_and_no_target { Reports no_combination_and_no_target }
    ensures target_not_allocated { Reports target_not_allocated }
    ensures bound_out_of_range_by_position { Reports bound_out_of_range_by_position }
    ensures header_too_large { Reports header_too_large }
{}

/// READ, ALLOCATE and DO.
pub fn runs_examples()
    ensures bounds_handed_on { Reports bounds_handed_on }
    ensures bounds_of_a_section { Reports bounds_of_a_section }
    ensures bounds_of_parentheses { Reports bounds_of_parentheses }
    ensures scalar_to_nothing { Reports scalar_to_nothing }
    ensures never_allocated { Reports never_allocated }
    ensures allocated_twice { Reports allocated_twice }
    ensures allocated_too_large { Reports allocated_too_large }
    ensures allocated_and_freed { Reports allocated_and_freed }
    ensures freed_twice { Reports freed_twice }
    ensures size_of_nothing_allocated { Reports size_of_nothing_allocated }
    ensures bounds_of_an_empty_dimension { Reports bounds_of_an_empty_dimension }
    ensures later_item_sees_the_first { Reports later_item_sees_the_first }
    ensures rest_of_a_line_is_skipped { Reports rest_of_a_line_is_skipped }
    ensures line_skipped_for_no_value { Reports line_skipped_for_no_value }
    ensures item_that_is_no_number { Reports item_that_is_no_number }
    ensures too_few_items { Reports too_few_items }
    ensures later_item_reads_at_the_first { Reports later_item_reads_at_the_first }
    ensures loop_that_counts_down { Reports loop_that_counts_down }
    ensures loop_without_iteration { Reports loop_without_iteration }
    ensures loop_that_leaves_the_range { Reports loop_that_leaves_the_range }
    ensures regions_of_a_loop { Reports regions_of_a_loop }
{}

/// The regions that a run enters.
pub fn entries_examples()
    ensures one_region { Enters shift_by_one (3 ∷ []) }
    ensures fault_inside { Enters scatter_with_a_repeat (4 ∷ []) }
    ensures each_iteration { Enters regions_of_a_loop (3 ∷ 3 ∷ 3 ∷ []) }
    ensures counts { EntersAfter regions_of_a_loop (3 ∷ 5 ∷ 7 ∷ []) }
    ensures past_the_limit { NotEnteredPastTheLimit }
    ensures at_the_limit { EnteredAtTheLimit }
{}
