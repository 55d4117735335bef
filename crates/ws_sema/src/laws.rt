//! Laws: what the definitions give for the examples in specs/, by computation. The functions do nothing.

ghost use Rattle.ws_sema.specs.Examples.{IsRefused, IsFaultless, constant_of_another_type, number_for_a_truth, bound_not_declared, constant_used_before, constant_used_after, constant_without_value, as_large_as_may_be, too_large, four_dimensions, declared_twice, keyword_declared, keyword_used, call_without_argument, unknown_call, truth_for_a_number, type_of_a_refused_part, type_of_a_wide_number, undeclared_in_a_subscript, sections, active_variable_assigned, index_in_its_header, mask_of_another_rank, else_mask_of_another_rank, loop_in_a_region, any_number_allocated, no_allocatable};
ghost use Rattle.ws_base.specs.declared.refusal.RefusalKind.TheVariants as kind;

/// Declarations.
pub fn declaration_examples()
    ensures constant_of_another_type { IsRefused constant_of_another_type 1 kind.Unsupported }
    ensures number_for_a_truth { IsRefused number_for_a_truth 1 kind.Unsupported }
    ensures bound_not_declared { IsRefused bound_not_declared 1 kind.Unsupported }
    ensures constant_used_before { IsRefused constant_used_before 1 kind.Unsupported }
    ensures constant_used_after { IsFaultless constant_used_after }
    ensures constant_without_value { IsRefused constant_without_value 1 kind.OverLimit }
    ensures as_large_as_may_be { IsFaultless as_large_as_may_be }
    ensures too_large { IsRefused too_large 1 kind.OverLimit }
    ensures four_dimensions { IsRefused four_dimensions 1 kind.OverLimit }
    ensures declared_twice { IsRefused declared_twice 2 kind.Redeclared }
    ensures keyword_declared { IsRefused keyword_declared 1 kind.Unsupported }
{}

/// Expressions.
pub fn expression_examples()
    ensures keyword_used { IsRefused keyword_used 2 kind.Undeclared }
    ensures call_without_argument { IsRefused call_without_argument 2 kind.Unsupported }
    ensures unknown_call { IsRefused unknown_call 2 kind.Undeclared }
    ensures truth_for_a_number { IsRefused truth_for_a_number 2 kind.TypeWrong }
    ensures type_of_a_refused_part { IsRefused type_of_a_refused_part 3 kind.RankWrong }
    ensures type_of_a_wide_number { IsRefused type_of_a_wide_number 2 kind.OverLimit }
    ensures undeclared_in_a_subscript { IsRefused undeclared_in_a_subscript 2 kind.Undeclared }
    ensures sections { IsFaultless sections }
{}

/// Statements.
pub fn statement_examples()
    ensures active_variable_assigned { IsRefused active_variable_assigned 3 kind.DoVariable }
    ensures index_in_its_header { IsRefused index_in_its_header 2 kind.DoVariable }
    ensures mask_of_another_rank { IsRefused mask_of_another_rank 2 kind.RankWrong }
    ensures else_mask_of_another_rank { IsRefused else_mask_of_another_rank 3 kind.RankWrong }
    ensures loop_in_a_region { IsRefused loop_in_a_region 5 kind.NotInWorkshare }
    ensures any_number_allocated { IsFaultless any_number_allocated }
    ensures no_allocatable { IsRefused no_allocatable 2 kind.NotAllocatable }
{}
