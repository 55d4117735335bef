//! The rules on what regions yield.

use super::{FORALL_BODY, STATEMENTS, VALUES, each_row};
use crate::Rule;
use std::test::Fail;

#[test]
fn a_region_holds_value_ops_and_ends_with_its_one_yield(rt: HostRuntime) -> Result<(), Fail> {
    const ROWS: &str = "
6: assign { freemem %4 load %0 :i yield %6 } { yield %0 } | assign { load %0 :i yield %6 } { yield %0 }
6: assign { declare=x :ri load %6 :i yield %7 } { yield %0 } | assign { load %0 :i yield %6 } { yield %0 }
6: assign { load %0 :i } { yield %0 } | assign { load %0 :i yield %6 } { yield %0 }
6: assign { yield %6 load %0 :i } { yield %0 } | assign { load %0 :i yield %6 } { yield %0 }
6: assign { load %0 :i yield %6 yield %6 } { yield %0 } | assign { load %0 :i yield %6 } { yield %0 }
6: assign { load %0 :i yield %6 %6 } { yield %0 } | assign { load %0 :i yield %6 } { yield %0 }
6: assign { load %0 :i yield_element %6 } { yield %0 } | assign { load %0 :i yield %6 } { yield %0 }
6: assign { load %0 :i yield %6 } { } | assign { load %0 :i yield %6 } { yield %0 }
6: where { freemem %4 yield %3 } { } | where { yield %3 } { }
8: where { yield %3 } { } { elsewhere { freemem %4 yield %3 } { } } | where { yield %3 } { } { elsewhere { yield %3 } { } }
";
    each_row(&rt, rt.alloc(), Rule::Yield, STATEMENTS, ROWS)
}

#[test]
fn sides_and_items_are_values_or_targets(rt: HostRuntime) -> Result<(), Fail> {
    const ROWS: &str = "
6: assign { yield %0 } { yield %0 } | assign { load %0 :i yield %6 } { yield %0 }
6: assign { load %0 :i yield %6 } { load %0 :i yield %7 } | assign { load %0 :i yield %6 } { yield %0 }
6: assign { load %0 :i yield %6 } { as_expr %1 :a1i yield %7 } | assign { load %0 :i yield %6 } { yield %1 }
6: read { load %0 :i yield %6 } | read { yield %0 }
6: read { as_expr %1 :a1i yield %6 } | read { yield %1 }
# A READ has no vector subscript, and an assignment may.
6: read { designate=v %1 %1 :s1i yield %6 } | read { const=1 :i designate=r %1 %6 %6 %6 :s1i yield %7 }
6: read { const=1 :i designate=v1 %2 %1 %6 :s1i yield %7 } | assign { load %0 :i yield %6 } { designate=v %1 %1 :s1i yield %7 }
";
    each_row(&rt, rt.alloc(), Rule::Yield, STATEMENTS, ROWS)
}

#[test]
fn headers_and_bounds_are_integers(rt: HostRuntime) -> Result<(), Fail> {
    const ROWS: &str = "
6: forall=i { const=1 :l yield %6 %6 %6 } { } | forall=i { const=1 :i yield %6 %6 %6 } { }
6: forall=i { yield %0 %0 %0 } { } | forall=i { load %0 :i yield %6 %6 %6 } { }
6: forall=i { yield %1 %1 %1 } { } | forall=i { load %0 :i yield %6 %6 %6 } { }
# a triplet for each name
6: forall=i { const=1 :i yield %6 %6 } { } | forall=i { const=1 :i yield %6 %6 %6 } { }
6: forall=ij { const=1 :i yield %6 %6 %6 } { } | forall=ij { const=1 :i yield %6 %6 %6 %6 %6 %6 } { }
6: forall=i { const=1 :i yield %6 %6 %6 %6 %6 %6 } { } | forall=i { const=1 :i yield %6 %6 %6 } { }
6: forall { yield } { } | forall=i { const=1 :i yield %6 %6 %6 } { }
6: do %0 { const=1 :i yield %6 %6 } { } | do %0 { const=1 :i yield %6 %6 %6 } { }
6: do %0 { const=1 :i yield %6 %6 %6 %6 } { } | do %0 { const=1 :i yield %6 %6 %6 } { }
6: do %0 { yield %0 %0 %0 } { } | do %0 { load %0 :i yield %6 %6 %6 } { }
6: do %0 { const=1 :l yield %6 %6 %6 } { } | do %0 { const=1 :i yield %6 %6 %6 } { }
6: allocmem %4 { const=1 :i yield %6 } | allocmem %4 { const=1 :i yield %6 %6 }
6: allocmem %4 { const=1 :l yield %6 %6 } | allocmem %4 { const=1 :i yield %6 %6 }
";
    const MASKS: &str = "
9: forall_mask { const=1 :i yield %8 } | forall_mask { const=1 :l yield %8 }
9: forall_mask { yield %3 } | forall_mask { const=1 :l yield %8 }
9: forall_mask { designate=1 %3 %7 :rl yield %8 } | forall_mask { designate=1 %3 %7 :rl load %8 :l yield %9 }
";
    each_row(&rt, rt.alloc(), Rule::Yield, STATEMENTS, ROWS)?;
    each_row(&rt, rt.alloc(), Rule::Yield, FORALL_BODY, MASKS)
}

#[test]
fn an_elemental_works_on_elements_alone(rt: HostRuntime) -> Result<(), Fail> {
    const ROWS: &str = "
9: elemental :a1i { load %0 :i apply %1 :i add %9 %10 :i yield_element %11 } sum %8 :i | elemental :a1i { apply %1 :i add %9 %6 :i yield_element %10 } sum %8 :i
9: elemental :a1i { const=2 :i apply %1 :i add %9 %10 :i yield_element %11 } sum %8 :i | elemental :a1i { apply %1 :i add %9 %6 :i yield_element %10 } sum %8 :i
9: elemental :a1i { apply %1 :i size %1 :i add %9 %10 :i yield_element %11 } sum %8 :i | elemental :a1i { apply %1 :i lt %9 %6 :l and %10 %7 :l select %11 %9 %6 :i yield_element %12 } sum %8 :i
# an apply and an operation at least
9: elemental :a1i { neg %6 :i yield_element %9 } sum %8 :i | elemental :a1i { apply %1 :i neg %9 :i yield_element %10 } sum %8 :i
9: elemental :a1i { apply %1 :i yield_element %9 } sum %8 :i | elemental :a1i { apply %1 :i abs %9 :i yield_element %10 } sum %8 :i
# one yield_element, of a value
9: elemental :a1i { apply %1 :i neg %9 :i yield %10 } sum %8 :i | elemental :a1i { apply %1 :i neg %9 :i yield_element %10 } sum %8 :i
9: elemental :a1i { apply %1 :i neg %9 :i yield_element %10 yield_element %10 } sum %8 :i | elemental :a1i { apply %1 :i neg %9 :i yield_element %10 } sum %8 :i
9: elemental :a1i { apply %1 :i neg %9 :i yield_element %0 } sum %8 :i | elemental :a1i { apply %1 :i neg %9 :i yield_element %6 } sum %8 :i
";
    each_row(&rt, rt.alloc(), Rule::Yield, VALUES, ROWS)
}

#[test]
fn sides_have_one_type_and_rank(rt: HostRuntime) -> Result<(), Fail> {
    const ROWS: &str = "
6: assign { yield %1 } { yield %0 } | assign { load %0 :i yield %6 } { yield %0 }
6: assign { yield %2 } { yield %1 } | assign { yield %1 } { yield %1 }
6: assign { load %5 :l yield %6 } { yield %1 } | assign { load %0 :i yield %6 } { yield %1 }
6: assign { yield %3 } { yield %1 } | assign { yield %3 } { yield %3 }
";
    each_row(&rt, rt.alloc(), Rule::Sides, STATEMENTS, ROWS)
}

#[test]
fn a_whole_allocatable_is_a_left_side_with_realloc(rt: HostRuntime) -> Result<(), Fail> {
    const ROWS: &str = "
6: assign { load %0 :i yield %6 } { yield %4 } | assign=realloc { load %0 :i yield %6 } { yield %4 }
6: assign=realloc { load %0 :i yield %6 } { yield %1 } | assign { load %0 :i yield %6 } { yield %1 }
6: assign=realloc { load %0 :i yield %6 } { box %4 :p1i yield %7 } | assign { load %0 :i yield %6 } { box %4 :p1i yield %7 }
7: workshare { assign { load %0 :i yield %6 } { yield %4 } } | workshare { assign=realloc { load %0 :i yield %6 } { yield %4 } }
8: where { yield %3 } { assign=realloc { yield %1 } { yield %4 } } | where { yield %3 } { assign { yield %1 } { box %4 :p1i yield %6 } }
9: forall=i { const=1 :i yield %6 %6 %6 } { assign=realloc { yield %7 } { designate=1 %1 %7 :ri yield %8 } } | forall=i { const=1 :i yield %6 %6 %6 } { assign { yield %7 } { designate=1 %1 %7 :ri yield %8 } }
";
    each_row(&rt, rt.alloc(), Rule::Realloc, STATEMENTS, ROWS)
}
