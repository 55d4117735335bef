//! The rules on what bodies and lists hold.

use super::{FORALL_BODY, STATEMENTS, VALUES, each_row};
use crate::Rule;
use std::test::Fail;

#[test]
fn a_where_holds_what_its_mask_may_control(rt: HostRuntime) -> Result<(), Fail> {
    const ROWS: &str = "
# assignments and where
6: where { yield %3 } { read { yield %1 } } | where { yield %3 } { assign { yield %1 } { yield %1 } }
6: where { yield %3 } { forall=i { const=1 :i yield %6 %6 %6 } { } } | where { yield %3 } { where { yield %3 } { } }
6: where { yield %3 } { workshare { } } | where { yield %3 } { }
# a mask of truth values of a rank above 0
6: where { yield %1 } { } | where { yield %3 } { }
6: where { load %5 :l yield %6 } { } | where { yield %3 } { }
# the rank of what it controls
6: where { yield %3 } { assign { load %0 :i yield %6 } { yield %0 } } | where { yield %3 } { assign { load %0 :i yield %6 } { yield %1 } }
6: where { yield %3 } { assign { load %0 :i yield %6 } { yield %2 } } | where { yield %3 } { assign { load %0 :i yield %6 } { yield %1 } }
6: where { elemental :a2l { apply %2 :i lt %7 %7 :l yield_element %8 } yield %6 } { assign { yield %1 } { yield %1 } } | where { elemental :a2l { apply %2 :i lt %7 %7 :l yield_element %8 } yield %6 } { assign { yield %2 } { yield %2 } }
6: where { yield %3 } { where { elemental :a2l { apply %2 :i lt %7 %7 :l yield_element %8 } yield %6 } { } } | where { yield %3 } { where { elemental :a1l { apply %1 :i lt %7 %7 :l yield_element %8 } yield %6 } { } }
6: where { yield %3 } { where { yield %3 } { assign { load %0 :i yield %6 } { yield %2 } } } | where { yield %3 } { where { yield %3 } { assign { load %0 :i yield %6 } { yield %1 } } }
6: where { yield %3 } { } { elsewhere { elemental :a2l { apply %2 :i lt %7 %7 :l yield_element %8 } yield %6 } { } } | where { yield %3 } { } { elsewhere { elemental :a1l { apply %1 :i lt %7 %7 :l yield_element %8 } yield %6 } { } }
6: where { yield %3 } { } { elsewhere { assign { load %0 :i yield %6 } { yield %0 } } } | where { yield %3 } { } { elsewhere { assign { load %0 :i yield %6 } { yield %1 } } }
# elsewheres
8: where { yield %3 } { } { elsewhere { yield %1 } { } } | where { yield %3 } { } { elsewhere { yield %3 } { } }
6: where { yield %3 } { } { elsewhere { } elsewhere { } } | where { yield %3 } { } { elsewhere { yield %3 } { } elsewhere { } }
6: where { yield %3 } { } { assign { yield %1 } { yield %1 } } | where { yield %3 } { } { elsewhere { assign { yield %1 } { yield %1 } } }
8: where { yield %3 } { } { elsewhere { read { yield %1 } } } | where { yield %3 } { } { elsewhere { where { yield %3 } { } } }
8: where { yield %3 } { } { elsewhere { yield %3 } { read { yield %1 } } } | where { yield %3 } { } { elsewhere { yield %3 } { where { yield %3 } { } } }
";
    each_row(&rt, rt.alloc(), Rule::Where, STATEMENTS, ROWS)
}

#[test]
fn a_forall_fills_elements(rt: HostRuntime) -> Result<(), Fail> {
    const ROWS: &str = "
# one leading mask, and then assignments
6: assign { yield %7 } { designate=1 %1 %7 :ri yield %8 } forall_mask { const=1 :l yield %9 } | forall_mask { const=1 :l yield %8 } assign { yield %7 } { designate=1 %1 %7 :ri yield %9 }
6: forall_mask { const=1 :l yield %8 } forall_mask { const=1 :l yield %9 } | forall_mask { const=1 :l yield %8 }
6: where { yield %3 } { } | assign { yield %7 } { designate=1 %1 %7 :ri yield %8 }
6: forall=j { const=1 :i yield %8 %8 %8 } { } | assign { yield %7 } { designate=1 %1 %7 :ri yield %8 }
# no reduction, vector, elemental or section
6: assign { sum %1 :i yield %8 } { designate=1 %1 %7 :ri yield %9 } | assign { load %0 :i yield %8 } { designate=1 %1 %7 :ri yield %9 }
6: forall_mask { any %3 :l yield %8 } | forall_mask { const=1 :l yield %8 }
6: assign { vector %7 :a1i yield %8 } { designate=1 %1 %7 :ri yield %9 } | assign { neg %7 :i yield %8 } { designate=1 %1 %7 :ri yield %9 }
6: assign { elemental :a1i { apply %1 :i neg %9 :i yield_element %10 } yield %8 } { designate=1 %1 %7 :ri yield %11 } | assign { neg %7 :i yield %8 } { designate=1 %1 %7 :ri yield %9 }
6: assign { designate=r %1 %7 %7 %7 :s1i yield %7 } { designate=1 %1 %7 :ri yield %9 } | assign { designate=1 %1 %7 :ri yield %7 } { designate=1 %1 %7 :ri yield %9 }
# a designate on the left, and rank 0 on the right
6: assign { yield %7 } { yield %0 } | assign { yield %7 } { designate=1 %1 %7 :ri yield %8 }
6: assign { yield %1 } { designate=1 %1 %7 :ri yield %8 } | assign { yield %7 } { designate=1 %1 %7 :ri yield %8 }
";
    // A header may have a reduction.
    const HEADERS: &str = "
6: forall=i { const=1 :i yield %6 %6 %6 } { assign { sum %1 :i yield %8 } { designate=1 %1 %7 :ri yield %9 } } | forall=i { sum %1 :i yield %6 %6 %6 } { assign { load %0 :i yield %8 } { designate=1 %1 %7 :ri yield %9 } }
";
    each_row(&rt, rt.alloc(), Rule::Forall, FORALL_BODY, ROWS)?;
    each_row(&rt, rt.alloc(), Rule::Forall, STATEMENTS, HEADERS)
}

#[test]
fn lists_hold_statements(rt: HostRuntime) -> Result<(), Fail> {
    const ROWS: &str = "
6: workshare { read { yield %1 } } | workshare { assign { yield %1 } { yield %1 } }
6: workshare { workshare { } } | workshare { where { yield %3 } { } }
6: workshare { do %0 { const=1 :i yield %6 %6 %6 } { } } | workshare { forall=i { const=1 :i yield %6 %6 %6 } { } }
6: workshare { freemem %4 } | workshare { }
6: do %0 { const=1 :i yield %6 %6 %6 } { const=2 :i } | do %0 { const=1 :i yield %6 %6 %6 } { freemem %4 }
6: do %0 { const=1 :i yield %6 %6 %6 } { declare=x :ri } | do %0 { const=1 :i yield %6 %6 %6 } { workshare { } }
6: do %0 { const=1 :i yield %6 %6 %6 } { elsewhere { } } | do %0 { const=1 :i yield %6 %6 %6 } { where { yield %3 } { } }
6: const=1 :i | read { yield %1 }
6: elsewhere { } | where { yield %3 } { }
6: forall_mask { const=1 :l yield %6 } | forall=i { const=1 :i yield %6 %6 %6 } { }
6: yield %1 | do %0 { const=1 :i yield %6 %6 %6 } { }
# A declare after other ops is none of the statements.
7: freemem %4 declare=x :ri | declare=x :ri freemem %4
";
    each_row(&rt, rt.alloc(), Rule::Shared, STATEMENTS, ROWS)
}

#[test]
fn an_op_of_a_list_of_items_follows_one_of_its_sort_and_line(rt: HostRuntime) -> Result<(), Fail> {
    const ROWS: &str = "
6: read=also { yield %1 } | read { yield %1 } read=also { yield %1 }
8: read @2 { yield %1 } read=also @3 { yield %1 } | read @2 { yield %1 } read=also @2 { yield %1 }
8: read @2 { yield %1 } freemem=also @2 %4 | freemem @2 %4 freemem=also @2 %4
7: freemem @2 %4 read=also @2 { yield %1 } | freemem @2 %4 freemem=also @2 %4 freemem=also @2 %4
7: freemem @2 %4 allocmem=also @2 %4 { const=1 :i yield %6 %6 } | allocmem @2 %4 { const=1 :i yield %6 %6 } allocmem=also @2 %4 { const=1 :i yield %7 %7 }
9: read @2 { yield %1 } workshare { } read=also @2 { yield %1 } | read @2 { yield %1 } read=also @2 { yield %1 } workshare { }
9: do %0 { const=1 :i yield %6 %6 %6 } { read=also { yield %1 } } | do %0 { const=1 :i yield %6 %6 %6 } { read { yield %1 } read=also { yield %1 } }
";
    each_row(&rt, rt.alloc(), Rule::Shared, STATEMENTS, ROWS)
}

#[test]
fn declares_differ_and_allocatables_are_boxed(rt: HostRuntime) -> Result<(), Fail> {
    const ROWS: &str = "
6: declare=a :ri | declare=x :ri
7: declare=x :ri declare=x :d1i | declare=x :ri declare=y :d1i
# A yield is judged with what holds its region.
6: assign { yield %4 } { yield %1 } | assign { box %4 :p1i yield %6 } { yield %1 }
6: read { yield %4 } | read { box %4 :p1i yield %6 }
7: declare=q :p1l where { yield %6 } { } | declare=q :p1l where { box %6 :p1l yield %7 } { }
8: where { yield %3 } { assign { yield %1 } { yield %4 } } | where { yield %3 } { assign { yield %1 } { box %4 :p1i yield %6 } }
";
    const USES: &str = "
9: size %4 :i | box %4 :p1i size %8 :i
9: size %4 :i | allocated %4 :l
9: lower=1 %4 :i | box %4 :p1i lower=1 %8 :i
9: designate=1 %4 %6 :ri | box %4 :p1i designate=1 %8 %6 :ri
9: designate=v %1 %4 :s1i | box %4 :p1i designate=v %1 %8 :s1i
9: as_expr %4 :a1i sum %8 :i | box %4 :p1i as_expr %8 :a1i sum %9 :i
9: sum %4 :i | box %4 :p1i sum %8 :i
10: elemental :a1i { apply %4 :i neg %9 :i yield_element %10 } sum %8 :i | box %4 :p1i elemental :a1i { apply %8 :i neg %10 :i yield_element %11 } sum %9 :i
";
    each_row(&rt, rt.alloc(), Rule::Declares, STATEMENTS, ROWS)?;
    each_row(&rt, rt.alloc(), Rule::Declares, VALUES, USES)
}
