//! The rules on what an op uses and gives.

use super::reading::fault;
use super::{HEAD, STATEMENTS, VALUES, each_row, is_row};
use crate::Rule;
use std::alloc::Global;
use std::process::Abort;
use std::test::Fail;

#[test]
fn operands_are_defined(rt: HostRuntime) -> Result<(), Fail> {
    const ROWS: &str = "
# a later op
7: assign { neg %7 :i const=1 :i yield %6 } { yield %0 } | assign { const=1 :i neg %6 :i yield %7 } { yield %0 }
# an op of another region
9: assign { const=1 :i yield %6 } { designate=1 %1 %6 :ri yield %7 } | assign { const=1 :i yield %6 } { const=1 :i designate=1 %1 %7 :ri yield %8 }
# the elemental itself
9: assign { const=1 :i elemental :a1i { apply %7 :i add %8 %6 :i yield_element %9 } yield %6 } { yield %1 } | assign { const=1 :i elemental :a1i { apply %1 :i add %8 %6 :i yield_element %9 } yield %7 } { yield %1 }
# an index name in its header, and after its body
7: forall=i { yield %6 %6 %6 } { } | forall=i { const=1 :i yield %6 %6 %6 } { }
14: forall=i { const=1 :i yield %6 %6 %6 } { assign { yield %7 } { designate=1 %1 %7 :ri yield %8 } } read { designate=1 %1 %7 :ri yield %9 } | forall=i { const=1 :i yield %6 %6 %6 } { assign { yield %7 } { designate=1 %1 %7 :ri yield %8 } } read { const=1 :i designate=1 %1 %9 :ri yield %10 }
";
    each_row(&rt, rt.alloc(), Rule::Defined, STATEMENTS, ROWS)
}

/// What the rules say of a value op.
fn value_fault<'a>(
    alloc: Global,
    word: &'a str,
    operands: &'a str,
    kind: &'a str,
) -> Result<Option<(u32, Rule)>, Fail> {
    let (before, after) = VALUES;
    fault(alloc, &[HEAD, before, word, operands, kind, after])
}

/// A row is words of ops, operands that each of them takes, others that it does not, its kind, and another one.
fn check_form(rt: &impl Abort, alloc: Global, row: &str) -> Result<(), Fail> {
    let (words, row) = row.split_once('|').ok_or("no operands")?;
    let (takes, row) = row.split_once('|').ok_or("no other operands")?;
    let (other, row) = row.split_once('|').ok_or("no kind")?;
    let (kind, another) = row.split_once('|').ok_or("no other kind")?;
    let operands = Some((9, Rule::Operands));
    let result_kind = Some((9, Rule::Result));
    for word in words.split_whitespace() {
        assert_eq!(rt; value_fault(alloc, word, takes, kind)?, None, "{word}");
        assert_eq!(rt; value_fault(alloc, word, other, kind)?, operands, "{word}");
        assert_eq!(rt; value_fault(alloc, word, "", kind)?, operands, "{word}");
        assert_eq!(rt;
            value_fault(alloc, word, takes, another)?,
            result_kind,
            "{word}"
        );
    }
    Ok(())
}

#[test]
fn ops_of_one_form_take_and_give_the_same(rt: HostRuntime) -> Result<(), Fail> {
    const FORMS: &str = "
add sub mul div min max pow mod modulo | %6 %6 | %6 %7 | :i | :l
eq ne lt le gt ge | %6 %6 | %7 %6 | :l | :i
and or eqv neqv | %7 %7 | %6 %7 | :l | :i
neg abs | %6 | %7 | :i | :l
not | %7 | %6 | :l | :i
load | %0 | %1 | :i | :l
box | %4 | %1 | :p1i | :p2i
lower=1 upper=1 lbound=1 ubound=1 extent=1 | %1 | %0 | :i | :l
size | %1 | %0 | :i | :l
allocated | %4 | %1 | :l | :i
sum product minval maxval | %1 | %3 | :i | :l
count | %3 | %1 | :i | :l
any all | %3 | %1 | :l | :i
";
    for line in FORMS.lines() {
        if is_row(line) {
            check_form(&rt, rt.alloc(), line)?;
        }
    }
    Ok(())
}

#[test]
fn operands_are_those_of_the_form(rt: HostRuntime) -> Result<(), Fail> {
    const ROWS: &str = "
9: const=1 %6 :i | const=1 :i
9: add %6 %6 %6 :i | add %6 %6 :i
9: load %0 %0 :i | load %0 :i
9: select %6 %6 %6 :i | select %7 %6 %6 :i
9: select %7 %7 %6 :l | select %7 %7 %7 :l
9: select %7 %6 :i | select %7 %6 %6 :i
9: load %6 :i | load %0 :i
9: neg %0 :i | load %0 :i neg %8 :i
9: neg %1 :i | neg %6 :i
# a dimension of the operand
9: lower=0 %1 :i | lower=1 %1 :i
9: extent=2 %1 :i | extent=2 %2 :i
10: designate=r %1 %6 %6 %6 :s1i size %8 :i | designate=r %1 %6 %6 %6 :s1i size %1 :i
# an array reference, and subscripts of its dimensions
9: designate=1 %0 %6 :ri | designate=1 %1 %6 :ri
10: designate=r %1 %6 %6 %6 :s1i designate=1 %8 %6 :ri | designate=r %1 %6 %6 %6 :s1i designate=1 %1 %6 :ri
9: designate=1 %2 %6 :ri | designate=11 %2 %6 %6 :ri
9: designate=11 %1 %6 %6 :ri | designate=1 %1 %6 :ri
9: designate=1 %1 %7 :ri | designate=1 %1 %6 :ri
9: designate=1 %1 %0 :ri | designate=1 %1 %6 :ri
9: designate=1 %1 %6 %6 :ri | designate=1 %1 %6 :ri
9: designate=r %1 %6 %6 :s1i | designate=r %1 %6 %6 %6 :s1i
9: designate=r %1 %6 %6 %7 :s1i | designate=r %1 %6 %6 %6 :s1i
9: designate=v %1 %6 :s1i | designate=v %1 %1 :s1i
9: designate=v %1 %2 :s1i | designate=v %1 %1 :s1i
9: designate=v %1 %3 :s1i | designate=v %1 %1 :s1i
# one or more scalars of one kind
9: vector :a1i sum %8 :i | vector %6 :a1i sum %8 :i
9: vector %6 %7 :a1i sum %8 :i | vector %6 %6 :a1i sum %8 :i
9: vector %1 :a1i sum %8 :i | vector %6 :a1i sum %8 :i
10: designate=r %1 %6 %6 %6 :s1i as_expr %8 :a1i sum %9 :i | as_expr %1 :a1i sum %8 :i
# an apply outside an elemental
9: apply %1 :i | elemental :a1i { apply %1 :i neg %9 :i yield_element %10 } sum %8 :i
9: elemental %1 :a1i { apply %1 :i neg %9 :i yield_element %10 } sum %8 :i | elemental :a1i { apply %1 :i neg %9 :i yield_element %10 } sum %8 :i
# regions
9: elemental :a1i sum %8 :i | elemental :a1i { apply %1 :i neg %9 :i yield_element %10 } sum %8 :i
9: elemental :a1i { apply %1 :i neg %9 :i yield_element %10 } { } sum %8 :i | elemental :a1i { apply %1 :i neg %9 :i yield_element %10 } sum %8 :i
9: neg %6 :i { } | neg %6 :i
";
    each_row(&rt, rt.alloc(), Rule::Operands, VALUES, ROWS)
}

#[test]
fn statements_have_the_operands_and_regions_of_their_form(rt: HostRuntime) -> Result<(), Fail> {
    const ROWS: &str = "
# the declare of an INTEGER scalar
6: do { const=1 :i yield %6 %6 %6 } { } | do %0 { const=1 :i yield %6 %6 %6 } { }
6: do %1 { const=1 :i yield %6 %6 %6 } { } | do %0 { const=1 :i yield %6 %6 %6 } { }
6: do %5 { const=1 :i yield %6 %6 %6 } { } | do %0 { const=1 :i yield %6 %6 %6 } { }
# the declare of an allocatable, and a pair for each of its dimensions
6: allocmem %1 { const=1 :i yield %6 %6 } | allocmem %4 { const=1 :i yield %6 %6 }
6: allocmem %4 { const=1 :i yield %6 %6 %6 %6 } | allocmem %4 { const=1 :i yield %6 %6 }
7: declare=q :p2i allocmem %6 { const=1 :i yield %7 %7 } | declare=q :p2i allocmem %6 { const=1 :i yield %7 %7 %7 %7 }
6: freemem %1 | freemem %4
6: freemem | freemem %4
6: freemem %4 %4 | freemem %4
6: where %3 { yield %3 } { } | where { yield %3 } { }
# regions
6: assign { load %0 :i yield %6 } | assign { load %0 :i yield %6 } { yield %0 }
6: assign { load %0 :i yield %6 } { yield %0 } { } | assign { load %0 :i yield %6 } { yield %0 }
6: where { yield %3 } | where { yield %3 } { }
6: where { yield %3 } { } { } | where { yield %3 } { }
6: where { yield %3 } { } { elsewhere { } } { } | where { yield %3 } { } { elsewhere { } }
8: where { yield %3 } { } { elsewhere } | where { yield %3 } { } { elsewhere { } }
8: where { yield %3 } { } { elsewhere { yield %3 } { } { } } | where { yield %3 } { } { elsewhere { yield %3 } { } }
6: forall=i { const=1 :i yield %6 %6 %6 } | forall=i { const=1 :i yield %6 %6 %6 } { }
9: forall=i { const=1 :i yield %6 %6 %6 } { forall_mask { const=1 :l yield %8 } { } } | forall=i { const=1 :i yield %6 %6 %6 } { forall_mask { const=1 :l yield %8 } }
6: workshare { } { } | workshare { }
6: do %0 { const=1 :i yield %6 %6 %6 } | do %0 { const=1 :i yield %6 %6 %6 } { }
6: allocmem %4 | allocmem %4 { const=1 :i yield %6 %6 }
6: freemem %4 { } | freemem %4
6: read { yield %0 } { } | read { yield %0 }
6: declare=x :ri { } | declare=x :ri
8: assign { load %0 :i yield %6 { } } { yield %0 } | assign { load %0 :i yield %6 } { yield %0 }
";
    each_row(&rt, rt.alloc(), Rule::Operands, STATEMENTS, ROWS)
}

#[test]
fn results_are_those_of_the_form(rt: HostRuntime) -> Result<(), Fail> {
    const ROWS: &str = "
# a value of the kind
9: const=2147483648 :i | const=2147483647 :i
9: const=-2147483649 :i | const=-2147483648 :i
9: const=2 :l | const=1 :l
9: const=-1 :l | const=0 :l
9: const=1 :ri | const=1 :i
9: const=1 | const=1 :i
9: select %7 %6 %6 :l | select %7 %6 %6 :i
9: select %7 %7 %7 :i | select %7 %7 %7 :l
9: box %4 :p1l | box %4 :p1i
# a place where all subscripts are scalars, and else a section
9: designate=1 %1 %6 :s1i | designate=1 %1 %6 :ri
9: designate=1 %1 %6 :i | designate=1 %1 %6 :ri
9: designate=1 %1 %6 :rl | designate=1 %1 %6 :ri
9: designate=r %1 %6 %6 %6 :ri | designate=r %1 %6 %6 %6 :s1i
9: designate=r1 %2 %6 %6 %6 %6 :s2i | designate=r1 %2 %6 %6 %6 %6 :s1i
9: designate=v %1 %1 :s1l | designate=v %1 %1 :s1i
9: vector %6 :a2i sum %8 :i | vector %6 :a1i sum %8 :i
9: vector %6 :a1l count %8 :i | vector %6 :a1i sum %8 :i
9: as_expr %2 :a1i sum %8 :i | as_expr %2 :a2i sum %8 :i
9: as_expr %3 :a1i sum %8 :i | as_expr %3 :a1l count %8 :i
# the rank of what is applied, and the type of the element
9: elemental :a1i { apply %1 :i apply %2 :i add %9 %10 :i yield_element %11 } sum %8 :i | elemental :a1i { apply %1 :i apply %1 :i add %9 %10 :i yield_element %11 } sum %8 :i
9: elemental :a1l { apply %1 :i neg %9 :i yield_element %10 } count %8 :i | elemental :a1i { apply %1 :i neg %9 :i yield_element %10 } sum %8 :i
10: elemental :a1l { apply %1 :l not %9 :l yield_element %10 } count %8 :i | elemental :a1l { apply %3 :l not %9 :l yield_element %10 } count %8 :i
";
    const DECLARES: &str = "
6: declare=x :i | declare=x :ri
6: declare=x | declare=x :rl
6: declare=x :s1i | declare=x :d1i
6: declare=x :p0i | declare=x :p1i
# no result
6: assign :i { load %0 :i yield %7 } { yield %0 } | assign { load %0 :i yield %6 } { yield %0 }
6: workshare :i { } | workshare { }
";
    each_row(&rt, rt.alloc(), Rule::Result, VALUES, ROWS)?;
    each_row(&rt, rt.alloc(), Rule::Result, STATEMENTS, DECLARES)
}

#[test]
fn the_value_of_an_array_expression_is_used_once(rt: HostRuntime) -> Result<(), Fail> {
    const ROWS: &str = "
9: vector %6 :a1i | vector %6 :a1i sum %8 :i
9: as_expr %1 :a1i | as_expr %1 :a1i sum %8 :i
9: elemental :a1i { apply %1 :i neg %9 :i yield_element %10 } | elemental :a1i { apply %1 :i neg %9 :i yield_element %10 } sum %8 :i
9: vector %6 :a1i sum %8 :i product %8 :i | vector %6 :a1i sum %8 :i product %1 :i
# twice by one op, and inside another one
9: vector %6 :a1i designate=vv %2 %8 %8 :s2i | vector %6 :a1i vector %6 :a1i designate=vv %2 %8 %9 :s2i
9: vector %6 :a1i elemental :a1i { apply %8 :i apply %8 :i add %10 %11 :i yield_element %12 } sum %9 :i | vector %6 :a1i elemental :a1i { apply %8 :i apply %1 :i add %10 %11 :i yield_element %12 } sum %9 :i
";
    each_row(&rt, rt.alloc(), Rule::Once, VALUES, ROWS)
}
