//! Modules at the limits, and just past them.

use super::reading::fault_with;
use super::{STATEMENTS, each_row, is_row};
use crate::Rule;
use std::alloc::Global;
use std::process::Abort;
use std::test::Fail;

/// Ops 0 to 3, which are values 0 to 3: an INTEGER, an INTEGER array, a LOGICAL array and an INTEGER allocatable.
const HEAD: &str = "declare=n :ri declare=a :d5i declare=m :d5l declare=p :p1i";

/// A row is an op, a number, and a text with a `*`. With that number in its place the module breaks no rule, and with the next one that
/// op breaks the limits.
fn check_most(rt: &impl Abort, alloc: Global, row: &str) -> Result<(), Fail> {
    let (numbers, text) = row.split_once(':').ok_or("no text")?;
    let (op, most) = numbers.split_once(' ').ok_or("no number")?;
    let most = most.parse::<u32>()?;
    let found = fault_with(alloc, &[HEAD, text], most)?;
    assert_eq!(rt; found, None, "{text}");
    let found = fault_with(alloc, &[HEAD, text], most.saturating_add(1))?;
    assert_eq!(rt; found, Some((op.parse()?, Rule::Limits)), "{text}");
    Ok(())
}

fn each_most(rt: &impl Abort, alloc: Global, table: &str) -> Result<(), Fail> {
    for line in table.lines() {
        if is_row(line) {
            check_most(rt, alloc, line)?;
        }
    }
    Ok(())
}

#[test]
fn declares_constructors_and_bodies_have_limits(rt: HostRuntime) -> Result<(), Fail> {
    const KINDS: &str = "
6: declare=x :p4i | declare=x :p3i
6: declare=x :d1x1x1x1i | declare=x :d1x1x1i
6: declare=x :d65537i | declare=x :d65536i
6: declare=x :d256x257i | declare=x :d256x256i
6: declare=x :d41x40x40l | declare=x :d41x40x39l
6: declare=x :d1x65537i | declare=x :d0x65537i
";
    const NUMBERS: &str = "
64 60: declares=*
6 256: assign { const=1 :i vector [* %4 ] :a1i yield %5 } { yield %1 }
# The first loop is op 4, the next one op 7, and so on.
199 65: [* do %0 { const=1 :i yield %-1 %-1 %-1 } { ] [* } ]
198 63: [* do %0 { const=1 :i yield %-1 %-1 %-1 } { ] where { yield %2 } { where { yield %2 } { } } [* } ]
199 63: [* do %0 { const=1 :i yield %-1 %-1 %-1 } { ] where { yield %2 } { } { elsewhere { where { yield %2 } { } } } [* } ]
197 63: [* do %0 { const=1 :i yield %-1 %-1 %-1 } { ] workshare { where { yield %2 } { } } [* } ]
197 63: [* do %0 { const=1 :i yield %-1 %-1 %-1 } { ] workshare { forall=i { const=1 :i yield %-1 %-1 %-1 } { } } [* } ]
";
    each_row(&rt, rt.alloc(), Rule::Limits, STATEMENTS, KINDS)?;
    each_most(&rt, rt.alloc(), NUMBERS)
}

#[test]
fn what_stands_in_a_statement_has_a_limit(rt: HostRuntime) -> Result<(), Fail> {
    const ROWS: &str = "
# Beside the constants stand what is around them and the yields, each with its operands.
4 65532: assign { consts=* yield %1 } { yield %1 }
5 65532: workshare { assign { consts=* yield %1 } { yield %1 } }
4 65529: where { yield %2 } { assign { consts=* yield %1 } { yield %1 } }
4 65523: forall=i { const=1 :i yield %4 %4 %4 } { assign { consts=* yield %5 } { designate=1 %1 %5 :ri yield %-1 } }
4 65532: do %0 { consts=* yield %-1 %-1 %-1 } { }
4 65533: allocmem %3 { consts=* yield %-1 %-1 }
4 65534: read { consts=* yield %1 }
";
    each_most(&rt, rt.alloc(), ROWS)
}

#[test]
fn there_are_512_phases_at_most(rt: HostRuntime) -> Result<(), Fail> {
    const ROWS: &str = "
# 6 for each step
4 85: workshare { [* assign { const=1 :i yield %-1 } { yield %0 } ] }
4 85: where { yield %2 } { [* assign { yield %1 } { yield %1 } ] }
4 85: forall=i { const=1 :i yield %-1 %-1 %-1 } { [* assign { load %0 :i yield %-1 } { const=1 :i designate=1 %1 %-1 :ri yield %-1 } ] }
4 85: workshare { [* forall=i { const=1 :i yield %-1 %-1 %-1 } { } ] }
# 1 for each new mask, of which those after the last assignment are a step
4 73: workshare { [* forall=i { const=1 :i yield %-1 %-1 %-1 } { forall_mask { const=1 :l yield %-1 } } ] }
4 73: workshare { [* where { yield %2 } { } ] }
4 64: workshare { [* where { yield %2 } { } { elsewhere { yield %2 } { assign { yield %1 } { yield %1 } } } ] }
4 36: workshare { [* where { yield %2 } { assign { yield %1 } { yield %1 } } { elsewhere { yield %2 } { } } ] }
4 39: workshare { [* where { yield %2 } { assign { yield %1 } { yield %1 } } { elsewhere { assign { yield %1 } { yield %1 } } } ] }
4 32: workshare { [79 assign { yield %1 } { yield %1 } ] [* where { yield %2 } { ] assign { yield %1 } { yield %1 } [* } ] }
# 3 for each reduction, and 2 for each vector subscript evaluated whole
4 18: workshare { [75 assign { yield %1 } { yield %1 } ] assign { [* sum %1 :i ] yield %-1 } { yield %0 } }
4 16: workshare { [79 assign { yield %1 } { yield %1 } ] assign { [* as_expr %1 :a1i designate=v %1 %-1 :s1i ] yield %-1 } { yield %1 } }
";
    each_most(&rt, rt.alloc(), ROWS)
}

#[test]
fn there_are_64_temporaries_at_most(rt: HostRuntime) -> Result<(), Fail> {
    const ROWS: &str = "
# 2 for a step, and 1 for each reduction and each vector subscript evaluated whole
4 62: assign { [* sum %1 :i ] yield %-1 } { yield %0 }
4 62: assign { [* as_expr %1 :a1i designate=v %1 %-1 :s1i ] yield %-1 } { yield %1 }
4 62: do %0 { [* sum %1 :i ] yield %-1 %-1 %-1 } { }
4 62: allocmem %3 { [* sum %1 :i ] yield %-1 %-1 }
4 62: read { [* sum %1 :i ] yield %1 }
4 62: forall=i { [* sum %1 :i ] yield %-1 %-1 %-1 } { }
# 1 for each mask up to its own
4 62: [* where { yield %2 } { ] [* } ]
4 61: where { yield %2 } { } { [* elsewhere { yield %2 } { } ] }
# Vector subscripts of a mask are held for later steps, and what a step has of its own is not.
4 30: where { [* as_expr %1 :a1i designate=v %2 %-1 :s1l ] yield %-1 } { assign { yield %1 } { yield %1 } assign { [31 sum %1 :i ] yield %-1 } { yield %1 } }
4 61: where { yield %2 } { assign { [* sum %1 :i ] yield %-1 } { yield %1 } assign { [61 sum %1 :i ] yield %-1 } { yield %1 } }
4 61: where { yield %2 } { assign { [* as_expr %1 :a1i designate=v %1 %-1 :s1i ] yield %-1 } { yield %1 } assign { [61 sum %1 :i ] yield %-1 } { yield %1 } }
# In a workshare the greatest number counts.
4 62: workshare { assign { [* sum %1 :i ] yield %-1 } { yield %0 } assign { [62 sum %1 :i ] yield %-1 } { yield %0 } }
# Designators and constructors are not evaluated whole.
4 62: assign { const=1 :i [99 designate=v %1 %1 :s1i designate=v %1 %-1 :s1i vector %4 :a1i designate=v %1 %-1 :s1i ] [* sum %1 :i ] yield %-1 } { yield %0 }
";
    each_most(&rt, rt.alloc(), ROWS)
}
