//! Which op and which rule the answer names.

use super::HEAD;
use super::reading::fault;
use crate::Rule;
use std::test::Fail;

#[test]
fn an_array_is_filled_and_shifted(rt: HostRuntime) -> Result<(), Fail> {
    const BEFORE: &str =
        "declare=a :d5i assign @2 { const=1 :i const=2 :i const=3 :i const=4 :i const=5 :i";
    const AFTER: &str = "} { yield %0 } workshare @3 { assign @4
        { const=1 :i const=4 :i const=1 :i designate=r %0 %7 %8 %9 :s1i yield %10 }
        { const=2 :i const=5 :i const=1 :i designate=r %0 %11 %12 %13 :s1i yield %14 } }";
    const SHIFT: [(&str, Option<(u32, Rule)>); 3] = [
        ("vector %1 %2 %3 %4 %5 :a1i yield %6", None),
        ("vector %1 %2 %3 %4 %5 :a1i yield %1", Some((7, Rule::Once))),
        (
            "vector %1 %2 %3 %4 %5 :a2i yield %6",
            Some((1, Rule::Sides)),
        ),
    ];
    for (middle, want) in SHIFT {
        let found = fault(rt.alloc(), &[BEFORE, middle, AFTER])?;
        assert_eq!(rt; found, want, "{middle}");
    }
    Ok(())
}

#[test]
fn the_first_op_and_its_least_rule_are_named(rt: HostRuntime) -> Result<(), Fail> {
    const CASES: [(&str, (u32, Rule)); 6] = [
        // no such value, so no allocatable's declare
        ("freemem %99", (6, Rule::Defined)),
        // no region, and no READ before it
        ("read=also", (6, Rule::Operands)),
        // an op before another one
        ("freemem %1 freemem", (6, Rule::Operands)),
        ("freemem %4 freemem", (7, Rule::Operands)),
        // an op inside another one, and the one around it
        (
            "assign { const=2 :l load %0 :i yield %7 } { yield %0 } freemem",
            (7, Rule::Result),
        ),
        (
            "assign { const=2 :l yield %6 } { yield %0 }",
            (6, Rule::Sides),
        ),
    ];
    for (text, want) in CASES {
        let found = fault(rt.alloc(), &[HEAD, text])?;
        assert_eq!(rt; found, Some(want), "{text}");
    }
    Ok(())
}

/// Three loops with 65536 ops inside the outermost one: 62 where in each other and an assignment, with 65536 ops and operands inside the
/// outermost one, and 55 more statements. With one constant more that where is too large.
#[test]
fn a_large_and_deep_module_is_verified(rt: HostRuntime) -> Result<(), Fail> {
    const BEFORE: &str = "declare=n :ri declare=a :d5i declare=m :d5l declare=p :p1i
        [3 do %0 { const=1 :i yield %-1 %-1 %-1 } { ] [62 where { yield %2 } { ] assign {";
    const AFTER: &str = "yield %1 } { yield %1 } [62 } ] [55 freemem %3 ] } } }";
    // Beside the constants stand 61 where, 62 masks of 2, and the 5 of the assignment and its yields.
    let found = fault(rt.alloc(), &[BEFORE, "consts=65346", AFTER])?;
    assert_eq!(rt; found, None);
    let found = fault(rt.alloc(), &[BEFORE, "consts=65347", AFTER])?;
    assert_eq!(rt; found, Some((13, Rule::Limits)));
    Ok(())
}
