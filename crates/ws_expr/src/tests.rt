use super::*;
use std::alloc::Global;
use std::test::Fail;
use ws_base::{BinOp, CallWord};
use ws_lex::tokens;
use ws_tree::Expr;

/// The expression that a statement is.
fn read(alloc: Global, source: &[u8]) -> Result<Reading<Expr>, Failed> {
    let Ok(list) = tokens(alloc, source) else {
        return Err(Failed::Memory);
    };
    match list.as_slice().split_last() {
        Some((_, statement)) => whole(alloc, statement),
        None => Err(Failed::Syntax),
    }
}

fn is_refused(alloc: Global, source: &[u8]) -> bool {
    matches!(read(alloc, source), Err(Failed::Syntax))
}

/// A power whose exponent is a power.
fn is_power_of_power(tree: &Expr) -> bool {
    match tree {
        Expr::Binary(BinOp::Pow, _, exponent) => is_power(exponent.get()),
        _ => false,
    }
}

fn is_power(tree: &Expr) -> bool {
    matches!(tree, Expr::Binary(BinOp::Pow, _, _))
}

#[test]
fn powers_go_from_right_to_left(rt: HostRuntime) -> Result<(), Fail> {
    let alloc = rt.alloc();
    let e = read(alloc, b"2**3**2")?;
    assert_eq!(rt; e.depth, 3);
    assert!(rt; is_power_of_power(&e.tree));
    let e = read(alloc, b"-a**2")?;
    assert!(rt; matches!(e.tree, Expr::Unary(_, _)));
    Ok(())
}

#[test]
fn signs_and_relations_that_are_refused(rt: HostRuntime) -> Result<(), Fail> {
    let alloc = rt.alloc();
    assert!(rt; is_refused(alloc, b"a*-b"));
    assert!(rt; is_refused(alloc, b"a == b == c"));
    assert!(rt; is_refused(alloc, b".not. .not. t"));
    assert!(rt; is_refused(alloc, b"a(1:2:)"));
    assert!(rt; is_refused(alloc, b"[]"));
    assert!(rt; !is_refused(alloc, b"a(1::2)"));
    Ok(())
}

#[test]
fn calls_that_are_left_out(rt: HostRuntime) -> Result<(), Fail> {
    let alloc = rt.alloc();
    assert!(rt; read(alloc, b"sum()")?.odd);
    assert!(rt; read(alloc, b"matmul(a, b)")?.odd);
    assert!(rt; read(alloc, b"size((a))")?.odd);
    assert!(rt; !read(alloc, b"sin(1) + sum")?.odd);
    let e = read(alloc, b"max(1, 2)")?;
    assert!(rt; !e.odd);
    assert!(rt; matches!(e.tree, Expr::Call(CallWord::Max, _)));
    Ok(())
}
