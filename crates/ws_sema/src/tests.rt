use super::*;
use sqlite_items::{Boxed, Items};
use std::alloc::{AllocError, Global};
use std::test::Fail;
use ws_base::{BinOp, CallWord, Name, Refusal, RefusalKind};
use ws_tree::{Body, Bound, Decl, Expr, Stmt, Sub, Tree};

/// `integer :: NAME(EXTENT)` on line 1, and `a = RIGHT` on line 2.
fn source(alloc: Global, name: &str, extent: u32, right: Expr) -> Result<Tree, AllocError> {
    let mut shape = Items::new(alloc);
    shape.push(Bound::Upper(Expr::Number(extent)))?;
    let mut decls = Items::new(alloc);
    decls.push(Decl {
        line: 1,
        truth: false,
        constant: None,
        allocatable: false,
        name: Name::from_str(alloc, name)?,
        shape,
    })?;
    let left = Expr::Named(Name::from_str(alloc, "a")?);
    let mut body = Items::new(alloc);
    body.push(Stmt {
        line: 2,
        body: Body::Assign { left, right },
    })?;
    Ok(Tree {
        name: Name::from_str(alloc, "main")?,
        decls,
        body,
    })
}

#[test]
fn the_first_fault_is_found(rt: HostRuntime) -> Result<(), Fail> {
    let alloc = rt.alloc();
    let accepted = source(alloc, "a", 65_536, Expr::Number(1))?;
    assert_eq!(rt; first_fault(alloc, &accepted)?, None);
    let wrong_type = source(alloc, "a", 3, Expr::Truth(true))?;
    let fault = Refusal {
        line: 2,
        kind: RefusalKind::TypeWrong,
    };
    assert_eq!(rt; first_fault(alloc, &wrong_type)?, Some(fault));
    let both = source(alloc, "a", 65_537, Expr::Truth(true))?;
    let fault = Refusal {
        line: 1,
        kind: RefusalKind::OverLimit,
    };
    assert_eq!(rt; first_fault(alloc, &both)?, Some(fault));
    declaration_examples();
    expression_examples();
    statement_examples();
    Ok(())
}

/// A program that declares nothing and does nothing.
#[test]
fn a_tree_is_kept(rt: HostRuntime) -> Result<(), Fail> {
    let alloc = rt.alloc();
    let tree = Tree {
        name: Name::from_str(alloc, "main")?,
        decls: Items::new(alloc),
        body: Items::new(alloc),
    };
    match check(alloc, tree) {
        Ok(checked) => {
            assert_eq!(rt; checked.tree().name.as_str(), "main");
            assert_eq!(rt; checked.table().len(), 0);
            assert_eq!(rt; checked.constants().len(), 0);
        }
        Err(_) => assert!(rt; false),
    }
    Ok(())
}

/// The first fault of `integer :: a(3)` on line 1 and `a = RIGHT` on line 2.
fn judged(alloc: Global, right: Expr) -> Result<Option<Refusal>, AllocError> {
    let tree = source(alloc, "a", 3, right)?;
    first_fault(alloc, &tree)
}

/// `max(1, 1, ..)`
fn max_of(alloc: Global, count: u32) -> Result<Expr, AllocError> {
    let mut es = Items::new(alloc);
    for _ in 0..count {
        es.push(Expr::Number(1))?;
    }
    Ok(Expr::Call(CallWord::Max, es))
}

/// `a`
fn a(alloc: Global) -> Result<Expr, AllocError> {
    Ok(Expr::Named(Name::from_str(alloc, "a")?))
}

fn plus(alloc: Global, a: Expr, b: Expr) -> Result<Expr, AllocError> {
    let a = Boxed::new(alloc, a)?;
    let b = Boxed::new(alloc, b)?;
    Ok(Expr::Binary(BinOp::Add, a, b))
}

/// `sum(a)`
fn sum(alloc: Global) -> Result<Expr, AllocError> {
    let mut es = Items::new(alloc);
    es.push(a(alloc)?)?;
    Ok(Expr::Call(CallWord::Sum, es))
}

/// `1 + sum(a) + sum(a) + ..`
fn sums(alloc: Global, count: u32) -> Result<Expr, AllocError> {
    let mut e = Expr::Number(1);
    for _ in 0..count {
        e = plus(alloc, e, sum(alloc)?)?;
    }
    Ok(e)
}

/// `a(a + 1)`, whose subscript is evaluated whole
fn whole(alloc: Global) -> Result<Expr, AllocError> {
    let subscript = plus(alloc, a(alloc)?, Expr::Number(1))?;
    let mut subs = Items::new(alloc);
    subs.push(Sub::One(subscript))?;
    Ok(Expr::Part(Name::from_str(alloc, "a")?, subs))
}

/// A region on line 2 with `a = RIGHT` on line 2 and so many of `a = 1`.
fn judged_region(alloc: Global, right: Expr, count: u32) -> Result<Option<Refusal>, AllocError> {
    let tree = source(alloc, "a", 3, right)?;
    let mut block = tree.body;
    for _ in 0..count {
        block.push(Stmt {
            line: 3,
            body: Body::Assign {
                left: a(alloc)?,
                right: Expr::Number(1),
            },
        })?;
    }
    let mut body = Items::new(alloc);
    body.push(Stmt {
        line: 2,
        body: Body::Shared { block },
    })?;
    let tree = Tree {
        name: tree.name,
        decls: tree.decls,
        body,
    };
    first_fault(alloc, &tree)
}

const OVER: Option<Refusal> = Some(Refusal {
    line: 2,
    kind: RefusalKind::OverLimit,
});

/// A call and each of its arguments are parts.
#[test]
fn a_statement_has_at_most_1024_parts(rt: HostRuntime) -> Result<(), Fail> {
    let alloc = rt.alloc();
    assert_eq!(rt; judged(alloc, max_of(alloc, 1023)?)?, None);
    assert_eq!(rt; judged(alloc, max_of(alloc, 1024)?)?, OVER);
    Ok(())
}

/// A step has 2 temporaries, and one more for each reduction.
#[test]
fn a_step_has_at_most_64_temporaries(rt: HostRuntime) -> Result<(), Fail> {
    let alloc = rt.alloc();
    assert_eq!(rt; judged(alloc, sums(alloc, 62)?)?, None);
    assert_eq!(rt; judged(alloc, sums(alloc, 63)?)?, OVER);
    Ok(())
}

/// A step has 6 phases, a vector subscript that is evaluated whole 2 more, and a reduction 3 more.
#[test]
fn a_region_has_at_most_512_phases(rt: HostRuntime) -> Result<(), Fail> {
    let alloc = rt.alloc();
    assert_eq!(rt; judged_region(alloc, whole(alloc)?, 84)?, None);
    assert_eq!(rt; judged_region(alloc, sum(alloc)?, 84)?, OVER);
    Ok(())
}
