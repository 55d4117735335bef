//! Pairs of designators of one variable.

ghost use Rattle.std.specs.Prelude.{◌≡◌, [], ◌∷◌, IfOk};
ghost use Rattle.alias_test.specs.Relations.{HasStride};

use crate::{Designator, Form, FormList, Relation, Sym, relate};
use sqlite_items::Items;
use std::alloc::{AllocError, Global};
use std::test::Fail;
use ws_base::{BinOp, UnOp};
use ws_space::Triplet;

/// `l:u:s`
fn range(bounds: &[i32; 3]) -> Result<Form, &'static str>
    ensures { IfOk result HasStride }
{
    let [l, u, s] = *bounds;
    if s == 0 {
        return Err("a stride is 0");
    }
    Ok(Form::Range(Triplet { l, u, s }))
}

/// A scalar subscript that is not constant.
fn opaque(alloc: Global, tree: &[Sym]) -> Result<Form, AllocError>
    ensures { IfOk result HasStride }
{
    Ok(Form::OpaqueIndex(Items::from_slice(alloc, tree)?))
}

fn one_form(alloc: Global, f: Form) -> Result<FormList, AllocError>
    ensures { IfOk result (λ forms. forms ≡ f ∷ []) }
{
    let mut forms = Items::new(alloc);
    forms.push(f)?;
    Ok(forms)
}

fn two_forms(alloc: Global, f: Form, g: Form) -> Result<FormList, AllocError>
    ensures { IfOk result (λ forms. forms ≡ f ∷ g ∷ []) }
{
    let mut forms = Items::new(alloc);
    forms.push(f)?;
    forms.push(g)?;
    Ok(forms)
}

/// `a(f)` with `a(g)`
fn vectors(alloc: Global, f: Form, g: Form) -> Result<Relation, AllocError>
    requires f_stride { HasStride f }
    requires g_stride { HasStride g }
{
    let a = Designator {
        var: 0,
        forms: one_form(alloc, f)?,
    };
    let b = Designator {
        var: 0,
        forms: one_form(alloc, g)?,
    };
    Ok(relate(&a, &b))
}

/// `a(f1, f2)` with `a(g1, g2)`
fn matrices(alloc: Global, f1: Form, f2: Form, g1: Form, g2: Form) -> Result<Relation, AllocError>
    requires f1_stride { HasStride f1 }
    requires f2_stride { HasStride f2 }
    requires g1_stride { HasStride g1 }
    requires g2_stride { HasStride g2 }
{
    let a = Designator {
        var: 0,
        forms: two_forms(alloc, f1, f2)?,
    };
    let b = Designator {
        var: 0,
        forms: two_forms(alloc, g1, g2)?,
    };
    Ok(relate(&a, &b))
}

#[test]
fn variables(rt: HostRuntime) -> Result<(), Fail> {
    let alloc = rt.alloc();
    let a = Designator {
        var: 0,
        forms: Items::new(alloc),
    };
    let b = Designator {
        var: 1,
        forms: Items::new(alloc),
    };
    assert_eq!(rt; relate(&a, &b), Relation::Disjoint);
    assert_eq!(rt; relate(&a, &a), Relation::Same);
    Ok(())
}

const RANGES: [([i32; 3], [i32; 3], Relation); 24] = [
    // The lists are the same.
    ([1, 5, 1], [1, 5, 1], Relation::Same),
    ([1, 8, 2], [1, 7, 2], Relation::Same),
    ([9, 1, -2], [9, 0, -2], Relation::Same),
    ([3, 4, 5], [3, 3, -1], Relation::Same),
    // They share a member.
    ([1, 9, 2], [3, 10, 3], Relation::May),
    ([2, 5, 1], [1, 4, 1], Relation::May),
    ([5, 1, -1], [1, 5, 1], Relation::May),
    ([1, 9, 2], [9, 1, -2], Relation::May),
    ([12, 3, -3], [7, -1, -4], Relation::May),
    ([1, 5, 1], [1, 4, 1], Relation::May),
    ([1, 5, 2], [1, 7, 3], Relation::May),
    ([1, 9, 4], [3, 15, 6], Relation::May),
    // They share -2147483648 alone.
    (
        [2147483647, -2147483648, -5],
        [-2147483648, 2147483647, 2147483647],
        Relation::May,
    ),
    // They share none.
    ([1, 9, 2], [2, 10, 2], Relation::Disjoint),
    ([10, 2, -2], [1, 9, 2], Relation::Disjoint),
    ([1, 4, 1], [5, 8, 1], Relation::Disjoint),
    // 1, 5, 9 and 3, 9 would meet in 9.
    ([1, 5, 4], [3, 15, 6], Relation::Disjoint),
    ([1, 9, 4], [3, 8, 6], Relation::Disjoint),
    // 2 divides both strides and not the distance.
    ([1, 37, 6], [4, 34, 10], Relation::Disjoint),
    (
        [-2147483648, 2147483647, 2],
        [2147483647, -2147483648, -2],
        Relation::Disjoint,
    ),
    // One is empty, or both.
    ([1, 0, 1], [1, 0, 1], Relation::Disjoint),
    ([5, 1, 1], [1, 5, 1], Relation::Disjoint),
    ([1, 5, -1], [3, 3, 1], Relation::Disjoint),
    ([1, 5, 1], [2, 1, 7], Relation::Disjoint),
];

#[test]
fn ranges(rt: HostRuntime) -> Result<(), Fail> {
    let alloc = rt.alloc();
    'each: for (a, b, wanted) in &RANGES {
        let found = vectors(alloc, range(a)?, range(b)?)?;
        assert_eq!(rt; found, *wanted, "{a:?} with {b:?}");
    }
    Ok(())
}

#[test]
fn indexes(rt: HostRuntime) -> Result<(), Fail> {
    let alloc = rt.alloc();
    assert_eq!(rt;
        vectors(alloc, Form::Index(3), Form::Index(3))?,
        Relation::Same
    );
    assert_eq!(rt;
        vectors(alloc, Form::Index(3), Form::Index(4))?,
        Relation::Disjoint
    );
    assert_eq!(rt;
        vectors(alloc, Form::Index(1), range(&[1, 1, 1])?)?,
        Relation::May
    );
    assert_eq!(rt;
        vectors(alloc, Form::Index(4), range(&[1, 9, 2])?)?,
        Relation::Disjoint
    );
    Ok(())
}

const LOWER: Sym = Sym::Kept {
    var: 0,
    dim: 1,
    upper: false,
};

const UPPER: Sym = Sym::Kept {
    var: 0,
    dim: 1,
    upper: true,
};

const TREES: [([Sym; 3], [Sym; 3], Relation); 6] = [
    (
        [Sym::Scalar(1), Sym::Number(1), Sym::Binary(BinOp::Add)],
        [Sym::Scalar(1), Sym::Number(1), Sym::Binary(BinOp::Add)],
        Relation::Same,
    ),
    (
        [Sym::Scalar(1), Sym::Number(1), Sym::Binary(BinOp::Add)],
        [Sym::Scalar(1), Sym::Number(1), Sym::Binary(BinOp::Sub)],
        Relation::May,
    ),
    (
        [Sym::Index(4), Sym::Number(1), Sym::Binary(BinOp::Add)],
        [Sym::Index(5), Sym::Number(1), Sym::Binary(BinOp::Add)],
        Relation::May,
    ),
    (
        [Sym::Index(4), Sym::Number(1), Sym::Binary(BinOp::Add)],
        [Sym::Scalar(4), Sym::Number(1), Sym::Binary(BinOp::Add)],
        Relation::May,
    ),
    (
        [LOWER, UPPER, Sym::Binary(BinOp::Mul)],
        [LOWER, LOWER, Sym::Binary(BinOp::Mul)],
        Relation::May,
    ),
    (
        [Sym::Scalar(1), Sym::Other, Sym::Binary(BinOp::Add)],
        [Sym::Scalar(1), Sym::Other, Sym::Binary(BinOp::Add)],
        Relation::May,
    ),
];

#[test]
fn opaque_subscripts(rt: HostRuntime) -> Result<(), Fail> {
    let alloc = rt.alloc();
    'each: for (a, b, wanted) in &TREES {
        let found = vectors(alloc, opaque(alloc, a)?, opaque(alloc, b)?)?;
        assert_eq!(rt; found, *wanted, "{a:?} with {b:?}");
    }
    Ok(())
}

#[test]
fn sorts_of_forms(rt: HostRuntime) -> Result<(), Fail> {
    let alloc = rt.alloc();
    let whole = Form::OpaqueRange(Items::from_slice(alloc, &[LOWER, UPPER, Sym::Number(1)])?);
    let rest = Form::OpaqueRange(Items::from_slice(alloc, &[LOWER, UPPER, Sym::Number(1)])?);
    assert_eq!(rt; vectors(alloc, whole, rest)?, Relation::Same);
    let minus = [Sym::Scalar(1), Sym::Unary(UnOp::Minus)];
    let triplet = Form::OpaqueRange(Items::from_slice(alloc, &minus)?);
    assert_eq!(rt;
        vectors(alloc, triplet, opaque(alloc, &minus)?)?,
        Relation::May
    );
    assert_eq!(rt;
        vectors(alloc, opaque(alloc, &minus)?, Form::Index(1))?,
        Relation::May
    );
    assert_eq!(rt; vectors(alloc, Form::Vector, Form::Vector)?, Relation::May);
    assert_eq!(rt;
        vectors(alloc, Form::Vector, range(&[1, 0, 1])?)?,
        Relation::May
    );
    Ok(())
}

#[test]
fn two_dimensions(rt: HostRuntime) -> Result<(), Fail> {
    let alloc = rt.alloc();
    let one = Form::Index(1);
    let two = Form::Index(2);
    let second = matrices(alloc, Form::Vector, one, Form::Vector, two)?;
    assert_eq!(rt; second, Relation::Disjoint);
    let odd = range(&[1, 9, 2])?;
    let even = range(&[2, 8, 2])?;
    let first = matrices(alloc, odd, Form::Index(1), even, Form::Index(1))?;
    assert_eq!(rt; first, Relation::Disjoint);
    let all = range(&[1, 4, 1])?;
    let same = matrices(
        alloc,
        range(&[1, 4, 1])?,
        Form::Index(1),
        all,
        Form::Index(1),
    )?;
    assert_eq!(rt; same, Relation::Same);
    Ok(())
}
