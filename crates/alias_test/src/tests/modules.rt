//! Designators of small modules.

ghost use Rattle.std.specs.Prelude.{◌≡◌, ◌<◌, [], ◌∷◌, drop, length, pos, OnOk, IfOk};
ghost use Rattle.hlfir_ops.specs.Rules.{KeepsRules};
ghost use Rattle.ws_space.specs.Shapes.{shape_of};
ghost use Rattle.alias_test.specs.Laws.{IsDesignator};

use crate::{Designator, Form, Relation, Sym, designator_in, designator_of, givers, relate};
use hlfir_ops::{
    Builder, Elem, Module, NameList, Op, SubKind, SubKindList, ValueBinary, ValueId, ValueIdList,
    ValueKind, What,
};
use sqlite_items::Items;
use std::alloc::{AllocError, Global};
use std::test::Fail;
use ws_base::{BinOp, Name};
use ws_space::{Dim, Shape, Triplet};

const INTEGER: ValueKind = ValueKind::Scalar(Elem::I32);

/// An allocatable of rank 1.
const VECTOR: ValueKind = ValueKind::Allocatable {
    elem: Elem::I32,
    rank: 1,
};

fn ids(alloc: Global, numbers: &[u32]) -> Result<ValueIdList, AllocError> {
    let mut ids = Items::new(alloc);
    for number in numbers {
        ids.push(ValueId { number: *number })?;
    }
    Ok(ids)
}

/// Appends an op with these operands.
fn add(
    alloc: Global,
    build: &mut Builder,
    what: What,
    numbers: &[u32],
    kind: Option<ValueKind>,
) -> Result<(), AllocError>
    ensures around { OnOk result (build.new.around ≡ build.old.around) }
    ensures ops { OnOk result (0 < length build.new.ops) }
{
    let op = Op {
        what,
        line: 0,
        operands: ids(alloc, numbers)?,
        kind,
        regions: Items::new(alloc),
    };
    match build.push(op) {
        Ok(_) => Ok(()),
        Err(_) => Err(AllocError),
    }
}

/// Enters the next region of the last op.
fn enter(build: &mut Builder) -> Result<(), AllocError>
    requires { 0 < length build.old.ops }
    ensures outer { OnOk result (drop 1 build.new.around ≡ build.old.around) }
    ensures entered { OnOk result (0 < length build.new.around) }
{
    build.enter_region()?;
    Ok(())
}

fn leave(build: &mut Builder)
    requires { 0 < length build.old.around }
    ensures outer { build.new.around ≡ drop 1 build.old.around }
    ensures ops { 0 < length build.new.ops }
{
    build.leave_region();
}

fn five() -> ValueKind
    ensures { result ≡ ValueKind.Declared Elem.I32 (shape_of (record { lower = pos 1; extent = 5 } ∷ [])) }
{
    let unused = Dim {
        lower: 1,
        extent: 1,
    };
    let d1 = Dim {
        lower: 1,
        extent: 5,
    };
    ValueKind::Declared {
        elem: Elem::I32,
        shape: Shape {
            rank: 1,
            d1,
            d2: unused,
            d3: unused,
        },
    }
}

fn declare(alloc: Global, build: &mut Builder) -> Result<(), AllocError>
    ensures { OnOk result (build.new.around ≡ build.old.around) }
{
    let name = Name::from_str(alloc, "a")?;
    add(alloc, build, What::Declare(name), &[], Some(five()))
}

fn constant(alloc: Global, build: &mut Builder, value: i64) -> Result<(), AllocError>
    ensures { OnOk result (build.new.around ≡ build.old.around) }
{
    add(alloc, build, What::Constant(value), &[], Some(INTEGER))
}

/// `a(i)` for the value of this number
fn element(alloc: Global, build: &mut Builder, i: u32) -> Result<(), AllocError>
    ensures { OnOk result (build.new.around ≡ build.old.around) }
{
    let subs = SubKindList::from_slice(alloc, &[SubKind::One])?;
    let kind = ValueKind::Place(Elem::I32);
    add(alloc, build, What::Designate(subs), &[0, i], Some(kind))
}

/// `a` and `a(1)`
fn raised(alloc: Global) -> Result<Module, AllocError> {
    let mut build = Builder::new(alloc, Name::from_str(alloc, "main")?);
    declare(alloc, &mut build)?;
    constant(alloc, &mut build, 1)?;
    element(alloc, &mut build, 1)?;
    Ok(build.finish())
}

/// The triplet of the only dimension.
fn only_range(d: &Designator) -> Option<Triplet> {
    match d.forms.as_slice() {
        [Form::Range(triplet)] => Some(*triplet),
        _ => None,
    }
}

/// The constant subscript of the only dimension.
fn only_index(d: &Designator) -> Option<i32> {
    match d.forms.as_slice() {
        [Form::Index(i)] => Some(*i),
        _ => None,
    }
}

/// The tree of the only subscript.
fn only_tree(d: &Designator) -> &[Sym] {
    match d.forms.as_slice() {
        [Form::OpaqueIndex(tree)] => tree.as_slice(),
        _ => &[],
    }
}

#[test]
fn an_element_and_its_array(rt: HostRuntime) -> Result<(), Fail> {
    let alloc = rt.alloc();
    let module = raised(alloc)?;
    let table = givers(alloc, &module)?;
    let whole = designator_in(alloc, table.as_slice(), ValueId { number: 0 })?;
    let first = designator_in(alloc, table.as_slice(), ValueId { number: 2 })?;
    assert_eq!(rt; whole.var, 0);
    assert_eq!(rt; only_range(&whole), Some(Triplet { l: 1, u: 5, s: 1 }));
    assert_eq!(rt; first.var, 0);
    assert_eq!(rt; only_index(&first), Some(1));
    Ok(())
}

/// `a(4 - i)` and `a(i)`, where value 1 is `i`
fn mirrored(alloc: Global, build: &mut Builder) -> Result<(), AllocError>
    ensures { OnOk result (build.new.around ≡ build.old.around) }
{
    constant(alloc, build, 4)?;
    let minus = What::Binary(ValueBinary::Sub);
    add(alloc, build, minus, &[2, 1], Some(INTEGER))?;
    element(alloc, build, 3)?;
    element(alloc, build, 1)
}

/// What stands in a FORALL.
fn reversed(alloc: Global) -> Result<Module, AllocError> {
    let mut build = Builder::new(alloc, Name::from_str(alloc, "main")?);
    declare(alloc, &mut build)?;
    let mut names = NameList::new(alloc);
    names.push(Name::from_str(alloc, "i")?)?;
    add(alloc, &mut build, What::Forall(names), &[], None)?;
    enter(&mut build)?;
    leave(&mut build);
    enter(&mut build)?;
    mirrored(alloc, &mut build)?;
    leave(&mut build);
    Ok(build.finish())
}

#[test]
fn subscripts_with_an_index_name(rt: HostRuntime) -> Result<(), Fail> {
    let alloc = rt.alloc();
    let module = reversed(alloc)?;
    let table = givers(alloc, &module)?;
    let left = designator_in(alloc, table.as_slice(), ValueId { number: 5 })?;
    let right = designator_in(alloc, table.as_slice(), ValueId { number: 4 })?;
    let tree = [Sym::Number(4), Sym::Index(1), Sym::Binary(BinOp::Sub)];
    assert_eq!(rt; only_tree(&left), [Sym::Index(1)].as_slice());
    assert_eq!(rt; only_tree(&right), tree.as_slice());
    Ok(())
}

/// A module that declares an array of five elements.
fn declared(alloc: Global) -> Result<Module, AllocError>
    ensures kept { IfOk result KeepsRules }
    ensures designates { IfOk result (λ m. IsDesignator m (record { number = 0 })) }
{
    let op = Op {
        what: What::Declare(Name::from_str(alloc, "a")?),
        line: 0,
        operands: Items::new(alloc),
        kind: Some(five()),
        regions: Items::new(alloc),
    };
    let mut build = Builder::new(alloc, Name::from_str(alloc, "main")?);
    match build.push(op) {
        Ok(_) => Ok(build.finish()),
        Err(_) => Err(AllocError),
    }
}

#[test]
fn a_whole_array(rt: HostRuntime) -> Result<(), Fail> {
    let alloc = rt.alloc();
    let module = declared(alloc)?;
    let a = designator_of(alloc, &module, ValueId { number: 0 })?;
    assert_eq!(rt; a.var, 0);
    assert_eq!(rt; only_range(&a), Some(Triplet { l: 1, u: 5, s: 1 }));
    assert_eq!(rt; relate(&a, &a), Relation::Same);
    Ok(())
}

/// A box of the value of this number.
fn boxed(alloc: Global, build: &mut Builder, of: u32) -> Result<(), AllocError>
    ensures { OnOk result (build.new.around ≡ build.old.around) }
{
    add(alloc, build, What::Boxed, &[of], Some(VECTOR))
}

/// `p` of value 0, its box and the box of this box; then 1, 2, 3 and 4.
fn boxes(alloc: Global, build: &mut Builder) -> Result<(), AllocError>
    ensures { OnOk result (build.new.around ≡ build.old.around) }
{
    let name = Name::from_str(alloc, "p")?;
    add(alloc, build, What::Declare(name), &[], Some(VECTOR))?;
    boxed(alloc, build, 0)?;
    boxed(alloc, build, 1)?;
    constant(alloc, build, 1)?;
    constant(alloc, build, 2)?;
    constant(alloc, build, 3)?;
    constant(alloc, build, 4)
}

/// The section by these values: what it is of, and its triplet.
fn section(alloc: Global, build: &mut Builder, numbers: &[u32; 4]) -> Result<(), AllocError>
    ensures { OnOk result (build.new.around ≡ build.old.around) }
{
    let subs = SubKindList::from_slice(alloc, &[SubKind::Range])?;
    let kind = ValueKind::Section {
        elem: Elem::I32,
        rank: 1,
    };
    add(alloc, build, What::Designate(subs), numbers, Some(kind))
}

/// `p(1:2)` by its box, which is value 7; then by the box of this box `p(1:2)`, `p(2:3)` and `p(3:4)`.
fn nested(alloc: Global) -> Result<Module, AllocError> {
    let mut build = Builder::new(alloc, Name::from_str(alloc, "main")?);
    boxes(alloc, &mut build)?;
    section(alloc, &mut build, &[1, 3, 4, 3])?;
    section(alloc, &mut build, &[2, 3, 4, 3])?;
    section(alloc, &mut build, &[2, 4, 5, 3])?;
    section(alloc, &mut build, &[2, 5, 6, 3])?;
    Ok(build.finish())
}

/// How the values of these numbers lie to one another. None where they have different numbers of dimensions.
fn lie(
    alloc: Global,
    table: &[&Op],
    first: u32,
    second: u32,
) -> Result<Option<Relation>, AllocError> {
    let a = designator_in(alloc, table, ValueId { number: first })?;
    let b = designator_in(alloc, table, ValueId { number: second })?;
    if a.forms.len() != b.forms.len() {
        return Ok(None);
    }
    Ok(Some(relate(&a, &b)))
}

#[test]
fn sections_by_a_box_of_a_box(rt: HostRuntime) -> Result<(), Fail> {
    let alloc = rt.alloc();
    let module = nested(alloc)?;
    let table = givers(alloc, &module)?;
    let ops = table.as_slice();
    let whole = designator_in(alloc, ops, ValueId { number: 2 })?;
    assert_eq!(rt; whole.var, 0);
    assert_eq!(rt; lie(alloc, ops, 1, 2)?, Some(Relation::Same));
    assert_eq!(rt; lie(alloc, ops, 7, 8)?, Some(Relation::Same));
    assert_eq!(rt; lie(alloc, ops, 7, 9)?, Some(Relation::May));
    assert_eq!(rt; lie(alloc, ops, 7, 10)?, Some(Relation::Disjoint));
    Ok(())
}
