ghost use Rattle.std.specs.Prelude.{◌≡◌, ◌<◌, [], drop, length, OnOk};

use super::*;
use hlfir_ops::{
    BoundWord, Builder, Elem, Module, NameList, Op, Reduction, SubKind, SubKindList, ValueBinary,
    ValueId, ValueIdList, ValueKind, ValueUnary, What,
};
use sqlite_items::Items;
use std::alloc::{AllocError, Global};
use std::test::Fail;
use ws_base::Name;
use ws_space::{Dim, Shape};

const INTEGER: ValueKind = ValueKind::Scalar(Elem::I32);

const LOGICAL: ValueKind = ValueKind::Scalar(Elem::I1);

fn ids(alloc: Global, numbers: &[u32]) -> Result<ValueIdList, AllocError> {
    let mut ids = Items::new(alloc);
    for number in numbers {
        ids.push(ValueId { number: *number })?;
    }
    Ok(ids)
}

/// Appends an op with these operands.
fn add(
    alloc: Global,
    build: &mut Builder,
    what: What,
    line: u32,
    numbers: &[u32],
    kind: Option<ValueKind>,
) -> Result<(), AllocError>
    ensures around { OnOk result (build.new.around ≡ build.old.around) }
    ensures ops { OnOk result (0 < length build.new.ops) }
{
    let op = Op {
        what,
        line,
        operands: ids(alloc, numbers)?,
        kind,
        regions: Items::new(alloc),
    };
    match build.push(op) {
        Ok(_) => Ok(()),
        Err(_) => Err(AllocError),
    }
}

/// Enters the next region of the last op.
fn enter(build: &mut Builder) -> Result<(), AllocError>
    requires { 0 < length build.old.ops }
    ensures outer { OnOk result (drop 1 build.new.around ≡ build.old.around) }
    ensures entered { OnOk result (0 < length build.new.around) }
{
    build.enter_region()?;
    Ok(())
}

fn leave(build: &mut Builder)
    requires { 0 < length build.old.around }
    ensures outer { build.new.around ≡ drop 1 build.old.around }
    ensures ops { 0 < length build.new.ops }
{
    build.leave_region();
}

/// Leaves a region, and enters the next one of the op.
fn next(build: &mut Builder) -> Result<(), AllocError>
    requires { 0 < length build.old.around }
    ensures outer { OnOk result (drop 1 build.new.around ≡ drop 1 build.old.around) }
    ensures entered { OnOk result (0 < length build.new.around) }
{
    leave(build);
    enter(build)?;
    Ok(())
}

fn declare(
    alloc: Global,
    build: &mut Builder,
    name: &str,
    kind: ValueKind,
) -> Result<(), AllocError>
    ensures { OnOk result (build.new.around ≡ build.old.around) }
{
    let name = Name::from_str(alloc, name)?;
    add(alloc, build, What::Declare(name), 0, &[], Some(kind))
}

fn constant(alloc: Global, build: &mut Builder, value: i64) -> Result<(), AllocError>
    ensures { OnOk result (build.new.around ≡ build.old.around) }
{
    add(alloc, build, What::Constant(value), 0, &[], Some(INTEGER))
}

fn yields(alloc: Global, build: &mut Builder, numbers: &[u32]) -> Result<(), AllocError>
    ensures { OnOk result (build.new.around ≡ build.old.around) }
{
    add(alloc, build, What::Yield, 0, numbers, None)
}

fn section_kind() -> ValueKind {
    ValueKind::Section {
        elem: Elem::I32,
        rank: 1,
    }
}

fn array_kind() -> ValueKind {
    ValueKind::Array {
        elem: Elem::I32,
        rank: 1,
    }
}

/// `[1, 2, 3, 4, 5]`, which is value 6.
fn vector(alloc: Global, build: &mut Builder) -> Result<(), AllocError>
    ensures { OnOk result (build.new.around ≡ build.old.around) }
{
    constant(alloc, build, 1)?;
    constant(alloc, build, 2)?;
    constant(alloc, build, 3)?;
    constant(alloc, build, 4)?;
    constant(alloc, build, 5)?;
    add(
        alloc,
        build,
        What::Vector,
        0,
        &[1, 2, 3, 4, 5],
        Some(array_kind()),
    )?;
    yields(alloc, build, &[6])
}

/// `a(l:u)`
fn section(
    alloc: Global,
    build: &mut Builder,
    l: i64,
    u: i64,
    numbers: &[u32],
    number: u32,
) -> Result<(), AllocError>
    ensures { OnOk result (build.new.around ≡ build.old.around) }
{
    constant(alloc, build, l)?;
    constant(alloc, build, u)?;
    constant(alloc, build, 1)?;
    let subs = SubKindList::from_slice(alloc, &[SubKind::Range])?;
    add(
        alloc,
        build,
        What::Designate(subs),
        0,
        numbers,
        Some(section_kind()),
    )?;
    yields(alloc, build, &[number])
}

/// `a = [1, 2, 3, 4, 5]`
fn first(alloc: Global, build: &mut Builder) -> Result<(), AllocError>
    ensures { OnOk result (build.new.around ≡ build.old.around) }
{
    add(alloc, build, What::Assign { realloc: false }, 2, &[], None)?;
    enter(build)?;
    vector(alloc, build)?;
    next(build)?;
    yields(alloc, build, &[0])?;
    leave(build);
    Ok(())
}

/// `a(2:5) = a(1:4)` in a region
fn second(alloc: Global, build: &mut Builder) -> Result<(), AllocError>
    ensures { OnOk result (build.new.around ≡ build.old.around) }
{
    add(alloc, build, What::Workshare, 3, &[], None)?;
    enter(build)?;
    moved(alloc, build)?;
    leave(build);
    Ok(())
}

fn moved(alloc: Global, build: &mut Builder) -> Result<(), AllocError>
    ensures { OnOk result (build.new.around ≡ build.old.around) }
{
    add(alloc, build, What::Assign { realloc: false }, 4, &[], None)?;
    enter(build)?;
    section(alloc, build, 1, 4, &[0, 7, 8, 9], 10)?;
    next(build)?;
    section(alloc, build, 2, 5, &[0, 11, 12, 13], 14)?;
    leave(build);
    Ok(())
}

fn five_elements() -> Shape {
    let unused = Dim {
        lower: 1,
        extent: 1,
    };
    Shape {
        rank: 1,
        d1: Dim {
            lower: 1,
            extent: 5,
        },
        d2: unused,
        d3: unused,
    }
}

fn five() -> ValueKind {
    ValueKind::Declared {
        elem: Elem::I32,
        shape: five_elements(),
    }
}

fn shift(alloc: Global) -> Result<Module, AllocError> {
    let mut build = Builder::new(alloc, Name::from_str(alloc, "main")?);
    declare(alloc, &mut build, "a", five())?;
    first(alloc, &mut build)?;
    second(alloc, &mut build)?;
    Ok(build.finish())
}

const SHIFT: &str = "module main
%0 = hlfir.declare \"a\" : ref<1:5xi32>
hlfir.region_assign @2 {
  %1 = arith.constant 1 : i32
  %2 = arith.constant 2 : i32
  %3 = arith.constant 3 : i32
  %4 = arith.constant 4 : i32
  %5 = arith.constant 5 : i32
  %6 = hlfir.vector %1 %2 %3 %4 %5 : expr<1xi32>
  hlfir.yield %6
} to {
  hlfir.yield %0
}
omp.workshare @3 {
  hlfir.region_assign @4 {
    %7 = arith.constant 1 : i32
    %8 = arith.constant 4 : i32
    %9 = arith.constant 1 : i32
    %10 = hlfir.designate %0 (%7:%8:%9) : sec<1xi32>
    hlfir.yield %10
  } to {
    %11 = arith.constant 2 : i32
    %12 = arith.constant 5 : i32
    %13 = arith.constant 1 : i32
    %14 = hlfir.designate %0 (%11:%12:%13) : sec<1xi32>
    hlfir.yield %14
  }
}
";

#[test]
fn numbers_go_on_from_region_to_region(rt: HostRuntime) -> Result<(), Fail> {
    let alloc = rt.alloc();
    let text = print(alloc, &shift(alloc)?)?;
    assert_eq!(rt; text.as_slice(), SHIFT.as_bytes());
    Ok(())
}

/// `allocate (p(n, 2:3))`, `deallocate (q, p)`, and a DO that reads
fn storage(alloc: Global, build: &mut Builder) -> Result<(), AllocError>
    ensures { OnOk result (build.new.around ≡ build.old.around) }
{
    add(alloc, build, What::Allocmem { also: false }, 2, &[0], None)?;
    enter(build)?;
    constant(alloc, build, 1)?;
    add(alloc, build, What::Load, 0, &[1], Some(INTEGER))?;
    yields(alloc, build, &[3, 4, 4, 3])?;
    leave(build);
    add(alloc, build, What::Freemem { also: true }, 3, &[0], None)?;
    add(alloc, build, What::DoLoop, 4, &[1], None)?;
    enter(build)?;
    yields(alloc, build, &[3, 4, 3])?;
    next(build)?;
    read(alloc, build)?;
    leave(build);
    Ok(())
}

fn read(alloc: Global, build: &mut Builder) -> Result<(), AllocError>
    ensures { OnOk result (build.new.around ≡ build.old.around) }
{
    add(alloc, build, What::Read { also: false }, 5, &[], None)?;
    enter(build)?;
    yields(alloc, build, &[1])?;
    leave(build);
    Ok(())
}

/// A WHERE with an ELSEWHERE of each form
fn masked(alloc: Global, build: &mut Builder) -> Result<(), AllocError>
    ensures { OnOk result (build.new.around ≡ build.old.around) }
{
    add(alloc, build, What::Masked, 6, &[], None)?;
    enter(build)?;
    yields(alloc, build, &[2])?;
    next(build)?;
    kept(alloc, build)?;
    next(build)?;
    otherwise(alloc, build)?;
    leave(build);
    Ok(())
}

fn kept(alloc: Global, build: &mut Builder) -> Result<(), AllocError>
    ensures { OnOk result (build.new.around ≡ build.old.around) }
{
    add(alloc, build, What::Assign { realloc: true }, 7, &[], None)?;
    enter(build)?;
    yields(alloc, build, &[1])?;
    next(build)?;
    yields(alloc, build, &[0])?;
    leave(build);
    Ok(())
}

fn otherwise(alloc: Global, build: &mut Builder) -> Result<(), AllocError>
    ensures { OnOk result (build.new.around ≡ build.old.around) }
{
    add(alloc, build, What::Elsewhere, 8, &[], None)?;
    enter(build)?;
    yields(alloc, build, &[2])?;
    next(build)?;
    kept(alloc, build)?;
    leave(build);
    add(alloc, build, What::Elsewhere, 9, &[], None)?;
    enter(build)?;
    leave(build);
    Ok(())
}

/// `forall (i = .., j = .., i < j)`
fn combined(alloc: Global, build: &mut Builder) -> Result<(), AllocError>
    ensures { OnOk result (build.new.around ≡ build.old.around) }
{
    let mut names = NameList::new(alloc);
    names.push(Name::from_str(alloc, "i")?)?;
    names.push(Name::from_str(alloc, "j")?)?;
    add(alloc, build, What::Forall(names), 10, &[], None)?;
    enter(build)?;
    constant(alloc, build, -7)?;
    yields(alloc, build, &[5, 5, 5, 5, 5, 5])?;
    next(build)?;
    add(alloc, build, What::ForallMask, 0, &[], None)?;
    enter(build)?;
    add(
        alloc,
        build,
        What::Binary(ValueBinary::Lt),
        0,
        &[6, 7],
        Some(LOGICAL),
    )?;
    yields(alloc, build, &[8])?;
    leave(build);
    leave(build);
    Ok(())
}

fn constructs(alloc: Global) -> Result<Module, AllocError> {
    let mut build = Builder::new(alloc, Name::from_str(alloc, "all")?);
    let rank_two = ValueKind::Allocatable {
        elem: Elem::I32,
        rank: 2,
    };
    declare(alloc, &mut build, "p", rank_two)?;
    declare(alloc, &mut build, "n", ValueKind::Place(Elem::I32))?;
    declare(alloc, &mut build, "m", ValueKind::Place(Elem::I1))?;
    storage(alloc, &mut build)?;
    masked(alloc, &mut build)?;
    combined(alloc, &mut build)?;
    Ok(build.finish())
}

const CONSTRUCTS: &str = "module all
%0 = hlfir.declare \"p\" : ref<?x?xi32>
%1 = hlfir.declare \"n\" : ref<i32>
%2 = hlfir.declare \"m\" : ref<i1>
fir.allocmem @2 %0 {
  %3 = arith.constant 1 : i32
  %4 = hlfir.load %1 : i32
  hlfir.yield %3:%4, %4:%3
}
fir.freemem @3 also %0
fir.do_loop @4 %1 {
  hlfir.yield %3, %4, %3
} {
  ws.read @5 {
    hlfir.yield %1
  }
}
hlfir.where @6 {
  hlfir.yield %2
} do {
  hlfir.region_assign @7 realloc {
    hlfir.yield %1
  } to {
    hlfir.yield %0
  }
} elsewhere @8 {
  hlfir.yield %2
} do {
  hlfir.region_assign @7 realloc {
    hlfir.yield %1
  } to {
    hlfir.yield %0
  }
} elsewhere @9 do {
}
hlfir.forall @10 {
  %5 = arith.constant -7 : i32
  hlfir.yield %5:%5:%5, %5:%5:%5
} index %6 \"i\", %7 \"j\" {
  hlfir.forall_mask {
    %8 = arith.cmpi lt %6, %7 : i1
    hlfir.yield %8
  }
}
";

#[test]
fn constructs_stand_between_braces(rt: HostRuntime) -> Result<(), Fail> {
    let alloc = rt.alloc();
    let text = print(alloc, &constructs(alloc)?)?;
    assert_eq!(rt; text.as_slice(), CONSTRUCTS.as_bytes());
    Ok(())
}

/// An op of a value, where only its text counts.
fn plain(
    alloc: Global,
    build: &mut Builder,
    what: What,
    numbers: &[u32],
    kind: ValueKind,
) -> Result<(), AllocError>
    ensures { OnOk result (build.new.around ≡ build.old.around) }
{
    add(alloc, build, what, 0, numbers, Some(kind))
}

fn operations(alloc: Global, build: &mut Builder) -> Result<(), AllocError>
    ensures { OnOk result (build.new.around ≡ build.old.around) }
{
    plain(alloc, build, What::Constant(1), &[], LOGICAL)?;
    plain(
        alloc,
        build,
        What::Binary(ValueBinary::Pow),
        &[7, 8],
        INTEGER,
    )?;
    plain(alloc, build, What::Unary(ValueUnary::Not), &[0], LOGICAL)?;
    plain(alloc, build, What::Select, &[0, 7, 8], INTEGER)?;
    let lower = What::Bound {
        word: BoundWord::Lower,
        dim: 2,
    };
    plain(alloc, build, lower, &[9], INTEGER)?;
    plain(alloc, build, What::Size, &[9], INTEGER)?;
    plain(alloc, build, What::Allocated, &[9], LOGICAL)
}

fn arrays(alloc: Global, build: &mut Builder) -> Result<(), AllocError>
    ensures { OnOk result (build.new.around ≡ build.old.around) }
{
    let subs = [SubKind::One, SubKind::Range, SubKind::Vector];
    let subs = SubKindList::from_slice(alloc, &subs)?;
    plain(
        alloc,
        build,
        What::Designate(subs),
        &[9, 1, 2, 3, 4, 5],
        section_kind(),
    )?;
    plain(alloc, build, What::AsExpr, &[9], array_kind())?;
    let sum = What::Reduce(Reduction::Sum);
    plain(alloc, build, sum, &[8], INTEGER)?;
    add(alloc, build, What::Elemental, 0, &[], Some(array_kind()))?;
    enter(build)?;
    plain(alloc, build, What::Apply, &[8], INTEGER)?;
    add(alloc, build, What::YieldElement, 0, &[11], None)?;
    leave(build);
    Ok(())
}

fn values(alloc: Global) -> Result<Module, AllocError> {
    let mut build = Builder::new(alloc, Name::from_str(alloc, "v")?);
    operations(alloc, &mut build)?;
    arrays(alloc, &mut build)?;
    Ok(build.finish())
}

const VALUES: &str = "module v
%0 = arith.constant true : i1
%1 = hlfir.pow %7, %8 : i32
%2 = hlfir.not %0 : i1
%3 = arith.select %0, %7, %8 : i32
%4 = hlfir.lower %9, 2 : i32
%5 = hlfir.size %9 : i32
%6 = hlfir.allocated %9 : i1
%7 = hlfir.designate %9 (%1, %2:%3:%4, vector %5) : sec<1xi32>
%8 = hlfir.as_expr %9 : expr<1xi32>
%9 = hlfir.sum %8 : i32
%10 = hlfir.elemental : expr<1xi32> {
  %11 = hlfir.apply %8 : i32
  hlfir.yield_element %11
}
";

#[test]
fn a_value_has_its_number_and_its_kind(rt: HostRuntime) -> Result<(), Fail> {
    let alloc = rt.alloc();
    let text = print(alloc, &values(alloc)?)?;
    assert_eq!(rt; text.as_slice(), VALUES.as_bytes());
    Ok(())
}

/// The body of a FORALL over `i`
fn over_i(alloc: Global, build: &mut Builder) -> Result<(), AllocError>
    ensures { OnOk result (0 < length build.new.around) }
{
    let mut names = NameList::new(alloc);
    names.push(Name::from_str(alloc, "i")?)?;
    add(alloc, build, What::Forall(names), 10, &[], None)?;
    enter(build)?;
    constant(alloc, build, 1)?;
    next(build)
}

#[test]
fn a_place_knows_what_is_around(rt: HostRuntime) -> Result<(), Fail> {
    let alloc = rt.alloc();
    let i = Name::from_str(alloc, "i")?;
    let mut build = Builder::new(alloc, Name::from_str(alloc, "main")?);
    over_i(alloc, &mut build)?;
    over_i(alloc, &mut build)?;
    add(alloc, &mut build, What::ForallMask, 12, &[], None)?;
    enter(&mut build)?;
    assert_eq!(rt; build.index(&i), Some(ValueId { number: 3 }));
    assert_eq!(rt; build.line(), 10);
    assert!(rt; !build.masked());
    add(alloc, &mut build, What::Masked, 13, &[], None)?;
    enter(&mut build)?;
    assert!(rt; build.masked());
    assert_eq!(rt; build.line(), 13);
    assert_eq!(rt; build.index(&Name::from_str(alloc, "j")?), None);
    Ok(())
}

/// So many constants
fn sevens(alloc: Global, build: &mut Builder, count: u32) -> Result<(), AllocError>
    ensures { OnOk result (build.new.around ≡ build.old.around) }
{
    'each: for _ in 0..count {
        constant(alloc, build, 7)?;
    }
    Ok(())
}

/// An assignment of the first of so many constants
fn crowded(alloc: Global, build: &mut Builder, constants: u32) -> Result<(), AllocError>
    ensures { OnOk result (build.new.around ≡ build.old.around) }
{
    add(alloc, build, What::Assign { realloc: false }, 3, &[], None)?;
    enter(build)?;
    sevens(alloc, build, constants)?;
    yields(alloc, build, &[2])?;
    next(build)?;
    yields(alloc, build, &[0])?;
    leave(build);
    Ok(())
}

/// WHERE in WHERE, so many deep, and in the innermost one an assignment
fn nested(alloc: Global, build: &mut Builder, depth: u32, constants: u32) -> Result<(), AllocError>
    ensures { OnOk result (build.new.around ≡ build.old.around) }
{
    if depth == 0 {
        return crowded(alloc, build, constants);
    }
    add(alloc, build, What::Masked, 2, &[], None)?;
    enter(build)?;
    yields(alloc, build, &[1])?;
    next(build)?;
    nested(alloc, build, depth - 1, constants)?;
    leave(build);
    Ok(())
}

fn deep(alloc: Global, depth: u32, constants: u32) -> Result<Module, AllocError> {
    let mut build = Builder::new(alloc, Name::from_str(alloc, "main")?);
    declare(alloc, &mut build, "a", five())?;
    let truths = ValueKind::Declared {
        elem: Elem::I1,
        shape: five_elements(),
    };
    declare(alloc, &mut build, "m", truths)?;
    nested(alloc, &mut build, depth, constants)?;
    Ok(build.finish())
}

#[test]
fn a_large_module_is_printed(rt: HostRuntime) -> Result<(), Fail> {
    let alloc = rt.alloc();
    // The outermost WHERE holds 64 others, 65 masks' yields, the assignment with two yields, and the constants: 65,536 ops.
    let text = print(alloc, &deep(alloc, 65, 65_404)?)?;
    // Each constant's line begins with 132 blanks.
    assert_eq!(rt; text.len(), 10_735_394);
    assert!(rt; text.as_slice().ends_with(b"      }\n    }\n  }\n}\n"));
    Ok(())
}

#[test]
fn a_module_that_is_too_deep_is_not_printed(rt: HostRuntime) -> Result<(), Fail> {
    let alloc = rt.alloc();
    assert!(rt; print(alloc, &deep(alloc, 199, 1)?).is_ok());
    assert!(rt; print(alloc, &deep(alloc, 200, 1)?).is_err());
    Ok(())
}
