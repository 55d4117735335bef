//! Short words for building modules.

ghost use Rattle.std.specs.Prelude.{◌≡◌, ◌<◌, drop, length, OnOk};

use hlfir_ops::{
    Builder, Elem, Op, SubKind, SubKindList, ValueBinary, ValueId, ValueKind, ValueUnary, What,
};
use sqlite_items::Items;
use std::alloc::{AllocError, Global};
use ws_base::Name;
use ws_space::{Dim, Shape};

const INTEGER: ValueKind = ValueKind::Scalar(Elem::I32);

/// Appends an op with these operands. Gives the number of its value.
pub fn add(
    alloc: Global,
    build: &mut Builder,
    what: What,
    line: u32,
    operands: &[u32],
    kind: Option<ValueKind>,
) -> Result<u32, AllocError>
    ensures around { OnOk result (build.new.around ≡ build.old.around) }
    ensures ops { OnOk result (0 < length build.new.ops) }
{
    let mut ids = Items::new(alloc);
    for operand in operands {
        ids.push(ValueId { number: *operand })?;
    }
    let op = Op {
        what,
        line,
        operands: ids,
        kind,
        regions: Items::new(alloc),
    };
    match build.push(op) {
        Ok(id) => Ok(id.number),
        Err(_) => Err(AllocError),
    }
}

/// Enters the next region of the last op.
fn enter(build: &mut Builder) -> Result<(), AllocError>
    requires { 0 < length build.old.ops }
    ensures outer { OnOk result (drop 1 build.new.around ≡ build.old.around) }
    ensures entered { OnOk result (0 < length build.new.around) }
{
    build.enter_region()?;
    Ok(())
}

pub fn leave(build: &mut Builder)
    requires { 0 < length build.old.around }
    ensures outer { build.new.around ≡ drop 1 build.old.around }
    ensures ops { 0 < length build.new.ops }
{
    build.leave_region();
}

/// Leaves a region, and enters the next one of the op.
pub fn next(build: &mut Builder) -> Result<(), AllocError>
    requires { 0 < length build.old.around }
    ensures outer { OnOk result (drop 1 build.new.around ≡ drop 1 build.old.around) }
    ensures entered { OnOk result (0 < length build.new.around) }
{
    leave(build);
    enter(build)?;
    Ok(())
}

/// Begins a statement, and enters its first region.
pub fn begin(alloc: Global, build: &mut Builder, what: What, line: u32) -> Result<(), AllocError>
    ensures outer { OnOk result (drop 1 build.new.around ≡ build.old.around) }
    ensures entered { OnOk result (0 < length build.new.around) }
{
    add(alloc, build, what, line, &[], None)?;
    enter(build)?;
    Ok(())
}

/// Ends a region with this value, and enters the next one of the op.
pub fn yields(alloc: Global, build: &mut Builder, value: u32) -> Result<(), AllocError>
    requires { 0 < length build.old.around }
    ensures outer { OnOk result (drop 1 build.new.around ≡ drop 1 build.old.around) }
    ensures entered { OnOk result (0 < length build.new.around) }
{
    add(alloc, build, What::Yield, 0, &[value], None)?;
    next(build)?;
    Ok(())
}

/// Ends the last region of an op with this value.
pub fn finish(alloc: Global, build: &mut Builder, value: u32) -> Result<(), AllocError>
    requires { 0 < length build.old.around }
    ensures { OnOk result (build.new.around ≡ drop 1 build.old.around) }
{
    add(alloc, build, What::Yield, 0, &[value], None)?;
    leave(build);
    Ok(())
}

/// `integer :: name(extent)`
pub fn declare(
    alloc: Global,
    build: &mut Builder,
    name: &str,
    extent: u64,
) -> Result<u32, AllocError>
    ensures { OnOk result (build.new.around ≡ build.old.around) }
{
    let name = Name::from_str(alloc, name)?;
    let unused = Dim {
        lower: 1,
        extent: 1,
    };
    let kind = ValueKind::Declared {
        elem: Elem::I32,
        shape: Shape {
            rank: 1,
            d1: Dim { lower: 1, extent },
            d2: unused,
            d3: unused,
        },
    };
    add(alloc, build, What::Declare(name), 0, &[], Some(kind))
}

pub fn integer(alloc: Global, build: &mut Builder, value: i64) -> Result<u32, AllocError>
    ensures { OnOk result (build.new.around ≡ build.old.around) }
{
    add(alloc, build, What::Constant(value), 0, &[], Some(INTEGER))
}

/// A value that comes from two others.
pub fn binary(
    alloc: Global,
    build: &mut Builder,
    word: ValueBinary,
    operands: &[u32],
    elem: Elem,
) -> Result<u32, AllocError>
    ensures { OnOk result (build.new.around ≡ build.old.around) }
{
    let kind = ValueKind::Scalar(elem);
    add(alloc, build, What::Binary(word), 0, operands, Some(kind))
}

/// The numbers of these integers.
fn integers(alloc: Global, build: &mut Builder, values: &[i64]) -> Result<Vec<u32>, AllocError>
    ensures { OnOk result (build.new.around ≡ build.old.around) }
{
    let mut numbers = Vec::new(alloc);
    'each: for value in values {
        numbers.push(integer(alloc, build, *value)?)?;
    }
    Ok(numbers)
}

/// An array constructor.
pub fn constructor(alloc: Global, build: &mut Builder, values: &[i64]) -> Result<u32, AllocError>
    ensures { OnOk result (build.new.around ≡ build.old.around) }
{
    let numbers = integers(alloc, build, values)?;
    let numbers = numbers.as_slice();
    let kind = ValueKind::Array {
        elem: Elem::I32,
        rank: 1,
    };
    add(alloc, build, What::Vector, 0, numbers, Some(kind))
}

/// `array(l:u:s)`
pub fn section(
    alloc: Global,
    build: &mut Builder,
    array: u32,
    l: i64,
    u: i64,
    s: i64,
) -> Result<u32, AllocError>
    ensures { OnOk result (build.new.around ≡ build.old.around) }
{
    let l = integer(alloc, build, l)?;
    let u = integer(alloc, build, u)?;
    let s = integer(alloc, build, s)?;
    designate(alloc, build, SubKind::Range, &[array, l, u, s])
}

/// The section of an array that this subscript gives.
pub fn designate(
    alloc: Global,
    build: &mut Builder,
    sub: SubKind,
    operands: &[u32],
) -> Result<u32, AllocError>
    ensures { OnOk result (build.new.around ≡ build.old.around) }
{
    let subs = SubKindList::from_slice(alloc, &[sub])?;
    let kind = ValueKind::Section {
        elem: Elem::I32,
        rank: 1,
    };
    add(alloc, build, What::Designate(subs), 0, operands, Some(kind))
}

/// The value of `array(i)`
pub fn element(alloc: Global, build: &mut Builder, array: u32, i: i64) -> Result<u32, AllocError>
    ensures { OnOk result (build.new.around ≡ build.old.around) }
{
    let subs = SubKindList::from_slice(alloc, &[SubKind::One])?;
    let kind = ValueKind::Place(Elem::I32);
    let i = integer(alloc, build, i)?;
    let place = add(
        alloc,
        build,
        What::Designate(subs),
        0,
        &[array, i],
        Some(kind),
    )?;
    add(alloc, build, What::Load, 0, &[place], Some(INTEGER))
}

/// Begins an elemental over an array. Gives its number, and that of the array's element.
pub fn begin_elemental(
    alloc: Global,
    build: &mut Builder,
    elem: Elem,
    array: u32,
) -> Result<(u32, u32), AllocError>
    ensures outer { OnOk result (drop 1 build.new.around ≡ build.old.around) }
    ensures entered { OnOk result (0 < length build.new.around) }
{
    let kind = ValueKind::Array { elem, rank: 1 };
    let whole = add(alloc, build, What::Elemental, 0, &[], Some(kind))?;
    enter(build)?;
    let element = add(alloc, build, What::Apply, 0, &[array], Some(INTEGER))?;
    Ok((whole, element))
}

/// Ends an elemental with the value of an element.
pub fn end_elemental(alloc: Global, build: &mut Builder, value: u32) -> Result<(), AllocError>
    requires { 0 < length build.old.around }
    ensures { OnOk result (build.new.around ≡ drop 1 build.old.around) }
{
    add(alloc, build, What::YieldElement, 0, &[value], None)?;
    leave(build);
    Ok(())
}

/// `-array`
pub fn negated(alloc: Global, build: &mut Builder, array: u32) -> Result<u32, AllocError>
    ensures { OnOk result (build.new.around ≡ build.old.around) }
{
    let (whole, element) = begin_elemental(alloc, build, Elem::I32, array)?;
    let what = What::Unary(ValueUnary::Neg);
    let value = add(alloc, build, what, 0, &[element], Some(INTEGER))?;
    end_elemental(alloc, build, value)?;
    Ok(whole)
}

/// The comparison of an array with an integer.
pub fn compared(
    alloc: Global,
    build: &mut Builder,
    word: ValueBinary,
    array: u32,
    value: i64,
) -> Result<u32, AllocError>
    ensures { OnOk result (build.new.around ≡ build.old.around) }
{
    let right = integer(alloc, build, value)?;
    let (whole, left) = begin_elemental(alloc, build, Elem::I1, array)?;
    let value = binary(alloc, build, word, &[left, right], Elem::I1)?;
    end_elemental(alloc, build, value)?;
    Ok(whole)
}

/// Begins an assignment, and enters its right side.
pub fn assign(alloc: Global, build: &mut Builder, line: u32) -> Result<(), AllocError>
    ensures outer { OnOk result (drop 1 build.new.around ≡ build.old.around) }
    ensures entered { OnOk result (0 < length build.new.around) }
{
    begin(alloc, build, What::Assign { realloc: false }, line)
}

/// Ends the right side with this value, and assigns it to a variable.
pub fn to(alloc: Global, build: &mut Builder, value: u32, variable: u32) -> Result<(), AllocError>
    requires { 0 < length build.old.around }
    ensures { OnOk result (build.new.around ≡ drop 1 build.old.around) }
{
    yields(alloc, build, value)?;
    finish(alloc, build, variable)
}

/// Assigns an array constructor to an array.
pub fn fill(
    alloc: Global,
    build: &mut Builder,
    line: u32,
    array: u32,
    values: &[i64],
) -> Result<(), AllocError>
    ensures { OnOk result (build.new.around ≡ build.old.around) }
{
    assign(alloc, build, line)?;
    let vector = constructor(alloc, build, values)?;
    to(alloc, build, vector, array)
}

/// Assigns an integer to an array.
pub fn set(
    alloc: Global,
    build: &mut Builder,
    line: u32,
    array: u32,
    value: i64,
) -> Result<(), AllocError>
    ensures { OnOk result (build.new.around ≡ build.old.around) }
{
    assign(alloc, build, line)?;
    let value = integer(alloc, build, value)?;
    to(alloc, build, value, array)
}
