//! Parts of a source, lowered by themselves at the place of a builder.

ghost use Rattle.std.specs.Prelude.{◌≡◌, [], IfOk};

use crate::front::accepted;
use hlfir_ops::{Builder, Elem, ValueKind, What};
use hlfir_text::print;
use lower_assign::{lower_left, lower_plain, lower_value};
use lower_values::give;
use sqlite_items::Items;
use std::alloc::Global;
use std::test::Fail;
use ws_base::Name;
use ws_sema::Checked;
use ws_space::{Dim, Shape};
use ws_tree::Body;

const COUNT: &[u8] = b"integer :: a(3), k\na(k) = k + 1\nend\n";

const PARTS: &[u8] = b"module main
%0 = hlfir.declare \"a\" : ref<1:3xi32>
%1 = hlfir.declare \"k\" : ref<i32>
%2 = hlfir.load %1 : i32
%3 = arith.constant 1 : i32
%4 = arith.addi %2, %3 : i32
%5 = hlfir.load %1 : i32
%6 = hlfir.designate %0 (%5) : ref<i32>
hlfir.region_assign @2 {
  %7 = hlfir.load %1 : i32
  %8 = arith.constant 1 : i32
  %9 = arith.addi %7, %8 : i32
  hlfir.yield %9
} to {
  %10 = hlfir.load %1 : i32
  %11 = hlfir.designate %0 (%10) : ref<i32>
  hlfir.yield %11
}
";

fn line_of(extent: u64) -> Shape {
    let unused = Dim {
        lower: 1,
        extent: 1,
    };
    Shape {
        rank: 1,
        d1: Dim { lower: 1, extent },
        d2: unused,
        d3: unused,
    }
}

fn source(alloc: Global) -> Result<Checked, Fail> {
    match accepted(alloc, COUNT) {
        Ok(source) => Ok(source),
        Err(_) => Err(Fail::from("the source is refused")),
    }
}

/// A builder that has begun with the declares of the source.
fn begun(alloc: Global) -> Result<Builder, Fail>
    ensures { IfOk result (λ build. build.around ≡ []) }
{
    let mut build = Builder::new(alloc, Name::from_str(alloc, "main")?);
    give(
        alloc,
        &mut build,
        What::Declare(Name::from_str(alloc, "a")?),
        Items::new(alloc),
        ValueKind::Declared {
            elem: Elem::I32,
            shape: line_of(3),
        },
    )?;
    give(
        alloc,
        &mut build,
        What::Declare(Name::from_str(alloc, "k")?),
        Items::new(alloc),
        ValueKind::Place(Elem::I32),
    )?;
    Ok(build)
}

/// The numbers of both sides of an assignment, the right side first.
fn sides(
    alloc: Global,
    build: &mut Builder,
    source: &Checked,
    body: &Body,
) -> Result<Vec<u32>, Fail>
    ensures { IfOk result (λ numbers. build.new.around ≡ build.old.around) }
{
    let mut numbers = Vec::new(alloc);
    if let Body::Assign { left, right } = body {
        numbers.push(lower_value(alloc, build, source, right)?.number)?;
        numbers.push(lower_left(alloc, build, source, left)?.number)?;
    }
    Ok(numbers)
}

#[test]
fn a_value_a_left_side_and_a_statement(rt: HostRuntime) -> Result<(), Fail> {
    let alloc = rt.alloc();
    let source = source(alloc)?;
    let Some(statement) = source.tree().body.as_slice().first() else {
        return Err(Fail::from("no statement"));
    };
    let mut build = begun(alloc)?;
    let numbers = sides(alloc, &mut build, &source, &statement.body)?;
    assert_eq!(rt; numbers.as_slice(), [4, 6].as_slice());
    lower_plain(alloc, &mut build, &source, statement)?;
    let text = print(alloc, &build.finish())?;
    assert_eq!(rt; text.as_slice(), PARTS);
    Ok(())
}
