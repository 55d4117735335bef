//! Layouts of small modules, worked out by hand.

use crate::{Needs, groups_of, is_region, layout, region_layout};
use hlfir_ops::{
    Elem, Module, Op, OpList, Region, RegionList, SubKind, SubKindList, ValueId, ValueIdList,
    ValueKind, What,
};
use hlfir_verify::{Verified, verify};
use phase_ops::{Layout, Range};
use sqlite_items::Items;
use std::alloc::{AllocError, Global};
use std::process::Abort;
use std::test::Fail;
use ws_base::Name;
use ws_space::{Dim, Shape};

const UNUSED: Dim = Dim {
    lower: 1,
    extent: 1,
};

const THREE: ValueKind = ValueKind::Declared {
    elem: Elem::I32,
    shape: Shape {
        rank: 1,
        d1: Dim {
            lower: 1,
            extent: 3,
        },
        d2: UNUSED,
        d3: UNUSED,
    },
};

/// An op at line 4 without regions.
fn op(
    alloc: Global,
    what: What,
    numbers: &[u32],
    kind: Option<ValueKind>,
) -> Result<Op, AllocError> {
    let mut operands: ValueIdList = Items::new(alloc);
    for number in numbers {
        operands.push(ValueId { number: *number })?;
    }
    Ok(Op {
        what,
        line: 4,
        operands,
        kind,
        regions: Items::new(alloc),
    })
}

fn declare(alloc: Global, name: &str, kind: ValueKind) -> Result<Op, AllocError> {
    op(
        alloc,
        What::Declare(Name::from_str(alloc, name)?),
        &[],
        Some(kind),
    )
}

fn yields(alloc: Global, number: u32) -> Result<Op, AllocError> {
    op(alloc, What::Yield, &[number], None)
}

fn one_op(alloc: Global, first: Op) -> Result<OpList, AllocError> {
    let mut ops = Items::new(alloc);
    ops.push(first)?;
    Ok(ops)
}

fn two_ops(alloc: Global, first: Op, second: Op) -> Result<OpList, AllocError> {
    let mut ops = one_op(alloc, first)?;
    ops.push(second)?;
    Ok(ops)
}

/// A region that holds this assignment.
fn region_with(
    alloc: Global,
    realloc: bool,
    right: OpList,
    left: OpList,
) -> Result<Op, AllocError> {
    let mut assign = op(alloc, What::Assign { realloc }, &[], None)?;
    assign.regions.push(Region { ops: right })?;
    assign.regions.push(Region { ops: left })?;
    let mut region = op(alloc, What::Workshare, &[], None)?;
    region.regions.push(Region {
        ops: one_op(alloc, assign)?,
    })?;
    Ok(region)
}

/// These declares, and then the op.
fn module_of(alloc: Global, a: Op, b: Op, c: Op, last: Op) -> Result<Module, AllocError> {
    let mut ops = two_ops(alloc, a, b)?;
    ops.push(c)?;
    ops.push(last)?;
    Ok(Module {
        name: Name::from_str(alloc, "main")?,
        ops,
    })
}

/// `integer :: a(3), b(3), v(3)`, and the region `a(v) = b`
fn scatter(alloc: Global) -> Result<Module, AllocError> {
    let subs = SubKindList::from_slice(alloc, &[SubKind::Vector])?;
    let section = ValueKind::Section {
        elem: Elem::I32,
        rank: 1,
    };
    let designate = op(alloc, What::Designate(subs), &[0, 2], Some(section))?;
    let left = two_ops(alloc, designate, yields(alloc, 3)?)?;
    let right = one_op(alloc, yields(alloc, 1)?)?;
    module_of(
        alloc,
        declare(alloc, "a", THREE)?,
        declare(alloc, "b", THREE)?,
        declare(alloc, "v", THREE)?,
        region_with(alloc, false, right, left)?,
    )
}

/// `integer :: i, a(3)`, `integer, allocatable :: p(:)`, and the region `p = 7`
fn one_of_three(alloc: Global) -> Result<Module, AllocError> {
    let allocatable = ValueKind::Allocatable {
        elem: Elem::I32,
        rank: 1,
    };
    let seven = op(
        alloc,
        What::Constant(7),
        &[],
        Some(ValueKind::Scalar(Elem::I32)),
    )?;
    let right = two_ops(alloc, seven, yields(alloc, 3)?)?;
    let left = one_op(alloc, yields(alloc, 2)?)?;
    module_of(
        alloc,
        declare(alloc, "i", ValueKind::Place(Elem::I32))?,
        declare(alloc, "a", THREE)?,
        declare(alloc, "p", allocatable)?,
        region_with(alloc, true, right, left)?,
    )
}

fn verified(alloc: Global, module: Module) -> Result<Verified, Fail> {
    match verify(alloc, module) {
        Ok(module) => Ok(module),
        Err(_) => Err("a rule is broken".into()),
    }
}

/// The ranges, by their first cells and how many they have.
fn check(rt: &impl Abort, ranges: &[Range], wanted: &[(u32, u32)]) -> Result<(), Fail> {
    assert_eq!(rt; ranges.len(), wanted.len());
    for (range, want) in ranges.iter().zip(wanted) {
        assert_eq!(rt; (range.first, range.cells), *want);
    }
    Ok(())
}

fn check_all(
    rt: &impl Abort,
    layout: &Layout,
    vars: &[(u32, u32)],
    boxes: &[(u32, u32)],
    slots: (u32, u32),
    marks: (u32, u32),
) -> Result<(), Fail> {
    check(rt, layout.vars.as_slice(), vars)?;
    check(rt, layout.boxes.as_slice(), boxes)?;
    check(rt, &[layout.slots], &[slots])?;
    check(rt, &[layout.marks], &[marks])
}

/// The layout of the only region.
fn region(alloc: Global, module: &Verified, needs: &Needs) -> Result<Layout, Fail> {
    if !is_region(alloc, module.module(), 0)? {
        return Err("no region".into());
    }
    Ok(region_layout(alloc, module, 0, needs)?)
}

#[test]
fn the_whole_module(rt: HostRuntime) -> Result<(), Fail> {
    let alloc = rt.alloc();
    let module = verified(alloc, scatter(alloc)?)?;
    let layout = layout(alloc, &module)?;
    let vars = [(0, 3), (3, 3), (6, 3)];
    let boxes = [(9, 0), (9, 0), (9, 0)];
    // 12 ops and operands.
    check_all(&rt, &layout, &vars, &boxes, (9, 192), (4_194_505, 65_536))?;
    assert_eq!(rt; layout.temps.len(), 64);
    Ok(())
}

#[test]
fn a_region_with_marks(rt: HostRuntime) -> Result<(), Fail> {
    let alloc = rt.alloc();
    let module = verified(alloc, scatter(alloc)?)?;
    let needs = Needs {
        temps: 2,
        slots: 5,
        marks: true,
    };
    let layout = region(alloc, &module, &needs)?;
    let vars = [(0, 3), (3, 3), (6, 3)];
    let boxes = [(9, 0), (9, 0), (9, 0)];
    check_all(&rt, &layout, &vars, &boxes, (9, 5), (131_086, 65_536))?;
    check(
        &rt,
        layout.temps.as_slice(),
        &[(14, 65_536), (65_550, 65_536)],
    )
}

#[test]
fn a_region_with_one_of_three_variables(rt: HostRuntime) -> Result<(), Fail> {
    let alloc = rt.alloc();
    let module = verified(alloc, one_of_three(alloc)?)?;
    let needs = Needs {
        temps: 0,
        slots: 1,
        marks: false,
    };
    let layout = region(alloc, &module, &needs)?;
    let vars = [(0, 0), (0, 0), (0, 65_536)];
    let boxes = [(65_536, 0), (65_536, 0), (65_536, 3)];
    check_all(&rt, &layout, &vars, &boxes, (65_536 + 3, 1), (65_540, 0))?;
    assert_eq!(rt; layout.temps.len(), 0);
    Ok(())
}

#[test]
fn more_cells_than_numbers(rt: HostRuntime) -> Result<(), Fail> {
    let alloc = rt.alloc();
    let module = verified(alloc, scatter(alloc)?)?;
    let needs = Needs {
        temps: 65_535,
        slots: 65_536,
        marks: false,
    };
    if !is_region(alloc, module.module(), 0)? {
        return Err("no region".into());
    }
    assert!(rt; region_layout(alloc, &module, 0, &needs).is_err());
    Ok(())
}

#[test]
fn groups(rt: HostRuntime) -> Result<(), Fail> {
    let alloc = rt.alloc();
    let module = verified(alloc, scatter(alloc)?)?;
    let ops = module.module().ops.as_slice();
    assert_eq!(rt; groups_of(alloc, ops)?.len(), 1);
    assert!(rt; !is_region(alloc, module.module(), 1)?);
    Ok(())
}
