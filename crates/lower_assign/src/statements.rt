//! The statements that hold no others.

ghost use Rattle.std.specs.Prelude.{◌≡◌, ℕ, ⊤, Bool, not, ◌&&◌, IfOk, OnOk};
ghost use Rattle.lower_values.specs.declared.names.Names.{Names};
ghost use Rattle.lower_values.specs.Lowerings as lowerings;
ghost use Rattle.lower_assign.specs.Statements as statements;

use crate::sides::{is_whole_allocatable, yield_designator, yield_value};
use hlfir_ops::{Builder, ValueIdList, What};
use lower_values::{Names, act, begin, declare_of, number_constant, value};
use sqlite_items::Items;
use std::alloc::{AllocError, Global};
use ws_base::Name;
use ws_tree::{Body, Bound, Expr, Part};

/// A whole allocatable outside WHERE may change its shape.
fn reallocates(names: &Names, masked: bool, left: &Expr) -> bool
    ensures { result ≡ not masked && statements.is_whole_allocatable names.now left.now }
{
    !masked && is_whole_allocatable(names, left)
}

/// `a = b`: an op whose regions yield the right side and the left side (Fortran 2018, 10.2.1).
fn assignment(
    alloc: Global,
    build: &mut Builder,
    names: &Names,
    line: u32,
    left: &Expr,
    right: &Expr,
) -> Result<(), AllocError>
    ensures { OnOk result (lowerings.Appends names.now (statements.assignment line left.now right.now) build.old build.new tt) }
{
    let realloc = reallocates(names, build.masked(), left);
    let what = What::Assign { realloc };
    begin(alloc, build, what, line, Items::new(alloc), None)?;
    build.enter_region()?;
    yield_value(alloc, build, names, right)?;
    build.leave_region();
    build.enter_region()?;
    let by_box = build.masked();
    yield_designator(alloc, build, names, by_box, left)?;
    build.leave_region();
    Ok(())
}

// ---- the bounds of ALLOCATE

/// The lower and the upper bound. The lower bound of `u` is 1.
fn bounds_of(
    alloc: Global,
    build: &mut Builder,
    names: &Names,
    bound: &Bound,
) -> Result<ValueIdList, AllocError>
    ensures { IfOk result (λ values. lowerings.Appends names.now (statements.bounds_of bound.now) build.old build.new values) }
{
    match bound {
        Bound::Upper(u) => {
            let x = number_constant(alloc, build, 1)?;
            let y = value(alloc, build, names, u)?;
            Items::from_slice(alloc, &[x.value, y.value])
        }
        Bound::Both(l, u) => {
            let x = value(alloc, build, names, l)?;
            let y = value(alloc, build, names, u)?;
            Items::from_slice(alloc, &[x.value, y.value])
        }
        Bound::Deferred => Ok(Items::new(alloc)),
    }
}

fn all_bounds(
    alloc: Global,
    build: &mut Builder,
    names: &Names,
    bounds: &[Bound],
) -> Result<ValueIdList, AllocError>
    ensures { IfOk result (λ values. lowerings.Appends names.now (statements.all_bounds bounds.now) build.old build.new values) }
{
    let mut values = Items::new(alloc);
    'each: for bound in bounds {
        let more = bounds_of(alloc, build, names, bound)?;
        values.append(more)?;
    }
    Ok(values)
}

fn yield_bounds(
    alloc: Global,
    build: &mut Builder,
    names: &Names,
    bounds: &[Bound],
) -> Result<(), AllocError>
    ensures { OnOk result (lowerings.Appends names.now (statements.all_yielded (statements.all_bounds bounds.now)) build.old build.new tt) }
{
    let values = all_bounds(alloc, build, names, bounds)?;
    act(alloc, build, What::Yield, values)
}

// ---- an op for each item of ALLOCATE, DEALLOCATE and READ

/// An item of a statement. One after the first of its statement has `also`.
trait Item {
    ghost lowering: { ℕ → Bool → Self → lowerings.Lowering ⊤ };

    /// Appends the op of the item.
    fn lower(
        &self,
        alloc: Global,
        build: &mut Builder,
        names: &Names,
        line: u32,
        also: bool,
    ) -> Result<(), AllocError>
        ensures { OnOk result (lowerings.Appends names.now (lowering line also self.now) build.old build.new tt) };
}

/// An array of ALLOCATE (Fortran 2018, 9.7.1).
impl Item for Part {
    ghost lowering = { statements.allocation };

    fn lower(
        &self,
        alloc: Global,
        build: &mut Builder,
        names: &Names,
        line: u32,
        also: bool,
    ) -> Result<(), AllocError> {
        let declare = declare_of(names, &self.name);
        let operands = Items::from_slice(alloc, &[declare.value])?;
        begin(alloc, build, What::Allocmem { also }, line, operands, None)?;
        build.enter_region()?;
        yield_bounds(alloc, build, names, self.shape.as_slice())?;
        build.leave_region();
        Ok(())
    }
}

/// An array of DEALLOCATE (Fortran 2018, 9.7.3).
impl Item for Name {
    ghost lowering = { statements.deallocation };

    fn lower(
        &self,
        alloc: Global,
        build: &mut Builder,
        names: &Names,
        line: u32,
        also: bool,
    ) -> Result<(), AllocError> {
        let declare = declare_of(names, self);
        let operands = Items::from_slice(alloc, &[declare.value])?;
        begin(alloc, build, What::Freemem { also }, line, operands, None)?;
        Ok(())
    }
}

/// An item of READ (Fortran 2018, 12.6.3).
impl Item for Expr {
    ghost lowering = { statements.reading };

    fn lower(
        &self,
        alloc: Global,
        build: &mut Builder,
        names: &Names,
        line: u32,
        also: bool,
    ) -> Result<(), AllocError> {
        let what = What::Read { also };
        begin(alloc, build, what, line, Items::new(alloc), None)?;
        build.enter_region()?;
        yield_designator(alloc, build, names, true, self)?;
        build.leave_region();
        Ok(())
    }
}

/// All items of a statement.
fn each_item<T: Item>(
    alloc: Global,
    build: &mut Builder,
    names: &Names,
    line: u32,
    items: &[T],
) -> Result<(), AllocError>
    ensures { OnOk result (lowerings.Appends names.now (statements.each_item (T.lowering line) items.now) build.old build.new tt) }
{
    'each: for i in 0..items.len() {
        items[i].lower(alloc, build, names, line, 0 < i)?;
    }
    Ok(())
}

/// An assignment, ALLOCATE, DEALLOCATE or READ. Any other statement adds nothing here.
#[tactic(auto, using(lower_values::proofs::Appended::done_rules), unfolding(ws_tree::specs::Opened::trees_open))]
pub fn plain(
    alloc: Global,
    build: &mut Builder,
    names: &Names,
    line: u32,
    body: &Body,
) -> Result<(), AllocError>
    ensures { OnOk result (lowerings.Appends names.now (statements.plain line body.now) build.old build.new tt) }
{
    match body {
        Body::Assign { left, right } => assignment(alloc, build, names, line, left, right),
        Body::Allocate(parts) => each_item(alloc, build, names, line, parts.as_slice()),
        Body::Deallocate(arrays) => each_item(alloc, build, names, line, arrays.as_slice()),
        Body::Read(items) => each_item(alloc, build, names, line, items.as_slice()),
        Body::Masked { .. }
        | Body::Forall { .. }
        | Body::Loop { .. }
        | Body::Shared { .. }
        | Body::Unsupported
        | Body::TooDeep => Ok(()),
    }
}
