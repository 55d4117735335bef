//! What stands before the statements of a construct: the op with its mask or its header.

ghost use Rattle.std.specs.Prelude.{◌≡◌, ◌<◌, [], ◌∷◌, length, map, IfOk, OnOk};
ghost use Rattle.lower_values.specs.declared.names.Names.{Names};
ghost use Rattle.lower_values.specs.Lowerings.{Appends, statement_of};
ghost use Rattle.lower_values.specs.References as references;
ghost use Rattle.lower_assign.specs.Statements.{yielded, all_yielded};
ghost use Rattle.lower_values.specs.Values as values;
ghost use Rattle.lower_constructs.specs.Filled.{Fills};
ghost use Rattle.lower_constructs.specs.Lists as lists;
ghost use Rattle.lower_constructs.specs.Modules as modules;

use hlfir_ops::{Builder, NameList, ValueIdList, What};
use lower_assign::yield_value;
use lower_values::{Names, act, begin, declare_of, stride, value};
use sqlite_items::Items;
use std::alloc::{AllocError, Global};
use ws_base::Name;
use ws_tree::{Expr, Index};

/// Appends the op of a statement, which is to hold regions.
pub fn begin_statement(
    alloc: Global,
    build: &mut Builder,
    what: What,
    line: u32,
    operands: ValueIdList,
) -> Result<(), AllocError>
    ensures { OnOk result ((names : Names) → Appends names (statement_of what line operands []) build.old build.new tt) }
{
    begin(alloc, build, what, line, operands, None)?;
    Ok(())
}

// ---- masks

/// The next region of the op that stands last, which yields the value.
fn value_region(
    alloc: Global,
    build: &mut Builder,
    names: &Names,
    e: &Expr,
) -> Result<(), AllocError>
    requires { 0 < length build.old.ops }
    ensures { OnOk result (Fills names.now (yielded (values.value e.now) ∷ []) build.old build.new) }
{
    build.enter_region()?;
    yield_value(alloc, build, names, e)?;
    build.leave_region();
    Ok(())
}

/// An op whose first region yields a mask: `where (MASK)`, `elsewhere (MASK)` or the mask of a FORALL.
pub fn begin_masked(
    alloc: Global,
    build: &mut Builder,
    names: &Names,
    what: What,
    line: u32,
    mask: &Expr,
) -> Result<(), AllocError>
    ensures { OnOk result (Appends names.now (statement_of what line [] (yielded (values.value mask.now) ∷ [])) build.old build.new tt) }
{
    begin_statement(alloc, build, what, line, Items::new(alloc))?;
    value_region(alloc, build, names, mask)
}

/// `elsewhere (MASK)` or `elsewhere`, without its block.
pub fn begin_elsewhere(
    alloc: Global,
    build: &mut Builder,
    names: &Names,
    line: u32,
    mask: &Option<Expr>,
) -> Result<(), AllocError>
    ensures { OnOk result (Appends names.now (statement_of What.Elsewhere line [] (lists.mask_of mask.now)) build.old build.new tt) }
{
    match mask {
        Some(e) => begin_masked(alloc, build, names, What::Elsewhere, line, e),
        None => begin_statement(alloc, build, What::Elsewhere, line, Items::new(alloc)),
    }
}

/// The mask of a FORALL, if it has one: an op on the FORALL's line.
pub fn forall_mask(
    alloc: Global,
    build: &mut Builder,
    names: &Names,
    mask: &Option<Expr>,
) -> Result<(), AllocError>
    ensures { OnOk result (Appends names.now (modules.forall_mask mask.now) build.old build.new tt) }
{
    match mask {
        Some(e) => {
            let line = build.line();
            begin_masked(alloc, build, names, What::ForallMask, line, e)
        }
        None => Ok(()),
    }
}

// ---- headers

/// The three values of an index or of a DO.
fn triple(
    alloc: Global,
    build: &mut Builder,
    names: &Names,
    l: &Expr,
    u: &Expr,
    s: &Option<Expr>,
) -> Result<ValueIdList, AllocError>
    ensures { IfOk result (λ three. Appends names.now (modules.triple l.now u.now s.now) build.old build.new three) }
{
    let x = value(alloc, build, names, l)?;
    let y = value(alloc, build, names, u)?;
    let z = stride(alloc, build, names, s)?;
    Items::from_slice(alloc, &[x.value, y.value, z.value])
}

fn triples(
    alloc: Global,
    build: &mut Builder,
    names: &Names,
    indexes: &[Index],
) -> Result<ValueIdList, AllocError>
    ensures { IfOk result (λ all. Appends names.now (modules.triples indexes.now) build.old build.new all) }
{
    let mut all = Items::new(alloc);
    'each: for index in indexes {
        let three = triple(alloc, build, names, &index.l, &index.u, &index.s)?;
        all.append(three)?;
    }
    Ok(all)
}

fn names_of_indexes(alloc: Global, indexes: &[Index]) -> Result<NameList, AllocError>
    ensures { IfOk result (λ names. names ≡ map (λ i. i.name) indexes.now) }
{
    let mut names = Items::new(alloc);
    'each: for index in indexes {
        let name = index.name.copy(alloc)?;
        names.push(name)?;
    }
    Ok(names)
}

/// `forall (I = L:U:S, ..)`, without its mask and its assignments (Fortran 2018, 10.2.4).
pub fn begin_forall(
    alloc: Global,
    build: &mut Builder,
    names: &Names,
    line: u32,
    indexes: &[Index],
) -> Result<(), AllocError>
    ensures { OnOk result (Appends names.now (statement_of (What.Forall (map (λ i. i.name) indexes.now)) line [] (all_yielded (modules.triples indexes.now) ∷ [])) build.old build.new tt) }
{
    let index_names = names_of_indexes(alloc, indexes)?;
    let what = What::Forall(index_names);
    begin_statement(alloc, build, what, line, Items::new(alloc))?;
    build.enter_region()?;
    let all = triples(alloc, build, names, indexes)?;
    act(alloc, build, What::Yield, all)?;
    build.leave_region();
    Ok(())
}

/// `do VAR = L, U, S`, without its block (Fortran 2018, 11.1.7).
pub fn begin_loop(
    alloc: Global,
    build: &mut Builder,
    names: &Names,
    line: u32,
    var: &Name,
    l: &Expr,
    u: &Expr,
    s: &Option<Expr>,
) -> Result<(), AllocError>
    ensures { OnOk result (Appends names.now (statement_of What.DoLoop line ((references.declare_of names.now var.now).value ∷ []) (all_yielded (modules.triple l.now u.now s.now) ∷ [])) build.old build.new tt) }
{
    let declare = declare_of(names, var);
    let operands = Items::from_slice(alloc, &[declare.value])?;
    begin_statement(alloc, build, What::DoLoop, line, operands)?;
    build.enter_region()?;
    let three = triple(alloc, build, names, l, u, s)?;
    act(alloc, build, What::Yield, three)?;
    build.leave_region();
    Ok(())
}
