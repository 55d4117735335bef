//! FORALL: its header, its mask, and each assignment of its body at the active combinations (Fortran 2018, 10.2.4).

ghost use Rattle.std.specs.Prelude.{◌≡◌, length, IfOk, OnOk};
ghost use Rattle.std.specs.List.{All};
ghost use Rattle.ws_space.specs.Combinations.{lengths};
ghost use Rattle.ws_space.specs.Faults as faults;
ghost use Rattle.ws_tree.specs.declared.stmt.Body.TheVariants as body;
ghost use Rattle.array_meaning.specs.Assign as meaning;
ghost use Rattle.array_meaning.specs.Forall as forall;
ghost use Rattle.array_meaning.specs.Program as program;
ghost use Rattle.term_eval.specs.Limits.{IsFew, IsInteger, IsSmall, IsWorld};
ghost use Rattle.step_eval.specs.Combinations.{combinations_at, AreCombinations, IsAxis};
ghost use Rattle.step_eval.specs.Forall as over;
ghost use Rattle.step_eval.specs.Halts.{Yields, Leaves};
ghost use Rattle.step_eval.specs.Masked.{ArePlaces};
ghost use Rattle.step_eval.specs.Small.{IsSmallBody, IsSmallIndex, IsSmallOption, IsSmallStmt};

use crate::assignment::replaced;
use crate::combinations::{over, targets_over_all};
use crate::faults::{among, at_lines};
use crate::halt::Halt;
use crate::header::{every_combination, header};
use crate::masks::chosen_places;
use crate::vars::set_state;
use array_meaning::World;
use sqlite_items::Items;
use std::alloc::{AllocError, Global};
use term_eval::state_of;
use ws_base::Name;
use ws_space::{Triplet, VarState};
use ws_tree::{Body, Expr, Index, Stmt};

/// The values at these combinations.
#[tactic(auto, using(crate::proofs::OverValues::values_along, crate::proofs::OverValues::values_integers))]
fn values_at(
    alloc: Global,
    world: &World,
    line: u32,
    indexes: &[Index],
    triplets: &[Triplet],
    places: &[u32],
    e: &Expr,
) -> Result<Items<i64>, Halt>
    requires world { IsWorld world.now }
    requires small { IsSmall e.now }
    requires combinations { AreCombinations triplets.now places.now }
    ensures value { Yields result (faults.at_places line places.now (forall.over world.now e.now (combinations_at indexes.now triplets.now places.now))) }
    ensures along { IfOk result (λ values. length values ≡ length places.now) }
    ensures integers { IfOk result (All IsInteger) }
{
    match over(alloc, world, indexes, triplets, places, e) {
        Ok(values) => Ok(values),
        Err(stop) => Err(among(line, places, stop)),
    }
}

/// The places of the elements that a left side is at these combinations.
fn targets_at(
    alloc: Global,
    world: &World,
    line: u32,
    indexes: &[Index],
    triplets: &[Triplet],
    places: &[u32],
    left: &Expr,
) -> Result<Items<u32>, Halt>
    requires world { IsWorld world.now }
    requires small { IsSmall left.now }
    requires combinations { AreCombinations triplets.now places.now }
    ensures { Yields result (faults.at_places line places.now (forall.over_targets world.now left.now (combinations_at indexes.now triplets.now places.now))) }
{
    match targets_over_all(alloc, world, indexes, triplets, places, left) {
        Ok(targets) => Ok(targets),
        Err(stop) => Err(among(line, places, stop)),
    }
}

/// The values of each index. `shape_line` is the line of Shape: that of the first assignment, to which the header belongs.
#[tactic(auto, using(crate::proofs::Headers::header_axes, crate::proofs::Headers::header_few))]
fn header_at(
    alloc: Global,
    world: &World,
    line: u32,
    shape_line: u32,
    indexes: &[Index],
) -> Result<Items<Triplet>, Halt>
    requires world { IsWorld world.now }
    requires small { All IsSmallIndex indexes.now }
    ensures value { Yields result (faults.at_lines line shape_line (forall.header world.now indexes.now)) }
    ensures axes { IfOk result (All IsAxis) }
    ensures few { IfOk result (λ triplets. IsFew (lengths triplets)) }
{
    match header(alloc, world, indexes) {
        Ok(triplets) => Ok(triplets),
        Err(stop) => Err(at_lines(line, shape_line, stop)),
    }
}

/// The places of the combinations for which the mask is true.
#[tactic(auto, using(crate::proofs::Headers::chosen_combinations))]
fn active_places(
    alloc: Global,
    world: &World,
    line: u32,
    indexes: &[Index],
    triplets: &[Triplet],
    places: &[u32],
    test: &Option<Expr>,
) -> Result<Items<u32>, Halt>
    requires world { IsWorld world.now }
    requires small { IsSmallOption test.now }
    requires combinations { AreCombinations triplets.now places.now }
    ensures value { Yields result (forall.mask_places world.now line test.now places.now (combinations_at indexes.now triplets.now places.now)) }
    ensures combinations { IfOk result (AreCombinations triplets.now) }
{
    let Some(test) = test else {
        return Ok(Items::from_slice(alloc, places)?);
    };
    let values = values_at(alloc, world, line, indexes, triplets, places, test)?;
    Ok(chosen_places(alloc, true, places, values.as_slice())?)
}

/// Replaces the elements of a variable at once. One that is no array stays as it is: an unallocated target has no active combination.
#[tactic(auto, using(crate::proofs::KeptLimits::state_held))]
fn put(
    alloc: Global,
    world: &mut World,
    line: u32,
    places: &[u32],
    name: &Name,
    targets: &[u32],
    values: &[i64],
) -> Result<(), Halt>
    requires world { IsWorld world.old }
    requires integers { All IsInteger values.now }
    requires places { ArePlaces places.now }
    ensures value { Leaves result (over.put_over world.old line places.now name.now targets.now values.now) world.new }
    ensures kept { OnOk result (IsWorld world.new) }
{
    let state = match state_of(world.vars.as_slice(), name.as_str()) {
        Some(VarState::Array(array)) => replaced(alloc, line, places, array, targets, values)?,
        Some(VarState::Scalar(_)) => return Ok(()),
        Some(VarState::Unallocated { .. }) => return Ok(()),
        None => return Ok(()),
    };
    set_state(alloc, &mut world.vars, name, state)?;
    Ok(())
}

/// The name of the variable on a left side. In an accepted program there is one.
fn name_on(alloc: Global, left: &Expr) -> Result<Name, AllocError>
    ensures { IfOk result (λ name. name ≡ meaning.target_name left.now) }
{
    match left {
        Expr::Named(name) => name.copy(alloc),
        Expr::Part(name, _) => name.copy(alloc),
        _ => Name::from_str(alloc, ""),
    }
}

/// One assignment of the body at the active combinations.
fn assign_over(
    alloc: Global,
    world: &mut World,
    line: u32,
    indexes: &[Index],
    triplets: &[Triplet],
    places: &[u32],
    left: &Expr,
    right: &Expr,
) -> Result<(), Halt>
    requires world { IsWorld world.old }
    requires left { IsSmall left.now }
    requires right { IsSmall right.now }
    requires combinations { AreCombinations triplets.now places.now }
    ensures value { Leaves result (forall.forall_assign world.old line left.now right.now places.now (combinations_at indexes.now triplets.now places.now)) world.new }
    ensures kept { OnOk result (IsWorld world.new) }
{
    let values = values_at(alloc, world, line, indexes, triplets, places, right)?;
    let targets = targets_at(alloc, world, line, indexes, triplets, places, left)?;
    let name = name_on(alloc, left)?;
    put(
        alloc,
        world,
        line,
        places,
        &name,
        targets.as_slice(),
        values.as_slice(),
    )
}

/// One statement of the body. In an accepted program it is an assignment.
fn run_part(
    alloc: Global,
    world: &mut World,
    indexes: &[Index],
    triplets: &[Triplet],
    places: &[u32],
    line: u32,
    part: &Body,
) -> Result<(), Halt>
    requires world { IsWorld world.old }
    requires small { IsSmallBody part.now }
    requires combinations { AreCombinations triplets.now places.now }
    ensures value { Leaves result (forall.forall_part world.old line part.now places.now (combinations_at indexes.now triplets.now places.now)) world.new }
    ensures kept { OnOk result (IsWorld world.new) }
{
    match part {
        Body::Assign { left, right } => assign_over(
            alloc, world, line, indexes, triplets, places, left, right,
        ),
        _ => Ok(()),
    }
}

/// The body at the active combinations, statement after statement.
fn run_block(
    alloc: Global,
    world: &mut World,
    indexes: &[Index],
    triplets: &[Triplet],
    places: &[u32],
    block: &[Stmt],
) -> Result<(), Halt>
    requires world { IsWorld world.old }
    requires small { All IsSmallStmt block.now }
    requires combinations { AreCombinations triplets.now places.now }
    ensures value { Leaves result (over.block_over world.old block.now places.now (combinations_at indexes.now triplets.now places.now)) world.new }
    ensures kept { OnOk result (IsWorld world.new) }
{
    'each: for stmt in block {
        run_part(
            alloc, world, indexes, triplets, places, stmt.line, &stmt.body,
        )?;
    }
    Ok(())
}

/// The line of the first statement of the body, and the FORALL's own where there is none.
fn first_line(line: u32, block: &[Stmt]) -> u32
    ensures { result ≡ over.first_line line block.now }
{
    match block {
        [] => line,
        [stmt, ..] => stmt.line,
    }
}

/// A FORALL, over the list of its statements.
fn run_over(
    alloc: Global,
    world: &mut World,
    line: u32,
    indexes: &[Index],
    test: &Option<Expr>,
    block: &[Stmt],
) -> Result<(), Halt>
    requires world { IsWorld world.old }
    requires indexes { All IsSmallIndex indexes.now }
    requires test { IsSmallOption test.now }
    requires block { All IsSmallStmt block.now }
    ensures value { Leaves result (over.run_over world.old line indexes.now test.now block.now) world.new }
    ensures kept { OnOk result (IsWorld world.new) }
{
    let triplets = header_at(alloc, world, line, first_line(line, block), indexes)?;
    let triplets = triplets.as_slice();
    let all = every_combination(alloc, triplets)?;
    let active = active_places(alloc, world, line, indexes, triplets, all.as_slice(), test)?;
    run_block(alloc, world, indexes, triplets, active.as_slice(), block)
}

/// A FORALL.
#[tactic(auto, using(crate::proofs::ForallRuns::small_indexes, crate::proofs::ForallRuns::small_test, crate::proofs::ForallRuns::small_block))]
pub fn run_forall(
    alloc: Global,
    world: &mut World,
    line: u32,
    indexes: &[Index],
    test: &Option<Expr>,
    block: &[Stmt],
) -> Result<(), Halt>
    requires world { IsWorld world.old }
    requires small { IsSmallBody (body.Forall indexes.now test.now block.now) }
    ensures value { Leaves result (program.simple world.old line (body.Forall indexes.now test.now block.now)) world.new }
    ensures kept { OnOk result (IsWorld world.new) }
{
    run_over(alloc, world, line, indexes, test, block)
}
