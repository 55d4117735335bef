//! One assignment: the right side and the left side, and then the replacement (Fortran 2018, 10.2.1.3).

ghost use Rattle.std.specs.Prelude.{◌≡◌, ◌≤◌, ◌<◌, ◌^◌, ◌++◌, length, IfOk, OnOk, MatchOption, suc, slice_index, pos};
ghost use Rattle.std.specs.List.{All};
ghost use Rattle.ws_base.specs.Outcomes.{trouble};
ghost use Rattle.ws_base.specs.declared.fault.FaultName.TheVariants as fault;
ghost use Rattle.ws_space.specs.Faults as faults;
ghost use Rattle.ws_space.specs.Values as space;
ghost use Rattle.ws_space.specs.Replace as replace;
ghost use Rattle.ws_space.specs.Shapes as spec;
ghost use Rattle.array_meaning.specs.Stage1 as stage1;
ghost use Rattle.array_meaning.specs.Stage2 as stage2;
ghost use Rattle.array_meaning.specs.Assign as meaning;
ghost use Rattle.term_eval.specs.Limits.{IsSmall, IsWorld, IsSmallTerm, IsSmallArray, IsSmallState, IsFew, IsInteger};
ghost use Rattle.step_eval.specs.Narrow.{IsNarrow, IsNarrowTerm, IsNarrowTarget};
ghost use Rattle.term_eval.specs.Made.{Gives};
ghost use Rattle.term_eval.specs.Targets.{target_of, IsSmallTarget};
ghost use Rattle.step_eval.specs.Halts.{Yields, YieldsTarget, Leaves};

use crate::faults::{among, at_lines};
use crate::halt::Halt;
use crate::replace::{first_repeat, store};
use crate::shaped::{dims_held, kept, moved_dims, moved_shape};
use crate::vars::set_state;
use array_meaning::{Term, World};
use sqlite_items::Items;
use std::alloc::{AllocError, Global};
use term_eval::{
    Extents, Stop, Target, agreed, all_places, left_side, operands, targets, values, walk,
};
use ws_base::{Fault, FaultName, Name};
use ws_space::{ArrayValue, VarState};
use ws_tree::Expr;

/// The first stage of an expression. `shape_line` is the line of the step's Shape.
pub fn term_at(
    alloc: Global,
    world: &World,
    line: u32,
    shape_line: u32,
    e: &Expr,
) -> Result<Term, Halt>
    requires world { IsWorld world.now }
    requires small { IsSmall e.now }
    ensures value { Yields result (faults.at_lines line shape_line (stage1.walk world.now e.now)) }
    ensures small { IfOk result IsSmallTerm }
    ensures narrow { IfOk result IsNarrowTerm }
{
    match walk(alloc, world, e) {
        Ok(term) => Ok(term),
        Err(stop) => Err(at_lines(line, shape_line, stop)),
    }
}

/// A left side, which in a WHERE does not change its shape.
pub fn target_at(
    alloc: Global,
    in_where: bool,
    world: &World,
    line: u32,
    left: &Expr,
) -> Result<Target, Halt>
    requires world { IsWorld world.now }
    requires small { IsSmall left.now }
    ensures value { YieldsTarget (space.state_of world.now.vars (meaning.target_name left.now)) result (faults.at_line line (meaning.target in_where world.now left.now)) }
    ensures small { IfOk result IsSmallTarget }
    ensures narrow { IfOk result IsNarrowTarget }
{
    match left_side(alloc, in_where, world, left) {
        Ok(target) => Ok(target),
        Err(stop) => Err(at_lines(line, line, stop)),
    }
}

/// The second stage of an expression at these places.
pub fn values_at(alloc: Global, line: u32, t: &Term, places: &[u32]) -> Result<Items<i64>, Halt>
    requires small { IsSmallTerm t.now }
    requires few { length places.now ≤ 2 ^ 31 }
    requires below { All (λ place. place < 2 ^ 31) places.now }
    ensures value { Yields result (faults.at_places line places.now (stage2.values t.now places.now)) }
    ensures along { IfOk result (λ xs. length xs ≡ length places.now) }
    ensures integers { IfOk result (All IsInteger) }
{
    match values(alloc, t, places) {
        Ok(values) => Ok(values),
        Err(stop) => Err(among(line, places, stop)),
    }
}

/// The places of the elements of the left side's array that stand at these places.
fn targets_at(alloc: Global, line: u32, t: &Term, places: &[u32]) -> Result<Items<u32>, Halt>
    requires small { IsSmallTerm t.now }
    requires few { length places.now ≤ 2 ^ 31 }
    requires below { All (λ place. place < 2 ^ 31) places.now }
    ensures { Yields result (faults.at_places line places.now (stage2.targets t.now places.now)) }
{
    match targets(alloc, t, places) {
        Ok(targets) => Ok(targets),
        Err(stop) => Err(among(line, places, stop)),
    }
}

/// The name of the variable on a left side. In an accepted program there is one.
pub fn target_name(left: &Expr) -> Option<&Name>
    ensures { MatchOption result ((in_where : _) (w : _) → meaning.target in_where w left.now ≡ trouble fault.Unallocated) (λ name. name.now ≡ meaning.target_name left.now) }
{
    match left {
        Expr::Named(name) => Some(name),
        Expr::Part(name, _) => Some(name),
        _ => None,
    }
}

/// The one shape of these array operands.
#[tactic(auto, using(crate::proofs::Narrow::agreed_is_narrow))]
pub fn agreed_shape(alloc: Global, shapes: &[Extents]) -> Result<Extents, Stop>
    requires narrow { All IsNarrow shapes.now }
    requires few { All IsFew shapes.now }
    ensures value { Gives result (spec.agreed shapes.now) }
    ensures narrow { IfOk result IsNarrow }
    ensures few { IfOk result IsFew }
{
    agreed(alloc, shapes)
}

/// These shapes, and those of a term's array operands.
pub fn with_operands(
    alloc: Global,
    shapes: Items<Extents>,
    t: &Term,
) -> Result<Items<Extents>, AllocError>
    requires few { All IsFew shapes }
    requires narrow { All IsNarrow shapes }
    requires small { IsSmallTerm t.now }
    requires operands { IsNarrowTerm t.now }
    ensures value { IfOk result (λ all. all ≡ shapes ++ stage2.operands t.now) }
    ensures few { IfOk result (All IsFew) }
    ensures narrow { IfOk result (All IsNarrow) }
{
    let mut all = shapes;
    all.append(operands(alloc, t)?)?;
    Ok(all)
}

/// The one shape of all array operands of a step, the left side included, but for one that may change its shape.
pub fn step_shape(
    alloc: Global,
    world: &World,
    others: Items<Extents>,
    name: &Name,
    target: &Target,
) -> Result<Extents, Stop>
    requires world { IsWorld world.now }
    requires few { All IsFew others }
    requires narrow { All IsNarrow others }
    requires small { IsSmallTarget target.now }
    requires operands { IsNarrowTarget target.now }
    ensures value { Gives result (meaning.step_shape others (target_of (space.state_of world.now.vars name.now) target.now)) }
    ensures narrow { IfOk result IsNarrow }
    ensures few { IfOk result IsFew }
{
    match target {
        Target::Selection(term) => {
            let shapes = with_operands(alloc, others, term)?;
            agreed_shape(alloc, shapes.as_slice())
        }
        Target::Movable => {
            let extents = agreed_shape(alloc, others.as_slice())?;
            moved_shape(
                alloc,
                world.vars.as_slice(),
                name,
                others.as_slice(),
                extents,
            )
        }
    }
}

fn number_of(places: &[u32], at: usize) -> u32
    requires { All (λ place. place < 2 ^ 31) places.now }
    ensures { result ≡ suc (slice_index places.now at) }
{
    match places.get(at) {
        Some(place) => *place + 1,
        None => 1,
    }
}

/// The values of an array with all these targets replaced at once.
#[tactic(auto, using(crate::proofs::KeptLimits::small_stored))]
pub fn stored(
    alloc: Global,
    array: &ArrayValue,
    targets: &[u32],
    values: &[i64],
) -> Result<Items<i64>, AllocError>
    requires array { IsSmallArray array.now }
    requires integers { All IsInteger values.now }
    ensures value { IfOk result (λ stored. stored ≡ space.stored array.now.values targets.now values.now) }
    ensures integers { IfOk result (All IsInteger) }
{
    let mut stored = Items::from_slice(alloc, array.values.as_slice())?;
    store(&mut stored, targets, values);
    Ok(stored)
}

/// What an array holds when all these targets are replaced at once. ManyOne where an earlier active place has the same target.
pub fn replaced(
    alloc: Global,
    line: u32,
    places: &[u32],
    array: &ArrayValue,
    targets: &[u32],
    values: &[i64],
) -> Result<VarState, Halt>
    requires array { IsSmallArray array.now }
    requires integers { All IsInteger values.now }
    requires below { All (λ place. place < 2 ^ 31) places.now }
    ensures value { Yields result (replace.replaced line places.now array.now targets.now values.now) }
    ensures small { IfOk result IsSmallState }
{
    if let Some(at) = first_repeat(alloc, targets)? {
        return Err(Halt::Faulted(Fault {
            line,
            name: FaultName::ManyOne,
            element: number_of(places, at),
        }));
    }
    let values = stored(alloc, array, targets, values)?;
    let dims = dims_held(alloc, array)?;
    Ok(kept(dims.as_slice(), values))
}

/// What a section's array holds when all these targets are replaced at once. In an accepted program a left side is a section.
#[tactic(auto, unfolding(array_meaning::specs::Terms::terms_open))]
fn replaced_in(
    alloc: Global,
    line: u32,
    places: &[u32],
    selected: &Term,
    targets: &[u32],
    values: &[i64],
) -> Result<VarState, Halt>
    requires selected { IsSmallTerm selected.now }
    requires integers { All IsInteger values.now }
    requires below { All (λ place. place < 2 ^ 31) places.now }
    ensures value { Yields result (meaning.replaced_in line places.now (stage2.array_of selected.now) targets.now values.now) }
    ensures small { IfOk result IsSmallState }
{
    match selected {
        Term::Section(array, _) => replaced(alloc, line, places, array, targets, values),
        _ => Ok(VarState::Scalar(0)),
    }
}

/// What the left side's variable holds afterwards: the second stage of both sides at the active places, and then the replacement.
#[tactic(auto, using(crate::proofs::KeptLimits::state_held))]
pub fn carried_out(
    alloc: Global,
    world: &World,
    line: u32,
    right: &Expr,
    term: &Term,
    extents: &[u64],
    places: &[u32],
    name: &Name,
    target: &Target,
) -> Result<VarState, Halt>
    requires world { IsWorld world.now }
    requires term { IsSmallTerm term.now }
    requires narrow { IsNarrow extents.now }
    requires extents { IsFew extents.now }
    requires few { length places.now ≤ 2 ^ 31 }
    requires below { All (λ place. place < 2 ^ 31) places.now }
    requires target { IsSmallTarget target.now }
    ensures value { Yields result (meaning.carried_out world.now line right.now term.now extents.now places.now (target_of (space.state_of world.now.vars name.now) target.now)) }
    ensures small { IfOk result IsSmallState }
{
    let values = values_at(alloc, line, term, places)?;
    match target {
        Target::Selection(selected) => {
            let targets = targets_at(alloc, line, selected, places)?;
            replaced_in(
                alloc,
                line,
                places,
                selected,
                targets.as_slice(),
                values.as_slice(),
            )
        }
        Target::Movable => {
            let dims = moved_dims(alloc, world, name, right, extents)?;
            Ok(kept(dims.as_slice(), values))
        }
    }
}

/// All places of a shape.
#[tactic(auto, using(crate::proofs::Halted::places_below, crate::proofs::Halted::places_few))]
pub fn every_place(alloc: Global, extents: &[u64]) -> Result<Items<u32>, AllocError>
    requires { IsFew extents.now }
    ensures value { IfOk result (λ places. places ≡ spec.all_places extents.now) }
    ensures below { IfOk result (All (λ place. place < 2 ^ 31)) }
    ensures few { IfOk result (λ places. length places ≤ 2 ^ 31) }
{
    all_places(alloc, extents)
}

/// A left side that is no variable.
pub fn no_target(line: u32) -> Halt
    ensures { result ≡ Halt.Faulted (record { line = line; name = fault.Unallocated; element = 0 }) }
{
    Halt::Faulted(Fault {
        line,
        name: FaultName::Unallocated,
        element: 0,
    })
}

/// An assignment outside WHERE and FORALL.
pub fn assign(
    alloc: Global,
    world: &mut World,
    line: u32,
    left: &Expr,
    right: &Expr,
) -> Result<(), Halt>
    requires world { IsWorld world.old }
    requires left { IsSmall left.now }
    requires right { IsSmall right.now }
    ensures value { Leaves result (meaning.assign world.old line left.now right.now) world.new }
    ensures kept { OnOk result (IsWorld world.new) }
{
    let term = term_at(alloc, world, line, line, right)?;
    let Some(name) = target_name(left) else {
        return Err(no_target(line));
    };
    let target = target_at(alloc, false, world, line, left)?;
    let shapes = with_operands(alloc, Items::new(alloc), &term)?;
    let extents = match step_shape(alloc, world, shapes, name, &target) {
        Ok(extents) => extents,
        Err(stop) => return Err(at_lines(line, line, stop)),
    };
    let places = every_place(alloc, extents.as_slice())?;
    let state = carried_out(
        alloc,
        world,
        line,
        right,
        &term,
        extents.as_slice(),
        places.as_slice(),
        name,
        &target,
    )?;
    set_state(alloc, &mut world.vars, name, state)?;
    Ok(())
}
