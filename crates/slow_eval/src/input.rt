//! READ (Fortran 2018, 12.6.3 and 13.10.3).

ghost use Rattle.std.specs.Prelude.{◌≡◌, ◌≤◌, ◌^◌, length, true, IfOk, OnOk};
ghost use Rattle.std.specs.List.{All};
ghost use Rattle.ws_space.specs.Faults as faults;
ghost use Rattle.ws_space.specs.Replace as replace;
ghost use Rattle.ws_space.specs.Shapes as shapes;
ghost use Rattle.array_meaning.specs.Assign as meaning;
ghost use Rattle.array_meaning.specs.Program as program;
ghost use Rattle.term_eval.specs.Limits.{IsFew, IsInteger, IsSmall, IsSmallArray, IsSmallState, IsSmallTerm, IsWorld};
ghost use Rattle.term_eval.specs.Made.{Gives};
ghost use Rattle.step_eval.specs.Halts.{LeavesRead};
ghost use Rattle.slow_eval.specs.Input.{GivesSelection, LeavesItem, taken_by};

use crate::reading::take_values;
use array_meaning::{Term, World};
use sqlite_items::Items;
use std::alloc::{AllocError, Global};
use step_eval::{
    Halt, at_lines, dims_held, every_place, is_logical, kept, set_state, stored, target_name,
};
use term_eval::{Extents, Stop, Target, left_side, operands, targets};
use ws_base::FaultName;
use ws_space::{ArrayValue, VarState};
use ws_tree::Expr;

/// What an item leaves: what its variable holds, how many values the READ has taken then, and the place after them.
#[derive(Debug, Drop)]
struct Taken {
    state: VarState,
    taken: usize,
    place: usize,
}

/// What an item selects of its variable.
#[tactic(auto, using(crate::proofs::ReadItems::never_movable))]
fn selection(alloc: Global, world: &World, e: &Expr) -> Result<Term, Stop>
    requires world { IsWorld world.now }
    requires small { IsSmall e.now }
    ensures value { GivesSelection result (meaning.target true world.now e.now) }
    ensures small { IfOk result IsSmallTerm }
{
    match left_side(alloc, true, world, e)? {
        Target::Selection(term) => Ok(term),
        // No left side changes its shape here.
        Target::Movable => Err(Stop::from(FaultName::Unallocated)),
    }
}

/// The shape of a selection. That of a scalar has no dimension.
fn selection_extents(alloc: Global, term: &Term) -> Result<Extents, AllocError>
    requires { IsSmallTerm term.now }
    ensures value { IfOk result (λ extents. extents ≡ program.selection_extents (meaning.selection term.now)) }
    ensures few { IfOk result IsFew }
{
    match operands(alloc, term)?.as_slice() {
        [] => Ok(Items::new(alloc)),
        [first, ..] => Items::from_slice(alloc, first.as_slice()),
    }
}

/// The places of all elements of a selection.
fn selected_places(alloc: Global, term: &Term) -> Result<Items<u32>, AllocError>
    requires { IsSmallTerm term.now }
    ensures value { IfOk result (λ places. places ≡ shapes.all_places (program.selection_extents (meaning.selection term.now))) }
    ensures few { IfOk result (λ places. length places ≤ 2 ^ 31) }
{
    let extents = selection_extents(alloc, term)?;
    every_place(alloc, extents.as_slice())
}

/// What an array's variable holds when all these targets are replaced at once.
fn filled(
    alloc: Global,
    array: &ArrayValue,
    targets: &[u32],
    values: &[i64],
) -> Result<VarState, AllocError>
    requires array { IsSmallArray array.now }
    requires integers { All IsInteger values.now }
    ensures value { IfOk result (λ state. state ≡ replace.filled array.now targets.now values.now) }
    ensures small { IfOk result IsSmallState }
{
    let values = stored(alloc, array, targets, values)?;
    let dims = dims_held(alloc, array)?;
    Ok(kept(dims.as_slice(), values))
}

/// What a selection's variable holds when all its elements take these values. In an accepted program a left side is a section.
#[tactic(auto, unfolding(array_meaning::specs::Terms::terms_open))]
fn read_into(alloc: Global, term: &Term, places: &[u32], values: &[i64]) -> Result<VarState, Stop>
    requires small { IsSmallTerm term.now }
    requires places { places.now ≡ shapes.all_places (program.selection_extents (meaning.selection term.now)) }
    requires few { length places.now ≤ 2 ^ 31 }
    requires integers { All IsInteger values.now }
    ensures value { Gives result (program.read_into (meaning.selection term.now) values.now) }
    ensures small { IfOk result IsSmallState }
{
    let targets = targets(alloc, term, places)?;
    match term {
        Term::Section(array, _) => Ok(filled(alloc, array, targets.as_slice(), values)?),
        _ => Ok(VarState::Scalar(0)),
    }
}

/// A selection takes the next values, of a LOGICAL or an INTEGER variable.
#[tactic(auto, using(crate::proofs::ReadItems::places_count))]
fn take(
    alloc: Global,
    input: &[u8],
    truth: bool,
    before: usize,
    at: usize,
    term: &Term,
) -> Result<Taken, Stop>
    requires within { at ≤ length input.now }
    requires small { IsSmallTerm term.now }
    ensures value { Gives result (taken_by input.now truth before at term.now) }
    ensures within { IfOk result (λ after. after.place ≤ length input.now) }
    ensures small { IfOk result (λ after. IsSmallState after.state) }
{
    let places = selected_places(alloc, term)?;
    let count = places.len();
    let (values, place) = take_values(alloc, input, truth, before, count, at)?;
    let state = read_into(alloc, term, places.as_slice(), values.as_slice())?;
    // No data file has as many values.
    let Some(taken) = before.checked_add(count) else {
        return Err(Stop::Memory);
    };
    Ok(Taken {
        state,
        taken,
        place,
    })
}

/// One item of a READ that has taken some values before: how many it has taken then, and the place after them.
fn read_item(
    alloc: Global,
    world: &mut World,
    input: &[u8],
    before: usize,
    at: usize,
    e: &Expr,
) -> Result<(usize, usize), Stop>
    requires world { IsWorld world.old }
    requires small { IsSmall e.now }
    requires within { at ≤ length input.now }
    ensures value { LeavesItem result (program.read_item input.now world.old before at e.now) world.new }
    ensures within { IfOk result (λ r. r.1 ≤ length input.now) }
    ensures kept { OnOk result (IsWorld world.new) }
{
    let Some(name) = target_name(e) else {
        return Err(Stop::from(FaultName::Unallocated));
    };
    let term = selection(alloc, world, e)?;
    let truth = is_logical(world.vars.as_slice(), name);
    let after = take(alloc, input, truth, before, at, &term)?;
    set_state(alloc, &mut world.vars, name, after.state)?;
    Ok((after.taken, after.place))
}

/// The items of a READ from this place of the data on, where each sees what those before it took, and the place after them.
pub fn read_items(
    alloc: Global,
    world: &mut World,
    input: &[u8],
    at: usize,
    line: u32,
    items: &[Expr],
) -> Result<usize, Halt>
    requires world { IsWorld world.old }
    requires small { All IsSmall items.now }
    requires within { at ≤ length input.now }
    ensures value { LeavesRead result (faults.at_line line (program.read_items input.now world.old 0 at items.now)) world.new }
    ensures within { IfOk result (λ place. place ≤ length input.now) }
    ensures kept { OnOk result (IsWorld world.new) }
{
    let mut taken = 0;
    let mut place = at;
    'each: for e in items {
        match read_item(alloc, world, input, taken, place, e) {
            Ok((more, end)) => {
                taken = more;
                place = end;
            }
            Err(stop) => return Err(at_lines(line, line, stop)),
        }
    }
    Ok(place)
}
