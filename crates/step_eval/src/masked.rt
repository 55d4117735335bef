//! One step of a WHERE construct: masks, and the assignment that they stand before (Fortran 2018, 10.2.3.2).

ghost use Rattle.std.specs.Prelude.{◌≡◌, ◌++◌, map, IfOk, OnOk};
ghost use Rattle.std.specs.List.{All};
ghost use Rattle.ws_space.specs.Masks.{shapes_of, active};
ghost use Rattle.ws_space.specs.Shapes as shapes;
ghost use Rattle.array_meaning.specs.Where as meaning;
ghost use Rattle.array_meaning.specs.Stage2.{operands};
ghost use Rattle.term_eval.specs.Limits.{IsWorld, IsSmallTerm, IsSmallState, IsFew};
ghost use Rattle.ws_space.specs.Faults as faults;
ghost use Rattle.ws_space.specs.Values as space;
ghost use Rattle.array_meaning.specs.Assign as assign;
ghost use Rattle.term_eval.specs.Targets.{target_of, IsSmallTarget};
ghost use Rattle.step_eval.specs.Narrow.{IsNarrow, IsNarrowTerm, IsNarrowTarget};
ghost use Rattle.step_eval.specs.Halts.{Yields};
ghost use Rattle.step_eval.specs.Masked.{control_of, splits_of, IsEvaluated, IsSmallMask, LeavesBoth, second_stage};
ghost use Rattle.step_eval.specs.Events.{mask_of, assignment_of, IsSmallMaskOf, IsSmallAssignmentOf, YieldsTerms};

use crate::assignment::{
    agreed_shape, carried_out, no_target, step_shape, target_at, target_name, term_at,
    with_operands,
};
use crate::construct::{MaskTerm, Places};
use crate::events::{AssignmentOf, MaskOf};
use crate::faults::at_lines;
use crate::halt::Halt;
use crate::masks::{active, evaluate_masks};
use crate::vars::set_state;
use array_meaning::{Term, World};
use sqlite_items::Items;
use std::alloc::{AllocError, Global};
use term_eval::{Extents, Target};
use ws_base::Name;
use ws_space::VarState;

/// The first stage of the masks that stand before an assignment, mask after mask. `shape_line` is the line of the step's Shape.
fn mask_terms(
    alloc: Global,
    world: &World,
    shape_line: u32,
    masks: &[MaskOf],
) -> Result<Items<MaskTerm>, Halt>
    requires world { IsWorld world.now }
    requires small { All IsSmallMaskOf masks.now }
    ensures value { YieldsTerms masks.now result (meaning.mask_terms world.now shape_line (map mask_of masks.now)) }
    ensures small { IfOk result (All IsSmallMask) }
{
    let mut terms = Items::new(alloc);
    for mask in masks {
        let term = term_at(alloc, world, mask.line, shape_line, mask.test)?;
        terms.push(MaskTerm {
            line: mask.line,
            under: mask.under,
            term,
        })?;
    }
    Ok(terms)
}

/// The shapes of evaluated masks, and those of the array operands of masks.
fn shapes_before(
    alloc: Global,
    evaluated: &[Places],
    terms: &[MaskTerm],
) -> Result<Items<Extents>, AllocError>
    requires evaluated { All IsEvaluated evaluated.now }
    requires terms { All IsSmallMask terms.now }
    ensures value { IfOk result (λ shapes. shapes ≡ shapes_of (splits_of evaluated.now) ++ meaning.operands_of (map (λ t. t.term) terms.now)) }
    ensures few { IfOk result (All IsFew) }
    ensures narrow { IfOk result (All IsNarrow) }
{
    let mut shapes = Items::new(alloc);
    for mask in evaluated {
        shapes.push(Items::from_slice(alloc, mask.shape.as_slice())?)?;
    }
    for mask in terms {
        shapes = with_operands(alloc, shapes, &mask.term)?;
    }
    Ok(shapes)
}

/// The one shape of a step, or its fault.
fn shape_at(
    alloc: Global,
    world: &World,
    line: u32,
    others: Items<Extents>,
    name: &Name,
    target: &Target,
) -> Result<Extents, Halt>
    requires world { IsWorld world.now }
    requires few { All IsFew others }
    requires narrow { All IsNarrow others }
    requires small { IsSmallTarget target.now }
    requires operands { IsNarrowTarget target.now }
    ensures value { Yields result (faults.at_line line (assign.step_shape others (target_of (space.state_of world.now.vars name.now) target.now))) }
    ensures narrow { IfOk result IsNarrow }
    ensures few { IfOk result IsFew }
{
    match step_shape(alloc, world, others, name, target) {
        Ok(extents) => Ok(extents),
        Err(stop) => Err(at_lines(line, line, stop)),
    }
}

/// The one shape of an assignment and its masks, once their first stage is done.
fn step_extents(
    alloc: Global,
    world: &World,
    line: u32,
    evaluated: &[Places],
    terms: &[MaskTerm],
    right: &Term,
    name: &Name,
    target: &Target,
) -> Result<Extents, Halt>
    requires world { IsWorld world.now }
    requires evaluated { All IsEvaluated evaluated.now }
    requires terms { All IsSmallMask terms.now }
    requires right { IsSmallTerm right.now }
    requires right_narrow { IsNarrowTerm right.now }
    requires target { IsSmallTarget target.now }
    requires target_narrow { IsNarrowTarget target.now }
    ensures value { Yields result (faults.at_line line (assign.step_shape (shapes_of (splits_of evaluated.now) ++ meaning.operands_of (map (λ t. t.term) terms.now) ++ operands right.now) (target_of (space.state_of world.now.vars name.now) target.now))) }
    ensures narrow { IfOk result IsNarrow }
    ensures few { IfOk result IsFew }
{
    let before = shapes_before(alloc, evaluated, terms)?;
    let shapes = with_operands(alloc, before, right)?;
    shape_at(alloc, world, line, shapes, name, target)
}

/// What the left side's variable holds after a step whose masks are evaluated.
fn state_after(
    alloc: Global,
    world: &World,
    evaluated: &[Places],
    extents: &[u64],
    assignment: &AssignmentOf,
    right: &Term,
    name: &Name,
    target: &Target,
) -> Result<VarState, Halt>
    requires world { IsWorld world.now }
    requires evaluated { All IsEvaluated evaluated.now }
    requires narrow { IsNarrow extents.now }
    requires few { IsFew extents.now }
    requires right { IsSmallTerm right.now }
    requires target { IsSmallTarget target.now }
    ensures value { Yields result (assign.carried_out world.now assignment.now.line assignment.now.right.now right.now extents.now (active (splits_of evaluated.now) extents.now (control_of assignment.now.under)) (target_of (space.state_of world.now.vars name.now) target.now)) }
    ensures small { IfOk result IsSmallState }
{
    let places = active(alloc, evaluated, extents, assignment.under)?;
    carried_out(
        alloc,
        world,
        assignment.line,
        assignment.right,
        right,
        extents,
        places.as_slice(),
        name,
        target,
    )
}

/// The second stage of a step and its replacement, once its first stage is done.
fn carry_out_step(
    alloc: Global,
    world: &mut World,
    evaluated: &mut Items<Places>,
    terms: &[MaskTerm],
    assignment: &AssignmentOf,
    right: &Term,
    name: &Name,
    target: &Target,
) -> Result<(), Halt>
    requires world { IsWorld world.old }
    requires evaluated { All IsEvaluated evaluated.old }
    requires terms { All IsSmallMask terms.now }
    requires right { IsSmallTerm right.now }
    requires right_narrow { IsNarrowTerm right.now }
    requires target { IsSmallTarget target.now }
    requires target_narrow { IsNarrowTarget target.now }
    ensures value { LeavesBoth result (second_stage (world.old, splits_of evaluated.old) terms.now (assignment_of assignment.now) right.now name.now (target_of (space.state_of world.old.vars name.now) target.now)) world.new evaluated.new }
    ensures world { OnOk result (IsWorld world.new) }
    ensures evaluated { OnOk result (All IsEvaluated evaluated.new) }
{
    let extents = step_extents(
        alloc,
        world,
        assignment.line,
        evaluated.as_slice(),
        terms,
        right,
        name,
        target,
    )?;
    evaluate_masks(alloc, evaluated, extents.as_slice(), terms)?;
    let state = state_after(
        alloc,
        world,
        evaluated.as_slice(),
        extents.as_slice(),
        assignment,
        right,
        name,
        target,
    )?;
    set_state(alloc, &mut world.vars, name, state)?;
    Ok(())
}

/// An assignment of a WHERE, with the masks that were not evaluated before it.
pub fn masked_assignment(
    alloc: Global,
    world: &mut World,
    evaluated: &mut Items<Places>,
    masks: &[MaskOf],
    assignment: &AssignmentOf,
) -> Result<(), Halt>
    requires world { IsWorld world.old }
    requires evaluated { All IsEvaluated evaluated.old }
    requires masks { All IsSmallMaskOf masks.now }
    requires assignment { IsSmallAssignmentOf assignment.now }
    ensures value { LeavesBoth result (meaning.run_assignment (world.old, splits_of evaluated.old) (map mask_of masks.now) (assignment_of assignment.now)) world.new evaluated.new }
    ensures world { OnOk result (IsWorld world.new) }
    ensures evaluated { OnOk result (All IsEvaluated evaluated.new) }
{
    let line = assignment.line;
    let terms = mask_terms(alloc, world, line, masks)?;
    let right = term_at(alloc, world, line, line, assignment.right)?;
    let Some(name) = target_name(assignment.left) else {
        return Err(no_target(line));
    };
    let target = target_at(alloc, true, world, line, assignment.left)?;
    carry_out_step(
        alloc,
        world,
        evaluated,
        terms.as_slice(),
        assignment,
        &right,
        name,
        &target,
    )
}

/// The line of the last mask.
fn last_line(masks: &[MaskOf]) -> u32
    ensures { result ≡ meaning.last_line 0 (map mask_of masks.now) }
{
    let mut line = 0;
    for mask in masks {
        line = mask.line;
    }
    line
}

/// The one shape of masks that stand before no assignment, once their first stage is done.
fn masks_extents(
    alloc: Global,
    line: u32,
    evaluated: &[Places],
    terms: &[MaskTerm],
) -> Result<Extents, Halt>
    requires evaluated { All IsEvaluated evaluated.now }
    requires terms { All IsSmallMask terms.now }
    ensures value { Yields result (faults.at_line line (shapes.agreed (shapes_of (splits_of evaluated.now) ++ meaning.operands_of (map (λ t. t.term) terms.now)))) }
    ensures narrow { IfOk result IsNarrow }
    ensures few { IfOk result IsFew }
{
    let before = shapes_before(alloc, evaluated, terms)?;
    match agreed_shape(alloc, before.as_slice()) {
        Ok(extents) => Ok(extents),
        Err(stop) => Err(at_lines(line, line, stop)),
    }
}

/// The masks after the last assignment of a WHERE.
pub fn masks_alone(
    alloc: Global,
    world: &World,
    evaluated: &mut Items<Places>,
    masks: &[MaskOf],
) -> Result<(), Halt>
    requires world { IsWorld world.now }
    requires evaluated { All IsEvaluated evaluated.old }
    requires masks { All IsSmallMaskOf masks.now }
    ensures value { LeavesBoth result (meaning.run_masks (world.now, splits_of evaluated.old) (map mask_of masks.now)) world.now evaluated.new }
    ensures evaluated { OnOk result (All IsEvaluated evaluated.new) }
{
    let line = last_line(masks);
    let terms = mask_terms(alloc, world, line, masks)?;
    let pending = terms.as_slice();
    let extents = masks_extents(alloc, line, evaluated.as_slice(), pending)?;
    evaluate_masks(alloc, evaluated, extents.as_slice(), pending)
}
