//! The masks and assignments of a WHERE construct in the order of the text (Fortran 2018, 10.2.3.1).

ghost use Rattle.std.specs.Prelude.{◌≡◌, suc, map, IfOk};
ghost use Rattle.step_eval.specs.Masked.{control_of};
ghost use Rattle.step_eval.specs.Events.{event_of, stmts_events, elses_events, Follows};
ghost use Rattle.ws_types.specs.Steps as steps;

use crate::construct::Under;
use std::alloc::{AllocError, Global};
use ws_tree::{Body, Else, Expr, Stmt};

/// A mask, and what it stands under.
#[derive(Clone, Copy)]
pub struct MaskOf<'a> {
    pub line: u32,
    pub test: &'a Expr,
    pub under: Under,
}

/// An assignment, and what it stands under.
#[derive(Clone, Copy)]
pub struct AssignmentOf<'a> {
    pub line: u32,
    pub left: &'a Expr,
    pub right: &'a Expr,
    pub under: Under,
}

#[derive(Clone, Copy)]
pub enum Event<'a> {
    Mask(MaskOf<'a>),
    Assigned(AssignmentOf<'a>),
}

/// The number after this one. No construct has more masks than memory holds.
fn after(number: usize) -> Result<usize, AllocError>
    ensures { IfOk result (λ next. next ≡ suc number) }
{
    match number.checked_add(1) {
        Some(next) => Ok(next),
        None => Err(AllocError),
    }
}

/// What stands in a WHERE, after `number` masks: gives the number of masks after it. In an accepted program nothing but assignments
/// and WHERE stands there.
#[cycle(events)]
#[tactic(auto, using(crate::proofs::Followed::stays, crate::proofs::Followed::adds))]
fn inside<'a>(
    events: &mut Vec<Event<'a>>,
    under: Under,
    number: usize,
    line: u32,
    body: &'a Body,
) -> Result<usize, AllocError>
    ensures { IfOk result (λ next. Follows events.old.items events.new.items number next (steps.inside (control_of under) line body.now)) }
{
    match body {
        Body::Assign { left, right } => {
            events.push(Event::Assigned(AssignmentOf {
                line,
                left,
                right,
                under,
            }))?;
            Ok(number)
        }
        Body::Masked { mask, block, rest } => {
            events.push(Event::Mask(MaskOf {
                line,
                test: mask,
                under,
            }))?;
            let first = after(number)?;
            let next = stmts(events, Under::Held(number), first, block.as_slice())?;
            let last = elses(events, Under::Failed(number), next, rest.as_slice())?;
            Ok(last)
        }
        _ => Ok(number),
    }
}

/// The statements of a block.
#[cycle(events)]
fn stmts<'a>(
    events: &mut Vec<Event<'a>>,
    under: Under,
    number: usize,
    block: &'a [Stmt],
) -> Result<usize, AllocError>
    ensures { IfOk result (λ next. Follows events.old.items events.new.items number next (stmts_events (control_of under) block.now)) }
{
    let mut next = number;
    'stmts_each: for stmt in block {
        next = inside(events, under, next, stmt.line, &stmt.body)?;
    }
    Ok(next)
}

/// What follows a mask.
#[cycle(events)]
fn elses<'a>(
    events: &mut Vec<Event<'a>>,
    under: Under,
    number: usize,
    rest: &'a [Else],
) -> Result<usize, AllocError>
    ensures { IfOk result (λ next. Follows events.old.items events.new.items number next (elses_events (control_of under) rest.now)) }
{
    let mut left = under;
    let mut next = number;
    'elses_each: for part in rest {
        let block = part.block.as_slice();
        match &part.mask {
            None => {
                let last = stmts(events, left, next, block)?;
                return Ok(last);
            }
            Some(test) => {
                events.push(Event::Mask(MaskOf {
                    line: part.line,
                    test,
                    under: left,
                }))?;
                let first = after(next)?;
                let last = stmts(events, Under::Held(next), first, block)?;
                left = Under::Failed(next);
                next = last;
            }
        }
    }
    Ok(next)
}

/// The masks and assignments of a construct, in the order of the text.
pub fn where_events<'a>(
    alloc: Global,
    line: u32,
    body: &'a Body,
) -> Result<Vec<Event<'a>>, AllocError>
    ensures { IfOk result (λ events. map event_of events.items ≡ steps.where_events line body.now) }
{
    let mut events = Vec::new(alloc);
    inside(&mut events, Under::Everywhere, 0, line, body)?;
    Ok(events)
}
