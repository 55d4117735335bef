//! A WHERE construct: its steps in the order of the text, each under a control (Fortran 2018, 10.2.3.2).

ghost use Rattle.std.specs.Prelude.{◌≡◌, [], map, OnOk};
ghost use Rattle.std.specs.List.{All};
ghost use Rattle.ws_types.specs.Steps as steps;
ghost use Rattle.array_meaning.specs.Where as meaning;
ghost use Rattle.term_eval.specs.Limits.{IsWorld};
ghost use Rattle.step_eval.specs.Halts.{Leaves};
ghost use Rattle.step_eval.specs.Masked.{splits_of, IsEvaluated};
ghost use Rattle.step_eval.specs.Events.{mask_of, event_of, after_event, LeavesAll, IsSmallMaskOf, IsSmallEvent};
ghost use Rattle.step_eval.specs.Small.{IsSmallBody};

use crate::construct::Places;
use crate::events::{Event, MaskOf, where_events};
use crate::halt::Halt;
use crate::masked::{masked_assignment, masks_alone};
use array_meaning::World;
use sqlite_items::Items;
use std::alloc::Global;
use ws_tree::Body;

/// A mask waits for the next assignment, which is a step with the masks that wait.
fn run_event<'a>(
    alloc: Global,
    world: &mut World,
    evaluated: &mut Items<Places>,
    waiting: &mut Vec<MaskOf<'a>>,
    event: &Event<'a>,
) -> Result<(), Halt>
    requires world { IsWorld world.old }
    requires evaluated { All IsEvaluated evaluated.old }
    requires waiting { All IsSmallMaskOf waiting.old.items }
    requires event { IsSmallEvent event.now }
    ensures value { LeavesAll result (after_event (world.old, splits_of evaluated.old) (map mask_of waiting.old.items) (event_of event.now)) world.new evaluated.new waiting.new.items }
    ensures world { OnOk result (IsWorld world.new) }
    ensures evaluated { OnOk result (All IsEvaluated evaluated.new) }
    ensures waiting { OnOk result (All IsSmallMaskOf waiting.new.items) }
{
    match event {
        Event::Mask(mask) => {
            waiting.push(*mask)?;
            Ok(())
        }
        Event::Assigned(assignment) => {
            masked_assignment(alloc, world, evaluated, waiting.as_slice(), assignment)?;
            waiting.clear();
            Ok(())
        }
    }
}

/// The masks that no assignment follows are one step more.
fn run_last(
    alloc: Global,
    world: &World,
    evaluated: &mut Items<Places>,
    waiting: &[MaskOf],
) -> Result<(), Halt>
    requires world { IsWorld world.now }
    requires evaluated { All IsEvaluated evaluated.old }
    requires waiting { All IsSmallMaskOf waiting.now }
    ensures { Leaves result (meaning.run_steps (world.now, splits_of evaluated.old) (steps.steps_after (map mask_of waiting.now) [])) world.now }
{
    match waiting {
        [] => Ok(()),
        _ => masks_alone(alloc, world, evaluated, waiting),
    }
}

/// The masks and assignments of a construct, one after another.
fn run_events(alloc: Global, world: &mut World, events: &[Event]) -> Result<(), Halt>
    requires world { IsWorld world.old }
    requires small { All IsSmallEvent events.now }
    ensures value { Leaves result (meaning.run_steps (world.old, []) (steps.steps_after [] (map event_of events.now))) world.new }
    ensures kept { OnOk result (IsWorld world.new) }
{
    let mut evaluated = Items::new(alloc);
    let mut waiting = Vec::new(alloc);
    for event in events {
        run_event(alloc, world, &mut evaluated, &mut waiting, event)?;
    }
    run_last(alloc, world, &mut evaluated, waiting.as_slice())
}

/// A WHERE construct.
#[tactic(auto, unfolding(array_meaning::specs::Where::run_where))]
pub fn run_where(alloc: Global, world: &mut World, line: u32, body: &Body) -> Result<(), Halt>
    requires world { IsWorld world.old }
    requires small { IsSmallBody body.now }
    ensures value { Leaves result (meaning.run_where world.old line body.now) world.new }
    ensures kept { OnOk result (IsWorld world.new) }
{
    let events = where_events(alloc, line, body)?;
    run_events(alloc, world, events.as_slice())
}
