//! A schedule as text.

ghost use Rattle.std.specs.Prelude.{◌≡◌, ◌++◌, OnOk, IfOk, slice_get};
ghost use Rattle.std.specs.List.{flat_map};
ghost use Rattle.hlfir_ops.specs.Numbers.{order_of};
ghost use Rattle.alias_test.specs.Givers.{givers_of, op_at, ops_at};
ghost use Rattle.assign_schedule.specs.Saved.{saved};
ghost use Rattle.plan_text.specs.ScheduleText as texts;

use alias_test::{designator_in, givers};
use assign_schedule::{Planned, Schedule, left_side};
use hlfir_ops::{Module, Op, ValueId, What};
use hlfir_verify::Verified;
use itoa::{Buffer, Integer};
use rule_limits::ops_in_order;
use std::alloc::{AllocError, Global};

fn put_integer<I: Integer>(text: &mut Vec<u8>, value: I) -> Result<(), AllocError>
    ensures { OnOk result (text.new.items ≡ text.old.items ++ I.text value) }
{
    let mut buffer = Buffer::new();
    text.extend_from_slice(buffer.format(value).as_bytes())
}

fn saved_word(saved: bool) -> &'static [u8]
    ensures { result.now ≡ texts.saved_word saved }
{
    if saved { b"saved" } else { b"direct" }
}

fn check_word(checked: bool) -> &'static [u8]
    ensures { result.now ≡ texts.check_word checked }
{
    if checked { b"yes" } else { b"no" }
}

/// After the line's number: ` mask saved`.
fn put_mask(text: &mut Vec<u8>, plan: &Planned) -> Result<(), AllocError>
    ensures { OnOk result (text.new.items ≡ text.old.items ++ texts.mask_text plan.now) }
{
    text.extend_from_slice(b" mask ")?;
    text.extend_from_slice(saved_word(plan.saved))
}

/// After the line's number: ` assign a rhs saved addresses direct dup no`.
fn put_assignment(text: &mut Vec<u8>, name: &[u8], plan: &Planned) -> Result<(), AllocError>
    ensures { OnOk result (text.new.items ≡ text.old.items ++ texts.assignment_text name.now plan.now) }
{
    text.extend_from_slice(b" assign ")?;
    text.extend_from_slice(name)?;
    text.extend_from_slice(b" rhs ")?;
    text.extend_from_slice(saved_word(plan.saved))?;
    text.extend_from_slice(b" addresses ")?;
    text.extend_from_slice(saved_word(plan.addresses))?;
    text.extend_from_slice(b" dup ")?;
    text.extend_from_slice(check_word(plan.dup))
}

/// The op at this place of a list.
#[tactic(auto, using(crate::proofs::Listed::place_rules))]
fn op_at<'a>(ops: &[&'a Op], n: u32) -> Option<&'a Op>
    ensures { op_at result ≡ slice_get (ops_at ops.now) n }
{
    match ops.get(n as usize) {
        Some(op) => Some(*op),
        None => None,
    }
}

fn declared_by(what: &What) -> &[u8]
    ensures { result.now ≡ texts.declared_by what.now }
{
    match what {
        What::Declare(name) => name.as_str().as_bytes(),
        _ => &[],
    }
}

/// The name of the variable with this declare.
fn declared_at<'a>(givers: &[&'a Op], n: u32) -> &'a [u8]
    ensures { result.now ≡ texts.declared_given (slice_get (ops_at givers.now) n) }
{
    match op_at(givers, n) {
        Some(op) => declared_by(&op.what),
        None => &[],
    }
}

/// The name of the variable that is, or a part of which is, the first of these values.
fn variable_name<'a>(
    alloc: Global,
    givers: &[&'a Op],
    vs: &[ValueId],
) -> Result<&'a [u8], AllocError>
    ensures { IfOk result (λ name. name.now ≡ texts.variable_name (ops_at givers.now) vs.now) }
{
    match vs {
        [] => Ok(&[]),
        [first, ..] => {
            let designator = designator_in(alloc, givers, *first)?;
            Ok(declared_at(givers, designator.var))
        }
    }
}

/// The variable that the assignment fills.
fn assigned_name<'a>(
    alloc: Global,
    givers: &[&'a Op],
    op: Option<&Op>,
) -> Result<&'a [u8], AllocError>
    ensures { IfOk result (λ name. name.now ≡ texts.assigned_name (ops_at givers.now) (op_at op.entry)) }
{
    match op {
        Some(op) => variable_name(alloc, givers, left_side(op)),
        None => Ok(&[]),
    }
}

/// After the line's number, where these are the ops in printed order and those that give the values.
fn put_decision(
    alloc: Global,
    text: &mut Vec<u8>,
    order: &[&Op],
    givers: &[&Op],
    plan: &Planned,
) -> Result<(), AllocError>
    ensures { OnOk result (text.new.items ≡ text.old.items ++ texts.decision_text (ops_at order.now) (ops_at givers.now) plan.now) }
{
    if plan.mask {
        return put_mask(text, plan);
    }
    let name = assigned_name(alloc, givers, op_at(order, plan.first_op))?;
    put_assignment(text, name, plan)
}

fn put_plan(
    alloc: Global,
    text: &mut Vec<u8>,
    order: &[&Op],
    givers: &[&Op],
    plan: &Planned,
) -> Result<(), AllocError>
    ensures { OnOk result (text.new.items ≡ text.old.items ++ texts.plan_text (ops_at order.now) (ops_at givers.now) plan.now) }
{
    text.extend_from_slice(b"line ")?;
    put_integer(text, plan.line)?;
    put_decision(alloc, text, order, givers, plan)?;
    text.extend_from_slice(b"\n")
}

fn put_plans(
    alloc: Global,
    text: &mut Vec<u8>,
    order: &[&Op],
    givers: &[&Op],
    plans: &[Planned],
) -> Result<(), AllocError>
    ensures { OnOk result (text.new.items ≡ text.old.items ++ flat_map (texts.plan_text (ops_at order.now) (ops_at givers.now)) plans.now) }
{
    'each: for plan in plans {
        put_plan(alloc, text, order, givers, plan)?;
    }
    Ok(())
}

/// The schedule of a module as text: a line for each decision, in printed order.
pub fn schedule_text(
    alloc: Global,
    module: &Verified,
    plan: &Schedule,
) -> Result<Vec<u8>, AllocError>
    requires { plan.now ≡ saved «module».now }
    ensures { IfOk result (λ text. text.items ≡ texts.schedule_text «module».now plan.now) }
{
    let module = module.module();
    let givers = givers(alloc, module)?;
    let order = ops_in_order(alloc, module.ops.as_slice())?;
    let mut text = Vec::new(alloc);
    text.extend_from_slice(b"schedule ")?;
    text.extend_from_slice(module.name.as_str().as_bytes())?;
    text.extend_from_slice(b"\n")?;
    put_plans(
        alloc,
        &mut text,
        order.as_slice(),
        givers.as_slice(),
        plan.steps.as_slice(),
    )?;
    Ok(text)
}
