//! Statements in order.

ghost use Rattle.std.specs.Prelude.{◌≡◌, ◌≢◌, ℕ, List, pos, IfOk, OnOk};
ghost use Rattle.std.specs.List.{All};
ghost use Rattle.ws_base.specs.Numbers.{in_range, default_half};
ghost use Rattle.ws_space.specs.Faults as faults;
ghost use Rattle.ws_space.specs.Runs as runs;
ghost use Rattle.ws_space.specs.Shapes as shapes;
ghost use Rattle.ws_space.specs.Subscripts.{stepped};
ghost use Rattle.array_meaning.specs.Forall as forall;
ghost use Rattle.array_meaning.specs.Program as program;
ghost use Rattle.term_eval.specs.Limits.{IsSmall, IsWorld, IsInteger};
ghost use Rattle.step_eval.specs.Halts.{Leaves, Yields};
ghost use Rattle.slow_eval.specs.Machine.{state, source, IsReady, GoesOn, simple_list, iteration_at};
ghost use Rattle.step_eval.specs.Small.{IsSmallBody, IsSmallStmt, IsSmallOption};

use crate::allocation::{allocate, deallocate};
use crate::input::read_items;
use crate::machine::{Machine, enter, set_scalar, tick};
use array_meaning::World;
use list_io::next_line;
use std::alloc::Global;
use step_eval::{Halt, assign, at_lines, run_forall, run_where, stepping};
use ws_base::{Fault, FaultName, Name};
use ws_space::{Triplet, count};
use ws_tree::{Body, Expr, Stmt};

/// A statement that may stand in a region.
#[tactic(auto, unfolding(ws_tree::specs::Opened::trees_open))]
fn simple(alloc: Global, world: &mut World, line: u32, body: &Body) -> Result<(), Halt>
    requires world { IsWorld world.old }
    requires small { IsSmallBody body.now }
    ensures value { Leaves result (program.simple world.old line body.now) world.new }
    ensures kept { OnOk result (IsWorld world.new) }
{
    match body {
        Body::Assign { left, right } => assign(alloc, world, line, left, right),
        Body::Masked { .. } => run_where(alloc, world, line, body),
        Body::Forall {
            indexes,
            mask,
            block,
        } => run_forall(
            alloc,
            world,
            line,
            indexes.as_slice(),
            mask,
            block.as_slice(),
        ),
        Body::Loop { .. }
        | Body::Allocate(_)
        | Body::Deallocate(_)
        | Body::Read(_)
        | Body::Shared { .. }
        | Body::Unsupported
        | Body::TooDeep => Ok(()),
    }
}

/// The statements of a region.
fn simple_block(alloc: Global, world: &mut World, block: &[Stmt]) -> Result<(), Halt>
    requires world { IsWorld world.old }
    requires small { All IsSmallStmt block.now }
    ensures value { Leaves result (simple_list world.old block.now) world.new }
    ensures kept { OnOk result (IsWorld world.new) }
{
    'each: for stmt in block {
        simple(alloc, world, stmt.line, &stmt.body)?;
    }
    Ok(())
}

/// A region, which counts as it is entered.
fn region(alloc: Global, machine: &mut Machine, block: &[Stmt]) -> Result<(), Halt>
    requires world { IsWorld machine.old.world }
    requires small { All IsSmallStmt block.now }
    ensures value { Leaves result (program.changed (runs.entered (state machine.old)) (simple_list machine.old.world block.now)) (state machine.new) }
    ensures kept { (input : List ℕ) → IsReady input machine.old → OnOk result (GoesOn input machine.old machine.new) }
{
    enter(machine)?;
    simple_block(alloc, &mut machine.world, block)
}

/// READ, after which the rest of the line is skipped.
fn read(
    alloc: Global,
    machine: &mut Machine,
    input: &[u8],
    line: u32,
    items: &[Expr],
) -> Result<(), Halt>
    requires ready { IsReady input.now machine.old }
    requires small { All IsSmall items.now }
    ensures value { Leaves result (faults.at_line line (program.read (source input.now machine.old) (state machine.old) items.now)) (state machine.new) }
    ensures kept { OnOk result (GoesOn input.now machine.old machine.new) }
{
    let at = machine.read_to;
    let place = read_items(alloc, &mut machine.world, input, at, line, items)?;
    machine.read_to = next_line(input, place);
    Ok(())
}

/// A statement outside regions that holds no other.
fn at_once(
    alloc: Global,
    machine: &mut Machine,
    input: &[u8],
    line: u32,
    body: &Body,
) -> Result<(), Halt>
    requires ready { IsReady input.now machine.old }
    requires small { IsSmallBody body.now }
    ensures value { Leaves result (program.at_once (source input.now machine.old) line body.now (state machine.old)) (state machine.new) }
    ensures kept { OnOk result (GoesOn input.now machine.old machine.new) }
{
    match body {
        Body::Allocate(parts) => allocate(alloc, &mut machine.world, line, parts.as_slice()),
        Body::Deallocate(names) => deallocate(alloc, &mut machine.world, line, names.as_slice()),
        Body::Read(items) => read(alloc, machine, input, line, items.as_slice()),
        _ => simple(alloc, &mut machine.world, line, body),
    }
}

/// Such a statement, which counts first.
fn counted(
    alloc: Global,
    machine: &mut Machine,
    input: &[u8],
    line: u32,
    body: &Body,
) -> Result<(), Halt>
    requires ready { IsReady input.now machine.old }
    requires small { IsSmallBody body.now }
    ensures value { Leaves result (runs.and_then (runs.run_of (runs.ticked line 1 (state machine.old))) (λ r. runs.run_of (program.at_once (source input.now machine.old) line body.now r))).end (state machine.new) }
    ensures kept { OnOk result (GoesOn input.now machine.old machine.new) }
{
    tick(machine, line, 1)?;
    at_once(alloc, machine, input, line, body)
}

/// `l`, `u` and `s` of a DO.
fn loop_header(
    alloc: Global,
    world: &World,
    line: u32,
    l: &Expr,
    u: &Expr,
    s: &Option<Expr>,
) -> Result<Triplet, Halt>
    requires world { IsWorld world.now }
    requires l { IsSmall l.now }
    requires u { IsSmall u.now }
    requires s { IsSmallOption s.now }
    ensures value { Yields result (faults.at_line line (forall.stepping world.now l.now u.now s.now)) }
    ensures stride { IfOk result (λ triplet. triplet.s ≢ pos 0) }
{
    match stepping(alloc, world, l, u, s) {
        Ok(triplet) => Ok(triplet),
        Err(stop) => Err(at_lines(line, line, stop)),
    }
}

/// How many iterations a DO has.
fn iteration_count(triplet: &Triplet) -> u64
    requires stride { triplet.now.s ≢ pos 0 }
    ensures { result ≡ shapes.count triplet.now }
{
    match count(triplet) {
        Ok(number) => number,
        Err(_) => unreachable!(),
    }
}

fn is_integer(value: i64) -> bool
    ensures { result ≡ in_range default_half value }
{
    -2_147_483_648 <= value && value <= 2_147_483_647
}

/// The variable of a DO afterwards, also where there was no iteration.
fn finish_loop(
    alloc: Global,
    machine: &mut Machine,
    line: u32,
    var: &Name,
    value: i64,
) -> Result<(), Halt>
    ensures value { (triplet : Triplet) → value ≡ stepped triplet (shapes.count triplet) → Leaves result (faults.at_line line (runs.loop_end var.now triplet (state machine.old))) (state machine.new) }
    ensures kept { (input : List ℕ) → IsReady input machine.old → OnOk result (GoesOn input machine.old machine.new) }
{
    if !is_integer(value) {
        return Err(Halt::Faulted(Fault {
            line,
            name: FaultName::Overflow,
            element: 0,
        }));
    }
    set_scalar(alloc, machine, var, value)?;
    Ok(())
}

/// One iteration of a DO: it counts, and its variable has its value while the block runs.
#[cycle(running)]
fn iteration(
    alloc: Global,
    machine: &mut Machine,
    input: &[u8],
    line: u32,
    var: &Name,
    value: i64,
    block: &[Stmt],
) -> Result<(), Halt>
    requires ready { IsReady input.now machine.old }
    requires small { All IsSmallStmt block.now }
    requires integer { IsInteger value }
    ensures value { Leaves result (iteration_at (source input.now machine.old) line var.now value block.now (state machine.old)).end (state machine.new) }
    ensures kept { OnOk result (GoesOn input.now machine.old machine.new) }
{
    tick(machine, line, 1)?;
    set_scalar(alloc, machine, var, value)?;
    statements(alloc, machine, input, block)
}

/// The iterations of a DO; gives `l + n * s`, where there were n.
#[cycle(running)]
fn iterations(
    alloc: Global,
    machine: &mut Machine,
    input: &[u8],
    line: u32,
    var: &Name,
    triplet: &Triplet,
    block: &[Stmt],
) -> Result<i64, Halt>
    requires ready { IsReady input.now machine.old }
    requires small { All IsSmallStmt block.now }
    requires stride { triplet.now.s ≢ pos 0 }
    ensures value { Leaves result (runs.iterations (runs.iteration line var.now triplet.now (λ q. program.statement_list (source input.now machine.old) block.now q)) (shapes.count triplet.now) 0 (state machine.old)).end (state machine.new) }
    ensures last { IfOk result (λ value. value ≡ stepped triplet.now (shapes.count triplet.now)) }
    ensures kept { OnOk result (GoesOn input.now machine.old machine.new) }
{
    let number = iteration_count(triplet);
    let mut value = i64::from(triplet.l);
    'each_iteration: for k in 0..number {
        iteration(alloc, machine, input, line, var, value, block)?;
        value += i64::from(triplet.s);
    }
    Ok(value)
}

/// A DO, whose header is evaluated before its first iteration (Fortran 2018, 11.1.7.4).
#[cycle(running)]
fn looped(
    alloc: Global,
    machine: &mut Machine,
    input: &[u8],
    line: u32,
    var: &Name,
    triplet: &Triplet,
    block: &[Stmt],
) -> Result<(), Halt>
    requires ready { IsReady input.now machine.old }
    requires small { All IsSmallStmt block.now }
    requires stride { triplet.now.s ≢ pos 0 }
    ensures value { Leaves result (runs.looped line var.now triplet.now (λ q. program.statement_list (source input.now machine.old) block.now q) (state machine.old)).end (state machine.new) }
    ensures kept { OnOk result (GoesOn input.now machine.old machine.new) }
{
    let last = iterations(alloc, machine, input, line, var, triplet, block)?;
    finish_loop(alloc, machine, line, var, last)
}

/// A statement, and those in it. It counts first; a region counts its statements, and is entered only where they pass no limit.
#[cycle(running)]
fn statement(
    alloc: Global,
    machine: &mut Machine,
    input: &[u8],
    line: u32,
    body: &Body,
) -> Result<(), Halt>
    requires ready { IsReady input.now machine.old }
    requires small { IsSmallBody body.now }
    ensures value { Leaves result (program.statement (source input.now machine.old) line body.now (state machine.old)).end (state machine.new) }
    ensures kept { OnOk result (GoesOn input.now machine.old machine.new) }
{
    match body {
        Body::Loop {
            var,
            l,
            u,
            s,
            block,
        } => {
            tick(machine, line, 1)?;
            let triplet = loop_header(alloc, &machine.world, line, l, u, s)?;
            looped(alloc, machine, input, line, var, &triplet, block.as_slice())
        }
        Body::Shared { block } => {
            tick(machine, line, block.len())?;
            region(alloc, machine, block.as_slice())
        }
        Body::Assign { .. }
        | Body::Masked { .. }
        | Body::Forall { .. }
        | Body::Allocate(_)
        | Body::Deallocate(_)
        | Body::Read(_)
        | Body::Unsupported
        | Body::TooDeep => counted(alloc, machine, input, line, body),
    }
}

/// Statements, one after another.
#[cycle(running)]
pub fn statements(
    alloc: Global,
    machine: &mut Machine,
    input: &[u8],
    block: &[Stmt],
) -> Result<(), Halt>
    requires ready { IsReady input.now machine.old }
    requires small { All IsSmallStmt block.now }
    ensures value { Leaves result (program.statement_list (source input.now machine.old) block.now (state machine.old)).end (state machine.new) }
    ensures kept { OnOk result (GoesOn input.now machine.old machine.new) }
{
    'each: for stmt in block {
        statement(alloc, machine, input, stmt.line, &stmt.body)?;
    }
    Ok(())
}
