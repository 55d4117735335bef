//! The named constants and the variables of the declarations, in their order.

ghost use Rattle.std.specs.Prelude.{◌≡◌, ◌++◌, List, ℕ, [], IfOk, OnOk};
ghost use Rattle.std.specs.List.{All};
ghost use Rattle.array_meaning.specs.Program as program;
ghost use Rattle.term_eval.specs.Limits.{IsSmall, IsWorld, IsInteger, IsSmallState, IsVar};
ghost use Rattle.slow_eval.specs.Machine.{state, source, IsReady};
ghost use Rattle.step_eval.specs.Small.{IsSmallBound, IsSmallDecl, AreSmallDecls};
ghost use Rattle.slow_eval.specs.Known.{IsAlone, declared_after, variable_of};

use crate::allocation::{bound_dims, zeros};
use crate::machine::Machine;
use array_meaning::{Constant, World};
use sqlite_items::Items;
use std::alloc::{AllocError, Global};
use term_eval::{Stop, scalar};
use ws_base::Name;
use ws_space::{Dim, Var, VarState};
use ws_tree::{Bound, Decl, Expr, Tree};

/// The value of a named constant. In an accepted program it has one.
fn constant_value(alloc: Global, known: &World, e: &Expr) -> Result<i64, AllocError>
    requires world { IsWorld known.now }
    requires alone { IsAlone known.now }
    requires small { IsSmall e.now }
    ensures value { IfOk result (λ value. value ≡ program.constant_value known.now.constants e.now) }
    ensures small { IfOk result IsInteger }
{
    match scalar(alloc, known, e) {
        Ok(value) => Ok(i64::from(value)),
        Err(Stop::Failed(_)) => Ok(0),
        Err(Stop::Memory) => Err(AllocError),
    }
}

/// The bounds of a declared array. In an accepted program it has some.
fn declared_dims(alloc: Global, known: &World, bounds: &[Bound]) -> Result<Items<Dim>, AllocError>
    requires world { IsWorld known.now }
    requires alone { IsAlone known.now }
    requires small { All IsSmallBound bounds.now }
    ensures { IfOk result (λ dims. dims ≡ program.declared_dims known.now.constants bounds.now) }
{
    match bound_dims(alloc, known, bounds) {
        Ok(dims) => Ok(dims),
        Err(Stop::Failed(_)) => Ok(Items::new(alloc)),
        Err(Stop::Memory) => Err(AllocError),
    }
}

/// What a variable holds before the first statement: 0 or false, and an allocatable is unallocated.
fn first_state(alloc: Global, known: &World, decl: &Decl) -> Result<VarState, AllocError>
    requires world { IsWorld known.now }
    requires alone { IsAlone known.now }
    requires small { IsSmallDecl known.now.constants decl.now }
    ensures value { IfOk result (λ state. state ≡ program.first_state known.now.constants decl.now) }
    ensures small { IfOk result IsSmallState }
{
    if decl.allocatable {
        return Ok(VarState::Unallocated {
            rank: decl.shape.len() as u32,
        });
    }
    let dims = declared_dims(alloc, known, decl.shape.as_slice())?;
    zeros(alloc, dims.as_slice())
}

/// Adds a named constant, which is known from its declaration on.
fn declare_constant(
    alloc: Global,
    known: &mut World,
    name: &Name,
    e: &Expr,
) -> Result<(), AllocError>
    requires world { IsWorld known.old }
    requires alone { IsAlone known.old }
    requires small { IsSmall e.now }
    ensures value { OnOk result (known.new.constants ≡ declared_after known.old.constants name.now e.now) }
    ensures world { OnOk result (IsWorld known.new) }
    ensures alone { OnOk result (IsAlone known.new) }
{
    let value = constant_value(alloc, known, e)?;
    let name = name.copy(alloc)?;
    known.constants.push(Constant { name, value })?;
    Ok(())
}

/// The variable of a declaration.
fn variable(alloc: Global, known: &World, decl: &Decl) -> Result<Var, AllocError>
    requires world { IsWorld known.now }
    requires alone { IsAlone known.now }
    requires small { IsSmallDecl known.now.constants decl.now }
    ensures value { IfOk result (λ var. var ≡ variable_of known.now.constants decl.now) }
    ensures small { IfOk result IsVar }
{
    let name = decl.name.copy(alloc)?;
    let state = first_state(alloc, known, decl)?;
    Ok(Var {
        name,
        truth: decl.truth,
        state,
    })
}

/// Adds what is declared to what is known before.
fn declare(
    alloc: Global,
    known: &mut World,
    vars: &mut Items<Var>,
    decl: &Decl,
) -> Result<(), AllocError>
    requires world { IsWorld known.old }
    requires alone { IsAlone known.old }
    requires vars { All IsVar vars.old }
    requires small { IsSmallDecl known.old.constants decl.now }
    ensures constants { OnOk result (known.new.constants ≡ (program.declaring decl.now.constant known.old.constants decl.now).0) }
    ensures variables { OnOk result (vars.new ≡ vars.old ++ (program.declaring decl.now.constant known.old.constants decl.now).1) }
    ensures world { OnOk result (IsWorld known.new) }
    ensures alone { OnOk result (IsAlone known.new) }
    ensures small { OnOk result (All IsVar vars.new) }
{
    match &decl.constant {
        Some(e) => declare_constant(alloc, known, &decl.name, e),
        None => {
            vars.push(variable(alloc, known, decl)?)?;
            Ok(())
        }
    }
}

/// The names of the allocatables.
fn allocatables(alloc: Global, decls: &[Decl]) -> Result<Items<Name>, AllocError>
    ensures { IfOk result (λ names. names ≡ program.names_where (λ d. d.allocatable) decls.now) }
{
    let mut names = Items::new(alloc);
    'each: for decl in decls {
        if decl.allocatable {
            names.push(decl.name.copy(alloc)?)?;
        }
    }
    Ok(names)
}

/// What is known before the first statement.
fn declared(alloc: Global, decls: &[Decl]) -> Result<World, AllocError>
    requires { AreSmallDecls [] decls.now }
    ensures constants { IfOk result (λ w. w.constants ≡ (program.declared [] decls.now).0) }
    ensures variables { IfOk result (λ w. w.vars ≡ (program.declared [] decls.now).1) }
    ensures allocatables { IfOk result (λ w. w.allocatables ≡ program.names_where (λ d. d.allocatable) decls.now) }
    ensures small { IfOk result IsWorld }
{
    let mut known = World {
        constants: Items::new(alloc),
        allocatables: Items::new(alloc),
        vars: Items::new(alloc),
    };
    let mut vars = Items::new(alloc);
    'each: for decl in decls {
        declare(alloc, &mut known, &mut vars, decl)?;
    }
    known.allocatables = allocatables(alloc, decls)?;
    known.vars = vars;
    Ok(known)
}

/// The machine before the first statement.
pub fn opening(alloc: Global, tree: &Tree) -> Result<Machine, AllocError>
    requires { AreSmallDecls [] tree.now.decls }
    ensures state { IfOk result (λ machine. state machine ≡ program.opening tree.now) }
    ensures source { (input : List ℕ) → IfOk result (λ machine. source input machine ≡ program.source_of tree.now input) }
    ensures ready { (input : List ℕ) → IfOk result (IsReady input) }
{
    let world = declared(alloc, tree.decls.as_slice())?;
    Ok(Machine {
        world,
        read_to: 0,
        steps: 0,
        regions: 0,
    })
}
