//! The module of a source.

ghost use Rattle.std.specs.Prelude.{◌≡◌, ℕ, IfOk, OnOk};
ghost use Rattle.lower_values.specs.declared.names.Names.{Names};
ghost use Rattle.lower_values.specs.Lowerings.{Appends, in_turn};
ghost use Rattle.lower_constructs.specs.Modules as modules;

use crate::constructs::statements;
use hlfir_ops::{Builder, Module, What};
use lower_assign::names_of;
use lower_values::{Names, Variable, give};
use sqlite_items::Items;
use std::alloc::{AllocError, Global};
use ws_sema::Checked;

fn declaration(alloc: Global, build: &mut Builder, variable: &Variable) -> Result<(), AllocError>
    ensures { OnOk result ((names : Names) (k : ℕ) → Appends names (modules.declaration k variable.now) build.old build.new tt) }
{
    let name = variable.name.copy(alloc)?;
    let kind = variable.declare.kind;
    give(alloc, build, What::Declare(name), Items::new(alloc), kind)?;
    Ok(())
}

/// The declares of the variables, in order of declaration.
fn declarations(alloc: Global, build: &mut Builder, names: &Names) -> Result<(), AllocError>
    ensures { OnOk result (Appends names.now (in_turn modules.declaration 0 names.now.variables) build.old build.new tt) }
{
    'each: for variable in names.variables.as_slice() {
        declaration(alloc, build, variable)?;
    }
    Ok(())
}

/// The module of a checked source: its declares, and then its statements in order. Takes memory for it, and fails only for want of that.
pub fn lowered(alloc: Global, source: &Checked) -> Result<Module, AllocError>
    ensures { IfOk result (λ m. m ≡ modules.lowered source.now) }
{
    let names = names_of(alloc, source)?;
    let tree = source.tree();
    let mut build = Builder::new(alloc, tree.name.copy(alloc)?);
    declarations(alloc, &mut build, &names)?;
    statements(alloc, &mut build, &names, tree.body.as_slice())?;
    Ok(build.finish())
}
