//! Lowering of whole sources.

ghost use Rattle.std.specs.Prelude.{◌≡◌, ℕ, List, IfOk};
ghost use Rattle.array_meaning.specs.Program.{run};
ghost use Rattle.hlfir_meaning.specs.Meaning.{meaning};
ghost use Rattle.hlfir_ops.specs.Rules.{KeepsRules};
ghost use Rattle.lower_constructs.specs.Modules as modules;

use crate::laws::{every_module_keeps_the_rules, every_module_means_its_source};
use hlfir_ops::Module;
use hlfir_verify::{Verified, VerifyEnd, each_module_has_one_answer, verify};
use lower_constructs::lowered;
use std::alloc::{AllocError, Global};
use ws_sema::Checked;

/// A module that keeps the rules, as one of which it is known. Fails for want of memory.
fn kept(alloc: Global, module: Module) -> Result<Verified, AllocError>
    requires { KeepsRules «module» }
    ensures { IfOk result (λ verified. verified ≡ «module») }
{
    each_module_has_one_answer();
    match verify(alloc, module) {
        Ok(verified) => Ok(verified),
        Err(VerifyEnd::Memory) => Err(AllocError),
        Err(VerifyEnd::BadOp { .. }) => unreachable!(),
    }
}

/// The module of a checked source, as one that keeps the rules of its ops. Over any data it means what the source means, entries of regions
/// included. Fails for want of memory alone.
pub fn lower(alloc: Global, source: &Checked) -> Result<Verified, AllocError>
    ensures module { IfOk result (λ verified. verified ≡ modules.lowered source.now) }
    ensures meaning { IfOk result (λ verified. (bytes : List ℕ) → meaning verified bytes ≡ run source.now bytes) }
{
    every_module_keeps_the_rules();
    every_module_means_its_source();
    // What was checked is an accepted source.
    let _tree = source.tree();
    let module = lowered(alloc, source)?;
    kept(alloc, module)
}
