//! The check of a module.

ghost use Rattle.std.specs.Prelude.{◌≡◌, IfOk, MatchResult};
ghost use Rattle.hlfir_ops.specs.Rules.{facts_of, KeepsRules};
ghost use Rattle.hlfir_verify.specs.Looks.{facts_seen};
ghost use Rattle.hlfir_verify.specs.Walks.{Ends};

use crate::ending::VerifyEnd;
use crate::going::Walk;
use crate::keeping::Verified;
use crate::look::Look;
use crate::walk::walk_ops;
use hlfir_ops::Module;
use rule_limits::{OUTERMOST, ops_in_order};
use rule_tests::{uses_of, values_of};
use std::alloc::{AllocError, Global};

/// The module with its tables.
fn look_at(alloc: Global, module: &Module) -> Result<Look, AllocError>
    ensures { IfOk result (λ look. facts_seen look ≡ facts_of «module».now) }
{
    let ops = module.ops.as_slice();
    let table = values_of(alloc, ops)?;
    let order = ops_in_order(alloc, ops)?;
    let uses = uses_of(alloc, table.len(), order.as_slice())?;
    Ok(Look {
        alloc,
        module,
        table,
        uses,
    })
}

/// Whether the module breaks a rule.
fn check(look: &Look, module: &Module) -> Result<(), VerifyEnd>
    requires { facts_seen look.now ≡ facts_of «module».now }
    ensures { MatchResult result (λ done. KeepsRules «module».now) (Ends «module».now) }
{
    let mut walk = Walk {
        place: 0,
        number: 0,
        defined: Vec::new(look.alloc),
    };
    walk_ops(module.ops.as_slice(), look, &mut walk, OUTERMOST)
}

/// The module, where it breaks no rule. Otherwise the first op in printed order that breaks one, and the least rule that it breaks.
pub fn verify(alloc: Global, module: Module) -> Result<Verified, VerifyEnd>
    ensures { MatchResult result (λ verified. (verified ≡ «module») × KeepsRules «module») (Ends «module») }
{
    check_module(alloc, &module)?;
    Ok(Verified { module })
}

fn check_module(alloc: Global, module: &Module) -> Result<(), VerifyEnd>
    ensures { MatchResult result (λ done. KeepsRules «module».now) (Ends «module».now) }
{
    match look_at(alloc, module) {
        Ok(look) => check(&look, module),
        Err(_) => Err(VerifyEnd::Memory),
    }
}
