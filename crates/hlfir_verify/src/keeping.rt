//! Modules that keep the rules.

use hlfir_ops::Module;
use std::marker::Model;

/// A module that breaks no rule.
#[derive(Debug, Drop)]
pub struct Verified {
    pub(crate) module: Module,
}

impl Model for Verified {
    ghost use Rattle.hlfir_ops.specs.declared.op.Module.{Module as Module'};
    ghost use Rattle.hlfir_ops.specs.Rules.{KeepsRules};
    ghost use Rattle.hlfir_ops.specs.contracts.op.Op as op;
    ghost use Rattle.hlfir_ops.specs.contracts.op.Region as region;
    ghost use Rattle.std.specs.Coded.{codes};

    ghost Value = { Module' };

    ghost coded = { Prim.hlevel (codes, op.the_row.coded, region.the_row.coded) };

    ghost view = { λ v. v.module };

    ghost invariant = { λ v. KeepsRules v.module };
}

impl Verified {
    ghost use Rattle.std.specs.Prelude.{◌≡◌};
    ghost use Rattle.hlfir_ops.specs.Rules.{KeepsRules};

    /// The module.
    pub fn module(&self) -> &Module
        ensures same { result.now ≡ self.now }
        ensures kept { KeepsRules self.now }
    {
        &self.module
    }
}
