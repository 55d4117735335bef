//! A module with the tables that the rules look up.

ghost use Rattle.hlfir_ops.specs.Rules.{facts_of};
ghost use Rattle.rule_tests.specs.Uses.{AreUses};

use hlfir_ops::Module;
use rule_tests::Value;
use std::alloc::Global;

/// A module, its values by their numbers, and how often each is used.
#[derive(Debug, Drop)]
pub struct Look<'a> {
    pub alloc: Global,
    pub module: &'a Module,
    pub table: Vec<Value>,
    pub uses: Vec<u8>,
    ghost used: { AreUses uses.items (facts_of module.now).used },
}
