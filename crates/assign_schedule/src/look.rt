//! A module as it is looked at.

ghost use Rattle.alias_test.specs.Givers.{ops_at};
ghost use Rattle.assign_schedule.specs.Parts.{HaveOneRank};

use hlfir_ops::Op;
use std::alloc::Global;

/// The values of a module that keeps the rules, by the ops that give them.
#[derive(Debug, Drop)]
pub struct Look<'a> {
    pub alloc: Global,
    pub givers: Vec<&'a Op>,
    ghost ranked: { HaveOneRank (ops_at givers.items) },
}
