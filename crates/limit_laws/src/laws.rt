//! What holds of every lowered source.

ghost use Rattle.limit_laws.specs.Laws.{EveryOpKeepsTheLimits};

/// Each op of the module of an accepted source keeps the limits.
pub fn every_lowered_op_keeps_the_limits()
    ensures { EveryOpKeepsTheLimits }
{}
