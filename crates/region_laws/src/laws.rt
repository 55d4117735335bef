//! What the regions of expressions and left sides mean.

ghost use Rattle.region_laws.specs.Laws.{NamesAgree};
ghost use Rattle.world_laws.specs.Meanings.{LeftsMean, ListsMean, ValuesMean};

/// Where a world fits the names, the declares and the constants agree with it.
pub fn names_agree()
    ensures { NamesAgree }
{}

/// The region of an expression that breaks no rule faults as stage 1 of its source does, or yields what has its operands, its values and,
/// where it is a whole array, its bounds. Several scalars fault in order, or leave their values. The region of a left side faults alike, or
/// yields its variable and the target of its source.
pub fn regions_mean()
    ensures expressions { ValuesMean }
    ensures lists { ListsMean }
    ensures left_sides { LeftsMean }
{}
