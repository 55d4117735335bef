//! What happens in a unit.

use ws_base::FaultName;

/// What a unit does to the cells and to the key of its phase.
#[derive(Clone, Copy, Debug, PartialEq, Eq)]
pub enum Effect {
    /// The cell gets the value.
    Store(u64, u64),
    /// The cell gets the lesser of its value and this one.
    Least(u64, u64),
    /// The key, at which the strand stops.
    Fault(u64),
}

/// What one op gives: the next register, the end of its act, a fault, or an effect on a cell.
#[derive(Clone, Copy, Debug, PartialEq, Eq)]
pub enum Turn {
    Next(i64),
    Shut,
    Fails(FaultName),
    Does(Effect),
}
