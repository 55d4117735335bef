//! The state of a core.

use crate::member::MemberState;
use sqlite_items::Items;

pub type CellList = Items<u64>;

/// How often the units of a phase were claimed, how many are finished, and how many members have arrived behind them.
#[derive(Clone, Copy, Debug, PartialEq, Eq)]
pub struct Numbers {
    pub claimed: u64,
    pub finished: u64,
    pub arrived: u64,
}

/// The four words of a phase. The key is the least of its faults, or the greatest `u64` for none.
#[derive(Clone, Copy, Debug, PartialEq, Eq)]
pub struct Counts {
    pub numbers: Numbers,
    pub key: u64,
}

pub type CountsList = Items<Counts>;

/// A member: its phase, its state there, and whether it has seen the barrier full.
#[derive(Clone, Copy, Debug, PartialEq, Eq)]
pub struct Member {
    pub phase: u64,
    pub state: MemberState,
    pub full: bool,
}

pub type MemberList = Items<Member>;

/// The cells, the words of each phase, and the members.
#[derive(Drop)]
pub struct CoreState {
    pub cells: CellList,
    pub counts: CountsList,
    pub members: MemberList,
}
