//! What a region is told, what a seat knows, and what each step tells.

use atomic_table::{Join, Play, Split, TableRule};
use phase_ops::PhaseList;
use std::snapshot::Snapshot;
use team_core::{CellList, MemberState};

/// What a region is told once.
#[derive(Drop)]
pub struct Run {
    pub phases: PhaseList,
    pub opening: CellList,
    pub team: u32,
    pub chunk: u32,
}

impl Run {
    ghost use Rattle.std.specs.Prelude.{◌≡◌};

    /// The phases and the opening cells.
    pub(crate) fn into_parts(self) -> (PhaseList, CellList)
        ensures { result ≡ (self.phases, self.opening) }
    {
        let Run {
            phases,
            opening,
            team: _,
            chunk: _,
        } = self;
        (phases, opening)
    }
}

/// What a seat is for. No value of it is made.
pub enum Role {
    /// The members from this number on have no seat of their own yet.
    Waiting(u64),
    /// A member at a phase, in a state, with or without the mark.
    Of(u64, u64, MemberState, bool),
    Spent,
}

/// What a seat knows: the last are the words that its member has found at barriers, the last first. No value of it is made.
pub struct View {
    pub run: Run,
    pub role: Role,
    pub sights: CellList,
}

/// There is a list of steps of the core of which the words and the views tell.
pub struct Keeping;

impl TableRule<(), View, Snapshot<Run>> for Keeping {
    ghost use Rattle.phase_board.specs.Rule.{Kept, base_view};

    ghost holds = { λ key s. Kept key.value s };

    ghost first = { λ key. base_view key.value };
}

pub(crate) struct Claim;

impl Play<(), View> for Claim {
    ghost use Rattle.phase_board.specs.Rule.{claimed};

    ghost then = { claimed };
}

pub(crate) struct Act;

impl Play<(), View> for Act {
    ghost use Rattle.phase_board.specs.Rule.{acted};

    ghost then = { acted };
}

pub(crate) struct Finish;

impl Play<(), View> for Finish {
    ghost use Rattle.phase_board.specs.Rule.{finished};

    ghost then = { finished };
}

pub(crate) struct Arrive;

impl Play<(), View> for Arrive {
    ghost use Rattle.phase_board.specs.Rule.{arrived};

    ghost then = { arrived };
}

pub(crate) struct Look;

impl Play<(), View> for Look {
    ghost use Rattle.phase_board.specs.Rule.{looked};

    ghost then = { looked };
}

pub(crate) struct See;

impl Play<(), View> for See {
    ghost use Rattle.phase_board.specs.Rule.{seen};

    ghost then = { seen };
}

pub(crate) struct Judge;

impl Play<(), View> for Judge {
    ghost use Rattle.phase_board.specs.Rule.{judges_play};

    ghost then = { judges_play };
}

pub(crate) struct Cut;

impl Split<View> for Cut {
    ghost use Rattle.phase_board.specs.Rule.{cut_left, cut_right};

    ghost left = { cut_left };

    ghost right = { cut_right };
}

pub(crate) struct Glue;

impl Join<View> for Glue {
    ghost use Rattle.phase_board.specs.Rule.{spent_view};

    ghost both = { λ v w. v };

    ghost spent = { spent_view };
}
