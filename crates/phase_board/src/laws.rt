//! The law of a board, as the contract of a function that does nothing.

ghost use Rattle.atomic_table.specs.Table.{State};
ghost use Rattle.phase_board.specs.declared.plays.Run.{Run};
ghost use Rattle.phase_board.specs.declared.plays.View.{View};
ghost use Rattle.phase_board.specs.Rule.{S, Kept};
ghost use Rattle.phase_board.specs.Moments.{IsSoundMoment};

/// The rule of a board's table holds between any two steps, and wherever it holds, the words and the passes are a sound core.
pub fn every_moment()
    ensures { (r : Run) (s : State S View) → Kept r s → IsSoundMoment r s }
{}
