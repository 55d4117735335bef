//! Where closed boards go.

ghost use Rattle.std.specs.Prelude.{◌≡◌, [], ◌∷◌, ◌++◌, List, length, Option, None, Some, IfNone, IfSome, IfErr, OnOk};
ghost use Rattle.phase_board.specs.declared.close.ClosedBoard.{ClosedBoard as Closed};
ghost use Rattle.phase_board.specs.Logs.{told_then};

use crate::close::ClosedBoard;
use std::alloc::Global;
use std::marker::Model;

/// A log that takes the boards of regions as they are closed.
pub trait BoardLog {
    /// The boards that it took, where it tells them.
    ghost told: { Self → Option (List Closed) };

    /// Takes the board, or gives it back for want of memory.
    fn closed(&mut self, board: ClosedBoard) -> Option<ClosedBoard>
        ensures appended { IfNone result (told self.new ≡ told_then (told self.old) board) }
        ensures back { IfSome result (λ same. (same ≡ board) × (told self.new ≡ told self.old)) };
}

/// Closed boards, in the order in which they came.
#[derive(Drop)]
pub struct BoardList {
    boards: Vec<ClosedBoard>,
}

impl Model for BoardList {
    ghost use Rattle.std.specs.Prelude.{List};
    ghost use Rattle.phase_board.specs.declared.close.ClosedBoard.{ClosedBoard as Closed};

    ghost Value = { List Closed };

    ghost view = { λ l. l.boards.items };
}

impl BoardList {
    pub fn as_slice(&self) -> &[ClosedBoard]
        ensures { result.now ≡ self.now }
    {
        self.boards.as_slice()
    }

    pub fn len(&self) -> usize
        ensures { result ≡ length self.now }
    {
        self.boards.len()
    }

    fn push(&mut self, board: ClosedBoard) -> Result<(), ClosedBoard>
        ensures pushed { OnOk result (self.new ≡ self.old ++ board ∷ []) }
        ensures back { IfErr result (λ same. (same ≡ board) × (self.new ≡ self.old)) }
    {
        match self.boards.push(board) {
            Ok(()) => Ok(()),
            Err(refused) => Err(refused.value),
        }
    }
}

/// A log that keeps all boards.
#[derive(Drop)]
pub struct MemLog {
    boards: BoardList,
}

impl Model for MemLog {
    ghost use Rattle.std.specs.Prelude.{List};
    ghost use Rattle.phase_board.specs.declared.close.ClosedBoard.{ClosedBoard as Closed};

    ghost Value = { List Closed };

    ghost view = { λ l. l.boards };
}

impl MemLog {
    /// No boards. Takes no memory.
    pub fn new(alloc: Global) -> MemLog
        ensures { result ≡ [] }
    {
        MemLog {
            boards: BoardList {
                boards: Vec::new(alloc),
            },
        }
    }

    pub fn boards(&self) -> &BoardList
        ensures { result.now ≡ self.now }
    {
        &self.boards
    }
}

impl BoardLog for MemLog {
    ghost told = { λ l. Some l };

    fn closed(&mut self, board: ClosedBoard) -> Option<ClosedBoard> {
        match self.boards.push(board) {
            Ok(()) => None,
            Err(back) => Some(back),
        }
    }
}

/// A log that drops each board, and tells nothing.
#[derive(Drop)]
pub struct NoLog;

impl BoardLog for NoLog {
    ghost told = { λ _. None };

    fn closed(&mut self, _board: ClosedBoard) -> Option<ClosedBoard> {
        None
    }
}
