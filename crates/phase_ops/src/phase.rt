//! Phases, and the ops of their acts.

use sqlite_items::Items;
use ws_base::{CallWord, FaultName, Name};

/// A run of cells. Cells count from 0.
#[derive(Clone, Copy, Debug, PartialEq, Eq)]
pub struct Range {
    pub first: u32,
    pub cells: u32,
}

pub type RangeList = Items<Range>;

/// Which cells belong to what: to each variable, to the descriptor of each allocatable, to the values of stage 1, to each
/// temporary, and to the marks of a check for targets that are named twice.
#[derive(Drop)]
pub struct Layout {
    pub vars: RangeList,
    pub boxes: RangeList,
    pub slots: Range,
    pub temps: RangeList,
    pub marks: Range,
}

/// An operation on one value.
#[derive(Clone, Copy, Debug, PartialEq, Eq)]
pub enum OneOp {
    Minus,
    Plus,
    Not,
    Abs,
}

/// An operation on two values.
#[derive(Clone, Copy, Debug, PartialEq, Eq)]
pub enum ScalarOp {
    Add,
    Sub,
    Mul,
    Div,
    Pow,
    Eq,
    Ne,
    Lt,
    Le,
    Gt,
    Ge,
    And,
    Or,
    Eqv,
    Neqv,
    Mod,
    Modulo,
    Min,
    Max,
}

/// A number that is known, or the one that a cell holds when it is asked for.
#[derive(Clone, Copy, Debug, PartialEq, Eq)]
pub enum Source {
    Fixed(i64),
    Cell(u32),
}

/// A register times a step.
#[derive(Clone, Copy, Debug, PartialEq, Eq)]
pub struct Term {
    pub reg: u32,
    pub step: Source,
}

pub type TermList = Items<Term>;

/// The cell whose number is the base and the terms, added up. A negative sum names no cell.
#[derive(Drop)]
pub struct Address {
    pub base: Source,
    pub terms: TermList,
}

/// One op. It writes the register whose number is its own in the act, from 0, and names registers of earlier ops.
#[derive(Drop)]
pub enum Micro {
    Fixed(i64),
    /// The number of the iteration, from 0.
    Position,
    /// `reg / by`, and its remainder by `modulus`; both truncate toward zero.
    Digit {
        reg: u32,
        by: Source,
        modulus: Source,
    },
    Load(Address),
    Unary(OneOp, u32),
    Binary(ScalarOp, u32, u32),
    /// The second register where the first is true, else the third.
    Select(u32, u32, u32),
    /// Where the register is false, the act ends here. Writes 0.
    Gate(u32),
    /// Where the register is true, the strand ends with this fault. Writes 0.
    FailIf(FaultName, u32),
    /// Writes 0 into its own register.
    Store(Address, u32),
    /// The cell becomes the lesser of its value and the register's, compared as `u64`. Writes 0 into its own register.
    Least(Address, u32),
}

pub type MicroList = Items<Micro>;

/// Ops that run in order at each iteration. A fault of theirs has the act's line, and the element 0 where the act is
/// `whole`, else the number of the iteration, from 1.
#[derive(Drop)]
pub struct Act {
    pub line: u32,
    pub ops: MicroList,
    pub whole: bool,
}

pub type ActList = Items<Act>;

/// What a phase is for. Temporaries count from 1.
#[derive(Drop)]
pub enum Label {
    Stage,
    Vector {
        temp: u32,
    },
    Mask {
        temp: Option<u32>,
    },
    Save {
        temp: u32,
        addresses: Option<u32>,
    },
    Assign {
        name: Name,
        from: Option<u32>,
        at: Option<u32>,
    },
    Clear,
    Mark {
        temp: u32,
    },
    Check {
        temp: u32,
    },
}

/// The work between two barriers.
#[derive(Drop)]
pub enum Phase {
    /// The acts, once.
    Set {
        line: u32,
        label: Label,
        acts: ActList,
    },
    /// The acts at each of `count` iterations.
    Loop {
        line: u32,
        label: Label,
        count: Source,
        acts: ActList,
    },
    /// The act at each of `count` iterations, whose last register is the iteration's value. Each unit stores the partial of
    /// its values: the unit `u` in the cell `first + u`.
    Part {
        line: u32,
        count: Source,
        act: Act,
        kind: CallWord,
        temp: u32,
        first: u32,
    },
    /// Merges the partials that the `Part` before it has stored, and stores the total in the cell `slot`.
    Join {
        line: u32,
        count: Source,
        kind: CallWord,
        temp: u32,
        first: u32,
        slot: u32,
    },
}

pub type PhaseList = Items<Phase>;

/// The phases of a region, or of one outermost statement outside regions.
#[derive(Drop)]
pub struct Group {
    pub line: u32,
    pub shared: bool,
    pub phases: PhaseList,
}

pub type GroupList = Items<Group>;
