//! Operators and the words of calls.

/// A sign or `.not.` in front of an operand.
#[derive(Clone, Copy, Debug, PartialEq, Eq)]
pub enum UnOp {
    Minus,
    Plus,
    Not,
}

/// An operator between two operands.
#[derive(Clone, Copy, Debug, PartialEq, Eq)]
pub enum BinOp {
    Add,
    Sub,
    Mul,
    Div,
    Pow,
    Eq,
    Ne,
    Lt,
    Le,
    Gt,
    Ge,
    And,
    Or,
    Eqv,
    Neqv,
}

/// An intrinsic function that a program may call.
#[derive(Clone, Copy, Debug, PartialEq, Eq)]
pub enum CallWord {
    Abs,
    Mod,
    Modulo,
    Min,
    Max,
    Merge,
    Sum,
    Product,
    Minval,
    Maxval,
    Count,
    Any,
    All,
    Size,
    Lbound,
    Ubound,
    Allocated,
}
