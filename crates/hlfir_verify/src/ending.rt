//! The rules by name, and how a check ends.

/// A rule of `specs/Rules.antt` of `hlfir_ops`, from the first one to the twelfth.
#[derive(Clone, Copy, Debug, PartialEq, Eq)]
pub enum Rule {
    Defined,
    Operands,
    Result,
    Once,
    Yield,
    Sides,
    Realloc,
    Where,
    Forall,
    Shared,
    Declares,
    Limits,
}

/// Why a module is not verified: the first op in printed order that breaks a rule, counted from 0, and the first rule that it breaks; or
/// want of memory.
#[derive(Clone, Copy, Debug, PartialEq, Eq)]
pub enum VerifyEnd {
    BadOp { op: u32, rule: Rule },
    Memory,
}
