//! A program as a list of ops, and how such a list is built.
//!
//! Read `specs/Numbers.antt` first (which numbers the values have), then `specs/Rules.antt` (which modules are right).
#![tactic(auto)]

mod around;
mod builder;
mod elems;
mod entered;
mod kinds;
mod op;
mod sorts;
mod what;

pub use builder::Builder;
pub use elems::{
    elem_of, operand_elem, rank_of, reduced_elem, result_elem, same_elem, total_elem, unary_elem,
};
pub use kinds::{Elem, ValueKind};
pub use op::{Module, Op, OpList, Region, RegionList, ValueId, ValueIdList};
pub use sorts::{
    has_body, has_vector, is_apply, is_assign, is_declare, is_elemental, is_elsewhere, is_forall,
    is_forall_mask, is_operation, is_statement, is_value_op, is_where, is_whole_op, is_yield,
    is_yield_element, masks, shares,
};
pub use what::{
    BoundWord, NameList, Reduction, SubKind, SubKindList, ValueBinary, ValueUnary, What,
};
