//! What every stage of the compiler names: exact arithmetic, operators, faults, refusals and names. Read specs/Numbers.antt
//! first (what each operator, call and reduction gives).
#![tactic(auto)]

mod arith;
mod fault;
mod laws;
mod name;
mod op;
mod refusal;
#[cfg(test)]
mod tests;

pub use arith::{
    abs32, add32, div32, mod32, modulo32, mul32, neg32, pow32, reciprocal_power, sub32,
};
pub use fault::{Fault, FaultName, Trouble};
pub use laws::{
    any_order_gives_the_same_values, each_item_has_its_own_value, modulo_has_the_divisors_sign,
    the_first_fault_counts,
};
pub use name::Name;
pub use op::{BinOp, CallWord, UnOp};
pub use refusal::{Refusal, RefusalKind};
