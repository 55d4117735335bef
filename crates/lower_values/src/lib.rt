//! Lowering of expressions to ops. Read `specs/Lowerings.antt` first, then `Values.antt`.
#![tactic(auto)]

mod appending;
mod elementals;
mod folding;
mod names;
mod operand;
mod references;
mod values;

pub use appending::{act, begin, give};
pub use elementals::number_constant;
pub use names::{NamedTruth, Names, Variable};
pub use operand::{Operand, Subscript};
pub use references::{NOTHING, boxed, declare_of};
pub use values::{part, stride, value};
