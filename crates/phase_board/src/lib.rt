//! A board of atomic words, each of whose steps is a step of the core.
//!
//! Read `specs/Rule.antt` first (what the words and the passes tell), then `specs/Passes.antt`.
#![tactic(auto)]

mod board;
mod chunks;
mod close;
pub mod laws;
mod log;
mod memory;
mod open;
mod plays;
mod steps;

pub use board::{Board, Pass, Spare, Words};
pub use close::ClosedBoard;
pub use log::{BoardList, BoardLog, MemLog, NoLog};
pub use memory::Memory;
pub use open::PrepareEnd;
pub use plays::{Keeping, Role, Run, View};
pub use steps::{Seen, Verdict};
