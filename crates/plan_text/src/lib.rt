//! What is decided for a module, as text. Read `specs/ScheduleText.antt` first.
#![tactic(auto)]

mod scheduled;
#[cfg(test)]
mod tests;

pub use scheduled::schedule_text;
