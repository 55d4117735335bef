//! Values as text: the items that READ takes, and the report of a run's end. Read specs/Items.antt (where an item begins and ends)
//! and specs/ReportText.antt first (the lines of a report).
#![tactic(auto)]

mod item;
mod printing;
mod reading;
#[cfg(test)]
mod tests;

pub use item::Item;
pub use printing::report;
pub use reading::{next_item, next_line};
