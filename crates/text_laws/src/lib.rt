//! Laws of texts of modules.
//!
//! Read `specs/Laws.antt` first (which modules have one text).
#![tactic(auto)]

mod laws;

pub use laws::a_text_stands_for_one_module;
