//! FORALL means what its source means. Read `specs/Combined.antt` and `specs/Walks.antt`, then `specs/Laws.antt`.
#![tactic(auto)]

mod laws;

pub use laws::foralls_mean;
