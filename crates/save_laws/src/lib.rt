//! Loops that save values and targets in temporaries, and loops that assign from them, whatever the right side reads. Read
//! `specs/Saves.antt` and `specs/Values.antt`, then `specs/Pairs.antt`.
#![tactic(auto)]

mod laws;

pub use laws::{
    assigning_law, pair_law, saving_law, value_assigning_law, value_pair_law, value_saving_law,
};
