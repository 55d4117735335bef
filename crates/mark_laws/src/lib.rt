//! A saved step whose targets may repeat: save, clear, mark, check and assign, five phases. Read `specs/Marks.antt` and
//! `specs/Acts.antt`, then `specs/Standard.antt` and `specs/Stepped.antt`.
#![tactic(auto)]

mod laws;

pub use laws::{
    acts_law, as_replaced_law, checking_law, clearing_law, five_law, given_law, marking_law,
    replace_law, saved_step_law, standard_law, step_stands_law,
};
