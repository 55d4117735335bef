//! What a run of ops that stores nothing does inside an act, and moves as such runs. Read `specs/Segments.antt`, then
//! `specs/Compiled.antt`.
#![tactic(auto)]

mod laws;

pub use laws::segment_law;
