//! What a loop does, for every chunk: what its iterations do in order, with the key of its whole maps. Read `specs/Moves.antt`,
//! `specs/Loops.antt`, then `specs/Laws.antt`.
#![tactic(auto)]

mod laws;

pub use laws::{
    bridge_law, cell_law, chunk_law, direct_law, free_law, join_law, loop_key_law, rows_law,
    set_law,
};
