//! One statement more, from its tokens.
ghost use Rattle.std.specs.Prelude.{◌≡◌, IfOk, MatchOption};
ghost use Rattle.ws_parse.specs.States as states;

use crate::advance::{advance, line_of};
use crate::frame::State;
use crate::place::move_of;
use crate::turn::turn_of;
use std::alloc::{AllocError, Global};
use ws_lex::Token;

/// The state after the statement; None exactly where that is not of the grammar there.
pub fn step(alloc: Global, state: State, run: &[Token]) -> Result<Option<State>, AllocError>
    ensures { IfOk result (λ o. MatchOption o (states.Stuck state run.now) (λ s. states.Advances state run.now s)) }
{
    let turn = turn_of(alloc, run)?;
    match move_of(state.place, turn) {
        None => Ok(None),
        Some(what) => advance(alloc, state, line_of(run), what),
    }
}
