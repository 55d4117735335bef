//! All statements of a source.
ghost use Rattle.std.specs.Prelude.{◌≡◌, ◌∷◌, ◌<◌, [], ℕ, Option, IfOk, IfErr, IfSome, IfNone, MatchOption, length};
ghost use Rattle.ws_tree.specs.declared.stmt.Tree.{Tree};
ghost use Rattle.ws_parse.specs.declared.walk.ParseEnd.TheVariants.{Memory};
ghost use Rattle.ws_parse.specs.declared.walk.ParseEnd.TheVariants as parse_end;
ghost use Rattle.ws_parse.specs.Blocks as blocks;
ghost use Rattle.ws_parse.specs.States as states;

use crate::advance::line_of;
use crate::frame::State;
use crate::place::{Naming, Place};
use crate::step::step;
use crate::walk::{ParseEnd, Walked};
use sqlite_items::Items;
use std::alloc::{AllocError, AllocFailed, Global};
use ws_base::{Name, Refusal, RefusalKind};
use ws_lex::{Token, TokenKind, TokenList};
use ws_tree::Tree;

fn is_end(what: &TokenKind) -> bool
    ensures { result ≡ blocks.is_end what.now }
{
    matches!(what, TokenKind::End)
}

/// How many tokens the first statement has; none where none is left.
fn first_length(tokens: &[Token]) -> usize
    ensures { result ≡ blocks.first_length tokens.now }
{
    for (at, token) in tokens.iter().enumerate() {
        if is_end(&token.what) {
            return at;
        }
        if token.ends {
            return at + 1;
        }
    }
    tokens.len()
}

/// The tokens of the first statement, and what follows them.
fn next_run(tokens: &[Token]) -> Option<(&[Token], &[Token])>
    ensures some { IfSome result (λ r. blocks.runs tokens.now ≡ r.0.now ∷ blocks.runs r.1.now) }
    ensures shorter { IfSome result (λ r. length r.1.now < length tokens.now) }
    ensures none { IfNone result (blocks.runs tokens.now ≡ []) }
{
    let size = first_length(tokens);
    if size == 0 {
        return None;
    }
    Some(tokens.split_at(size))
}

fn begun(alloc: Global) -> State
    ensures { result ≡ states.begun }
{
    State {
        place: Place::Head,
        here: Items::new(alloc),
        frames: Items::new(alloc),
        naming: Naming::Unnamed,
        decls: Items::new(alloc),
    }
}

fn name_of(alloc: Global, naming: Naming) -> Result<Name, AllocError>
    ensures { IfOk result (λ x. x ≡ blocks.name_of naming) }
{
    match naming {
        Naming::Called(name) => Ok(name),
        _ => Name::from_str(alloc, "main"),
    }
}

fn is_after(place: Place) -> bool
    ensures { result ≡ states.is_after place }
{
    matches!(place, Place::After)
}

/// Nothing has to follow.
fn is_over(state: &State) -> bool
    ensures { result ≡ states.is_over state.now }
{
    is_after(state.place) && state.frames.is_empty()
}

/// The tree, if the unit is whole.
fn whole(alloc: Global, state: State) -> Result<Option<Tree>, AllocError>
    ensures { IfOk result (λ o. states.IsWhole state o) }
{
    if !is_over(&state) {
        return Ok(None);
    }
    let State {
        here,
        naming,
        decls,
        ..
    } = state;
    Ok(Some(Tree {
        name: name_of(alloc, naming)?,
        decls,
        body: here,
    }))
}

/// What the statements are, taken one after the other.
fn walk(alloc: Global, tokens: &[Token]) -> Result<Walked, AllocError>
    ensures { IfOk result (λ w. blocks.IsWalked (blocks.runs tokens.now) w) }
{
    let mut state = begun(alloc);
    let mut rest = tokens;
    'runs: while let Some((run, after)) = next_run(rest) {
        match step(alloc, state, run)? {
            None => return Ok(Walked::Bad(line_of(run))),
            Some(next) => state = next,
        }
        rest = after;
    }
    match whole(alloc, state)? {
        Some(tree) => Ok(Walked::Unit(tree)),
        None => Ok(Walked::Early),
    }
}

/// The line of an early end.
fn end_line(tokens: &[Token]) -> u32
    ensures { result ≡ blocks.end_line tokens.now }
{
    let mut line = 1;
    for token in tokens {
        line = token.line;
        if is_end(&token.what) {
            return line;
        }
    }
    line
}

impl From<AllocError> for ParseEnd {
    ghost from_gives = { λ _ e. e ≡ Memory };

    fn from(_: AllocError) -> ParseEnd {
        ParseEnd::Memory
    }
}

fn refused(line: u32) -> ParseEnd
    ensures { result ≡ parse_end.Refused (states.syntax line) }
{
    ParseEnd::Refused(Refusal {
        line,
        kind: RefusalKind::Syntax,
    })
}

/// The tree that the grammar gives for the tokens of a source, of which there is at most one.
/// `Refused` has kind Syntax. Its line is that of the first statement that is not of the grammar in its place, from 1. Where there is none and the source ends too early, it is the line of `End`, in a list without it that of the last token, and 1 in an empty list.
pub fn parse(alloc: Global, tokens: &TokenList) -> Result<Tree, ParseEnd>
    ensures ok { IfOk result (λ t. blocks.IsUnit (blocks.runs tokens.now) t) }
    ensures only { IfOk result (λ t. (u : Tree) → blocks.IsUnit (blocks.runs tokens.now) u → u ≡ t) }
    ensures refused { IfErr result (λ e. blocks.IsParseEnd tokens.now e) }
{
    let tokens = tokens.as_slice();
    match walk(alloc, tokens)? {
        Walked::Unit(tree) => Ok(tree),
        Walked::Bad(line) => Err(refused(line)),
        Walked::Early => Err(refused(end_line(tokens))),
    }
}

fn bad_line(walked: Walked) -> Option<u32>
    ensures { result ≡ blocks.bad_line walked }
{
    match walked {
        Walked::Bad(line) => Some(line),
        _ => None,
    }
}

/// The line of the first statement that is not of the grammar in its place; None exactly where there is none. An early end is no fault here.
pub fn parse_front(alloc: Global, tokens: &TokenList) -> Result<Option<u32>, AllocError>
    ensures { IfOk result (λ o. blocks.IsFront tokens.now o) }
{
    Ok(bad_line(walk(alloc, tokens.as_slice())?))
}
