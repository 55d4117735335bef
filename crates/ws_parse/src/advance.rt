//! One statement more.
ghost use Rattle.std.specs.Prelude.{◌≡◌, [], IfOk, MatchOption};
ghost use Rattle.ws_parse.specs.Blocks as blocks;
ghost use Rattle.ws_parse.specs.States as states;

use crate::frame::{Frame, Part, State};
use crate::place::{Move, Naming, Opening, Place, is_shared};
use sqlite_items::Items;
use std::alloc::{AllocError, Global};
use ws_base::Name;
use ws_lex::Token;
use ws_stmt::Block;
use ws_tree::{Body, DeclList, Else, Expr, Index, Stmt};

/// The line of a statement.
pub fn line_of(run: &[Token]) -> u32
    ensures { result ≡ blocks.line_of run.now }
{
    match run.first() {
        None => 1,
        Some(first) => first.line,
    }
}

fn one(alloc: Global, line: u32, body: Body) -> Result<Items<Stmt>, AllocError>
    ensures { IfOk result (λ ss. ss ≡ blocks.one line body) }
{
    let mut block = Items::new(alloc);
    block.push(Stmt { line, body })?;
    Ok(block)
}

fn after(alloc: Global, line: u32, body: Option<Body>) -> Result<Items<Stmt>, AllocError>
    ensures { IfOk result (λ ss. ss ≡ blocks.after line body) }
{
    match body {
        None => Ok(Items::new(alloc)),
        Some(body) => one(alloc, line, body),
    }
}

fn enters(block: Block) -> bool
    ensures { result ≡ blocks.enters block }
{
    matches!(block, Block::ParallelWorkshare | Block::Workshare)
}

fn inside(place: Place, block: Block) -> Place
    ensures { result ≡ blocks.inside place block }
{
    Place::In(block, is_shared(place) || enters(block), false)
}

fn beyond(place: Place, mask: &Option<Expr>) -> Place
    ensures { result ≡ blocks.beyond place mask.now }
{
    match place {
        Place::In(block, shared, _) => Place::In(block, shared, mask.is_none()),
        other => other,
    }
}

fn else_mask(mask: Option<Expr>, odd: bool) -> Option<Expr>
    ensures { result ≡ blocks.else_mask mask odd }
{
    if odd { Some(Expr::TooDeep) } else { mask }
}

fn else_front(alloc: Global, line: u32, odd: bool) -> Result<Items<Stmt>, AllocError>
    ensures { IfOk result (λ ss. ss ≡ blocks.else_front line odd) }
{
    if odd {
        one(alloc, line, Body::Unsupported)
    } else {
        Ok(Items::new(alloc))
    }
}

fn within(alloc: Global, depth: usize, line: u32, body: Body) -> Result<Items<Stmt>, AllocError>
    ensures { IfOk result (λ ss. ss ≡ blocks.within depth line body) }
{
    if depth < 64 {
        one(alloc, line, body)
    } else {
        one(alloc, line, Body::TooDeep)
    }
}

/// The statements that a block stands as.
fn built(
    alloc: Global,
    depth: usize,
    line: u32,
    opening: Opening,
    block: Items<Stmt>,
    rest: Items<Else>,
) -> Result<Items<Stmt>, AllocError>
    ensures { IfOk result (λ ss. ss ≡ blocks.built depth line opening block rest) }
{
    match opening {
        Opening::Do(index) => {
            let Index { name, l, u, s } = index;
            within(
                alloc,
                depth,
                line,
                Body::Loop {
                    var: name,
                    l,
                    u,
                    s,
                    block,
                },
            )
        }
        Opening::Where(mask) => within(alloc, depth, line, Body::Masked { mask, block, rest }),
        Opening::Forall(indexes, mask) => within(
            alloc,
            depth,
            line,
            Body::Forall {
                indexes,
                mask,
                block,
            },
        ),
        Opening::Region => within(alloc, depth, line, Body::Shared { block }),
        Opening::Parallel => {
            if depth < 64 {
                Ok(block)
            } else {
                one(alloc, line, Body::TooDeep)
            }
        }
        Opening::Lost(body) => one(alloc, line, body),
    }
}

/// The part that an ELSEWHERE begins, after these statements.
fn next_part(
    alloc: Global,
    part: Part,
    here: Items<Stmt>,
    line: u32,
    mask: Option<Expr>,
) -> Result<Part, AllocError>
    ensures { IfOk result (λ p. p ≡ states.next_part part here line mask) }
{
    match part {
        Part::First => Ok(Part::Later(here, Items::new(alloc), line, mask)),
        Part::Later(first, done, old_line, old_mask) => {
            let mut done = done;
            done.push(Else {
                line: old_line,
                mask: old_mask,
                block: here,
            })?;
            Ok(Part::Later(first, done, line, mask))
        }
    }
}

/// The statements and the ELSEWHEREs of a block that ends after these statements.
fn ended(
    alloc: Global,
    part: Part,
    here: Items<Stmt>,
) -> Result<(Items<Stmt>, Items<Else>), AllocError>
    ensures first { IfOk result (λ r. r.0 ≡ states.first_of part here) }
    ensures elses { IfOk result (λ r. r.1 ≡ states.elses_of part here []) }
{
    match part {
        Part::First => Ok((here, Items::new(alloc))),
        Part::Later(first, done, line, mask) => {
            let mut done = done;
            done.push(Else {
                line,
                mask,
                block: here,
            })?;
            Ok((first, done))
        }
    }
}

/// The place after a statement or block that is whole.
fn settled(place: Place, outermost: bool) -> Place
    ensures { result ≡ states.settled place outermost }
{
    if outermost { Place::Statements } else { place }
}

fn fits(naming: &Naming, name: &Option<Name>) -> bool
    ensures { result ≡ blocks.fits naming.now name.now }
{
    match name {
        None => true,
        Some(name) => match naming {
            Naming::Called(called) => called == name,
            Naming::Unread => true,
            Naming::Unnamed => false,
        },
    }
}

/// The state with one statement more at its place.
fn with_stmt(state: State, line: u32, body: Body, place: Place) -> Result<State, AllocError>
    ensures { IfOk result (λ s. s ≡ states.with_stmt state line body place) }
{
    let State {
        here,
        frames,
        naming,
        decls,
        ..
    } = state;
    let mut here = here;
    here.push(Stmt { line, body })?;
    Ok(State {
        place,
        here,
        frames,
        naming,
        decls,
    })
}

/// The state in the block that begins.
fn opened(
    alloc: Global,
    state: State,
    line: u32,
    block: Block,
    opening: Opening,
) -> Result<State, AllocError>
    ensures { IfOk result (λ s. s ≡ states.opened state line block opening) }
{
    let State {
        place,
        here,
        frames,
        naming,
        decls,
    } = state;
    let outermost = frames.is_empty();
    let mut frames = frames;
    frames.push(Frame {
        line,
        opening,
        place: settled(place, outermost),
        before: here,
        part: Part::First,
    })?;
    Ok(State {
        place: inside(place, block),
        here: Items::new(alloc),
        frames,
        naming,
        decls,
    })
}

/// The block, where a further part of it begins.
fn next_frame(
    alloc: Global,
    frame: Frame,
    here: Items<Stmt>,
    line: u32,
    mask: Option<Expr>,
) -> Result<Frame, AllocError>
    ensures { IfOk result (λ f. f ≡ states.renewed frame here line mask) }
{
    let Frame {
        line: begun,
        opening,
        place,
        before,
        part,
    } = frame;
    let part = next_part(alloc, part, here, line, mask)?;
    Ok(Frame {
        line: begun,
        opening,
        place,
        before,
        part,
    })
}

/// The state where a further part of the innermost block begins; None where no block is open.
fn renewed(
    alloc: Global,
    state: State,
    line: u32,
    mask: Option<Expr>,
    odd: bool,
) -> Result<Option<State>, AllocError>
    ensures { IfOk result (λ o. MatchOption o (state.frames ≡ []) (λ s. states.Renewed state line mask odd s)) }
{
    let front = else_front(alloc, line, odd)?;
    let place = beyond(state.place, &mask);
    let State {
        here,
        frames,
        naming,
        decls,
        ..
    } = state;
    let mut frames = frames;
    let Some(frame) = frames.pop() else {
        return Ok(None);
    };
    frames.push(next_frame(alloc, frame, here, line, else_mask(mask, odd))?)?;
    Ok(Some(State {
        place,
        here: front,
        frames,
        naming,
        decls,
    }))
}

/// The state after the innermost block; None where no block is open.
fn closed(
    alloc: Global,
    state: State,
    line: u32,
    body: Option<Body>,
) -> Result<Option<State>, AllocError>
    ensures { IfOk result (λ o. MatchOption o (state.frames ≡ []) (λ s. states.Ended state line body s)) }
{
    let State {
        here,
        frames,
        naming,
        decls,
        ..
    } = state;
    let mut frames = frames;
    let Some(frame) = frames.pop() else {
        return Ok(None);
    };
    let Frame {
        line: begun,
        opening,
        place,
        before,
        part,
    } = frame;
    let (block, rest) = ended(alloc, part, here)?;
    let mut more = built(alloc, frames.len(), begun, opening, block, rest)?;
    more.append(after(alloc, line, body)?)?;
    let mut here = before;
    here.append(more)?;
    Ok(Some(State {
        place,
        here,
        frames,
        naming,
        decls,
    }))
}

fn when(holds: bool, state: State) -> Option<State>
    ensures { result ≡ states.when holds state }
{
    if holds { Some(state) } else { None }
}

fn at_place(state: State, place: Place) -> State
    ensures { result ≡ states.at_place state place }
{
    let State {
        here,
        frames,
        naming,
        decls,
        ..
    } = state;
    State {
        place,
        here,
        frames,
        naming,
        decls,
    }
}

fn with_name(state: State, naming: Naming) -> State
    ensures { result ≡ states.with_name state naming }
{
    let State {
        here,
        frames,
        decls,
        ..
    } = state;
    State {
        place: Place::Named,
        here,
        frames,
        naming,
        decls,
    }
}

fn with_decls(state: State, more: DeclList) -> Result<State, AllocError>
    ensures { IfOk result (λ s. s ≡ states.with_decls state more) }
{
    let State {
        here,
        frames,
        naming,
        decls,
        ..
    } = state;
    let mut decls = decls;
    decls.append(more)?;
    Ok(State {
        place: Place::Declarations,
        here,
        frames,
        naming,
        decls,
    })
}

/// The state after a statement that does this; None where it is not of the grammar there.
pub fn advance(
    alloc: Global,
    state: State,
    line: u32,
    what: Move,
) -> Result<Option<State>, AllocError>
    ensures { IfOk result (λ o. states.Next state line what o) }
{
    let outermost = state.frames.is_empty();
    match what {
        Move::Idle(body) => {
            let place = state.place;
            Ok(Some(with_stmt(state, line, body, place)?))
        }
        Move::Act(body) => {
            let place = settled(state.place, outermost);
            Ok(Some(with_stmt(state, line, body, place)?))
        }
        Move::Open(block, opening) => Ok(Some(opened(alloc, state, line, block, opening)?)),
        Move::Next(mask, odd) => renewed(alloc, state, line, mask, odd),
        Move::Close(body) => closed(alloc, state, line, body),
        Move::Name(name) => Ok(when(outermost, with_name(state, Naming::Called(name)))),
        Move::NameUnread(body) => {
            let next = with_stmt(state, line, body, Place::Named)?;
            Ok(when(outermost, with_name(next, Naming::Unread)))
        }
        Move::Implicit => Ok(when(outermost, at_place(state, Place::Declarations))),
        Move::Declare(decls) => {
            let next = with_decls(state, decls)?;
            Ok(when(outermost, next))
        }
        Move::LeaveOut => {
            let next = with_stmt(state, line, Body::Unsupported, Place::Declarations)?;
            Ok(when(outermost, next))
        }
        Move::Finish(name) => {
            if fits(&state.naming, &name) {
                Ok(when(outermost, at_place(state, Place::After)))
            } else {
                Ok(None)
            }
        }
        Move::FinishUnread(body) => {
            let next = with_stmt(state, line, body, Place::After)?;
            Ok(when(outermost, next))
        }
    }
}
