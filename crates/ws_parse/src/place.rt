//! Places in the unit, and what a statement does in each.
ghost use Rattle.std.specs.Prelude.{◌≡◌, Option};
ghost use Rattle.ws_parse.specs.Turns as turns;

use crate::turn::Turn;
use ws_base::Name;
use ws_stmt::{Block, Form, Role, Said};
use ws_tree::{Body, DeclList, Expr, Index, IndexList};

/// Where a statement stands: at the start of the unit, after PROGRAM, among the declarations, among the statements, in a block or after the end. `In` tells the innermost block, whether it is in a workshare region, and whether no ELSEWHERE may follow.
#[derive(Clone, Copy, Debug, PartialEq, Eq)]
pub enum Place {
    Head,
    Named,
    Declarations,
    Statements,
    In(Block, bool, bool),
    After,
}

/// What PROGRAM says of the name. It is unread where PROGRAM is left out.
#[derive(Drop)]
pub enum Naming {
    Unnamed,
    Called(Name),
    Unread,
}

/// What begins a block. One that is lost stands as this body, without what it holds.
#[derive(Drop)]
pub enum Opening {
    Do(Index),
    Where(Expr),
    Forall(IndexList, Option<Expr>),
    Region,
    Parallel,
    Lost(Body),
}

/// What a statement does in its place. `Idle` is left out and does nothing, and `LeaveOut` is a declaration that is left out. `Close` tells what stands for the closing statement, if that is left out.
#[derive(Drop)]
pub enum Move {
    Idle(Body),
    Act(Body),
    Open(Block, Opening),
    Next(Option<Expr>, bool),
    Close(Option<Body>),
    Name(Name),
    NameUnread(Body),
    Implicit,
    Declare(DeclList),
    LeaveOut,
    Finish(Option<Name>),
    FinishUnread(Body),
}

fn is_in_where(body: &Body) -> bool
    ensures { result ≡ turns.is_in_where body.now }
{
    matches!(body, Body::Assign { .. } | Body::Masked { .. })
}

fn is_in_forall(body: &Body) -> bool
    ensures { result ≡ turns.is_in_forall body.now }
{
    matches!(
        body,
        Body::Assign { .. } | Body::Masked { .. } | Body::Forall { .. }
    )
}

fn or_left_out(odd: bool, body: Body) -> Body
    ensures { result ≡ turns.or_left_out odd body }
{
    if odd { Body::Unsupported } else { body }
}

fn when(holds: bool, what: Move) -> Option<Move>
    ensures { result ≡ turns.when holds what }
{
    if holds { Some(what) } else { None }
}

/// A statement that is whole in itself.
fn act(place: Place, odd: bool, body: Body) -> Option<Move>
    ensures { result ≡ turns.act place odd body }
{
    match place {
        Place::After => None,
        Place::In(Block::Where, _, _) => {
            let holds = is_in_where(&body);
            when(holds, Move::Act(or_left_out(odd, body)))
        }
        Place::In(Block::Forall, _, _) => {
            let holds = is_in_forall(&body);
            when(holds, Move::Act(or_left_out(odd, body)))
        }
        Place::In(Block::Parallel, _, _) => Some(Move::Act(Body::Unsupported)),
        _ => Some(Move::Act(or_left_out(odd, body))),
    }
}

/// A workshare region is entered.
pub fn is_shared(place: Place) -> bool
    ensures { result ≡ turns.is_shared place }
{
    match place {
        Place::In(_, shared, _) => shared,
        _ => false,
    }
}

fn among(shared: bool, block: Block) -> Option<bool>
    ensures { result ≡ turns.among shared block }
{
    match block {
        Block::Do | Block::Where | Block::Forall => Some(false),
        Block::ParallelWorkshare | Block::Parallel => Some(shared),
        Block::Workshare => { if shared { Some(true) } else { None } }
    }
}

/// The block may stand there, and whether it is left out there.
fn nests(place: Place, block: Block) -> Option<bool>
    ensures { result ≡ turns.nests place block }
{
    match place {
        Place::After => None,
        Place::In(Block::Where, _, _) => match block {
            Block::Where => Some(false),
            _ => None,
        },
        Place::In(Block::Forall, _, _) => match block {
            Block::Where | Block::Forall => Some(false),
            _ => None,
        },
        Place::In(Block::Parallel, _, _) => match block {
            Block::Workshare => Some(false),
            _ => Some(true),
        },
        _ => among(is_shared(place), block),
    }
}

fn lost(left_out: bool, opening: Opening) -> Opening
    ensures { result ≡ turns.lost left_out opening }
{
    if left_out {
        Opening::Lost(Body::Unsupported)
    } else {
        opening
    }
}

fn open_in(place: Place, block: Block, opening: Opening) -> Option<Move>
    ensures { result ≡ turns.open_in place block opening }
{
    match nests(place, block) {
        None => None,
        Some(left_out) => Some(Move::Open(block, lost(left_out, opening))),
    }
}

fn region(block: Block) -> Opening
    ensures { result ≡ turns.region block }
{
    match block {
        Block::Parallel => Opening::Parallel,
        _ => Opening::Region,
    }
}

fn same_block(a: Block, b: Block) -> bool
    ensures { result ≡ turns.same_block a b }
{
    matches!(
        (a, b),
        (Block::Do, Block::Do)
            | (Block::Where, Block::Where)
            | (Block::Forall, Block::Forall)
            | (Block::ParallelWorkshare, Block::ParallelWorkshare)
            | (Block::Parallel, Block::Parallel)
            | (Block::Workshare, Block::Workshare)
    )
}

/// The block is the innermost one.
fn is_in(block: Block, place: Place) -> bool
    ensures { result ≡ turns.is_in block place }
{
    match place {
        Place::In(inner, _, _) => same_block(block, inner),
        _ => false,
    }
}

fn is_outermost(place: Place) -> bool
    ensures { result ≡ turns.is_outermost place }
{
    matches!(
        place,
        Place::Head | Place::Named | Place::Declarations | Place::Statements
    )
}

fn goes_on(place: Place) -> bool
    ensures { result ≡ turns.goes_on place }
{
    matches!(place, Place::In(Block::Where, _, false))
}

fn may_name(place: Place) -> bool
    ensures { result ≡ turns.may_name place }
{
    matches!(place, Place::Head)
}

fn may_imply(place: Place) -> bool
    ensures { result ≡ turns.may_imply place }
{
    matches!(place, Place::Head | Place::Named)
}

fn may_declare(place: Place) -> bool
    ensures { result ≡ turns.may_declare place }
{
    matches!(place, Place::Head | Place::Named | Place::Declarations)
}

fn said_move(place: Place, odd: bool, form: Form) -> Option<Move>
    ensures { result ≡ turns.said_move place odd form }
{
    match form {
        Form::Program(name) => when(may_name(place), Move::Name(name)),
        Form::ImplicitNone => when(may_imply(place), Move::Implicit),
        Form::Declares(decls) => {
            if odd {
                when(may_declare(place), Move::LeaveOut)
            } else {
                when(may_declare(place), Move::Declare(decls))
            }
        }
        Form::Acts(body) => act(place, odd, body),
        Form::OpensWhere(mask) => open_in(place, Block::Where, lost(odd, Opening::Where(mask))),
        Form::OpensElse(mask) => when(goes_on(place), Move::Next(mask, odd)),
        Form::OpensForall(indexes, mask) => open_in(
            place,
            Block::Forall,
            lost(odd, Opening::Forall(indexes, mask)),
        ),
        Form::OpensDo(index) => open_in(place, Block::Do, lost(odd, Opening::Do(index))),
        Form::OpensRegion(block) => open_in(place, block, region(block)),
        Form::Closes(block) => when(is_in(block, place), Move::Close(None)),
        Form::EndsProgram(name) => when(is_outermost(place), Move::Finish(name)),
    }
}

/// What a statement that is not read does. It may stand anywhere, and begins or ends a block by its first words.
fn left_move(place: Place, role: Role, body: Body) -> Move
    ensures { result ≡ turns.left_move place role body }
{
    match place {
        Place::After => Move::Idle(body),
        _ => match role {
            Role::Alone | Role::GoesOn => Move::Idle(body),
            Role::Opens(block) => Move::Open(block, Opening::Lost(body)),
            Role::Closes(block) => {
                if is_in(block, place) {
                    Move::Close(Some(body))
                } else {
                    Move::Idle(body)
                }
            }
            Role::ClosesUnit => {
                if is_outermost(place) {
                    Move::FinishUnread(body)
                } else {
                    Move::Idle(body)
                }
            }
            Role::NamesUnit => {
                if may_name(place) {
                    Move::NameUnread(body)
                } else {
                    Move::Idle(body)
                }
            }
        },
    }
}

/// What a directive of a region does whose clause is left out.
fn strange_move(place: Place, role: Role) -> Option<Move>
    ensures { result ≡ turns.strange_move place role }
{
    match role {
        Role::Opens(block) => open_in(place, block, Opening::Lost(Body::Unsupported)),
        Role::Closes(block) => when(is_in(block, place), Move::Close(Some(Body::Unsupported))),
        _ => None,
    }
}

/// What a statement does in its place; None where it is not of the grammar there.
pub fn move_of(place: Place, turn: Turn) -> Option<Move>
    ensures { result ≡ turns.move_of place turn }
{
    match turn {
        Turn::Read(said) => {
            let Said { form, odd } = said;
            said_move(place, odd, form)
        }
        Turn::LeftOut(role, body) => Some(left_move(place, role, body)),
        Turn::Strange(role) => strange_move(place, role),
        Turn::Wrong => None,
    }
}
