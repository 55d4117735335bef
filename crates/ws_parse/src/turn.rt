//! What a statement is, before its place is known.
ghost use Rattle.std.specs.Prelude.{◌≡◌, IfOk};
ghost use Rattle.ws_parse.specs.Turns as turns;

use std::alloc::{AllocError, AllocFailed, Global};
use ws_expr::Failed;
use ws_lex::{Token, TokenKind};
use ws_stmt::{Role, Said, has_foreign, is_left_out, is_left_out_by_words, role_of, say};
use ws_tree::Body;

/// A statement that was read, one that is not read, a directive of a region with a clause outside the grammar, or none of the grammar.
#[derive(Drop)]
pub enum Turn {
    Read(Said),
    LeftOut(Role, Body),
    Strange(Role),
    Wrong,
}

fn is_directive(run: &[Token]) -> bool
    ensures { result ≡ turns.is_directive_run run.now }
{
    match run.first() {
        None => false,
        Some(first) => matches!(&first.what, TokenKind::Directive),
    }
}

fn left_body(run: &[Token]) -> Body
    ensures { result ≡ turns.left_body run.now }
{
    if is_left_out_by_words(run) || has_foreign(run) {
        Body::Unsupported
    } else {
        Body::TooDeep
    }
}

/// What the tokens of a statement are.
pub fn turn_of(alloc: Global, run: &[Token]) -> Result<Turn, AllocError>
    ensures { IfOk result (λ t. turns.IsTurn run.now t) }
{
    if is_left_out(run) {
        return Ok(Turn::LeftOut(role_of(run), left_body(run)));
    }
    match say(alloc, run) {
        Ok(said) => Ok(Turn::Read(said)),
        Err(Failed::Memory) => Err(AllocError),
        Err(Failed::Syntax) => {
            if is_directive(run) {
                Ok(Turn::Strange(role_of(run)))
            } else {
                Ok(Turn::Wrong)
            }
        }
    }
}
