//! The forms that are words alone.
ghost use Rattle.std.specs.Prelude.{◌≡◌, Option, IfOk};
ghost use Rattle.ws_stmt.specs.Statements as statements;

use crate::form::Form;
use crate::role::{Block, is_open, is_word};
use std::alloc::{AllocError, Global};
use ws_lex::{Sign, Token, TokenKind};

/// The form, where nothing follows its words.
pub fn alone(form: Form, tokens: &[Token]) -> Option<Form>
    ensures { result ≡ statements.alone form tokens.now }
{
    if tokens.is_empty() { Some(form) } else { None }
}

/// ENDPROGRAM [name], after its word.
pub fn program_end(alloc: Global, tokens: &[Token]) -> Result<Option<Form>, AllocError>
    ensures { IfOk result (λ f. f ≡ statements.program_end tokens.now) }
{
    match tokens {
        [] => Ok(Some(Form::EndsProgram(None))),
        [only] => match &only.what {
            TokenKind::Word(name) => Ok(Some(Form::EndsProgram(Some(name.copy(alloc)?)))),
            _ => Ok(None),
        },
        _ => Ok(None),
    }
}

/// END [DO | WHERE | FORALL | PROGRAM [name]], after END.
pub fn end_form(alloc: Global, tokens: &[Token]) -> Result<Option<Form>, AllocError>
    ensures { IfOk result (λ f. f ≡ statements.end_form tokens.now) }
{
    let Some((first, rest)) = tokens.split_first() else {
        return Ok(Some(Form::EndsProgram(None)));
    };
    if is_word(b"do", &first.what) {
        Ok(alone(Form::Closes(Block::Do), rest))
    } else if is_word(b"where", &first.what) {
        Ok(alone(Form::Closes(Block::Where), rest))
    } else if is_word(b"forall", &first.what) {
        Ok(alone(Form::Closes(Block::Forall), rest))
    } else if is_word(b"program", &first.what) {
        program_end(alloc, rest)
    } else {
        Ok(None)
    }
}

fn is_close(what: &TokenKind) -> bool
    ensures { result ≡ statements.is_close what.now }
{
    matches!(what, TokenKind::Sign(Sign::Close))
}

/// [DEFAULT(SHARED)] (OpenMP 5.2, 5.4.1)
fn is_shared(tokens: &[Token]) -> bool
    ensures { result ≡ statements.is_shared tokens.now }
{
    match tokens {
        [] => true,
        [a, b, c, d] => {
            is_word(b"default", &a.what)
                && is_open(&b.what)
                && is_word(b"shared", &c.what)
                && is_close(&d.what)
        }
        _ => false,
    }
}

fn parallel_form(tokens: &[Token]) -> Option<Form>
    ensures { result ≡ statements.parallel_form tokens.now }
{
    let Some((first, rest)) = tokens.split_first() else {
        return Some(Form::OpensRegion(Block::Parallel));
    };
    if is_word(b"workshare", &first.what) {
        if is_shared(rest) {
            Some(Form::OpensRegion(Block::ParallelWorkshare))
        } else {
            None
        }
    } else if is_shared(tokens) {
        Some(Form::OpensRegion(Block::Parallel))
    } else {
        None
    }
}

/// The end of `block` where nothing follows, and that of `other` where the word follows alone.
fn end_by(tokens: &[Token], block: Block, word: &[u8], other: Block) -> Option<Form>
    ensures { result ≡ statements.end_by block word.now other tokens.now }
{
    match tokens {
        [] => Some(Form::Closes(block)),
        [only] => {
            if is_word(word, &only.what) {
                Some(Form::Closes(other))
            } else {
                None
            }
        }
        _ => None,
    }
}

fn region_end(tokens: &[Token]) -> Option<Form>
    ensures { result ≡ statements.region_end tokens.now }
{
    let (first, rest) = tokens.split_first()?;
    if is_word(b"workshare", &first.what) {
        end_by(rest, Block::Workshare, b"nowait", Block::Workshare)
    } else if is_word(b"parallel", &first.what) {
        end_by(
            rest,
            Block::Parallel,
            b"workshare",
            Block::ParallelWorkshare,
        )
    } else {
        None
    }
}

/// The directives of workshare regions, after `!$omp` (OpenMP 5.2, 11.4 and 17.4).
pub fn directive_form(tokens: &[Token]) -> Option<Form>
    ensures { result ≡ statements.directive_form tokens.now }
{
    let (first, rest) = tokens.split_first()?;
    if is_word(b"end", &first.what) {
        region_end(rest)
    } else if is_word(b"workshare", &first.what) {
        alone(Form::OpensRegion(Block::Workshare), rest)
    } else if is_word(b"parallel", &first.what) {
        parallel_form(rest)
    } else {
        None
    }
}
