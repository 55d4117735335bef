//! Statements, each from all of its tokens.
ghost use Rattle.std.specs.Prelude.{◌≡◌, ℕ, List, Option, IfOk};
ghost use Rattle.ws_lex.specs.declared.token.Token.{Token};
ghost use Rattle.ws_tree.specs.declared.stmt.Body.{Body};
ghost use Rattle.ws_expr.specs.declared.reading.Reading.{Reading};
ghost use Rattle.ws_expr.specs.Parsing.{Answers};
ghost use Rattle.ws_stmt.specs.declared.form.Said.{Said};
ghost use Rattle.ws_stmt.specs.declared.form.Form.TheVariants as form;
ghost use Rattle.ws_stmt.specs.Statements as statements;

use crate::built::{
    acts, allocates, assignment, deallocates, masked, opens_do, opens_else, opens_forall,
    opens_where, over, reads, said,
};
use crate::declare::declaration;
use crate::form::{Form, Said, Start};
use crate::list::{list, list_in_parens};
use crate::part::{Allocations, Designators, Names, designator, header, in_parens, index};
use crate::role::{Block, assigns};
use crate::token::{after_word, expect, is_done, name};
use crate::words::{alone, directive_form, end_form, program_end};
use std::alloc::Global;
use ws_base::Name;
use ws_expr::{Failed, Reading, after, whole};
use ws_lex::{Sign, Token, TokenKind};
use ws_tree::Body;

/// name [( sub {, sub} )] = expr
fn assigned(alloc: Global, tokens: &[Token]) -> Result<Reading<Body>, Failed>
    ensures sound { IfOk result (λ b. statements.Assigns tokens.now b) }
    ensures complete { (b : Reading Body) → statements.Assigns tokens.now b → Answers result (λ found. found ≡ b) }
{
    let (left, rest) = designator(alloc, tokens)?;
    let rest = expect(rest, Sign::Becomes)?;
    let right = whole(alloc, rest)?;
    Ok(assignment(left, right))
}

fn says_assignment(alloc: Global, tokens: &[Token]) -> Result<Said, Failed>
    ensures sound { IfOk result (λ s. statements.SaysAssignment tokens.now s) }
    ensures complete { (s : Said) → statements.SaysAssignment tokens.now s → Answers result (λ found. found ≡ s) }
{
    let body = assigned(alloc, tokens)?;
    Ok(acts(body))
}

/// PROGRAM name
fn says_program(alloc: Global, tokens: &[Token]) -> Result<Said, Failed>
    ensures sound { IfOk result (λ s. statements.SaysProgram tokens.now s) }
    ensures complete { (s : Said) → statements.SaysProgram tokens.now s → Answers result (λ found. found ≡ s) }
{
    let Some((unit, rest)) = name(tokens) else {
        return Err(Failed::Syntax);
    };
    if is_done(rest) {
        Ok(said(Form::Program(unit.copy(alloc)?), false))
    } else {
        Err(Failed::Syntax)
    }
}

/// IMPLICIT NONE
fn says_implicit(tokens: &[Token]) -> Result<Said, Failed>
    ensures sound { IfOk result (λ s. statements.SaysImplicit tokens.now s) }
    ensures complete { (s : Said) → statements.SaysImplicit tokens.now s → Answers result (λ found. found ≡ s) }
{
    let Some(rest) = after_word(tokens, b"none") else {
        return Err(Failed::Syntax);
    };
    if is_done(rest) {
        Ok(said(Form::ImplicitNone, false))
    } else {
        Err(Failed::Syntax)
    }
}

/// WHERE ( expr ) [assign]
fn says_where(alloc: Global, line: u32, tokens: &[Token]) -> Result<Said, Failed>
    ensures sound { IfOk result (λ s. statements.SaysWhere line tokens.now s) }
    ensures complete { (s : Said) → statements.SaysWhere line tokens.now s → Answers result (λ found. found ≡ s) }
{
    let (mask, rest) = in_parens(alloc, tokens)?;
    if is_done(rest) {
        return Ok(opens_where(mask));
    }
    let body = assigned(alloc, rest)?;
    Ok(masked(alloc, line, mask, body)?)
}

/// ELSEWHERE [( expr )]
fn says_else(alloc: Global, tokens: &[Token]) -> Result<Said, Failed>
    ensures sound { IfOk result (λ s. statements.SaysElse tokens.now s) }
    ensures complete { (s : Said) → statements.SaysElse tokens.now s → Answers result (λ found. found ≡ s) }
{
    if is_done(tokens) {
        return Ok(said(Form::OpensElse(None), false));
    }
    let (mask, rest) = in_parens(alloc, tokens)?;
    if is_done(rest) {
        Ok(opens_else(mask))
    } else {
        Err(Failed::Syntax)
    }
}

/// ELSE WHERE [( expr )]
fn says_apart(alloc: Global, tokens: &[Token]) -> Result<Said, Failed>
    ensures sound { IfOk result (λ s. statements.SaysApart tokens.now s) }
    ensures complete { (s : Said) → statements.SaysApart tokens.now s → Answers result (λ found. found ≡ s) }
{
    match after_word(tokens, b"where") {
        Some(rest) => says_else(alloc, rest),
        None => Err(Failed::Syntax),
    }
}

/// FORALL ( header ) [assign]
fn says_forall(alloc: Global, line: u32, tokens: &[Token]) -> Result<Said, Failed>
    ensures sound { IfOk result (λ s. statements.SaysForall line tokens.now s) }
    ensures complete { (s : Said) → statements.SaysForall line tokens.now s → Answers result (λ found. found ≡ s) }
{
    let (indexes, mask, rest) = header(alloc, tokens)?;
    if is_done(rest) {
        return Ok(opens_forall(indexes, mask));
    }
    let body = assigned(alloc, rest)?;
    Ok(over(alloc, line, indexes, mask, body)?)
}

/// DO name = expr , expr [, expr]
fn says_do(alloc: Global, tokens: &[Token]) -> Result<Said, Failed>
    ensures sound { IfOk result (λ s. statements.SaysDo tokens.now s) }
    ensures complete { (s : Said) → statements.SaysDo tokens.now s → Answers result (λ found. found ≡ s) }
{
    let (variable, rest) = index(alloc, Sign::Comma, tokens)?;
    if is_done(rest) {
        Ok(opens_do(variable))
    } else {
        Err(Failed::Syntax)
    }
}

/// ALLOCATE ( name ( shape ) {, name ( shape )} )
fn says_allocate(alloc: Global, tokens: &[Token]) -> Result<Said, Failed>
    ensures sound { IfOk result (λ s. statements.SaysAllocate tokens.now s) }
    ensures complete { (s : Said) → statements.SaysAllocate tokens.now s → Answers result (λ found. found ≡ s) }
{
    let (parts, rest) = list_in_parens(&Allocations, alloc, tokens)?;
    if is_done(rest) {
        Ok(allocates(parts))
    } else {
        Err(Failed::Syntax)
    }
}

/// DEALLOCATE ( name {, name} )
fn says_deallocate(alloc: Global, tokens: &[Token]) -> Result<Said, Failed>
    ensures sound { IfOk result (λ s. statements.SaysDeallocate tokens.now s) }
    ensures complete { (s : Said) → statements.SaysDeallocate tokens.now s → Answers result (λ found. found ≡ s) }
{
    let (names, rest) = list_in_parens(&Names, alloc, tokens)?;
    if is_done(rest) {
        Ok(deallocates(names))
    } else {
        Err(Failed::Syntax)
    }
}

/// * , or ( * , * )
fn format(tokens: &[Token]) -> Result<&[Token], Failed>
    ensures sound { IfOk result (λ r. statements.ReadsFormat tokens.now r.now) }
    ensures complete { (rest : List Token) → statements.ReadsFormat tokens.now rest → Answers result (λ r. r.now ≡ rest) }
{
    match after(tokens, Sign::Open) {
        None => {
            let rest = expect(tokens, Sign::Star)?;
            expect(rest, Sign::Comma)
        }
        Some(rest) => {
            let rest = expect(rest, Sign::Star)?;
            let rest = expect(rest, Sign::Comma)?;
            let rest = expect(rest, Sign::Star)?;
            expect(rest, Sign::Close)
        }
    }
}

/// READ * , item {, item} | READ ( * , * ) item {, item}
fn says_read(alloc: Global, tokens: &[Token]) -> Result<Said, Failed>
    ensures sound { IfOk result (λ s. statements.SaysRead tokens.now s) }
    ensures complete { (s : Said) → statements.SaysRead tokens.now s → Answers result (λ found. found ≡ s) }
{
    let rest = format(tokens)?;
    let (items, rest) = list(&Designators, alloc, rest)?;
    if is_done(rest) {
        Ok(reads(items))
    } else {
        Err(Failed::Syntax)
    }
}

/// A form of words alone.
fn worded(form: Option<Form>) -> Result<Said, Failed>
    ensures sound { IfOk result (λ s. statements.SaysWords form s) }
    ensures complete { (s : Said) → statements.SaysWords form s → Answers result (λ found. found ≡ s) }
{
    match form {
        Some(form) => Ok(said(form, false)),
        None => Err(Failed::Syntax),
    }
}

fn word_start(word: &Name) -> Start
    ensures { result ≡ statements.word_start word.now }
{
    match word.as_str() {
        "program" => Start::Program,
        "implicit" => Start::Implicit,
        "integer" => Start::Declaration(false),
        "logical" => Start::Declaration(true),
        "where" => Start::Where,
        "elsewhere" => Start::Elsewhere,
        "else" => Start::Else,
        "forall" => Start::Forall,
        "do" => Start::Do,
        "allocate" => Start::Allocate,
        "deallocate" => Start::Deallocate,
        "read" => Start::Read,
        "end" => Start::End,
        "enddo" => Start::EndOf(Block::Do),
        "endwhere" => Start::EndOf(Block::Where),
        "endforall" => Start::EndOf(Block::Forall),
        "endprogram" => Start::EndProgram,
        _ => Start::Other,
    }
}

fn start_of(first: &TokenKind, rest: &[Token]) -> Start
    ensures { result ≡ statements.start_of first.now rest.now }
{
    match first {
        TokenKind::Directive => Start::Directive,
        TokenKind::Word(word) => {
            if assigns(rest) {
                Start::Assignment
            } else {
                word_start(word)
            }
        }
        _ => Start::Other,
    }
}

/// What the tokens of a statement say, apart from its place. Syntax comes exactly where they say no form of the grammar.
pub fn say(alloc: Global, run: &[Token]) -> Result<Said, Failed>
    ensures sound { IfOk result (λ s. statements.Says run.now s) }
    ensures complete { (s : Said) → statements.Says run.now s → Answers result (λ found. found ≡ s) }
{
    let Some((first, rest)) = run.split_first() else {
        return Err(Failed::Syntax);
    };
    match start_of(&first.what, rest) {
        Start::Assignment => says_assignment(alloc, run),
        Start::Program => says_program(alloc, rest),
        Start::Implicit => says_implicit(rest),
        Start::Declaration(truth) => declaration(alloc, first.line, truth, rest),
        Start::Where => says_where(alloc, first.line, rest),
        Start::Elsewhere => says_else(alloc, rest),
        Start::Else => says_apart(alloc, rest),
        Start::Forall => says_forall(alloc, first.line, rest),
        Start::Do => says_do(alloc, rest),
        Start::Allocate => says_allocate(alloc, rest),
        Start::Deallocate => says_deallocate(alloc, rest),
        Start::Read => says_read(alloc, rest),
        Start::End => worded(end_form(alloc, rest)?),
        Start::EndOf(block) => worded(alone(Form::Closes(block), rest)),
        Start::EndProgram => worded(program_end(alloc, rest)?),
        Start::Directive => worded(directive_form(rest)),
        Start::Other => Err(Failed::Syntax),
    }
}
