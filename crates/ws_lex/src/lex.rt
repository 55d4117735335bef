//! The tokens of a source.
ghost use Rattle.std.specs.Prelude.{◌≡◌, ◌<◌, ◌≤◌, ◌+◌, ℕ, [], ◌∷◌, ◌++◌, length, map, Option, IfOk, IfErr, OnOk, MatchOption};
ghost use Rattle.ws_lex.specs.Lines as lines;
ghost use Rattle.ws_lex.specs.Steps as steps;
ghost use Rattle.ws_lex.specs.Tokens as tokens;
ghost use Rattle.ws_lex.specs.Within.{IsText};
ghost use Rattle.ws_lex.specs.declared.token.LexEnd.TheVariants.{Memory};

use crate::line::plain_text;
use crate::piece::{Cell, Shape};
use crate::spell::spell;
use crate::text::text;
use crate::token::{LexEnd, Token, TokenKind, TokenList};
use sqlite_items::Items;
use std::alloc::{AllocError, Global};
use ws_base::Name;

fn noted(best: Option<u32>, line: u32, shape: Shape) -> Option<u32>
    ensures { result ≡ steps.least_from best (tokens.breaks_of line shape) }
{
    match shape {
        Shape::Broken => match best {
            Some(least) => Some(if least <= line { least } else { line }),
            None => Some(line),
        },
        _ => best,
    }
}

fn bytes_of(alloc: Global, cells: &[Cell]) -> Result<Vec<u8>, AllocError>
    ensures { IfOk result (λ bytes. bytes.items ≡ tokens.bytes_of cells.now) }
{
    cells.iter().map(|cell| cell.byte).collect(alloc)
}

/// The least line that breaks the source form.
fn least_break(cells: &[Cell], bytes: &[u8]) -> Option<u32>
    requires { bytes.now ≡ tokens.bytes_of cells.now }
    ensures { result ≡ steps.least_from None (tokens.breaks (tokens.pieces cells.now)) }
{
    let mut best: Option<u32> = None;
    let mut at: usize = 0;
    'pieces: while at < cells.len() {
        let found = spell(&bytes[at..]);
        best = noted(best, cells[at].line, found.shape);
        at += found.size;
    }
    best
}

fn token(line: u32, what: TokenKind) -> Token
    ensures { result ≡ steps.token line what }
{
    Token {
        line,
        ends: false,
        what,
    }
}

/// With the last token marked.
fn ended(begun: TokenList) -> Result<TokenList, AllocError>
    ensures { IfOk result (λ ts. ts ≡ tokens.ended begun) }
{
    let mut tokens = begun;
    let Some(last) = tokens.pop() else {
        return Ok(tokens);
    };
    let Token { line, what, .. } = last;
    tokens.push(Token {
        line,
        ends: true,
        what,
    })?;
    Ok(tokens)
}

fn is_kept(limit: Option<u32>, last: u32) -> bool
    ensures { result ≡ tokens.is_kept limit last }
{
    match limit {
        Some(line) => last < line,
        None => true,
    }
}

fn put_statement(
    out: &mut TokenList,
    limit: Option<u32>,
    last: u32,
    begun: TokenList,
) -> Result<(), AllocError>
    ensures { OnOk result (out.new ≡ out.old ++ steps.kept limit last begun) }
{
    if is_kept(limit, last) {
        out.append(ended(begun)?)
    } else {
        Ok(())
    }
}

/// What stands of the statement after a piece.
fn take_piece(
    alloc: Global,
    out: &mut TokenList,
    limit: Option<u32>,
    begun: TokenList,
    line: u32,
    shape: Shape,
    bytes: &[u8],
) -> Result<TokenList, AllocError>
    requires { IsText shape bytes.now }
    ensures out { OnOk result (out.new ≡ out.old ++ steps.completes limit begun line shape) }
    ensures begun { IfOk result (λ ts. ts ≡ steps.goes_on begun line shape bytes.now) }
{
    let mut begun = begun;
    match shape {
        Shape::Separator => {
            put_statement(out, limit, line, begun)?;
            return Ok(Items::new(alloc));
        }
        Shape::Word => begun.push(token(line, TokenKind::Word(Name::from_bytes(alloc, bytes)?)))?,
        Shape::Digits => begun.push(token(
            line,
            TokenKind::Digits(Name::from_bytes(alloc, bytes)?),
        ))?,
        Shape::Sign(sign) => begun.push(token(line, TokenKind::Sign(sign)))?,
        Shape::Foreign => begun.push(token(line, TokenKind::Foreign))?,
        Shape::Directive => begun.push(token(line, TokenKind::Directive))?,
        Shape::Blank | Shape::Broken => {}
    }
    Ok(begun)
}

/// The tokens of the statements that end on a line before the limit.
fn collect(
    alloc: Global,
    cells: &[Cell],
    bytes: &[u8],
    limit: Option<u32>,
) -> Result<TokenList, AllocError>
    requires { bytes.now ≡ tokens.bytes_of cells.now }
    ensures { IfOk result (λ ts. ts ≡ tokens.tokens_before limit (tokens.statements (tokens.pieces cells.now))) }
{
    let mut out = Items::new(alloc);
    let mut begun = Items::new(alloc);
    let mut at: usize = 0;
    'pieces: while at < cells.len() {
        let found = spell(&bytes[at..]);
        begun = take_piece(
            alloc,
            &mut out,
            limit,
            begun,
            cells[at].line,
            found.shape,
            &bytes[at..at + found.size],
        )?;
        at += found.size;
    }
    Ok(out)
}

impl From<AllocError> for LexEnd {
    ghost from_gives = { λ _ e. e ≡ Memory };

    fn from(_: AllocError) -> LexEnd {
        LexEnd::Memory
    }
}

/// The tokens of a source of any bytes, statement by statement in the order in which they end, and `End` with the line after the last (Fortran 2018, 6.3.2).
/// `Syntax` comes exactly where a line breaks the source form. It has the first such line, counted from 1, and the statements that end on a line before it.
/// `Memory` is want of memory, or of line numbers, where a source has 2^32 lines or more. A limit on the bytes of a source is its reader's to keep.
pub fn tokens(alloc: Global, source: &[u8]) -> Result<TokenList, LexEnd>
    ensures ok { IfOk result (λ ts. tokens.IsTokens source.now ts) }
    ensures err { IfErr result (λ e. tokens.IsLexEnd source.now e) }
{
    let plain = plain_text(alloc, source)?;
    let read = text(alloc, &plain)?;
    let cells = read.cells.as_slice();
    let bytes = bytes_of(alloc, cells)?;
    match least_break(cells, &bytes) {
        Some(line) => Err(LexEnd::Syntax {
            line,
            before: collect(alloc, cells, &bytes, Some(line))?,
        }),
        None => {
            let mut tokens = collect(alloc, cells, &bytes, None)?;
            tokens.push(token(read.end, TokenKind::End))?;
            Ok(tokens)
        }
    }
}
