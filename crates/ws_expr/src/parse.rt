//! Reading expressions: each function answers exactly what the grammar has before a token that ends it.
ghost use Rattle.std.specs.Prelude.{◌≡◌, ◌<◌, ◌≤◌, ◌+◌, ℕ, Option, IfOk, IfSome, IfNone, IsTrue, ◌↔◌, List, [], ◌∷◌, length};
ghost use Rattle.ws_lex.specs.declared.token.Token.{Token};
ghost use Rattle.ws_lex.specs.declared.token.TokenKind.TheVariants as kind;
ghost use Rattle.ws_tree.specs.declared.expr.Expr.{Expr};
ghost use Rattle.ws_tree.specs.declared.expr.Sub.{Sub};
ghost use Rattle.ws_expr.specs.declared.parse.Failed.TheVariants.{Memory};
ghost use Rattle.ws_expr.specs.declared.reading.Reading.{Reading};
ghost use Rattle.ws_expr.specs.declared.reading.Gathered.{Gathered};
ghost use Rattle.ws_expr.specs.Readings as readings;
ghost use Rattle.ws_expr.specs.Parsing as parsing;
ghost use Rattle.ws_expr.specs.Grammar as grammar;

use crate::calls::callee_of;
use crate::operators::{first_operator, next_operator, operand_rank, rank, right_rank, sign_rank};
use crate::reading::{
    Gathered, Reading, binary, call, leaf, number_of, one, paren, part, raised, range, unary,
    vector,
};
use sqlite_items::Items;
use std::alloc::{AllocError, AllocFailed, Global};
use ws_base::Name;
use ws_lex::{Sign, Token, TokenKind};
use ws_tree::{Expr, Sub};

/// Why no expression was read: want of memory, or no expression of the grammar stands there.
#[derive(Debug, Drop)]
pub enum Failed {
    Memory,
    Syntax,
}

impl From<AllocError> for Failed {
    ghost from_gives = { λ _ e. e ≡ Memory };

    fn from(_: AllocError) -> Failed {
        Failed::Memory
    }
}

/// What follows the sign, where it stands at the front.
pub fn after(tokens: &[Token], sign: Sign) -> Option<&[Token]>
    ensures some { IfSome result (λ r. parsing.Follows sign tokens.now r.now) }
    ensures none { IfNone result ((rest : List Token) → parsing.Follows sign tokens.now rest → ⊥) }
{
    match tokens.split_first() {
        Some((first, rest)) if is(&first.what, sign) => Some(rest),
        _ => None,
    }
}

/// What follows the sign, which has to stand at the front.
fn expect(tokens: &[Token], sign: Sign) -> Result<&[Token], Failed>
    ensures sound { IfOk result (λ r. parsing.Follows sign tokens.now r.now) }
    ensures complete { (rest : List Token) → parsing.Follows sign tokens.now rest → parsing.Answers result (λ r. r.now ≡ rest) }
{
    match after(tokens, sign) {
        Some(rest) => Ok(rest),
        None => Err(Failed::Syntax),
    }
}

fn is(what: &TokenKind, sign: Sign) -> bool
    ensures { IsTrue result ↔ (what.now ≡ kind.Sign sign) }
{
    match what {
        TokenKind::Sign(found) => *found == sign,
        _ => false,
    }
}

/// The expression at the front whose rank is at most `limit`, and what follows it (Fortran 2018, R1023).
#[cycle(parser)]
pub fn expression(
    alloc: Global,
    limit: u8,
    tokens: &[Token],
) -> Result<(Reading<Expr>, &[Token]), Failed>
    requires { 1 ≤ limit }
    ensures sound { IfOk result (λ r. grammar.Reads limit tokens.now r.0 r.1.now) }
    ensures shorter { IfOk result (λ r. length r.1.now < length tokens.now) }
    ensures complete { (e : Reading Expr) (rest : List Token) → grammar.Reads limit tokens.now e rest → parsing.Stops (limit + 1) rest → parsing.Answers result (λ r. (r.0 ≡ e) × (r.1.now ≡ rest)) }
{
    let (mut left, mut bound, mut rest) = operand(alloc, limit, tokens)?;
    'operators: while let Some((op, after)) = next_operator(rest, bound, limit) {
        let (right, after) = expression(alloc, right_rank(op), after)?;
        left = binary(alloc, op, left, right)?;
        bound = rank(op);
        rest = after;
    }
    Ok((left, rest))
}

/// The first operand of an expression whose rank is at most `limit`, a bound of its rank, and what follows it.
#[cycle(parser)]
fn operand(
    alloc: Global,
    limit: u8,
    tokens: &[Token],
) -> Result<(Reading<Expr>, u8, &[Token]), Failed>
    requires { 1 ≤ limit }
    ensures sound { IfOk result (λ r. grammar.Reads r.1 tokens.now r.0 r.2.now) }
    ensures low { IfOk result (λ r. r.1 ≤ limit) }
    ensures shorter { IfOk result (λ r. length r.2.now < length tokens.now) }
    ensures complete { (m : ℕ) (e : Reading Expr) (rest : List Token) → parsing.Head limit m tokens.now e rest → parsing.Stops m rest → parsing.Stops 2 rest → parsing.Answers result (λ r. (r.0 ≡ e) × (r.1 ≡ m) × (r.2.now ≡ rest)) }
{
    match first_operator(tokens, limit) {
        Some((op, rest)) => {
            let (e, rest) = expression(alloc, operand_rank(op), rest)?;
            Ok((unary(alloc, op, e)?, sign_rank(op), rest))
        }
        None => {
            let (e, rest) = power(alloc, tokens)?;
            Ok((e, 1, rest))
        }
    }
}

/// primary {** primary}, from right to left
#[cycle(parser)]
fn power(alloc: Global, tokens: &[Token]) -> Result<(Reading<Expr>, &[Token]), Failed>
    ensures sound { IfOk result (λ r. grammar.Reads 1 tokens.now r.0 r.1.now) }
    ensures shorter { IfOk result (λ r. length r.1.now < length tokens.now) }
    ensures complete { (e : Reading Expr) (rest : List Token) → grammar.Reads 1 tokens.now e rest → parsing.Stops 2 rest → parsing.Answers result (λ r. (r.0 ≡ e) × (r.1.now ≡ rest)) }
{
    let mut bases = Items::new(alloc);
    let (mut last, mut rest) = primary(alloc, tokens)?;
    'bases: while let Some(after) = after(rest, Sign::Power) {
        let (next, after) = primary(alloc, after)?;
        bases.push(last)?;
        last = next;
        rest = after;
    }
    Ok((raised(alloc, bases, last)?, rest))
}

#[cycle(parser)]
fn primary(alloc: Global, tokens: &[Token]) -> Result<(Reading<Expr>, &[Token]), Failed>
    ensures sound { IfOk result (λ r. grammar.Primary tokens.now r.0 r.1.now) }
    ensures shorter { IfOk result (λ r. length r.1.now < length tokens.now) }
    ensures complete { (e : Reading Expr) (rest : List Token) → grammar.Primary tokens.now e rest → parsing.Stops 0 rest → parsing.Answers result (λ r. (r.0 ≡ e) × (r.1.now ≡ rest)) }
{
    let Some((first, rest)) = tokens.split_first() else {
        return Err(Failed::Syntax);
    };
    match &first.what {
        TokenKind::Digits(digits) => Ok((number_of(digits), rest)),
        TokenKind::Word(name) => match after(rest, Sign::Open) {
            None => Ok((leaf(Expr::Named(name.copy(alloc)?)), rest)),
            Some(inner) => opened(alloc, name, inner),
        },
        TokenKind::Sign(sign) => bracketed(alloc, *sign, rest),
        _ => Err(Failed::Syntax),
    }
}

/// The call or the subscripted name that `name` and `(` begin, where `tokens` follow these.
#[cycle(parser)]
fn opened<'a>(
    alloc: Global,
    name: &Name,
    tokens: &'a [Token],
) -> Result<(Reading<Expr>, &'a [Token]), Failed>
    ensures sound { IfOk result (λ r. parsing.Opened name.now tokens.now r.0 r.1.now) }
    ensures shorter { IfOk result (λ r. length r.1.now < length tokens.now) }
    ensures complete { (e : Reading Expr) (rest : List Token) → parsing.Opened name.now tokens.now e rest → parsing.Answers result (λ r. (r.0 ≡ e) × (r.1.now ≡ rest)) }
{
    match callee_of(name) {
        Some(callee) => {
            let (items, rest) = arguments(alloc, tokens)?;
            let rest = expect(rest, Sign::Close)?;
            Ok((call(callee, items), rest))
        }
        None => {
            let (items, rest) = subs(alloc, tokens)?;
            let rest = expect(rest, Sign::Close)?;
            Ok((part(name.copy(alloc)?, items), rest))
        }
    }
}

/// The primary that begins with `sign`, where `tokens` follow that.
#[cycle(parser)]
fn bracketed(
    alloc: Global,
    sign: Sign,
    tokens: &[Token],
) -> Result<(Reading<Expr>, &[Token]), Failed>
    ensures sound { IfOk result (λ r. (t : Token) → t.what ≡ kind.Sign sign → grammar.Primary (t ∷ tokens.now) r.0 r.1.now) }
    ensures shorter { IfOk result (λ r. length r.1.now ≤ length tokens.now) }
    ensures complete { (t : Token) (e : Reading Expr) (rest : List Token) → t.what ≡ kind.Sign sign → grammar.Primary (t ∷ tokens.now) e rest → parsing.Answers result (λ r. (r.0 ≡ e) × (r.1.now ≡ rest)) }
{
    match sign {
        Sign::True => Ok((leaf(Expr::Truth(true)), tokens)),
        Sign::False => Ok((leaf(Expr::Truth(false)), tokens)),
        Sign::Open => {
            let (e, rest) = expression(alloc, 8, tokens)?;
            let rest = expect(rest, Sign::Close)?;
            Ok((paren(alloc, e)?, rest))
        }
        Sign::OpenSquare => {
            let (items, rest) = all(alloc, tokens)?;
            let rest = expect(rest, Sign::CloseSquare)?;
            Ok((vector(items), rest))
        }
        Sign::OpenSlash => {
            let (items, rest) = all(alloc, tokens)?;
            let rest = expect(rest, Sign::CloseSlash)?;
            Ok((vector(items), rest))
        }
        _ => Err(Failed::Syntax),
    }
}

/// [expr {, expr}]
#[cycle(parser)]
fn arguments(alloc: Global, tokens: &[Token]) -> Result<(Gathered<Expr>, &[Token]), Failed>
    ensures sound { IfOk result (λ r. grammar.ReadsArguments tokens.now r.0 r.1.now) }
    ensures within { IfOk result (λ r. length r.1.now ≤ length tokens.now) }
    ensures complete { (es : Gathered Expr) (rest : List Token) → grammar.ReadsArguments tokens.now es rest → parsing.ClosesSubs rest → parsing.Answers result (λ r. (r.0 ≡ es) × (r.1.now ≡ rest)) }
{
    if closes_subs(tokens) {
        Ok((Gathered::new(alloc), tokens))
    } else {
        all(alloc, tokens)
    }
}

fn closes_subs(tokens: &[Token]) -> bool
    ensures { result ≡ parsing.closes_subs tokens.now }
{
    match tokens.first() {
        None => false,
        Some(first) => matches!(&first.what, TokenKind::Sign(Sign::Close)),
    }
}

/// expr {, expr}
#[cycle(parser)]
fn all(alloc: Global, tokens: &[Token]) -> Result<(Gathered<Expr>, &[Token]), Failed>
    ensures sound { IfOk result (λ r. grammar.ReadsAll tokens.now r.0 r.1.now) }
    ensures shorter { IfOk result (λ r. length r.1.now < length tokens.now) }
    ensures complete { (es : Gathered Expr) (rest : List Token) → grammar.ReadsAll tokens.now es rest → parsing.Closes rest → parsing.Answers result (λ r. (r.0 ≡ es) × (r.1.now ≡ rest)) }
{
    let mut items = Gathered::new(alloc);
    let (e, mut rest) = expression(alloc, 8, tokens)?;
    items.push(e)?;
    'items: while let Some(after) = after(rest, Sign::Comma) {
        let (e, after) = expression(alloc, 8, after)?;
        items.push(e)?;
        rest = after;
    }
    Ok((items, rest))
}

/// sub {, sub}, which a `)` has to follow (Fortran 2018, R918).
#[cycle(parser)]
pub fn subs(alloc: Global, tokens: &[Token]) -> Result<(Gathered<Sub>, &[Token]), Failed>
    ensures sound { IfOk result (λ r. grammar.ReadsSubs tokens.now r.0 r.1.now) }
    ensures shorter { IfOk result (λ r. length r.1.now < length tokens.now) }
    ensures complete { (ss : Gathered Sub) (rest : List Token) → grammar.ReadsSubs tokens.now ss rest → parsing.ClosesSubs rest → parsing.Answers result (λ r. (r.0 ≡ ss) × (r.1.now ≡ rest)) }
{
    let mut items = Gathered::new(alloc);
    let (s, mut rest) = sub(alloc, tokens)?;
    items.push(s)?;
    'items: while let Some(after) = after(rest, Sign::Comma) {
        let (s, after) = sub(alloc, after)?;
        items.push(s)?;
        rest = after;
    }
    Ok((items, rest))
}

/// expr | [expr] : [expr] [: expr]
#[cycle(parser)]
fn sub(alloc: Global, tokens: &[Token]) -> Result<(Reading<Sub>, &[Token]), Failed>
    ensures sound { IfOk result (λ r. grammar.ReadsSub tokens.now r.0 r.1.now) }
    ensures shorter { IfOk result (λ r. length r.1.now < length tokens.now) }
    ensures complete { (s : Reading Sub) (rest : List Token) → grammar.ReadsSub tokens.now s rest → parsing.EndsSub rest → parsing.Answers result (λ r. (r.0 ≡ s) × (r.1.now ≡ rest)) }
{
    let (l, rest) = maybe(alloc, tokens)?;
    if let Some(rest) = after(rest, Sign::DoubleColon) {
        let (s, rest) = expression(alloc, 8, rest)?;
        return Ok((range(l, None, Some(s)), rest));
    }
    match after(rest, Sign::Colon) {
        Some(rest) => {
            let (u, rest) = maybe(alloc, rest)?;
            match after(rest, Sign::Colon) {
                Some(rest) => {
                    let (s, rest) = expression(alloc, 8, rest)?;
                    Ok((range(l, u, Some(s)), rest))
                }
                None => Ok((range(l, u, None), rest)),
            }
        }
        None => match l {
            Some(e) => Ok((one(e), rest)),
            None => Err(Failed::Syntax),
        },
    }
}

/// [expr]
#[cycle(parser)]
fn maybe(alloc: Global, tokens: &[Token]) -> Result<(Option<Reading<Expr>>, &[Token]), Failed>
    ensures sound { IfOk result (λ r. grammar.ReadsMaybe tokens.now r.0 r.1.now) }
    ensures within { IfOk result (λ r. length r.1.now ≤ length tokens.now) }
    ensures some { IfOk result (λ r. IfSome r.0 (λ e. length r.1.now < length tokens.now)) }
    ensures complete { (e : Option (Reading Expr)) (rest : List Token) → grammar.ReadsMaybe tokens.now e rest → parsing.EndsPart rest → parsing.Answers result (λ r. (r.0 ≡ e) × (r.1.now ≡ rest)) }
{
    if ends_part(tokens) {
        return Ok((None, tokens));
    }
    let (e, rest) = expression(alloc, 8, tokens)?;
    Ok((Some(e), rest))
}

fn ends_part(tokens: &[Token]) -> bool
    ensures { result ≡ parsing.ends_part tokens.now }
{
    match tokens.first() {
        None => false,
        Some(first) => matches!(
            &first.what,
            TokenKind::Sign(Sign::Colon | Sign::DoubleColon | Sign::Comma | Sign::Close)
        ),
    }
}

/// The expression that all of the tokens are.
pub fn whole(alloc: Global, tokens: &[Token]) -> Result<Reading<Expr>, Failed>
    ensures sound { IfOk result (λ e. grammar.Reads 8 tokens.now e []) }
    ensures complete { (e : Reading Expr) → grammar.Reads 8 tokens.now e [] → parsing.Answers result (λ found. found ≡ e) }
{
    let (e, rest) = expression(alloc, 8, tokens)?;
    if rest.is_empty() {
        Ok(e)
    } else {
        Err(Failed::Syntax)
    }
}
