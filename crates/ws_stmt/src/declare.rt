//! Declarations (Fortran 2018, 8.2).
ghost use Rattle.std.specs.Prelude.{◌≡◌, ◌<◌, ◌≤◌, ℕ, Bool, List, Option, IfOk, IfSome, IfNone, length, true};
ghost use Rattle.ws_lex.specs.declared.token.Token.{Token};
ghost use Rattle.ws_lex.specs.declared.token.Sign.TheVariants as sign;
ghost use Rattle.ws_tree.specs.declared.expr.Expr.{Expr};
ghost use Rattle.ws_tree.specs.declared.stmt.Bound.{Bound};
ghost use Rattle.ws_tree.specs.declared.stmt.Decl.{Decl};
ghost use Rattle.ws_expr.specs.declared.reading.Reading.{Reading};
ghost use Rattle.ws_expr.specs.declared.reading.Gathered.{Gathered};
ghost use Rattle.ws_expr.specs.Parsing.{Answers, Stops};
ghost use Rattle.ws_stmt.specs.declared.form.Said.{Said};
ghost use Rattle.ws_stmt.specs.Statements as statements;
ghost use Rattle.ws_stmt.specs.Parsing as parsing;

use crate::attributes::Attributes;
use crate::built::{declared, declares};
use crate::form::{Attribute, Said};
use crate::list::{Reader, list};
use crate::part::{in_parens, shape};
use crate::role::is_word;
use crate::token::{after_digits, expect, is_done, name};
use sqlite_items::Items;
use std::alloc::Global;
use ws_expr::{Failed, Gathered, Reading, after, expression};
use ws_lex::{Sign, Token, TokenKind};
use ws_tree::{BoundList, Decl, Expr};

/// What follows `KIND =`, where that stands at the front, and all of the tokens else.
fn after_kind(tokens: &[Token]) -> &[Token]
    ensures { result.now ≡ parsing.after_kind tokens.now }
{
    match tokens {
        [first, second, rest @ ..] if is_word(b"kind", &first.what) => {
            if matches!(&second.what, TokenKind::Sign(Sign::Becomes)) {
                rest
            } else {
                tokens
            }
        }
        _ => tokens,
    }
}

/// A kind, if one stands there: ( expr ), ( KIND = expr ), * digits or * ( expr ). Tells whether it does.
fn kind(alloc: Global, tokens: &[Token]) -> Result<(bool, &[Token]), Failed>
    ensures sound { IfOk result (λ r. statements.ReadsKind tokens.now r.0 r.1.now) }
    ensures complete { (odd : Bool) (rest : List Token) → statements.ReadsKind tokens.now odd rest → parsing.Lacks sign.Open rest → parsing.Lacks sign.Star rest → Answers result (λ r. (r.0 ≡ odd) × (r.1.now ≡ rest)) }
{
    if let Some(inner) = after(tokens, Sign::Open) {
        let (_, rest) = expression(alloc, 8, after_kind(inner))?;
        let rest = expect(rest, Sign::Close)?;
        return Ok((true, rest));
    }
    let Some(starred) = after(tokens, Sign::Star) else {
        return Ok((false, tokens));
    };
    match after_digits(starred) {
        Some(rest) => Ok((true, rest)),
        None => {
            let (_, rest) = in_parens(alloc, starred)?;
            Ok((true, rest))
        }
    }
}

fn attribute_of(what: &TokenKind) -> Option<Attribute>
    ensures { result ≡ statements.attribute_of what.now }
{
    if is_word(b"parameter", what) {
        Some(Attribute::Parameter)
    } else if is_word(b"allocatable", what) {
        Some(Attribute::Allocatable)
    } else if is_word(b"dimension", what) {
        Some(Attribute::Dimension)
    } else {
        None
    }
}

/// The attributes with the one at the front, and what follows it.
fn attribute<'a>(
    alloc: Global,
    attributes: Attributes<'a>,
    tokens: &'a [Token],
) -> Result<(Attributes<'a>, &'a [Token]), Failed>
    ensures sound { IfOk result (λ r. statements.ReadsAttribute (parsing.seen attributes.entry) tokens.now (parsing.seen r.0) r.1.now) }
    ensures shorter { IfOk result (λ r. length r.1.now < length tokens.now) }
    ensures complete { (a : statements.Attributes) (rest : List Token) → statements.ReadsAttribute (parsing.seen attributes.entry) tokens.now a rest → Answers result (λ r. (parsing.seen r.0 ≡ a) × (r.1.now ≡ rest)) }
{
    let Some((first, rest)) = tokens.split_first() else {
        return Err(Failed::Syntax);
    };
    match attribute_of(&first.what) {
        None => Err(Failed::Syntax),
        Some(Attribute::Parameter) => Ok((
            Attributes {
                constant: true,
                allocatable: attributes.allocatable,
                dimension: attributes.dimension,
                some: true,
            },
            rest,
        )),
        Some(Attribute::Allocatable) => Ok((
            Attributes {
                constant: attributes.constant,
                allocatable: true,
                dimension: attributes.dimension,
                some: true,
            },
            rest,
        )),
        Some(Attribute::Dimension) => {
            let (_, after) = shape(alloc, rest)?;
            Ok((
                Attributes {
                    constant: attributes.constant,
                    allocatable: attributes.allocatable,
                    dimension: rest,
                    some: true,
                },
                after,
            ))
        }
    }
}

/// {, attr}
fn attributes(alloc: Global, tokens: &[Token]) -> Result<(Attributes<'_>, &[Token]), Failed>
    ensures sound { IfOk result (λ r. statements.ReadsAttributes tokens.now (parsing.seen r.0) r.1.now) }
    ensures complete { (a : statements.Attributes) (rest : List Token) → statements.ReadsAttributes tokens.now a rest → parsing.Lacks sign.Comma rest → Answers result (λ r. (parsing.seen r.0 ≡ a) × (r.1.now ≡ rest)) }
{
    let mut found = Attributes {
        constant: false,
        allocatable: false,
        dimension: &[],
        some: false,
    };
    let mut rest = tokens;
    'attributes: while let Some(after) = after(rest, Sign::Comma) {
        let (more, after) = attribute(alloc, found, after)?;
        found = more;
        rest = after;
    }
    Ok((found, rest))
}

/// [::], which an attribute needs
fn colons(some: bool, tokens: &[Token]) -> Result<&[Token], Failed>
    ensures sound { IfOk result (λ r. statements.ReadsColons some tokens.now r.now) }
    ensures complete { (rest : List Token) → statements.ReadsColons some tokens.now rest → parsing.Lacks sign.DoubleColon rest → Answers result (λ r. r.now ≡ rest) }
{
    match after(tokens, Sign::DoubleColon) {
        Some(rest) => Ok(rest),
        None => {
            if some {
                Err(Failed::Syntax)
            } else {
                Ok(tokens)
            }
        }
    }
}

/// The shape of an entity, its own or that of DIMENSION, whether it is odd, and what follows it.
fn extent<'a>(
    alloc: Global,
    dimension: &[Token],
    tokens: &'a [Token],
) -> Result<(BoundList, bool, &'a [Token]), Failed>
    ensures sound { IfOk result (λ r. statements.ReadsExtent dimension.now tokens.now r.0 r.1 r.2.now) }
    ensures within { IfOk result (λ r. length r.2.now ≤ length tokens.now) }
    ensures complete { (bounds : List Bound) (odd : Bool) (rest : List Token) → statements.ReadsExtent dimension.now tokens.now bounds odd rest → parsing.Lacks sign.Open rest → Answers result (λ r. (r.0 ≡ bounds) × (r.1 ≡ odd) × (r.2.now ≡ rest)) }
{
    if let Some(_) = after(tokens, Sign::Open) {
        let (bounds, rest) = shape(alloc, tokens)?;
        let Gathered { trees, odd, .. } = bounds;
        return Ok((trees, odd, rest));
    }
    if is_done(dimension) {
        return Ok((Items::new(alloc), false, tokens));
    }
    let (bounds, _) = shape(alloc, dimension)?;
    let Gathered { trees, odd, .. } = bounds;
    Ok((trees, odd, tokens))
}

/// [= expr], which stands exactly with PARAMETER
fn value(
    alloc: Global,
    constant: bool,
    tokens: &[Token],
) -> Result<(Option<Reading<Expr>>, &[Token]), Failed>
    ensures sound { IfOk result (λ r. statements.ReadsValue constant tokens.now r.0 r.1.now) }
    ensures within { IfOk result (λ r. length r.1.now ≤ length tokens.now) }
    ensures complete { (e : Option (Reading Expr)) (rest : List Token) → statements.ReadsValue constant tokens.now e rest → Stops 9 rest → Answers result (λ r. (r.0 ≡ e) × (r.1.now ≡ rest)) }
{
    if !constant {
        return Ok((None, tokens));
    }
    let rest = expect(tokens, Sign::Becomes)?;
    let (e, rest) = expression(alloc, 8, rest)?;
    Ok((Some(e), rest))
}

/// The entities of a declaration.
#[derive(Clone, Copy)]
struct Entities<'a> {
    line: u32,
    truth: bool,
    attributes: Attributes<'a>,
}

impl<'b> Reader for Entities<'b> {
    type Of = Decl;

    ghost reads = { λ e. statements.ReadsEntity e.line e.truth (parsing.seen e.attributes) };

    ghost begins = { λ _ _. true };

    fn is_next(&self, _tokens: &[Token]) -> bool {
        true
    }

    /// name [( shape )] [= expr]
    fn read<'a>(
        &self,
        alloc: Global,
        tokens: &'a [Token],
    ) -> Result<(Reading<Decl>, &'a [Token]), Failed> {
        let attributes = &self.attributes;
        let Some((name, rest)) = name(tokens) else {
            return Err(Failed::Syntax);
        };
        let (bounds, odd, rest) = extent(alloc, attributes.dimension, rest)?;
        let (e, rest) = value(alloc, attributes.constant, rest)?;
        let decl = declared(
            self.line,
            self.truth,
            attributes,
            name.copy(alloc)?,
            bounds,
            odd,
            e,
        );
        Ok((decl, rest))
    }

    ghost use Rattle.std.specs.Prelude.{refl};

    ghost begun = { λ _ _ _ _ _. refl };
}

/// What follows INTEGER or LOGICAL in a declaration of that line.
pub fn declaration(alloc: Global, line: u32, truth: bool, tokens: &[Token]) -> Result<Said, Failed>
    ensures sound { IfOk result (λ s. statements.SaysDeclaration line truth tokens.now s) }
    ensures complete { (s : Said) → statements.SaysDeclaration line truth tokens.now s → Answers result (λ found. found ≡ s) }
{
    let (odd, rest) = kind(alloc, tokens)?;
    let (attributes, rest) = attributes(alloc, rest)?;
    let rest = colons(attributes.some, rest)?;
    let entities = Entities {
        line,
        truth,
        attributes,
    };
    let (decls, rest) = list(&entities, alloc, rest)?;
    if is_done(rest) {
        Ok(declares(odd, decls))
    } else {
        Err(Failed::Syntax)
    }
}
