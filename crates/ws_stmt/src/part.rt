//! Parts of statements.
ghost use Rattle.std.specs.Prelude.{◌≡◌, ◌<◌, ◌≤◌, ℕ, Bool, List, Option, IfOk, IfSome, IfNone, length, true};
ghost use Rattle.ws_lex.specs.declared.token.Token.{Token};
ghost use Rattle.ws_lex.specs.declared.token.Sign.TheVariants as sign;
ghost use Rattle.ws_tree.specs.declared.expr.Expr.{Expr};
ghost use Rattle.ws_tree.specs.declared.stmt.Bound.{Bound};
ghost use Rattle.ws_tree.specs.declared.stmt.Index.{Index};
ghost use Rattle.ws_tree.specs.declared.stmt.Part.{Part};
ghost use Rattle.ws_expr.specs.declared.reading.Reading.{Reading};
ghost use Rattle.ws_expr.specs.declared.reading.Gathered.{Gathered};
ghost use Rattle.ws_expr.specs.Grammar.{Reads};
ghost use Rattle.ws_expr.specs.Parsing.{Answers, Stops};
ghost use Rattle.ws_stmt.specs.Statements as statements;
ghost use Rattle.ws_stmt.specs.Parsing as parsing;

use crate::built::{allocation, both, deferred, element, index_of, listed, upper, variable};
use crate::list::{Reader, list, list_in_parens};
use crate::role::begins_becomes;
use crate::token::{expect, name};
use std::alloc::Global;
use ws_base::Name;
use ws_expr::{Failed, Gathered, Reading, after, expression, subs};
use ws_lex::{Sign, Token, TokenKind};
use ws_tree::{Bound, Expr, Index, Part};

/// ( expr )
pub fn in_parens(alloc: Global, tokens: &[Token]) -> Result<(Reading<Expr>, &[Token]), Failed>
    ensures sound { IfOk result (λ r. statements.InParens tokens.now r.0 r.1.now) }
    ensures complete { (e : Reading Expr) (rest : List Token) → statements.InParens tokens.now e rest → Answers result (λ r. (r.0 ≡ e) × (r.1.now ≡ rest)) }
{
    let rest = expect(tokens, Sign::Open)?;
    let (e, rest) = expression(alloc, 8, rest)?;
    let rest = expect(rest, Sign::Close)?;
    Ok((e, rest))
}

/// name [( sub {, sub} )]
pub fn designator(alloc: Global, tokens: &[Token]) -> Result<(Reading<Expr>, &[Token]), Failed>
    ensures sound { IfOk result (λ r. statements.Designates tokens.now r.0 r.1.now) }
    ensures shorter { IfOk result (λ r. length r.1.now < length tokens.now) }
    ensures complete { (e : Reading Expr) (rest : List Token) → statements.Designates tokens.now e rest → parsing.Lacks sign.Open rest → Answers result (λ r. (r.0 ≡ e) × (r.1.now ≡ rest)) }
{
    let Some((array, rest)) = name(tokens) else {
        return Err(Failed::Syntax);
    };
    match after(rest, Sign::Open) {
        None => Ok((variable(array.copy(alloc)?), rest)),
        Some(inner) => {
            let (items, rest) = subs(alloc, inner)?;
            let rest = expect(rest, Sign::Close)?;
            Ok((element(array.copy(alloc)?, items), rest))
        }
    }
}

/// The designators of READ.
pub struct Designators;

impl Reader for Designators {
    type Of = Expr;

    ghost reads = { λ _. statements.Designates };

    ghost begins = { λ _ _. true };

    fn is_next(&self, _tokens: &[Token]) -> bool {
        true
    }

    fn read<'a>(
        &self,
        alloc: Global,
        tokens: &'a [Token],
    ) -> Result<(Reading<Expr>, &'a [Token]), Failed> {
        designator(alloc, tokens)
    }

    ghost use Rattle.std.specs.Prelude.{refl};

    ghost begun = { λ _ _ _ _ _. refl };
}

/// expr | expr : expr | :
fn bound(alloc: Global, tokens: &[Token]) -> Result<(Reading<Bound>, &[Token]), Failed>
    ensures sound { IfOk result (λ r. statements.ReadsBound tokens.now r.0 r.1.now) }
    ensures shorter { IfOk result (λ r. length r.1.now < length tokens.now) }
    ensures complete { (b : Reading Bound) (rest : List Token) → statements.ReadsBound tokens.now b rest → parsing.Ends rest → Answers result (λ r. (r.0 ≡ b) × (r.1.now ≡ rest)) }
{
    if let Some(rest) = after(tokens, Sign::Colon) {
        return Ok((deferred(), rest));
    }
    let (l, rest) = expression(alloc, 8, tokens)?;
    match after(rest, Sign::Colon) {
        None => Ok((upper(l), rest)),
        Some(rest) => {
            let (u, rest) = expression(alloc, 8, rest)?;
            Ok((both(l, u), rest))
        }
    }
}

/// The bounds of a shape.
struct Bounds;

impl Reader for Bounds {
    type Of = Bound;

    ghost reads = { λ _. statements.ReadsBound };

    ghost begins = { λ _ _. true };

    fn is_next(&self, _tokens: &[Token]) -> bool {
        true
    }

    fn read<'a>(
        &self,
        alloc: Global,
        tokens: &'a [Token],
    ) -> Result<(Reading<Bound>, &'a [Token]), Failed> {
        bound(alloc, tokens)
    }

    ghost use Rattle.std.specs.Prelude.{refl};

    ghost begun = { λ _ _ _ _ _. refl };
}

/// ( bound {, bound} )
pub fn shape(alloc: Global, tokens: &[Token]) -> Result<(Gathered<Bound>, &[Token]), Failed>
    ensures sound { IfOk result (λ r. statements.ReadsShape tokens.now r.0 r.1.now) }
    ensures shorter { IfOk result (λ r. length r.1.now < length tokens.now) }
    ensures complete { (bounds : Gathered Bound) (rest : List Token) → statements.ReadsShape tokens.now bounds rest → Answers result (λ r. (r.0 ≡ bounds) × (r.1.now ≡ rest)) }
{
    list_in_parens(&Bounds, alloc, tokens)
}

/// [mark expr]
fn last(
    alloc: Global,
    mark: Sign,
    tokens: &[Token],
) -> Result<(Option<Reading<Expr>>, &[Token]), Failed>
    ensures sound { IfOk result (λ r. statements.ReadsLast mark tokens.now r.0 r.1.now) }
    ensures within { IfOk result (λ r. length r.1.now ≤ length tokens.now) }
    ensures complete { (e : Option (Reading Expr)) (rest : List Token) → statements.ReadsLast mark tokens.now e rest → Stops 9 rest → parsing.Lacks mark rest → Answers result (λ r. (r.0 ≡ e) × (r.1.now ≡ rest)) }
{
    match after(tokens, mark) {
        None => Ok((None, tokens)),
        Some(rest) => {
            let (e, rest) = expression(alloc, 8, rest)?;
            Ok((Some(e), rest))
        }
    }
}

/// name = expr mark expr [mark expr]
pub fn index(
    alloc: Global,
    mark: Sign,
    tokens: &[Token],
) -> Result<(Reading<Index>, &[Token]), Failed>
    requires { parsing.is_mark mark ≡ true }
    ensures sound { IfOk result (λ r. statements.ReadsIndex mark tokens.now r.0 r.1.now) }
    ensures shorter { IfOk result (λ r. length r.1.now < length tokens.now) }
    ensures complete { (i : Reading Index) (rest : List Token) → statements.ReadsIndex mark tokens.now i rest → parsing.Ends rest → parsing.Lacks mark rest → Answers result (λ r. (r.0 ≡ i) × (r.1.now ≡ rest)) }
{
    let Some((variable, rest)) = name(tokens) else {
        return Err(Failed::Syntax);
    };
    let rest = expect(rest, Sign::Becomes)?;
    let (l, rest) = expression(alloc, 8, rest)?;
    let rest = expect(rest, mark)?;
    let (u, rest) = expression(alloc, 8, rest)?;
    let (s, rest) = last(alloc, mark, rest)?;
    Ok((index_of(variable.copy(alloc)?, l, u, s), rest))
}

/// name =
fn begins_index(tokens: &[Token]) -> bool
    ensures { result ≡ parsing.begins_index tokens.now }
{
    match tokens.split_first() {
        None => false,
        Some((first, rest)) => matches!(&first.what, TokenKind::Word(_)) && begins_becomes(rest),
    }
}

/// The indexes of a header.
struct Indexes;

impl Reader for Indexes {
    ghost use Rattle.ws_stmt.specs.Firsts.{index_begins};

    type Of = Index;

    ghost reads = { λ _. statements.ReadsIndex sign.Colon };

    ghost begins = { λ _. parsing.begins_index };

    fn is_next(&self, tokens: &[Token]) -> bool {
        begins_index(tokens)
    }

    fn read<'a>(
        &self,
        alloc: Global,
        tokens: &'a [Token],
    ) -> Result<(Reading<Index>, &'a [Token]), Failed> {
        index(alloc, Sign::Colon, tokens)
    }

    ghost begun = { λ _ _ _ _ d. index_begins d };
}

/// ( index {, index} [, expr] )
pub fn header(
    alloc: Global,
    tokens: &[Token],
) -> Result<(Gathered<Index>, Option<Reading<Expr>>, &[Token]), Failed>
    ensures sound { IfOk result (λ r. statements.ReadsHeader tokens.now r.0 r.1 r.2.now) }
    ensures complete { (is : Gathered Index) (m : Option (Reading Expr)) (rest : List Token) → statements.ReadsHeader tokens.now is m rest → Answers result (λ r. (r.0 ≡ is) × (r.1 ≡ m) × (r.2.now ≡ rest)) }
{
    let rest = expect(tokens, Sign::Open)?;
    let (indexes, rest) = list(&Indexes, alloc, rest)?;
    let (mask, rest) = last(alloc, Sign::Comma, rest)?;
    let rest = expect(rest, Sign::Close)?;
    Ok((indexes, mask, rest))
}

/// The arrays of ALLOCATE.
pub struct Allocations;

impl Reader for Allocations {
    type Of = Part;

    ghost reads = { λ _. statements.ReadsAllocation };

    ghost begins = { λ _ _. true };

    fn is_next(&self, _tokens: &[Token]) -> bool {
        true
    }

    /// name ( shape )
    fn read<'a>(
        &self,
        alloc: Global,
        tokens: &'a [Token],
    ) -> Result<(Reading<Part>, &'a [Token]), Failed> {
        let Some((array, rest)) = name(tokens) else {
            return Err(Failed::Syntax);
        };
        let (bounds, rest) = shape(alloc, rest)?;
        Ok((allocation(array.copy(alloc)?, bounds), rest))
    }

    ghost use Rattle.std.specs.Prelude.{refl};

    ghost begun = { λ _ _ _ _ _. refl };
}

/// The names of DEALLOCATE.
pub struct Names;

impl Reader for Names {
    type Of = Name;

    ghost reads = { λ _. statements.ReadsName };

    ghost begins = { λ _ _. true };

    fn is_next(&self, _tokens: &[Token]) -> bool {
        true
    }

    fn read<'a>(
        &self,
        alloc: Global,
        tokens: &'a [Token],
    ) -> Result<(Reading<Name>, &'a [Token]), Failed> {
        let Some((array, rest)) = name(tokens) else {
            return Err(Failed::Syntax);
        };
        Ok((listed(array.copy(alloc)?), rest))
    }

    ghost use Rattle.std.specs.Prelude.{refl};

    ghost begun = { λ _ _ _ _ _. refl };
}
