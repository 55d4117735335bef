//! Lists with commas.
ghost use Rattle.std.specs.Prelude.{◌≡◌, ◌<◌, List, Bool, Option, IfOk, IfSome, IfNone, length, true};
ghost use Rattle.ws_lex.specs.declared.token.Token.{Token};
ghost use Rattle.ws_expr.specs.declared.reading.Reading.{Reading};
ghost use Rattle.ws_expr.specs.declared.reading.Gathered.{Gathered};
ghost use Rattle.ws_expr.specs.Parsing.{Answers};
ghost use Rattle.ws_stmt.specs.Statements as statements;
ghost use Rattle.ws_stmt.specs.Parsing as parsing;

use crate::token::expect;
use std::alloc::{AllocError, Global};
use ws_expr::{Failed, Gathered, Reading, after};
use ws_lex::{Sign, Token};

/// The parts of a list, and what follows it.
type Listed<'a, T> = Result<(Gathered<T>, &'a [Token]), Failed>;

/// How a part of a list is read.
pub trait Reader {
    type Of: Drop;

    ghost reads: { Self → List Token → Reading Self.Of → List Token → Type 0 };

    ghost begins: { Self → List Token → Bool };

    /// A part may begin here.
    fn is_next(&self, tokens: &[Token]) -> bool
        ensures { result ≡ begins self.now tokens.now };

    /// The part at the front, and what follows it.
    fn read<'a>(
        &self,
        alloc: Global,
        tokens: &'a [Token],
    ) -> Result<(Reading<Self::Of>, &'a [Token]), Failed>
        ensures sound { IfOk result (λ r. reads self.now tokens.now r.0 r.1.now) }
        ensures shorter { IfOk result (λ r. length r.1.now < length tokens.now) }
        ensures complete { (x : Reading Self.Of) (rest : List Token) → reads self.now tokens.now x rest → parsing.Ends rest → Answers result (λ r. (r.0 ≡ x) × (r.1.now ≡ rest)) };

    ghost begun: { (r : Self) (ts : List Token) (x : Reading Self.Of) (rest : List Token) → reads r ts x rest → begins r ts ≡ true };
}

/// What follows a comma, where a further part stands there.
fn next_part<'a, R: Reader>(reader: &R, tokens: &'a [Token]) -> Option<&'a [Token]>
    ensures some { IfSome result (λ r. parsing.Continues (R.begins reader.now) tokens.now r.now) }
    ensures none { IfNone result ((rest : List Token) → parsing.Continues (R.begins reader.now) tokens.now rest → ⊥) }
{
    match after(tokens, Sign::Comma) {
        None => None,
        Some(rest) => {
            if reader.is_next(rest) {
                Some(rest)
            } else {
                None
            }
        }
    }
}

/// part {, part}
pub fn list<'a, R: Reader>(reader: &R, alloc: Global, tokens: &'a [Token]) -> Listed<'a, R::Of>
    ensures sound { IfOk result (λ r. statements.Lists (R.reads reader.now) tokens.now r.0 r.1.now) }
    ensures shorter { IfOk result (λ r. length r.1.now < length tokens.now) }
    ensures complete { (xs : Gathered R.Of) (rest : List Token) → statements.Lists (R.reads reader.now) tokens.now xs rest → parsing.EndsList (R.begins reader.now) rest → Answers result (λ r. (r.0 ≡ xs) × (r.1.now ≡ rest)) }
{
    let mut items = Gathered::new(alloc);
    let (x, mut rest) = reader.read(alloc, tokens)?;
    items.push(x)?;
    'items: while let Some(after) = next_part(reader, rest) {
        let (x, after) = reader.read(alloc, after)?;
        items.push(x)?;
        rest = after;
    }
    Ok((items, rest))
}

/// ( part {, part} )
pub fn list_in_parens<'a, R: Reader>(
    reader: &R,
    alloc: Global,
    tokens: &'a [Token],
) -> Listed<'a, R::Of>
    ensures sound { IfOk result (λ r. statements.ListsInParens (R.reads reader.now) tokens.now r.0 r.1.now) }
    ensures shorter { IfOk result (λ r. length r.1.now < length tokens.now) }
    ensures complete { (xs : Gathered R.Of) (rest : List Token) → statements.ListsInParens (R.reads reader.now) tokens.now xs rest → Answers result (λ r. (r.0 ≡ xs) × (r.1.now ≡ rest)) }
{
    let rest = expect(tokens, Sign::Open)?;
    let (items, rest) = list(reader, alloc, rest)?;
    let rest = expect(rest, Sign::Close)?;
    Ok((items, rest))
}
