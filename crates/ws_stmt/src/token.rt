//! Single tokens at the front, and what follows them.
ghost use Rattle.std.specs.Prelude.{◌≡◌, ℕ, Option, IfOk, IfSome, IfNone, List};
ghost use Rattle.ws_lex.specs.declared.token.Token.{Token};
ghost use Rattle.ws_expr.specs.Parsing.{Follows, Answers};
ghost use Rattle.ws_stmt.specs.Roles as roles;
ghost use Rattle.ws_stmt.specs.Statements as statements;

use crate::role::is_word;
use ws_base::Name;
use ws_expr::{Failed, after};
use ws_lex::{Sign, Token, TokenKind};

/// What follows the sign, which has to stand at the front.
pub fn expect(tokens: &[Token], sign: Sign) -> Result<&[Token], Failed>
    ensures sound { IfOk result (λ r. Follows sign tokens.now r.now) }
    ensures complete { (rest : List Token) → Follows sign tokens.now rest → Answers result (λ r. r.now ≡ rest) }
{
    match after(tokens, sign) {
        Some(rest) => Ok(rest),
        None => Err(Failed::Syntax),
    }
}

/// The word at the front, and what follows it.
pub fn name(tokens: &[Token]) -> Option<(&Name, &[Token])>
    ensures some { IfSome result (λ r. statements.Names r.0.now tokens.now r.1.now) }
    ensures none { IfNone result ((x : List ℕ) (rest : List Token) → statements.Names x tokens.now rest → ⊥) }
{
    match tokens.split_first() {
        Some((first, rest)) => match &first.what {
            TokenKind::Word(name) => Some((name, rest)),
            _ => None,
        },
        None => None,
    }
}

/// What follows the word, where it stands at the front.
pub fn after_word<'a>(tokens: &'a [Token], word: &[u8]) -> Option<&'a [Token]>
    ensures some { IfSome result (λ r. statements.HasWord word.now tokens.now r.now) }
    ensures none { IfNone result ((rest : List Token) → statements.HasWord word.now tokens.now rest → ⊥) }
{
    match tokens.split_first() {
        Some((first, rest)) if is_word(word, &first.what) => Some(rest),
        _ => None,
    }
}

fn is_digits(what: &TokenKind) -> bool
    ensures { result ≡ statements.is_digits what.now }
{
    matches!(what, TokenKind::Digits(_))
}

/// What follows a digit string, where one stands at the front.
pub fn after_digits(tokens: &[Token]) -> Option<&[Token]>
    ensures some { IfSome result (λ r. statements.Has statements.is_digits tokens.now r.now) }
    ensures none { IfNone result ((rest : List Token) → statements.Has statements.is_digits tokens.now rest → ⊥) }
{
    match tokens.split_first() {
        Some((first, rest)) if is_digits(&first.what) => Some(rest),
        _ => None,
    }
}

/// No token is left.
pub fn is_done(tokens: &[Token]) -> bool
    ensures { result ≡ roles.is_nothing tokens.now }
{
    tokens.is_empty()
}
