//! The operators: how tightly each one binds (Fortran 2018, 10.1.2), and which token it is.
ghost use Rattle.std.specs.Prelude.{◌≡◌, Option, IfSome, IfNone, None};
ghost use Rattle.ws_expr.specs.Ranks as ranks;
ghost use Rattle.ws_expr.specs.Parsing as parsing;

use ws_base::{BinOp, UnOp};
use ws_lex::{Sign, Token, TokenKind};

fn joining(what: &TokenKind) -> Option<BinOp>
    ensures { result ≡ ranks.joining what.now }
{
    match what {
        TokenKind::Sign(sign) => match sign {
            Sign::Plus => Some(BinOp::Add),
            Sign::Minus => Some(BinOp::Sub),
            Sign::Star => Some(BinOp::Mul),
            Sign::Slash => Some(BinOp::Div),
            Sign::Power => Some(BinOp::Pow),
            Sign::Equal => Some(BinOp::Eq),
            Sign::NotEqual => Some(BinOp::Ne),
            Sign::Less => Some(BinOp::Lt),
            Sign::LessEqual => Some(BinOp::Le),
            Sign::Greater => Some(BinOp::Gt),
            Sign::GreaterEqual => Some(BinOp::Ge),
            Sign::And => Some(BinOp::And),
            Sign::Or => Some(BinOp::Or),
            Sign::Eqv => Some(BinOp::Eqv),
            Sign::Neqv => Some(BinOp::Neqv),
            _ => None,
        },
        _ => None,
    }
}

/// The greatest rank of the left operand, the rank of the operator, and the greatest rank of the right operand.
fn ranks_of(op: BinOp) -> (u8, u8, u8)
    ensures { result ≡ ranks.ranks op }
{
    match op {
        BinOp::Pow => (0, 1, 1),
        BinOp::Mul | BinOp::Div => (2, 2, 1),
        BinOp::Add | BinOp::Sub => (3, 3, 2),
        BinOp::Eq | BinOp::Ne | BinOp::Lt | BinOp::Le | BinOp::Gt | BinOp::Ge => (3, 4, 3),
        BinOp::And => (6, 6, 5),
        BinOp::Or => (7, 7, 6),
        BinOp::Eqv | BinOp::Neqv => (8, 8, 7),
    }
}

pub fn rank(op: BinOp) -> u8
    ensures { result ≡ ranks.rank op }
{
    ranks_of(op).1
}

pub fn right_rank(op: BinOp) -> u8
    ensures { result ≡ ranks.right_rank op }
{
    ranks_of(op).2
}

pub fn sign_rank(op: UnOp) -> u8
    ensures { result ≡ ranks.sign_rank op }
{
    match op {
        UnOp::Minus | UnOp::Plus => 3,
        UnOp::Not => 5,
    }
}

pub fn operand_rank(op: UnOp) -> u8
    ensures { result ≡ ranks.operand_rank op }
{
    match op {
        UnOp::Minus | UnOp::Plus => 2,
        UnOp::Not => 4,
    }
}

/// The operator at the front, if it may follow an expression of rank `bound` in one of rank `limit`.
pub fn next_operator(tokens: &[Token], bound: u8, limit: u8) -> Option<(BinOp, &[Token])>
    ensures some { IfSome result (λ r. parsing.Joins bound limit tokens.now r.0 r.1.now) }
    ensures none { IfNone result (parsing.next_op bound limit tokens.now ≡ None) }
{
    let (first, rest) = tokens.split_first()?;
    let op = joining(&first.what)?;
    let (left, own, _) = ranks_of(op);
    if bound <= left && own <= limit {
        Some((op, rest))
    } else {
        None
    }
}

fn leading(what: &TokenKind) -> Option<UnOp>
    ensures { result ≡ ranks.leading what.now }
{
    match what {
        TokenKind::Sign(Sign::Plus) => Some(UnOp::Plus),
        TokenKind::Sign(Sign::Minus) => Some(UnOp::Minus),
        TokenKind::Sign(Sign::Not) => Some(UnOp::Not),
        _ => None,
    }
}

pub fn first_operator(tokens: &[Token], limit: u8) -> Option<(UnOp, &[Token])>
    ensures some { IfSome result (λ r. parsing.Leads limit tokens.now r.0 r.1.now) }
    ensures none { IfNone result (parsing.first_op limit tokens.now ≡ None) }
{
    let (first, rest) = tokens.split_first()?;
    let op = leading(&first.what)?;
    if sign_rank(op) <= limit {
        Some((op, rest))
    } else {
        None
    }
}
