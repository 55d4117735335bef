//! The counts of expressions.

ghost use Rattle.std.specs.Prelude.{◌≡◌};
ghost use Rattle.ws_types.specs.Expressions.{typed};
ghost use Rattle.ws_types.specs.Sections as sections;
ghost use Rattle.ws_counts.specs.Pieces as pieces;
ghost use Rattle.ws_counts.specs.Lists as lists;
ghost use Rattle.ws_counts.specs.Tallies.{tallied};

use crate::tally::{Piece, Tally, count};
use ws_base::{CallWord, UnOp};
use ws_tree::{Expr, Sub};
use ws_types::{Row, Typed, expr, is_reduction};

/// A section or constructor, where parentheses and a plus in front of one are no operation.
#[tactic(auto, unfolding(ws_tree::specs::Opened::trees_open))]
fn is_section(e: &Expr) -> bool
    ensures { result ≡ sections.is_section e.now }
{
    match e {
        Expr::Part(..) | Expr::Vector(_) => true,
        Expr::Paren(e) => is_section(e.get()),
        Expr::Unary(UnOp::Plus, e) => is_section(e.get()),
        _ => false,
    }
}

fn is_designator(e: &Expr) -> bool
    ensures { result ≡ sections.is_designator e.now }
{
    match e {
        Expr::Named(_) => true,
        _ => is_section(e),
    }
}

fn type_of(table: &[Row], inside: bool, e: &Expr) -> Option<Typed>
    ensures { result ≡ typed table.now inside e.now }
{
    let mut known = None;
    expr(&mut known, table, inside, 0, e)
}

fn is_vector(typed: Option<Typed>) -> bool
    ensures { result ≡ pieces.is_vector typed }
{
    match typed {
        None => false,
        Some(typed) => !typed.truth && typed.rank == 1,
    }
}

/// A vector subscript that is evaluated whole: no designator and no constructor.
#[tactic(auto, unfolding(crate::specs::Pieces::is_whole))]
fn is_whole(table: &[Row], inside: bool, e: &Expr) -> bool
    ensures { result ≡ pieces.is_whole table.now inside e.now }
{
    !is_designator(e) && is_vector(type_of(table, inside, e))
}

#[tactic(auto, using(crate::proofs::Tallied::tallied_rules), unfolding(crate::specs::Pieces::call_pieces))]
fn count_call(tally: &mut Tally, word: CallWord)
    ensures { tally.new ≡ tallied tally.old (pieces.call_pieces word) }
{
    count(tally, Piece::Part);
    if is_reduction(word) {
        count(tally, Piece::Reduction);
    }
}

#[tactic(auto, using(crate::proofs::Tallied::tallied_rules), unfolding(crate::specs::Pieces::subscript_pieces))]
fn count_subscript(tally: &mut Tally, mask: bool, whole: bool)
    ensures { tally.new ≡ tallied tally.old (pieces.subscript_pieces mask whole) }
{
    count(tally, Piece::Part);
    if whole {
        count(tally, Piece::Whole { mask });
    }
}

/// Operators, calls, call arguments, constructor items and subscripts, reductions and vector subscripts that are evaluated
/// whole. `inside` says that the expression stands in the mask or body of a FORALL, and `mask` that it stands in a mask.
/// A subscript is typed once for each subscript that holds it, of which there are at most 64.
#[cycle(counting)]
#[tactic(auto, using(crate::proofs::Walks::walk_rules), unfolding(ws_tree::specs::Opened::trees_open))]
pub fn count_expr(tally: &mut Tally, table: &[Row], inside: bool, mask: bool, e: &Expr)
    ensures { tally.new ≡ tallied tally.old (pieces.pieces table.now inside mask e.now) }
{
    match e {
        Expr::Part(_, subs) => count_subs(tally, table, inside, mask, subs.as_slice()),
        Expr::Call(word, es) => {
            count_call(tally, *word);
            count_all(tally, table, inside, mask, es.as_slice());
        }
        Expr::Vector(es) => count_all(tally, table, inside, mask, es.as_slice()),
        Expr::Paren(e) => count_expr(tally, table, inside, mask, e.get()),
        Expr::Unary(_, e) => {
            count(tally, Piece::Part);
            count_expr(tally, table, inside, mask, e.get());
        }
        Expr::Binary(_, a, b) => {
            count(tally, Piece::Part);
            count_expr(tally, table, inside, mask, a.get());
            count_expr(tally, table, inside, mask, b.get());
        }
        Expr::Number(_) | Expr::TooWide | Expr::TooDeep | Expr::Truth(_) | Expr::Named(_) => {}
    }
}

#[cycle(counting)]
#[tactic(auto, using(crate::proofs::Walks::walk_rules))]
fn count_all(tally: &mut Tally, table: &[Row], inside: bool, mask: bool, es: &[Expr])
    ensures { tally.new ≡ tallied tally.old (lists.all_pieces table.now inside mask es.now) }
{
    'each: for e in es {
        count_item(tally, table, inside, mask, e);
    }
}

/// A call's argument or a constructor's item.
#[cycle(counting)]
#[tactic(auto, using(crate::proofs::Walks::walk_rules))]
fn count_item(tally: &mut Tally, table: &[Row], inside: bool, mask: bool, e: &Expr)
    ensures { tally.new ≡ tallied tally.old (lists.item_pieces table.now inside mask e.now) }
{
    count(tally, Piece::Part);
    count_expr(tally, table, inside, mask, e);
}

#[cycle(counting)]
#[tactic(auto, using(crate::proofs::Walks::walk_rules))]
fn count_subs(tally: &mut Tally, table: &[Row], inside: bool, mask: bool, subs: &[Sub])
    ensures { tally.new ≡ tallied tally.old (lists.subs_pieces table.now inside mask subs.now) }
{
    'each: for sub in subs {
        count_sub(tally, table, inside, mask, sub);
    }
}

#[cycle(counting)]
#[tactic(auto, using(crate::proofs::Walks::walk_rules), unfolding(ws_tree::specs::Opened::trees_open))]
fn count_sub(tally: &mut Tally, table: &[Row], inside: bool, mask: bool, sub: &Sub)
    ensures { tally.new ≡ tallied tally.old (pieces.sub_pieces table.now inside mask sub.now) }
{
    match sub {
        Sub::One(e) => {
            count_subscript(tally, mask, is_whole(table, inside, e));
            count_expr(tally, table, inside, mask, e);
        }
        Sub::Range { l, u, s } => {
            count(tally, Piece::Part);
            count_given(tally, table, inside, mask, l);
            count_given(tally, table, inside, mask, u);
            count_given(tally, table, inside, mask, s);
        }
    }
}

/// An expression that may be omitted.
#[cycle(counting)]
#[tactic(auto, using(crate::proofs::Walks::walk_rules), unfolding(ws_tree::specs::Opened::trees_open))]
pub fn count_given(tally: &mut Tally, table: &[Row], inside: bool, mask: bool, e: &Option<Expr>)
    ensures { tally.new ≡ tallied tally.old (pieces.given_pieces table.now inside mask e.now) }
{
    match e {
        None => {}
        Some(e) => count_expr(tally, table, inside, mask, e),
    }
}
