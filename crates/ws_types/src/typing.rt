//! Type and rank of expressions, and the faults in them.

ghost use Rattle.std.specs.Prelude.{◌≡◌, ◌≤◌, ◌+◌, ◌<◌, length};
ghost use Rattle.ws_types.specs.Kinds.{least_from};
ghost use Rattle.ws_types.specs.Expressions as expressions;
ghost use Rattle.ws_types.specs.Lists as lists;
ghost use Rattle.ws_types.specs.Operations.{no_subscripts, no_arguments, is_scalar};

use crate::least::note;
use crate::names::{check_name, name_type, standing_of};
use crate::operations::{
    binary, call, check_scalar, check_subscript, inquiry, is_inquiry, is_scalar, part, unary,
    vector, with_argument, with_subscript, with_triplet,
};
use crate::types::{Arguments, Row, Standing, Subscripts, Typed};
use ws_base::{CallWord, Name, Refusal, RefusalKind};
use ws_tree::{Expr, Sub, takes};

/// The greatest digit string.
const NUMBER_LIMIT: u32 = 2_147_483_647;

const LOGICAL: Typed = Typed {
    truth: true,
    rank: 0,
};

const NO_ARGUMENTS: Arguments = Arguments {
    sound: true,
    truths: false,
    numbers: false,
    scalars: false,
    rank: 0,
    mixed: false,
    truths_before: false,
    numbers_before: false,
    last: None,
};

const NO_SUBSCRIPTS: Subscripts = Subscripts {
    sound: true,
    rank: 0,
    vectors: false,
};

#[tactic(auto, unfolding(crate::specs::Expressions::number_faults))]
fn number(found: &mut Option<Refusal>, line: u32, n: u32) -> Option<Typed>
    ensures value { result ≡ expressions.number_type n }
    ensures faults { found.new ≡ least_from found.old (expressions.number_faults line n) }
{
    let wide = NUMBER_LIMIT < n;
    note(found, wide, line, RefusalKind::OverLimit);
    if wide {
        None
    } else {
        Some(Typed {
            truth: false,
            rank: 0,
        })
    }
}

#[tactic(auto, unfolding(crate::specs::Expressions::wide_faults))]
fn wide(found: &mut Option<Refusal>, line: u32)
    ensures { found.new ≡ least_from found.old (expressions.wide_faults line) }
{
    note(found, true, line, RefusalKind::OverLimit);
}

fn named(found: &mut Option<Refusal>, table: &[Row], line: u32, name: &Name) -> Option<Typed>
    ensures value { result ≡ expressions.named_type table.now name.now }
    ensures faults { found.new ≡ least_from found.old (expressions.named_faults table.now line name.now) }
{
    let standing = standing_of(table, name);
    check_name(found, line, standing);
    name_type(standing)
}

/// Type and rank of an expression, where no rule refuses a part of it. `inside` says that it stands in the mask or
/// body of a FORALL.
#[cycle(judging)]
#[tactic(auto, using(crate::proofs::Walks::walk_rules), unfolding(ws_tree::specs::Opened::trees_open))]
pub fn expr(
    found: &mut Option<Refusal>,
    table: &[Row],
    inside: bool,
    line: u32,
    e: &Expr,
) -> Option<Typed>
    ensures value { result ≡ expressions.typed table.now inside e.now }
    ensures faults { found.new ≡ least_from found.old (expressions.faults table.now inside line e.now) }
{
    match e {
        Expr::Number(n) => number(found, line, *n),
        Expr::TooWide | Expr::TooDeep => {
            wide(found, line);
            None
        }
        Expr::Truth(_) => Some(LOGICAL),
        Expr::Named(name) => named(found, table, line, name),
        Expr::Part(name, subs) => {
            let array = named(found, table, line, name);
            let subscripts = subs_of(found, table, inside, line, subs.as_slice());
            part(found, line, array, subs.len(), subscripts)
        }
        Expr::Call(word, es) => called(found, table, inside, line, *word, es.as_slice()),
        Expr::Vector(es) => {
            let items = arguments(found, table, inside, line, es.as_slice());
            vector(found, line, inside, es.len(), items)
        }
        Expr::Paren(e) => expr(found, table, inside, line, e.get()),
        Expr::Unary(op, e) => {
            let typed = expr(found, table, inside, line, e.get());
            unary(found, line, *op, typed)
        }
        Expr::Binary(op, a, b) => {
            let a = expr(found, table, inside, line, a.get());
            let b = expr(found, table, inside, line, b.get());
            binary(found, line, *op, a, b)
        }
    }
}

/// What the first argument, a name, stands for.
fn first_standing(table: &[Row], es: &[Expr]) -> Option<Standing>
    ensures { result ≡ expressions.first_standing table.now es.now }
{
    match es {
        [Expr::Named(name), ..] => standing_of(table, name),
        _ => None,
    }
}

#[cycle(judging)]
#[tactic(auto, using(crate::proofs::Walks::walk_rules))]
fn called(
    found: &mut Option<Refusal>,
    table: &[Row],
    inside: bool,
    line: u32,
    word: CallWord,
    es: &[Expr],
) -> Option<Typed>
    ensures value { result ≡ expressions.called_type table.now inside word es.now (lists.arguments table.now inside no_arguments es.now) }
    ensures faults { found.new ≡ least_from found.old (expressions.called_faults table.now inside line word es.now (lists.all_faults table.now inside line es.now) (lists.arguments table.now inside no_arguments es.now)) }
{
    if !takes(word, es) {
        note(found, true, line, RefusalKind::Unsupported);
        return None;
    }
    if is_inquiry(word) {
        return inquiry(found, line, word, first_standing(table, es), es);
    }
    let arguments = arguments(found, table, inside, line, es);
    call(found, line, inside, word, arguments)
}

#[cycle(judging)]
#[tactic(auto, using(crate::proofs::Walks::walk_rules))]
fn arguments(
    found: &mut Option<Refusal>,
    table: &[Row],
    inside: bool,
    line: u32,
    es: &[Expr],
) -> Arguments
    ensures value { result ≡ lists.arguments table.now inside no_arguments es.now }
    ensures faults { found.new ≡ least_from found.old (lists.all_faults table.now inside line es.now) }
{
    let mut arguments = NO_ARGUMENTS;
    'each: for e in es {
        let typed = expr(found, table, inside, line, e);
        arguments = with_argument(arguments, typed);
    }
    arguments
}

#[cycle(judging)]
#[tactic(auto, using(crate::proofs::Walks::walk_rules))]
pub fn subs_of(
    found: &mut Option<Refusal>,
    table: &[Row],
    inside: bool,
    line: u32,
    subs: &[Sub],
) -> Subscripts
    ensures value { result ≡ lists.subscripts table.now inside no_subscripts subs.now }
    ensures faults { found.new ≡ least_from found.old (lists.subs_faults table.now inside line subs.now) }
{
    let mut subscripts = NO_SUBSCRIPTS;
    'each: for sub in subs {
        subscripts = with_sub(found, table, inside, line, subscripts, sub);
    }
    subscripts
}

#[cycle(judging)]
#[tactic(auto, using(crate::proofs::Walks::walk_rules), unfolding(ws_tree::specs::Opened::trees_open))]
fn with_sub(
    found: &mut Option<Refusal>,
    table: &[Row],
    inside: bool,
    line: u32,
    subscripts: Subscripts,
    sub: &Sub,
) -> Subscripts
    requires { subscripts.rank < usize.MAX }
    ensures value { result ≡ expressions.with_sub table.now inside subscripts sub.now }
    ensures faults { found.new ≡ least_from found.old (expressions.sub_faults table.now inside line sub.now) }
    ensures rank { result.rank ≤ subscripts.rank + 1 }
{
    match sub {
        Sub::One(e) => {
            let typed = expr(found, table, inside, line, e);
            check_subscript(found, line, typed);
            with_subscript(subscripts, typed)
        }
        Sub::Range { l, u, s } => {
            let l = triplet_part(found, table, inside, line, l);
            let u = triplet_part(found, table, inside, line, u);
            let s = triplet_part(found, table, inside, line, s);
            with_triplet(subscripts, l && u && s)
        }
    }
}

/// Whether a part of a triplet is sound: an INTEGER of rank 0, or omitted.
#[cycle(judging)]
#[tactic(auto, using(crate::proofs::Walks::walk_rules), unfolding(ws_tree::specs::Opened::trees_open))]
pub fn triplet_part(
    found: &mut Option<Refusal>,
    table: &[Row],
    inside: bool,
    line: u32,
    e: &Option<Expr>,
) -> bool
    ensures value { result ≡ lists.is_sound table.now inside e.now }
    ensures faults { found.new ≡ least_from found.old (lists.given_faults table.now inside line e.now) }
{
    match e {
        None => true,
        Some(e) => {
            let typed = expr(found, table, inside, line, e);
            check_scalar(found, line, typed);
            is_scalar(typed)
        }
    }
}
