//! The rules on operators, subscripts, constructors and calls.

ghost use Rattle.std.specs.Prelude.{◌≡◌, ◌<◌, if◌then◌else◌, Some, None};
ghost use Rattle.ws_types.specs.Kinds.{least_from};
ghost use Rattle.ws_types.specs.Operations as operations;

use crate::least::note;
use crate::names::{check_name, is_no_allocatable, name_type};
use crate::types::{Arguments, Standing, Subscripts, Typed};
use ws_base::{BinOp, CallWord, Refusal, RefusalKind, UnOp};
use ws_tree::Expr;

/// The greatest number of items of a constructor.
const ITEM_LIMIT: usize = 256;

fn takes_truth(op: UnOp) -> bool
    ensures { result ≡ operations.takes_truth op }
{
    matches!(op, UnOp::Not)
}

fn joins_truths(op: BinOp) -> bool
    ensures { result ≡ operations.joins_truths op }
{
    matches!(op, BinOp::And | BinOp::Or | BinOp::Eqv | BinOp::Neqv)
}

fn gives_truth(op: BinOp) -> bool
    ensures { result ≡ operations.gives_truth op }
{
    !matches!(
        op,
        BinOp::Add | BinOp::Sub | BinOp::Mul | BinOp::Div | BinOp::Pow
    )
}

fn same_truth(a: bool, b: bool) -> bool
    ensures { result ≡ operations.same_truth a b }
{
    if a { b } else { !b }
}

/// The part has a type, and another one than this.
pub fn is_other_type(truth: bool, typed: Option<Typed>) -> bool
    ensures { result ≡ operations.is_other_type truth typed }
{
    match typed {
        None => false,
        Some(typed) => !same_truth(truth, typed.truth),
    }
}

/// The part has a rank above this.
pub fn is_above(rank: usize, typed: Option<Typed>) -> bool
    ensures { result ≡ operations.is_above rank typed }
{
    match typed {
        None => false,
        Some(typed) => rank < typed.rank,
    }
}

/// The type and rank of what no rule refuses.
fn unless(refused: bool, typed: Typed) -> Option<Typed>
    ensures { result ≡ (if refused then None else Some typed) }
{
    if refused { None } else { Some(typed) }
}

fn differ(m: usize, n: usize) -> bool
    ensures { result ≡ operations.differ m n }
{
    0 < m && 0 < n && m != n
}

fn ranks_differ(a: Option<Typed>, b: Option<Typed>) -> bool
    ensures { result ≡ operations.ranks_differ a b }
{
    match (a, b) {
        (Some(a), Some(b)) => differ(a.rank, b.rank),
        _ => false,
    }
}

/// `-e` and `+e` of an INTEGER, `.not. e` of a LOGICAL (Fortran 2018, 10.1.5).
#[tactic(auto, unfolding(crate::specs::Operations::unary_type, crate::specs::Operations::unary_faults))]
pub fn unary(
    found: &mut Option<Refusal>,
    line: u32,
    op: UnOp,
    typed: Option<Typed>,
) -> Option<Typed>
    ensures value { result ≡ operations.unary_type op typed }
    ensures faults { found.new ≡ least_from found.old (operations.unary_faults line op typed) }
{
    let wrong = is_other_type(takes_truth(op), typed);
    note(found, wrong, line, RefusalKind::TypeWrong);
    if wrong { None } else { typed }
}

fn joined_type(op: BinOp, a: Option<Typed>, b: Option<Typed>) -> Option<Typed>
    ensures { result ≡ operations.joined_type op a b }
{
    match (a, b) {
        (Some(a), Some(b)) => Some(Typed {
            truth: gives_truth(op),
            rank: a.rank.max(b.rank),
        }),
        _ => None,
    }
}

/// An operator between two operands of its type, whose ranks are equal where neither is 0 (Fortran 2018, 10.1.5).
#[tactic(auto, using(crate::proofs::Appended::least_rules), unfolding(crate::specs::Operations::binary_type, crate::specs::Operations::binary_faults))]
pub fn binary(
    found: &mut Option<Refusal>,
    line: u32,
    op: BinOp,
    a: Option<Typed>,
    b: Option<Typed>,
) -> Option<Typed>
    ensures value { result ≡ operations.binary_type op a b }
    ensures faults { found.new ≡ least_from found.old (operations.binary_faults line op a b) }
{
    let truths = joins_truths(op);
    let wrong_type = is_other_type(truths, a) || is_other_type(truths, b);
    let wrong_rank = ranks_differ(a, b);
    note(found, wrong_type, line, RefusalKind::TypeWrong);
    note(found, wrong_rank, line, RefusalKind::RankWrong);
    if wrong_type || wrong_rank {
        None
    } else {
        joined_type(op, a, b)
    }
}

/// An INTEGER of at most this rank.
#[tactic(auto, using(crate::proofs::Appended::least_rules))]
fn check_integer(found: &mut Option<Refusal>, rank: usize, line: u32, typed: Option<Typed>)
    ensures { found.new ≡ least_from found.old (operations.integer_faults rank line typed) }
{
    let wrong = is_other_type(false, typed);
    note(found, wrong, line, RefusalKind::TypeWrong);
    note(found, is_above(rank, typed), line, RefusalKind::RankWrong);
}

/// A triplet part, a bound, a header or DO expression: INTEGER, of rank 0.
#[tactic(auto, unfolding(crate::specs::Operations::scalar_faults))]
pub fn check_scalar(found: &mut Option<Refusal>, line: u32, typed: Option<Typed>)
    ensures { found.new ≡ least_from found.old (operations.scalar_faults line typed) }
{
    check_integer(found, 0, line, typed);
}

pub fn is_scalar(typed: Option<Typed>) -> bool
    ensures { result ≡ operations.is_scalar typed }
{
    match typed {
        None => false,
        Some(typed) => !typed.truth && typed.rank == 0,
    }
}

/// A subscript that is no triplet: INTEGER, of rank 0 or 1 (Fortran 2018, 9.5.3).
#[tactic(auto, unfolding(crate::specs::Operations::subscript_faults))]
pub fn check_subscript(found: &mut Option<Refusal>, line: u32, typed: Option<Typed>)
    ensures { found.new ≡ least_from found.old (operations.subscript_faults line typed) }
{
    check_integer(found, 1, line, typed);
}

pub fn with_subscript(subscripts: Subscripts, typed: Option<Typed>) -> Subscripts
    requires { subscripts.rank < usize.MAX }
    ensures { result ≡ operations.with_subscript subscripts typed }
{
    match typed {
        None => Subscripts {
            sound: false,
            rank: subscripts.rank,
            vectors: subscripts.vectors,
        },
        Some(typed) => Subscripts {
            sound: subscripts.sound && !typed.truth && typed.rank <= 1,
            rank: if 0 < typed.rank {
                subscripts.rank + 1
            } else {
                subscripts.rank
            },
            vectors: subscripts.vectors || 0 < typed.rank,
        },
    }
}

pub fn with_triplet(subscripts: Subscripts, sound: bool) -> Subscripts
    requires { subscripts.rank < usize.MAX }
    ensures { result ≡ operations.with_triplet subscripts sound }
{
    Subscripts {
        sound: subscripts.sound && sound,
        rank: subscripts.rank + 1,
        vectors: subscripts.vectors,
    }
}

fn is_other_number(array: Option<Typed>, count: usize) -> bool
    ensures { result ≡ operations.is_other_number array count }
{
    match array {
        None => false,
        Some(array) => array.rank != count,
    }
}

fn selected_type(array: Option<Typed>, subscripts: Subscripts) -> Option<Typed>
    ensures { result ≡ operations.selected_type array subscripts }
{
    match array {
        None => None,
        Some(array) => {
            if subscripts.sound {
                Some(Typed {
                    truth: array.truth,
                    rank: subscripts.rank,
                })
            } else {
                None
            }
        }
    }
}

/// An element or section: as many subscripts as the rank, of which those that are not scalar make the section's rank
/// (Fortran 2018, 9.5.3).
#[tactic(auto, unfolding(crate::specs::Operations::part_type, crate::specs::Operations::part_faults))]
pub fn part(
    found: &mut Option<Refusal>,
    line: u32,
    array: Option<Typed>,
    count: usize,
    subscripts: Subscripts,
) -> Option<Typed>
    ensures value { result ≡ operations.part_type array count subscripts }
    ensures faults { found.new ≡ least_from found.old (operations.part_faults line array count) }
{
    let wrong = is_other_number(array, count);
    note(found, wrong, line, RefusalKind::RankWrong);
    if wrong {
        None
    } else {
        selected_type(array, subscripts)
    }
}

pub fn with_argument(arguments: Arguments, typed: Option<Typed>) -> Arguments
    ensures { result ≡ operations.with_argument arguments typed }
{
    match typed {
        None => Arguments {
            sound: false,
            truths_before: arguments.truths,
            numbers_before: arguments.numbers,
            last: None,
            ..arguments
        },
        Some(typed) => Arguments {
            sound: arguments.sound,
            truths: arguments.truths || typed.truth,
            numbers: arguments.numbers || !typed.truth,
            scalars: arguments.scalars || typed.rank == 0,
            rank: arguments.rank.max(typed.rank),
            mixed: arguments.mixed || differ(arguments.rank, typed.rank),
            truths_before: arguments.truths,
            numbers_before: arguments.numbers,
            last: Some(typed),
        },
    }
}

/// A constructor of scalars of one type (Fortran 2018, 7.8), which may not stand inside a FORALL.
#[tactic(auto, using(crate::proofs::Appended::least_rules), unfolding(crate::specs::Operations::vector_type, crate::specs::Operations::vector_faults))]
pub fn vector(
    found: &mut Option<Refusal>,
    line: u32,
    inside: bool,
    count: usize,
    items: Arguments,
) -> Option<Typed>
    ensures value { result ≡ operations.vector_type inside count items }
    ensures faults { found.new ≡ least_from found.old (operations.vector_faults line inside count items) }
{
    let left_out = inside || 0 < items.rank;
    let mixed = items.truths && items.numbers;
    let many = ITEM_LIMIT < count;
    note(found, left_out, line, RefusalKind::Unsupported);
    note(found, mixed, line, RefusalKind::TypeWrong);
    note(found, many, line, RefusalKind::OverLimit);
    let typed = Typed {
        truth: items.truths,
        rank: 1,
    };
    unless(left_out || mixed || many || !items.sound, typed)
}

pub fn is_inquiry(word: CallWord) -> bool
    ensures { result ≡ operations.is_inquiry word }
{
    matches!(
        word,
        CallWord::Size | CallWord::Lbound | CallWord::Ubound | CallWord::Allocated
    )
}

pub fn is_reduction(word: CallWord) -> bool
    ensures { result ≡ operations.is_reduction word }
{
    match word {
        CallWord::Sum | CallWord::Product | CallWord::Minval | CallWord::Maxval => true,
        CallWord::Count | CallWord::Any | CallWord::All => true,
        _ => false,
    }
}

fn has_wrong_type(word: CallWord, arguments: Arguments) -> bool
    ensures { result ≡ operations.has_wrong_type word arguments }
{
    match word {
        CallWord::Merge => {
            arguments.truths_before && arguments.numbers_before
                || is_other_type(true, arguments.last)
        }
        CallWord::Count | CallWord::Any | CallWord::All => arguments.numbers,
        _ => arguments.truths,
    }
}

fn has_wrong_rank(word: CallWord, arguments: Arguments) -> bool
    ensures { result ≡ operations.has_wrong_rank word arguments }
{
    if is_reduction(word) {
        arguments.scalars
    } else {
        arguments.mixed
    }
}

fn call_gives_truth(word: CallWord, arguments: Arguments) -> bool
    ensures { result ≡ operations.call_gives_truth word arguments }
{
    match word {
        CallWord::Merge => arguments.truths_before,
        CallWord::Any | CallWord::All => true,
        _ => false,
    }
}

/// An elemental call, whose arguments have one rank where it is not 0, or a reduction of an array (Fortran 2018, 16.9),
/// which may not stand inside a FORALL.
#[tactic(auto, using(crate::proofs::Appended::least_rules), unfolding(crate::specs::Operations::call_type, crate::specs::Operations::call_faults))]
pub fn call(
    found: &mut Option<Refusal>,
    line: u32,
    inside: bool,
    word: CallWord,
    arguments: Arguments,
) -> Option<Typed>
    ensures value { result ≡ operations.call_type inside word arguments }
    ensures faults { found.new ≡ least_from found.old (operations.call_faults line inside word arguments) }
{
    let reduction = is_reduction(word);
    let typed = Typed {
        truth: call_gives_truth(word, arguments),
        rank: if reduction { 0 } else { arguments.rank },
    };
    let left_out = inside && reduction;
    let wrong_type = has_wrong_type(word, arguments);
    let wrong_rank = has_wrong_rank(word, arguments);
    note(found, left_out, line, RefusalKind::Unsupported);
    note(found, wrong_type, line, RefusalKind::TypeWrong);
    note(found, wrong_rank, line, RefusalKind::RankWrong);
    unless(
        left_out || wrong_type || wrong_rank || !arguments.sound,
        typed,
    )
}

fn is_allocated(word: CallWord) -> bool
    ensures { result ≡ operations.is_allocated_word word }
{
    matches!(word, CallWord::Allocated)
}

fn is_outside(rank: usize, es: &[Expr]) -> bool
    ensures { result ≡ operations.is_outside rank es.now }
{
    match es {
        [_, Expr::Number(dimension), ..] => *dimension == 0 || rank < *dimension as usize,
        [_, _, ..] => true,
        _ => rank == 0,
    }
}

fn is_outside_type(array: Option<Typed>, es: &[Expr]) -> bool
    ensures { result ≡ operations.is_outside_type array es.now }
{
    match array {
        None => false,
        Some(array) => is_outside(array.rank, es),
    }
}

fn has_wide_dimension(es: &[Expr]) -> bool
    ensures { result ≡ operations.has_wide_dimension es.now }
{
    match es {
        [_, Expr::TooWide, ..] => true,
        _ => false,
    }
}

fn inquired_type(word: CallWord, array: Option<Typed>) -> Option<Typed>
    ensures { result ≡ operations.inquired_type word array }
{
    match array {
        None => None,
        Some(_) => Some(Typed {
            truth: is_allocated(word),
            rank: 0,
        }),
    }
}

/// SIZE of an array, LBOUND or UBOUND of one of its dimensions, ALLOCATED of an allocatable (Fortran 2018, 16.9).
#[tactic(auto, using(crate::proofs::Appended::least_rules), unfolding(crate::specs::Operations::inquiry_type, crate::specs::Operations::inquiry_faults))]
pub fn inquiry(
    found: &mut Option<Refusal>,
    line: u32,
    word: CallWord,
    standing: Option<Standing>,
    es: &[Expr],
) -> Option<Typed>
    ensures value { result ≡ operations.inquiry_type word standing es.now }
    ensures faults { found.new ≡ least_from found.old (operations.inquiry_faults line word standing es.now) }
{
    let array = name_type(standing);
    let allocated = is_allocated(word);
    let outside = !allocated && is_outside_type(array, es);
    let unallocatable = allocated && is_no_allocatable(standing);
    let wide = has_wide_dimension(es);
    check_name(found, line, standing);
    note(found, outside, line, RefusalKind::RankWrong);
    note(found, unallocatable, line, RefusalKind::NotAllocatable);
    note(found, wide, line, RefusalKind::OverLimit);
    if outside || unallocatable || wide {
        None
    } else {
        inquired_type(word, array)
    }
}
