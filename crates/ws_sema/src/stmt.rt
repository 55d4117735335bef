//! The rules on statements.

ghost use Rattle.std.specs.Prelude.{◌≡◌, []};
ghost use Rattle.ws_types.specs.Kinds.{least_from};
ghost use Rattle.ws_sema.specs.Statements as statements;
ghost use Rattle.ws_types.specs.Lists.{given_faults};

use crate::within::Within;
use ws_base::{Name, Refusal, RefusalKind};
use ws_tree::{Bound, Expr, Index, Part};
use ws_types::{
    Row, Standing, Typed, check_name, check_scalar, check_target, expr, is_above, is_active,
    is_constant, is_no_allocatable, is_other_type, name_type, note, standing_of, subs_of,
    target_type, triplet_part,
};

fn target_standing(table: &[Row], e: &Expr) -> Option<Standing>
    ensures { result ≡ statements.target_standing table.now e.now }
{
    match e {
        Expr::Named(name) => standing_of(table, name),
        Expr::Part(name, _) => standing_of(table, name),
        _ => None,
    }
}

fn is_designator(e: &Expr) -> bool
    ensures { result ≡ statements.is_designator e.now }
{
    match e {
        Expr::Named(_) | Expr::Part(..) | Expr::TooDeep => true,
        _ => false,
    }
}

/// A variable or part of it that is assigned or read; gives its type and rank.
#[tactic(auto, using(ws_types::proofs::Appended::least_rules))]
fn left_side(
    found: &mut Option<Refusal>,
    table: &[Row],
    inside: bool,
    line: u32,
    e: &Expr,
) -> Option<Typed>
    ensures value { result ≡ statements.left_type table.now inside e.now }
    ensures faults { found.new ≡ least_from found.old (statements.left_faults table.now inside line e.now) }
{
    let standing = target_standing(table, e);
    let typed = expr(found, table, inside, line, e);
    check_target(found, line, standing);
    note(found, !is_designator(e), line, RefusalKind::Unsupported);
    target_type(standing, typed)
}

pub fn is_inside(within: Within) -> bool
    ensures { result ≡ statements.is_inside within }
{
    matches!(within, Within::Forall)
}

fn types_differ(a: Option<Typed>, b: Option<Typed>) -> bool
    ensures { result ≡ statements.types_differ a b }
{
    match a {
        Some(a) => is_other_type(a.truth, b),
        None => false,
    }
}

fn is_wrong_right(a: Option<Typed>, b: Option<Typed>) -> bool
    ensures { result ≡ statements.is_wrong_right a b }
{
    match (a, b) {
        (Some(a), Some(b)) => 0 < b.rank && a.rank != b.rank,
        _ => false,
    }
}

fn has_no_subscripts(e: &Expr) -> bool
    ensures { result ≡ statements.has_no_subscripts e.now }
{
    match e {
        Expr::Named(_) => true,
        _ => false,
    }
}

fn is_other_rank(rank: Option<usize>, typed: Option<Typed>) -> bool
    ensures { result ≡ statements.is_other_rank rank typed }
{
    match (rank, typed) {
        (Some(rank), Some(typed)) => rank != typed.rank,
        _ => false,
    }
}

/// The mask that controls an assignment has its rank (Fortran 2018, 10.2.3.1); a break of this has the mask's line.
#[tactic(auto, using(ws_types::proofs::Appended::least_rules), unfolding(crate::specs::Statements::control_faults))]
fn check_control(found: &mut Option<Refusal>, within: Within, left: Option<Typed>)
    ensures { found.new ≡ least_from found.old (statements.control_faults within left) }
{
    match within {
        Within::Masked { line, rank } => {
            note(
                found,
                is_other_rank(rank, left),
                line,
                RefusalKind::RankWrong,
            )
        }
        _ => {}
    }
}

/// Sides of one type; a right side of rank 0 or the left side's (Fortran 2018, 10.2.1.2). In a FORALL both have rank 0,
/// and the left one has subscripts.
#[tactic(auto, using(ws_types::proofs::Appended::least_rules), unfolding(crate::specs::Statements::sides_faults))]
fn check_sides(
    found: &mut Option<Refusal>,
    within: Within,
    line: u32,
    bare: bool,
    left: Option<Typed>,
    right: Option<Typed>,
)
    ensures { found.new ≡ least_from found.old (statements.sides_faults within line bare left right) }
{
    let inside = is_inside(within);
    let arrays = inside && (is_above(0, left) || is_above(0, right));
    let wrong_rank = is_wrong_right(left, right) || inside && bare;
    note(found, arrays, line, RefusalKind::Unsupported);
    note(
        found,
        types_differ(left, right),
        line,
        RefusalKind::TypeWrong,
    );
    note(found, wrong_rank, line, RefusalKind::RankWrong);
}

#[tactic(auto, using(ws_types::proofs::Appended::least_rules))]
pub fn assignment(
    found: &mut Option<Refusal>,
    table: &[Row],
    within: Within,
    line: u32,
    left: &Expr,
    right: &Expr,
)
    ensures { found.new ≡ least_from found.old (statements.assign_faults table.now within line left.now right.now) }
{
    let inside = is_inside(within);
    let bare = has_no_subscripts(left);
    let left = left_side(found, table, inside, line, left);
    let right = expr(found, table, inside, line, right);
    check_sides(found, within, line, bare, left, right);
    check_control(found, within, left);
}

pub fn rank_of(typed: Option<Typed>) -> Option<usize>
    ensures { result ≡ statements.rank_of typed }
{
    match typed {
        Some(typed) => Some(typed.rank),
        None => None,
    }
}

fn is_rank_0(typed: Option<Typed>) -> bool
    ensures { result ≡ statements.is_rank_0 typed }
{
    match typed {
        Some(typed) => typed.rank == 0,
        None => false,
    }
}

pub fn enclosing_rank(within: Within) -> Option<usize>
    ensures { result ≡ statements.enclosing_rank within }
{
    match within {
        Within::Masked { rank, .. } => rank,
        _ => None,
    }
}

/// The mask of a WHERE or ELSEWHERE: a LOGICAL array, of the rank of the mask around it (Fortran 2018, 10.2.3.1).
#[tactic(auto, using(ws_types::proofs::Appended::least_rules), unfolding(crate::specs::Statements::mask_faults))]
pub fn check_mask(
    found: &mut Option<Refusal>,
    line: u32,
    enclosing: Option<usize>,
    mask: Option<Typed>,
)
    ensures { found.new ≡ least_from found.old (statements.mask_faults line enclosing mask) }
{
    let wrong_rank = is_rank_0(mask) || is_other_rank(enclosing, mask);
    note(
        found,
        is_other_type(true, mask),
        line,
        RefusalKind::TypeWrong,
    );
    note(found, wrong_rank, line, RefusalKind::RankWrong);
}

/// A DO variable or index name: an INTEGER scalar variable (Fortran 2018, 11.1.7.2).
#[tactic(auto, using(ws_types::proofs::Appended::least_rules), unfolding(crate::specs::Statements::variable_faults))]
fn check_variable(found: &mut Option<Refusal>, line: u32, standing: Option<Standing>)
    ensures { found.new ≡ least_from found.old (statements.variable_faults line standing) }
{
    check_name(found, line, standing);
    note(found, is_constant(standing), line, RefusalKind::TypeWrong);
    check_scalar(found, line, name_type(standing));
}

/// The variable of a DO, which is not that of a DO around it.
#[tactic(auto, using(ws_types::proofs::Appended::least_rules), unfolding(crate::specs::Statements::loop_faults))]
pub fn check_loop(
    found: &mut Option<Refusal>,
    within: Within,
    line: u32,
    standing: Option<Standing>,
)
    ensures { found.new ≡ least_from found.old (statements.loop_faults within line standing) }
{
    check_variable(found, line, standing);
    note(found, is_active(standing), line, RefusalKind::DoVariable);
}

#[tactic(auto, using(ws_types::proofs::Appended::least_rules))]
pub fn scalar_expr(found: &mut Option<Refusal>, table: &[Row], line: u32, e: &Expr)
    ensures { found.new ≡ least_from found.old (statements.scalar_expr_faults table.now line e.now) }
{
    let typed = expr(found, table, false, line, e);
    check_scalar(found, line, typed);
}

fn is_listed(indexes: &[Index], name: &Name) -> bool
    ensures { result ≡ statements.is_listed indexes.now name.now }
{
    'each: for index in indexes {
        if index.name == *name {
            return true;
        }
    }
    false
}

#[tactic(auto, using(ws_types::proofs::Appended::least_rules))]
fn header_index(
    found: &mut Option<Refusal>,
    table: &[Row],
    barred: &[Row],
    line: u32,
    before: &[Index],
    index: &Index,
)
    ensures { found.new ≡ least_from found.old (statements.index_faults table.now barred.now line before.now index.now) }
{
    check_variable(found, line, standing_of(table, &index.name));
    let again = is_listed(before, &index.name);
    note(found, again, line, RefusalKind::DoVariable);
    scalar_expr(found, barred, line, &index.l);
    scalar_expr(found, barred, line, &index.u);
    triplet_part(found, barred, false, line, &index.s);
}

/// A FORALL header, whose index names stand in none of its bounds (Fortran 2018, 10.2.4.1).
#[tactic(auto, using(ws_types::proofs::Appended::least_rules))]
pub fn header(
    found: &mut Option<Refusal>,
    table: &[Row],
    barred: &[Row],
    line: u32,
    indexes: &[Index],
)
    ensures { found.new ≡ least_from found.old (statements.header_faults table.now barred.now line [] indexes.now) }
{
    'each: for i in 0..indexes.len() {
        header_index(found, table, barred, line, &indexes[..i], &indexes[i]);
    }
}

#[tactic(auto, using(ws_types::proofs::Appended::least_rules), unfolding(crate::specs::Statements::scalar_mask_faults))]
fn check_scalar_mask(found: &mut Option<Refusal>, line: u32, mask: Option<Typed>)
    ensures { found.new ≡ least_from found.old (statements.scalar_mask_faults line mask) }
{
    note(
        found,
        is_other_type(true, mask),
        line,
        RefusalKind::TypeWrong,
    );
    note(found, is_above(0, mask), line, RefusalKind::RankWrong);
}

#[tactic(auto, using(ws_types::proofs::Appended::least_rules))]
pub fn forall_mask(found: &mut Option<Refusal>, table: &[Row], line: u32, mask: &Option<Expr>)
    ensures { found.new ≡ least_from found.old (statements.forall_mask_faults table.now line mask.now) }
{
    match mask {
        None => {}
        Some(e) => {
            let typed = expr(found, table, true, line, e);
            check_scalar_mask(found, line, typed);
        }
    }
}

#[tactic(auto, using(ws_types::proofs::Walks::subscripts_rules), unfolding(ws_tree::specs::Opened::trees_open))]
fn has_vector(table: &[Row], e: &Expr) -> bool
    ensures { result ≡ statements.has_vector table.now e.now }
{
    match e {
        Expr::Part(_, subs) => {
            let mut known = None;
            subs_of(&mut known, table, false, 0, subs.as_slice()).vectors
        }
        _ => false,
    }
}

/// An item of READ, which has no vector subscript (Fortran 2018, 9.5.3.3.2).
#[tactic(auto, using(ws_types::proofs::Appended::least_rules))]
fn item(found: &mut Option<Refusal>, table: &[Row], line: u32, e: &Expr)
    ensures { found.new ≡ least_from found.old (statements.item_faults table.now line e.now) }
{
    left_side(found, table, false, line, e);
    note(found, has_vector(table, e), line, RefusalKind::RankWrong);
}

#[tactic(auto, using(ws_types::proofs::Appended::least_rules))]
pub fn items(found: &mut Option<Refusal>, table: &[Row], line: u32, es: &[Expr])
    ensures { found.new ≡ least_from found.old (statements.items_faults table.now line es.now) }
{
    'each: for e in es {
        item(found, table, line, e);
    }
}

fn is_other_bounds(standing: Option<Standing>, count: usize) -> bool
    ensures { result ≡ statements.is_other_bounds standing count }
{
    match standing {
        Some(Standing::Declared(entry)) => entry.allocatable && entry.rank != count,
        _ => false,
    }
}

#[tactic(auto, using(ws_types::proofs::Appended::least_rules), unfolding(crate::specs::Statements::allocatable_faults))]
fn check_allocatable(found: &mut Option<Refusal>, line: u32, standing: Option<Standing>)
    ensures { found.new ≡ least_from found.old (statements.allocatable_faults line standing) }
{
    check_name(found, line, standing);
    note(
        found,
        is_no_allocatable(standing),
        line,
        RefusalKind::NotAllocatable,
    );
}

#[tactic(auto, using(ws_types::proofs::Appended::least_rules))]
fn allocated_bound(found: &mut Option<Refusal>, table: &[Row], line: u32, bound: &Bound)
    ensures { found.new ≡ least_from found.old (statements.allocated_bound_faults table.now line bound.now) }
{
    match bound {
        Bound::Upper(u) => scalar_expr(found, table, line, u),
        Bound::Both(l, u) => {
            scalar_expr(found, table, line, l);
            scalar_expr(found, table, line, u);
        }
        Bound::Deferred => note(found, true, line, RefusalKind::NotAllocatable),
    }
}

#[tactic(auto, using(ws_types::proofs::Appended::least_rules))]
fn allocated_bounds(found: &mut Option<Refusal>, table: &[Row], line: u32, bounds: &[Bound])
    ensures { found.new ≡ least_from found.old (statements.allocated_bounds_faults table.now line bounds.now) }
{
    'each: for bound in bounds {
        allocated_bound(found, table, line, bound);
    }
}

#[tactic(auto, using(ws_types::proofs::Appended::least_rules))]
fn allocation(found: &mut Option<Refusal>, table: &[Row], line: u32, part: &Part)
    ensures { found.new ≡ least_from found.old (statements.allocation_faults table.now line part.now) }
{
    let standing = standing_of(table, &part.name);
    let other = is_other_bounds(standing, part.shape.len());
    check_allocatable(found, line, standing);
    note(found, other, line, RefusalKind::RankWrong);
    allocated_bounds(found, table, line, part.shape.as_slice());
}

#[tactic(auto, using(ws_types::proofs::Appended::least_rules))]
pub fn allocations(found: &mut Option<Refusal>, table: &[Row], line: u32, parts: &[Part])
    ensures { found.new ≡ least_from found.old (statements.allocations_faults table.now line parts.now) }
{
    'each: for part in parts {
        allocation(found, table, line, part);
    }
}

fn deallocation(found: &mut Option<Refusal>, table: &[Row], line: u32, name: &Name)
    ensures { found.new ≡ least_from found.old (statements.deallocation_faults table.now line name.now) }
{
    check_allocatable(found, line, standing_of(table, name));
}

#[tactic(auto, using(ws_types::proofs::Appended::least_rules))]
pub fn deallocations(found: &mut Option<Refusal>, table: &[Row], line: u32, names: &[Name])
    ensures { found.new ≡ least_from found.old (statements.deallocations_faults table.now line names.now) }
{
    'each: for name in names {
        deallocation(found, table, line, name);
    }
}
