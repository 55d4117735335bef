//! The rules on declarations.

ghost use Rattle.std.specs.Prelude.{◌≡◌, ◌≤◌, ◌*◌, ◌||◌, min, Some, [], ◌∷◌, ◌++◌, IfOk, OnOk, map, bytes_eq};
ghost use Rattle.ws_types.specs.Kinds.{least_from};
ghost use Rattle.ws_types.specs.Names.{Name};
ghost use Rattle.ws_sema.specs.Declarations as declarations;
ghost use Rattle.ws_sema.specs.Seen.{holds};

use std::alloc::{AllocError, Global};
use std::collections::BTreeSet;
use ws_base::{Name, Refusal, RefusalKind};
use ws_space::ELEMENT_LIMIT;
use ws_tree::{Bound, Decl, Expr, is_keyword};
use ws_types::{
    Constancy, Constant, Entry, Row, Standing, check_constant, evaluate, note, truth_constancy,
    value_of,
};

/// The greatest number of variables and named constants.
const NAME_LIMIT: usize = 64;

/// The greatest rank.
const RANK_LIMIT: usize = 3;

/// Takes note of a name, and tells whether it was noted before.
fn is_seen<'a>(seen: &mut BTreeSet<&'a str>, name: &'a str) -> Result<bool, AllocError>
    ensures before { IfOk result (λ b. b ≡ holds seen.old name.now) }
    ensures noted { OnOk result ((x : Name) → holds seen.new x ≡ (bytes_eq name.now x || holds seen.old x)) }
{
    let new = seen.insert(name)?;
    Ok(!new)
}

/// The name is no keyword, is declared once, and is one of at most 64.
#[tactic(auto, using(ws_types::proofs::Appended::least_rules), unfolding(crate::specs::Declarations::heading_faults))]
fn check_heading(found: &mut Option<Refusal>, before: &[Decl], again: bool, decl: &Decl)
    requires { again ≡ declarations.is_declared before.now decl.now.name }
    ensures { found.new ≡ least_from found.old (declarations.heading_faults before.now decl.now) }
{
    let keyword = is_keyword(decl.name.as_str().as_bytes());
    let many = NAME_LIMIT <= before.len();
    note(found, keyword, decl.line, RefusalKind::Unsupported);
    note(found, again, decl.line, RefusalKind::Redeclared);
    note(found, many, decl.line, RefusalKind::OverLimit);
}

fn declared_constancy(constants: &[Constant], truth: bool, e: &Expr) -> Constancy
    ensures { result ≡ declarations.declared_constancy constants.now truth e.now }
{
    if truth {
        truth_constancy(e)
    } else {
        evaluate(constants, e)
    }
}

#[tactic(auto, using(ws_types::proofs::Appended::least_rules))]
fn check_value(
    found: &mut Option<Refusal>,
    constants: &[Constant],
    line: u32,
    truth: bool,
    value: &Option<Expr>,
)
    ensures { found.new ≡ least_from found.old (declarations.value_faults constants.now line truth value.now) }
{
    match value {
        None => {}
        Some(e) => check_constant(found, line, declared_constancy(constants, truth, e)),
    }
}

/// The bounds of a declared array are constant expressions, and an allocatable has none.
#[tactic(auto, using(ws_types::proofs::Appended::least_rules), unfolding(crate::specs::Declarations::bound_faults))]
fn check_bound(
    found: &mut Option<Refusal>,
    constants: &[Constant],
    line: u32,
    allocatable: bool,
    bound: &Bound,
)
    ensures { found.new ≡ least_from found.old (declarations.bound_faults constants.now line allocatable bound.now) }
{
    match bound {
        Bound::Upper(u) => {
            check_constant(found, line, evaluate(constants, u));
            note(found, allocatable, line, RefusalKind::NotAllocatable);
        }
        Bound::Both(l, u) => {
            check_constant(found, line, evaluate(constants, l));
            check_constant(found, line, evaluate(constants, u));
            note(found, allocatable, line, RefusalKind::NotAllocatable);
        }
        Bound::Deferred => note(found, !allocatable, line, RefusalKind::NotAllocatable),
    }
}

#[tactic(auto, using(ws_types::proofs::Appended::least_rules))]
fn check_bounds(
    found: &mut Option<Refusal>,
    constants: &[Constant],
    line: u32,
    allocatable: bool,
    bounds: &[Bound],
)
    ensures { found.new ≡ least_from found.old (declarations.bounds_faults constants.now line allocatable bounds.now) }
{
    'each: for bound in bounds {
        check_bound(found, constants, line, allocatable, bound);
    }
}

fn extent_between(l: Option<i32>, u: Option<i32>) -> Option<u64>
    ensures { result ≡ declarations.extent_between l u }
{
    match (l, u) {
        (Some(l), Some(u)) => Some(natural(i64::from(u) - i64::from(l) + 1)),
        _ => None,
    }
}

fn natural(value: i64) -> u64
    ensures { result ≡ declarations.natural value }
{
    if value < 0 { 0 } else { value.unsigned_abs() }
}

fn extent_of(constants: &[Constant], bound: &Bound) -> Option<u64>
    ensures { result ≡ declarations.extent_of constants.now bound.now }
{
    match bound {
        Bound::Upper(u) => extent_between(Some(1), value_of(evaluate(constants, u))),
        Bound::Both(l, u) => extent_between(
            value_of(evaluate(constants, l)),
            value_of(evaluate(constants, u)),
        ),
        Bound::Deferred => None,
    }
}

/// The product, or the least number above the limit.
fn capped(count: u64, extent: u64) -> u64
    requires { count ≤ 65537 }
    ensures { result ≡ min (count * extent) 65537 }
{
    match count.checked_mul(extent) {
        Some(product) => product.min(ELEMENT_LIMIT + 1),
        None => ELEMENT_LIMIT + 1,
    }
}

fn is_too_large(constants: &[Constant], bounds: &[Bound]) -> bool
    ensures { result ≡ declarations.is_too_large constants.now (Some 1) bounds.now }
{
    let mut count = 1;
    'each: for bound in bounds {
        match extent_of(constants, bound) {
            None => return false,
            Some(extent) => count = capped(count, extent),
        }
    }
    ELEMENT_LIMIT < count
}

fn is_empty(bounds: &[Bound]) -> bool
    ensures { result ≡ declarations.is_empty bounds.now }
{
    match bounds {
        [] => true,
        _ => false,
    }
}

fn is_some(value: &Option<Expr>) -> bool
    ensures { result ≡ declarations.is_some value.now }
{
    match value {
        Some(_) => true,
        None => false,
    }
}

fn is_left_out(allocatable: bool, constant: bool, scalar: bool) -> bool
    ensures { result ≡ declarations.is_left_out allocatable constant scalar }
{
    allocatable && scalar || constant && !scalar
}

fn is_large(constants: &[Constant], bounds: &[Bound]) -> bool
    ensures { result ≡ declarations.is_large constants.now bounds.now }
{
    RANK_LIMIT < bounds.len() || is_too_large(constants, bounds)
}

/// An allocatable has a shape and a named constant has none; a rank is at most 3, and an array has at most 65536
/// elements.
#[tactic(auto, using(ws_types::proofs::Appended::least_rules), unfolding(crate::specs::Declarations::shape_faults))]
fn check_shape(found: &mut Option<Refusal>, constants: &[Constant], decl: &Decl)
    ensures { found.new ≡ least_from found.old (declarations.shape_faults constants.now decl.now) }
{
    let scalar = is_empty(decl.shape.as_slice());
    let constant = is_some(&decl.constant);
    let left_out = is_left_out(decl.allocatable, constant, scalar);
    let large = is_large(constants, decl.shape.as_slice());
    note(found, left_out, decl.line, RefusalKind::Unsupported);
    note(found, large, decl.line, RefusalKind::OverLimit);
}

#[tactic(auto, using(ws_types::proofs::Appended::least_rules))]
fn check_decl(
    found: &mut Option<Refusal>,
    before: &[Decl],
    again: bool,
    constants: &[Constant],
    decl: &Decl,
)
    requires { again ≡ declarations.is_declared before.now decl.now.name }
    ensures { found.new ≡ least_from found.old (declarations.decl_faults before.now constants.now decl.now) }
{
    check_heading(found, before, again, decl);
    check_value(found, constants, decl.line, decl.truth, &decl.constant);
    check_bounds(
        found,
        constants,
        decl.line,
        decl.allocatable,
        decl.shape.as_slice(),
    );
    check_shape(found, constants, decl);
}

/// Takes note of a named INTEGER constant.
fn keep(
    alloc: Global,
    constants: &mut Vec<Constant>,
    name: &Name,
    truth: bool,
    e: &Option<Expr>,
) -> Result<(), AllocError>
    ensures { OnOk result (constants.new.items ≡ declarations.constants_from constants.old.items name.now truth e.now) }
{
    if truth {
        return Ok(());
    }
    match e {
        None => Ok(()),
        Some(e) => keep_value(alloc, constants, name, e),
    }
}

fn keep_value(
    alloc: Global,
    constants: &mut Vec<Constant>,
    name: &Name,
    e: &Expr,
) -> Result<(), AllocError>
    ensures { OnOk result (constants.new.items ≡ constants.old.items ++ declarations.constant_row constants.old.items name.now e.now ∷ []) }
{
    let value = value_of(evaluate(constants.as_slice(), e));
    let name = name.copy(alloc)?;
    constants.push(Constant { name, value })?;
    Ok(())
}

/// The faults in the declarations, in which a constant is known from its declaration on; Ok gives the named INTEGER
/// constants (Fortran 2018, 8.5.13 and 10.1.12).
#[tactic(auto, using(ws_types::proofs::Appended::least_rules))]
pub fn check_decls(
    alloc: Global,
    found: &mut Option<Refusal>,
    decls: &[Decl],
) -> Result<Vec<Constant>, AllocError>
    ensures constants { IfOk result (λ constants. constants.items ≡ declarations.constants_after [] decls.now) }
    ensures faults { OnOk result (found.new ≡ least_from found.old (declarations.decls_faults [] [] decls.now)) }
{
    let mut constants = Vec::new(alloc);
    let mut seen = BTreeSet::new(alloc);
    'each: for i in 0..decls.len() {
        let decl = &decls[i];
        let again = is_seen(&mut seen, decl.name.as_str())?;
        check_decl(found, &decls[..i], again, constants.as_slice(), decl);
        keep(
            alloc,
            &mut constants,
            &decl.name,
            decl.truth,
            &decl.constant,
        )?;
    }
    Ok(constants)
}

fn row_of(alloc: Global, decl: &Decl) -> Result<Row, AllocError>
    ensures { IfOk result (λ row. row ≡ declarations.row_of decl.now) }
{
    Ok(Row {
        name: decl.name.copy(alloc)?,
        standing: Standing::Declared(Entry {
            truth: decl.truth,
            rank: decl.shape.len(),
            constant: is_some(&decl.constant),
            allocatable: decl.allocatable,
        }),
    })
}

/// What is declared, as a table of names.
pub fn table_of(alloc: Global, decls: &[Decl]) -> Result<Vec<Row>, AllocError>
    ensures { IfOk result (λ table. table.items ≡ declarations.table_of decls.now) }
{
    let mut table = Vec::new(alloc);
    'each: for decl in decls {
        table.push(row_of(alloc, decl)?)?;
    }
    Ok(table)
}
