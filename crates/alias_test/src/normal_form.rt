//! Values of a module as designators in normal form.

ghost use Rattle.std.specs.Prelude.{◌≡◌, [], ◌∷◌, IfOk};
ghost use Rattle.hlfir_ops.specs.declared.op.Op.{out-Op};
ghost use Rattle.hlfir_ops.specs.Rules.{KeepsRules};
ghost use Rattle.ws_space.specs.Shapes as shapes;
ghost use Rattle.alias_test.specs.Givers.{givers_of, ops_at};
ghost use Rattle.alias_test.specs.Laws.{IsDesignator, HasDimensions};
ghost use Rattle.alias_test.specs.Normal as normal;
ghost use Rattle.alias_test.specs.Relations.{HasStrides};
ghost use Rattle.alias_test.specs.Symbols.{trees_at};

use crate::constants::{constant_at, dim_at, triplet_at, triplet_of, upper_of};
use crate::designator::{Designator, Form, FormList, Sym, SymList};
use crate::table::{giver, givers};
use crate::tree::trees_of;
use crate::variable::variable_of;
use hlfir_ops::{Module, Op, SubKind, ValueId, ValueKind, What};
use sqlite_items::Items;
use std::alloc::{AllocError, Global};
use ws_space::Shape;

/// A scalar subscript.
fn index_form(alloc: Global, table: &[&Op], i: ValueId) -> Result<Form, AllocError>
    ensures { IfOk result (λ form. form ≡ normal.index_form (normal.constant_at (ops_at table.now) i) (trees_at (ops_at table.now) (i ∷ []))) }
{
    match constant_at(table, i) {
        Some(value) => Ok(Form::Index(value)),
        None => Ok(Form::OpaqueIndex(trees_of(alloc, table, &[i])?)),
    }
}

/// A triplet `l:u:s`.
fn range_form(
    alloc: Global,
    table: &[&Op],
    l: ValueId,
    u: ValueId,
    s: ValueId,
) -> Result<Form, AllocError>
    ensures { IfOk result (λ form. form ≡ normal.range_form (normal.constant_triplet (normal.fixed_at (ops_at table.now) l) (normal.fixed_at (ops_at table.now) u) (normal.fixed_at (ops_at table.now) s)) (trees_at (ops_at table.now) (l ∷ u ∷ s ∷ []))) }
{
    match triplet_at(table, l, u, s) {
        Some(triplet) => Ok(Form::Range(triplet)),
        None => Ok(Form::OpaqueRange(trees_of(alloc, table, &[l, u, s])?)),
    }
}

/// The forms of these subscripts, which take these operands.
fn forms_of(
    alloc: Global,
    table: &[&Op],
    subs: &[SubKind],
    operands: &[ValueId],
) -> Result<FormList, AllocError>
    ensures { IfOk result (λ forms. forms ≡ normal.forms_of (ops_at table.now) subs.now operands.now) }
{
    let mut forms = Items::new(alloc);
    let mut rest = operands;
    'each: for sub in subs {
        match sub {
            SubKind::One => {
                let [i, more @ ..] = rest else {
                    return Ok(forms);
                };
                forms.push(index_form(alloc, table, *i)?)?;
                rest = more;
            }
            SubKind::Range => {
                let [l, u, s, more @ ..] = rest else {
                    return Ok(forms);
                };
                forms.push(range_form(alloc, table, *l, *u, *s)?)?;
                rest = more;
            }
            SubKind::Vector => {
                let [_, more @ ..] = rest else {
                    return Ok(forms);
                };
                forms.push(Form::Vector)?;
                rest = more;
            }
        }
    }
    Ok(forms)
}

/// From the kept lower bound of a dimension to its kept upper bound.
fn kept_bounds(alloc: Global, var: u32, dim: u32) -> Result<SymList, AllocError>
    ensures { IfOk result (λ trees. trees ≡ normal.kept_bounds var dim) }
{
    let lower = Sym::Kept {
        var,
        dim,
        upper: false,
    };
    let upper = Sym::Kept {
        var,
        dim,
        upper: true,
    };
    Items::from_slice(alloc, &[lower, upper, Sym::Number(1)])
}

/// A whole dimension, of which these bounds are known.
fn whole_form(
    alloc: Global,
    var: u32,
    dim: u32,
    l: Option<i32>,
    u: Option<i32>,
) -> Result<Form, AllocError>
    ensures { IfOk result (λ form. form ≡ normal.whole_form var dim l u) }
{
    match triplet_of(l, u, Some(1)) {
        Some(triplet) => Ok(Form::Range(triplet)),
        None => Ok(Form::OpaqueRange(kept_bounds(alloc, var, dim)?)),
    }
}

/// The dimensions of an array with declared bounds.
fn declared_forms(alloc: Global, var: u32, shape: &Shape) -> Result<FormList, AllocError>
    ensures { IfOk result (λ forms. forms ≡ normal.declared_forms var 1 (shapes.dims shape.now)) }
{
    let mut forms = Items::new(alloc);
    'each: for dim in 1..4 {
        let Some(d) = dim_at(shape, dim) else {
            return Ok(forms);
        };
        forms.push(whole_form(alloc, var, dim, Some(d.lower), upper_of(d))?)?;
    }
    Ok(forms)
}

/// The dimensions of an allocatable.
fn kept_forms(alloc: Global, var: u32, rank: u32) -> Result<FormList, AllocError>
    ensures { IfOk result (λ forms. forms ≡ normal.kept_forms var rank) }
{
    let mut forms = Items::new(alloc);
    'each: for before in 0..rank {
        forms.push(whole_form(alloc, var, before + 1, None, None)?)?;
    }
    Ok(forms)
}

/// The dimensions of a variable of this kind. A scalar has none.
fn whole_forms(alloc: Global, var: u32, kind: Option<ValueKind>) -> Result<FormList, AllocError>
    ensures { IfOk result (λ forms. forms ≡ normal.whole_forms var kind) }
{
    match kind {
        Some(ValueKind::Declared { shape, .. }) => declared_forms(alloc, var, &shape),
        Some(ValueKind::Allocatable { rank, .. }) => kept_forms(alloc, var, rank),
        _ => Ok(Items::new(alloc)),
    }
}

/// A whole variable.
fn whole_of(alloc: Global, table: &[&Op], v: ValueId, op: &Op) -> Result<Designator, AllocError>
    ensures { IfOk result (λ d. d ≡ normal.whole_given (ops_at table.now) v.number (out-Op op.now).kind) }
{
    let var = variable_of(table, v);
    Ok(Designator {
        var,
        forms: whole_forms(alloc, var, op.kind)?,
    })
}

/// What this op designates, which gives the value.
fn designator_by(
    alloc: Global,
    table: &[&Op],
    v: ValueId,
    op: &Op,
) -> Result<Designator, AllocError>
    ensures { IfOk result (λ d. d ≡ normal.designator_by (ops_at table.now) v.number (out-Op op.now).what (out-Op op.now).operands (out-Op op.now).kind) }
{
    match &op.what {
        What::Designate(subs) => match op.operands.as_slice() {
            [base, more @ ..] => Ok(Designator {
                var: variable_of(table, *base),
                forms: forms_of(alloc, table, subs.as_slice(), more)?,
            }),
            [] => whole_of(alloc, table, v, op),
        },
        _ => whole_of(alloc, table, v, op),
    }
}

/// The designator that a value is (Fortran 2018, 9.4 to 9.5), where the table has what gives each value of the module. Want of memory is
/// also told of trees with more than a million symbols.
#[tactic(auto, unfolding(crate::specs::Normal::designator_at))]
pub fn designator_in(alloc: Global, table: &[&Op], v: ValueId) -> Result<Designator, AllocError>
    ensures normal { IfOk result (λ d. d ≡ normal.designator_at (ops_at table.now) v.number) }
    ensures strides { IfOk result HasStrides }
{
    match giver(table, v) {
        Some(op) => designator_by(alloc, table, v, op),
        None => Ok(Designator {
            var: v.number,
            forms: Items::new(alloc),
        }),
    }
}

/// The designator that a value of the module is. Whoever asks for many of one module makes the table once, and asks `designator_in`.
pub fn designator_of(alloc: Global, module: &Module, v: ValueId) -> Result<Designator, AllocError>
    requires kept { KeepsRules «module».now }
    requires designates { IsDesignator «module».now v }
    ensures normal { IfOk result (λ d. d ≡ normal.designator_at (givers_of «module».now.ops) v.number) }
    ensures strides { IfOk result HasStrides }
    ensures dimensions { IfOk result (HasDimensions «module».now) }
{
    let table = givers(alloc, module)?;
    designator_in(alloc, table.as_slice(), v)
}
