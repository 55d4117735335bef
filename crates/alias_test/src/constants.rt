//! Subscripts and parts of triplets that are constants.

ghost use Rattle.std.specs.Prelude.{◌≡◌, slice_get};
ghost use Rattle.ws_space.specs.Shapes as shapes;
ghost use Rattle.hlfir_ops.specs.declared.op.Op.{out-Op};
ghost use Rattle.alias_test.specs.Givers.{kind_given, ops_at};
ghost use Rattle.alias_test.specs.Normal as normal;

use crate::table::giver;
use hlfir_ops::{BoundWord, Op, ValueId, ValueKind, What};
use ws_space::{Dim, Shape, Triplet};

/// The value, where INTEGER has it.
fn integer(value: i64) -> Option<i32>
    ensures { result ≡ normal.integer value }
{
    i32::try_from(value).ok()
}

/// The dimension of this number, counted from 1.
pub fn dim_at(shape: &Shape, dim: u32) -> Option<Dim>
    ensures { result ≡ normal.dim_at (shapes.dims shape.now) dim }
{
    if dim > shape.rank {
        return None;
    }
    match dim {
        1 => Some(shape.d1),
        2 => Some(shape.d2),
        3 => Some(shape.d3),
        _ => None,
    }
}

/// The last subscript of the dimension, where INTEGER has it.
pub fn upper_of(dim: Dim) -> Option<i32>
    ensures { result ≡ normal.integer (shapes.upper dim) }
{
    i32::try_from(i128::from(dim.lower) + i128::from(dim.extent) - 1).ok()
}

/// A bound of an array with declared bounds.
fn declared_bound(word: BoundWord, dim: u32, kind: Option<ValueKind>) -> Option<i32>
    ensures { result ≡ normal.declared_bound word dim kind }
{
    let Some(ValueKind::Declared { shape, .. }) = kind else {
        return None;
    };
    match word {
        BoundWord::Lower => Some(dim_at(&shape, dim)?.lower),
        BoundWord::Upper => upper_of(dim_at(&shape, dim)?),
        _ => None,
    }
}

fn kind_of(table: &[&Op], v: ValueId) -> Option<ValueKind>
    ensures { result ≡ kind_given (slice_get (ops_at table.now) v.number) }
{
    match giver(table, v) {
        Some(op) => op.kind,
        None => None,
    }
}

fn constant_by(what: &What) -> Option<i32>
    ensures { result ≡ normal.constant_by what.now }
{
    match what {
        What::Constant(value) => integer(*value),
        _ => None,
    }
}

fn fixed_by(table: &[&Op], op: &Op) -> Option<i32>
    ensures { result ≡ normal.fixed_by (ops_at table.now) (out-Op op.now).what (out-Op op.now).operands }
{
    match &op.what {
        What::Bound { word, dim } => match op.operands.as_slice() {
            [of, ..] => declared_bound(*word, *dim, kind_of(table, *of)),
            [] => None,
        },
        what => constant_by(what),
    }
}

/// The scalar subscript, where it is a constant.
pub fn constant_at(table: &[&Op], v: ValueId) -> Option<i32>
    ensures { result ≡ normal.constant_at (ops_at table.now) v }
{
    constant_by(&giver(table, v)?.what)
}

/// The part of a triplet, where it is a constant or an omitted bound of an array with declared bounds.
fn fixed_at(table: &[&Op], v: ValueId) -> Option<i32>
    ensures { result ≡ normal.fixed_at (ops_at table.now) v }
{
    fixed_by(table, giver(table, v)?)
}

/// The triplet of these bounds and this stride, where they are known and it is not 0.
pub fn triplet_of(l: Option<i32>, u: Option<i32>, s: Option<i32>) -> Option<Triplet>
    ensures { result ≡ normal.constant_triplet l u s }
{
    let l = l?;
    let u = u?;
    let s = s?;
    if s == 0 {
        None
    } else {
        Some(Triplet { l, u, s })
    }
}

/// The triplet, where its parts are constants and its stride is not 0.
pub fn triplet_at(table: &[&Op], l: ValueId, u: ValueId, s: ValueId) -> Option<Triplet>
    ensures { result ≡ normal.constant_triplet (normal.fixed_at (ops_at table.now) l) (normal.fixed_at (ops_at table.now) u) (normal.fixed_at (ops_at table.now) s) }
{
    triplet_of(fixed_at(table, l), fixed_at(table, u), fixed_at(table, s))
}
