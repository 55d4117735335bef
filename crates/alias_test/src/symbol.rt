//! The symbol of a value, and the values below it in its tree.

ghost use Rattle.std.specs.Prelude.{◌≡◌, map, slice_get};
ghost use Rattle.hlfir_ops.specs.declared.op.Op.{out-Op};
ghost use Rattle.alias_test.specs.Givers.{ops_at};
ghost use Rattle.alias_test.specs.Symbols as symbols;

use crate::designator::Sym;
use crate::table::giver;
use crate::variable::variable_of;
use hlfir_ops::{BoundWord, Elem, Op, ValueBinary, ValueId, ValueKind, ValueUnary, What};
use ws_base::{BinOp, UnOp};

fn constant_symbol(value: i64, kind: Option<ValueKind>) -> Sym
    ensures { result ≡ symbols.constant_symbol value kind }
{
    match kind {
        Some(ValueKind::Scalar(Elem::I1)) => Sym::Truth(value != 0),
        _ => Sym::Number(value),
    }
}

fn unary_symbol(op: ValueUnary) -> Sym
    ensures { result ≡ symbols.unary_symbol op }
{
    match op {
        ValueUnary::Neg => Sym::Unary(UnOp::Minus),
        ValueUnary::Not => Sym::Unary(UnOp::Not),
        ValueUnary::Abs => Sym::Other,
    }
}

fn binary_symbol(op: ValueBinary) -> Sym
    ensures { result ≡ symbols.binary_symbol op }
{
    match op {
        ValueBinary::Add => Sym::Binary(BinOp::Add),
        ValueBinary::Sub => Sym::Binary(BinOp::Sub),
        ValueBinary::Mul => Sym::Binary(BinOp::Mul),
        ValueBinary::Div => Sym::Binary(BinOp::Div),
        ValueBinary::Pow => Sym::Binary(BinOp::Pow),
        ValueBinary::Eq => Sym::Binary(BinOp::Eq),
        ValueBinary::Ne => Sym::Binary(BinOp::Ne),
        ValueBinary::Lt => Sym::Binary(BinOp::Lt),
        ValueBinary::Le => Sym::Binary(BinOp::Le),
        ValueBinary::Gt => Sym::Binary(BinOp::Gt),
        ValueBinary::Ge => Sym::Binary(BinOp::Ge),
        ValueBinary::And => Sym::Binary(BinOp::And),
        ValueBinary::Or => Sym::Binary(BinOp::Or),
        ValueBinary::Eqv => Sym::Binary(BinOp::Eqv),
        ValueBinary::Neqv => Sym::Binary(BinOp::Neqv),
        ValueBinary::Min | ValueBinary::Max | ValueBinary::Mod | ValueBinary::Modulo => Sym::Other,
    }
}

fn bound_symbol(word: BoundWord, var: u32, dim: u32) -> Sym
    ensures { result ≡ symbols.bound_symbol word var dim }
{
    match word {
        BoundWord::Lower => Sym::Kept {
            var,
            dim,
            upper: false,
        },
        BoundWord::Upper => Sym::Kept {
            var,
            dim,
            upper: true,
        },
        BoundWord::Lbound => Sym::Bound {
            var,
            dim,
            upper: false,
        },
        BoundWord::Ubound => Sym::Bound {
            var,
            dim,
            upper: true,
        },
        BoundWord::Extent => Sym::Size { var, dim },
    }
}

/// What a load of this value is: the name of a scalar variable, or an element.
fn loaded(table: &[&Op], v: ValueId) -> Sym
    ensures { result ≡ symbols.loaded (slice_get (ops_at table.now) v.number) v.number }
{
    match giver(table, v) {
        Some(op) => match &op.what {
            What::Declare(_) => Sym::Scalar(v.number),
            _ => Sym::Other,
        },
        None => Sym::Other,
    }
}

/// The symbol of an op that asks something of its first operand.
fn asked_symbol(table: &[&Op], what: &What, of: ValueId) -> Sym
    ensures { result ≡ symbols.asked_symbol (ops_at table.now) what.now of }
{
    match what {
        What::Load => loaded(table, of),
        What::Bound { word, dim } => bound_symbol(*word, variable_of(table, of), *dim),
        What::Size => Sym::Size {
            var: variable_of(table, of),
            dim: 0,
        },
        _ => Sym::Other,
    }
}

/// The symbol of the value, which this op gives.
fn symbol_by(table: &[&Op], v: ValueId, op: &Op) -> Sym
    ensures { result ≡ symbols.symbol_by (ops_at table.now) v.number (out-Op op.now).what (out-Op op.now).operands (out-Op op.now).kind }
{
    match &op.what {
        What::Constant(value) => constant_symbol(*value, op.kind),
        What::Forall(_) => Sym::Index(v.number),
        What::Unary(word) => unary_symbol(*word),
        What::Binary(word) => binary_symbol(*word),
        what => match op.operands.as_slice() {
            [of, ..] => asked_symbol(table, what, *of),
            [] => Sym::Other,
        },
    }
}

fn are_earlier(v: ValueId, operands: &[ValueId]) -> bool
    ensures { result ≡ symbols.are_earlier v.number operands.now }
{
    operands.iter().all(|operand| operand.number < v.number)
}

/// The symbol of the value, which this op gives. Other where an operand is no earlier value, so that a tree always ends.
#[tactic(auto, unfolding(crate::specs::Symbols::symbol_of))]
pub fn symbol_of(table: &[&Op], v: ValueId, op: &Op) -> Sym
    ensures { result ≡ symbols.symbol_of (ops_at table.now) v.number op.now }
{
    if are_earlier(v, op.operands.as_slice()) {
        symbol_by(table, v, op)
    } else {
        Sym::Other
    }
}

/// The operands whose trees stand before this symbol.
pub fn parts_of<'a>(symbol: &Sym, op: &'a Op) -> &'a [ValueId]
    ensures { result.now ≡ symbols.parts_by symbol.now (out-Op op.now).operands }
{
    match symbol {
        Sym::Unary(_) | Sym::Binary(_) => op.operands.as_slice(),
        _ => &[],
    }
}
