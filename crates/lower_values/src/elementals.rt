//! Operations on values: an op on scalars, and an elemental where an operand is an array.

ghost use Rattle.std.specs.Prelude.{◌≡◌, IfOk, OnOk};
ghost use Rattle.ws_base.specs.Numbers.{truth};
ghost use Rattle.hlfir_ops.specs.RulesForms as forms;
ghost use Rattle.hlfir_ops.specs.RulesValues as kinds;
ghost use Rattle.lower_values.specs.declared.names.Names.{Names};
ghost use Rattle.lower_values.specs.Lowerings.{Appends};
ghost use Rattle.lower_values.specs.Operations as operations;

use crate::appending::{act, begin, give, give_of, values_of};
use crate::operand::Operand;
use hlfir_ops::{Builder, Elem, Reduction, ValueBinary, ValueIdList, ValueKind, ValueUnary, What};
use sqlite_items::Items;
use std::alloc::{AllocError, Global};
use ws_base::{BinOp, CallWord, UnOp};

// ---- kinds

pub fn elem_of(kind: ValueKind) -> Elem
    ensures { result ≡ kinds.elem_of kind }
{
    match kind {
        ValueKind::Scalar(elem) | ValueKind::Place(elem) => elem,
        ValueKind::Declared { elem, .. } => elem,
        ValueKind::Allocatable { elem, .. } => elem,
        ValueKind::Section { elem, .. } => elem,
        ValueKind::Array { elem, .. } => elem,
    }
}

pub fn rank_of(kind: ValueKind) -> u32
    ensures { result ≡ kinds.rank_of kind }
{
    match kind {
        ValueKind::Scalar(_) | ValueKind::Place(_) => 0,
        ValueKind::Declared { shape, .. } => shape.rank,
        ValueKind::Allocatable { rank, .. } => rank,
        ValueKind::Section { rank, .. } => rank,
        ValueKind::Array { rank, .. } => rank,
    }
}

fn result_elem(op: ValueBinary) -> Elem
    ensures { result ≡ forms.result_elem op }
{
    match op {
        ValueBinary::Add
        | ValueBinary::Sub
        | ValueBinary::Mul
        | ValueBinary::Div
        | ValueBinary::Min
        | ValueBinary::Max
        | ValueBinary::Pow
        | ValueBinary::Mod
        | ValueBinary::Modulo => Elem::I32,
        _ => Elem::I1,
    }
}

fn total_elem(reduction: Reduction) -> Elem
    ensures { result ≡ forms.total_elem reduction }
{
    match reduction {
        Reduction::Any | Reduction::All => Elem::I1,
        _ => Elem::I32,
    }
}

/// The greatest rank among the operands.
fn rank_among(xs: &[Operand]) -> u32
    ensures { result ≡ operations.rank_from 0 xs.now }
{
    let mut rank = 0;
    'each: for x in xs {
        rank = rank.max(rank_of(x.kind));
    }
    rank
}

fn first_elem(xs: &[Operand]) -> Elem
    ensures { result ≡ operations.first_elem xs.now }
{
    match xs {
        [] => Elem::I32,
        [x, ..] => elem_of(x.kind),
    }
}

// ---- elementwise operations

/// The operands of the op, which takes MERGE's mask first.
fn arranged(alloc: Global, what: &What, xs: &[Operand]) -> Result<ValueIdList, AllocError>
    ensures { IfOk result (λ values. values ≡ operations.arranged what.now (operations.values_of xs.now)) }
{
    match (what, xs) {
        (What::Select, [t, f, m]) => Items::from_slice(alloc, &[m.value, t.value, f.value]),
        _ => values_of(alloc, xs),
    }
}

fn on_scalars(
    alloc: Global,
    build: &mut Builder,
    what: What,
    elem: Elem,
    xs: &[Operand],
) -> Result<Operand, AllocError>
    ensures { IfOk result (λ x. (names : Names) → Appends names (operations.on_scalars what elem xs.now) build.old build.new x) }
{
    let operands = arranged(alloc, &what, xs)?;
    give(alloc, build, what, operands, ValueKind::Scalar(elem))
}

/// An operand at the current position; a scalar is used directly.
fn at_position(alloc: Global, build: &mut Builder, x: Operand) -> Result<Operand, AllocError>
    ensures { IfOk result (λ y. (names : Names) → Appends names (operations.at_position x) build.old build.new y) }
{
    if rank_of(x.kind) == 0 {
        Ok(x)
    } else {
        let kind = ValueKind::Scalar(elem_of(x.kind));
        give_of(alloc, build, What::Apply, x, kind)
    }
}

fn at_positions(
    alloc: Global,
    build: &mut Builder,
    xs: &[Operand],
) -> Result<Items<Operand>, AllocError>
    ensures { IfOk result (λ ys. (names : Names) → Appends names (operations.at_positions xs.now) build.old build.new ys) }
{
    let mut ys = Items::new(alloc);
    'each: for x in xs {
        let y = at_position(alloc, build, *x)?;
        ys.push(y)?;
    }
    Ok(ys)
}

/// The body of an elemental.
fn element(
    alloc: Global,
    build: &mut Builder,
    what: What,
    elem: Elem,
    xs: &[Operand],
) -> Result<(), AllocError>
    ensures { OnOk result ((names : Names) → Appends names (operations.element what elem xs.now) build.old build.new tt) }
{
    let ys = at_positions(alloc, build, xs)?;
    let z = on_scalars(alloc, build, what, elem, ys.as_slice())?;
    let operands = Items::from_slice(alloc, &[z.value])?;
    act(alloc, build, What::YieldElement, operands)
}

/// The op at each position of arrays of this rank.
fn at_each(
    alloc: Global,
    build: &mut Builder,
    what: What,
    elem: Elem,
    rank: u32,
    xs: &[Operand],
) -> Result<Operand, AllocError>
    ensures { IfOk result (λ x. (names : Names) → Appends names (operations.at_each what elem rank xs.now) build.old build.new x) }
{
    let kind = ValueKind::Array { elem, rank };
    let line = build.line();
    let value = begin(
        alloc,
        build,
        What::Elemental,
        line,
        Items::new(alloc),
        Some(kind),
    )?;
    build.enter_region()?;
    element(alloc, build, what, elem, xs)?;
    build.leave_region();
    Ok(Operand { value, kind })
}

/// An operation whose result has this type.
pub fn operation(
    alloc: Global,
    build: &mut Builder,
    what: What,
    elem: Elem,
    xs: &[Operand],
) -> Result<Operand, AllocError>
    ensures { IfOk result (λ x. (names : Names) → Appends names (operations.operation what elem xs.now) build.old build.new x) }
{
    let rank = rank_among(xs);
    if rank == 0 {
        on_scalars(alloc, build, what, elem, xs)
    } else {
        at_each(alloc, build, what, elem, rank, xs)
    }
}

// ---- operators

pub fn constant(
    alloc: Global,
    build: &mut Builder,
    elem: Elem,
    value: i64,
) -> Result<Operand, AllocError>
    ensures { IfOk result (λ x. (names : Names) → Appends names (operations.constant elem value) build.old build.new x) }
{
    give(
        alloc,
        build,
        What::Constant(value),
        Items::new(alloc),
        ValueKind::Scalar(elem),
    )
}

pub fn number_constant(
    alloc: Global,
    build: &mut Builder,
    value: i32,
) -> Result<Operand, AllocError>
    ensures { IfOk result (λ x. (names : Names) → Appends names (operations.constant Elem.I32 value) build.old build.new x) }
{
    constant(alloc, build, Elem::I32, i64::from(value))
}

pub fn truth_constant(
    alloc: Global,
    build: &mut Builder,
    value: bool,
) -> Result<Operand, AllocError>
    ensures { IfOk result (λ x. (names : Names) → Appends names (operations.constant Elem.I1 (truth value)) build.old build.new x) }
{
    if value {
        constant(alloc, build, Elem::I1, 1)
    } else {
        constant(alloc, build, Elem::I1, 0)
    }
}

pub fn binary_of(op: BinOp) -> ValueBinary
    ensures { result ≡ operations.binary_of op }
{
    match op {
        BinOp::Add => ValueBinary::Add,
        BinOp::Sub => ValueBinary::Sub,
        BinOp::Mul => ValueBinary::Mul,
        BinOp::Div => ValueBinary::Div,
        BinOp::Pow => ValueBinary::Pow,
        BinOp::Eq => ValueBinary::Eq,
        BinOp::Ne => ValueBinary::Ne,
        BinOp::Lt => ValueBinary::Lt,
        BinOp::Le => ValueBinary::Le,
        BinOp::Gt => ValueBinary::Gt,
        BinOp::Ge => ValueBinary::Ge,
        BinOp::And => ValueBinary::And,
        BinOp::Or => ValueBinary::Or,
        BinOp::Eqv => ValueBinary::Eqv,
        BinOp::Neqv => ValueBinary::Neqv,
    }
}

pub fn binary_operation(
    alloc: Global,
    build: &mut Builder,
    op: ValueBinary,
    x: Operand,
    y: Operand,
) -> Result<Operand, AllocError>
    ensures { IfOk result (λ z. (names : Names) → Appends names (operations.binary_operation op x y) build.old build.new z) }
{
    operation(alloc, build, What::Binary(op), result_elem(op), &[x, y])
}

fn as_expr(
    alloc: Global,
    build: &mut Builder,
    x: Operand,
    elem: Elem,
    rank: u32,
) -> Result<Operand, AllocError>
    ensures { IfOk result (λ y. (names : Names) → Appends names (operations.as_expr x elem rank) build.old build.new y) }
{
    let kind = ValueKind::Array { elem, rank };
    give_of(alloc, build, What::AsExpr, x, kind)
}

/// The value of a whole array. Any other operand stays as it is.
pub fn in_parentheses(alloc: Global, build: &mut Builder, x: Operand) -> Result<Operand, AllocError>
    ensures { IfOk result (λ y. (names : Names) → Appends names (operations.in_parentheses x) build.old build.new y) }
{
    match x.kind {
        ValueKind::Declared { elem, shape } => as_expr(alloc, build, x, elem, shape.rank),
        ValueKind::Allocatable { elem, rank } => as_expr(alloc, build, x, elem, rank),
        _ => Ok(x),
    }
}

pub fn unary_operation(
    alloc: Global,
    build: &mut Builder,
    op: UnOp,
    x: Operand,
) -> Result<Operand, AllocError>
    ensures { IfOk result (λ y. (names : Names) → Appends names (operations.unary_operation op x) build.old build.new y) }
{
    match op {
        UnOp::Minus => {
            let what = What::Unary(ValueUnary::Neg);
            operation(alloc, build, what, Elem::I32, &[x])
        }
        UnOp::Plus => in_parentheses(alloc, build, x),
        UnOp::Not => {
            let what = What::Unary(ValueUnary::Not);
            operation(alloc, build, what, Elem::I1, &[x])
        }
    }
}

// ---- calls and constructors

/// MIN and MAX, which nest to the left.
pub fn nesting_of(word: CallWord) -> Option<ValueBinary>
    ensures { result ≡ operations.nesting_of word }
{
    match word {
        CallWord::Min => Some(ValueBinary::Min),
        CallWord::Max => Some(ValueBinary::Max),
        _ => None,
    }
}

pub fn joined(
    alloc: Global,
    build: &mut Builder,
    op: ValueBinary,
    before: Option<Operand>,
    y: Operand,
) -> Result<Operand, AllocError>
    ensures { IfOk result (λ z. (names : Names) → Appends names (operations.joined op before y) build.old build.new z) }
{
    match before {
        None => Ok(y),
        Some(x) => binary_operation(alloc, build, op, x, y),
    }
}

fn reduction_of(word: CallWord) -> Option<Reduction>
    ensures { result ≡ operations.reduction_of word }
{
    match word {
        CallWord::Sum => Some(Reduction::Sum),
        CallWord::Product => Some(Reduction::Product),
        CallWord::Minval => Some(Reduction::Minval),
        CallWord::Maxval => Some(Reduction::Maxval),
        CallWord::Count => Some(Reduction::Count),
        CallWord::Any => Some(Reduction::Any),
        CallWord::All => Some(Reduction::All),
        _ => None,
    }
}

/// The op of any other call that is no inquiry: MERGE is a select.
fn what_of(word: CallWord) -> What
    ensures { result ≡ operations.what_of word }
{
    match word {
        CallWord::Abs => What::Unary(ValueUnary::Abs),
        CallWord::Mod => What::Binary(ValueBinary::Mod),
        CallWord::Modulo => What::Binary(ValueBinary::Modulo),
        _ => What::Select,
    }
}

fn call_elem(word: CallWord, xs: &[Operand]) -> Elem
    ensures { result ≡ operations.call_elem word xs.now }
{
    match word {
        CallWord::Merge => first_elem(xs),
        _ => Elem::I32,
    }
}

fn total(
    alloc: Global,
    build: &mut Builder,
    reduction: Reduction,
    xs: &[Operand],
) -> Result<Operand, AllocError>
    ensures { IfOk result (λ x. (names : Names) → Appends names (operations.total reduction xs.now) build.old build.new x) }
{
    let operands = values_of(alloc, xs)?;
    let kind = ValueKind::Scalar(total_elem(reduction));
    give(alloc, build, What::Reduce(reduction), operands, kind)
}

/// A call of all its arguments at once.
pub fn call_on(
    alloc: Global,
    build: &mut Builder,
    word: CallWord,
    xs: &[Operand],
) -> Result<Operand, AllocError>
    ensures { IfOk result (λ x. (names : Names) → Appends names (operations.call_on word xs.now) build.old build.new x) }
{
    match reduction_of(word) {
        Some(reduction) => total(alloc, build, reduction, xs),
        None => operation(alloc, build, what_of(word), call_elem(word, xs), xs),
    }
}

pub fn vector(alloc: Global, build: &mut Builder, xs: &[Operand]) -> Result<Operand, AllocError>
    ensures { IfOk result (λ x. (names : Names) → Appends names (operations.vector xs.now) build.old build.new x) }
{
    let operands = values_of(alloc, xs)?;
    let kind = ValueKind::Array {
        elem: first_elem(xs),
        rank: 1,
    };
    give(alloc, build, What::Vector, operands, kind)
}
