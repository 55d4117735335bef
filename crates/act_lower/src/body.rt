//! The ops of bodies.

ghost use Rattle.std.specs.Prelude.{◌≡◌, [], ◌∷◌, ◌++◌, length, IfOk};
ghost use Rattle.hlfir_ops.specs.declared.op.Op.{out-Op};
ghost use Rattle.hlfir_meaning.specs.Environments.{number_of};
ghost use Rattle.hlfir_meaning.specs.Order as order;
ghost use Rattle.act_laws.specs.Seats as seats;
ghost use Rattle.act_lower.specs.Code as code;
ghost use Rattle.act_lower.specs.Covered.{HaveOneNumber, IsFront};

use crate::operand::{appended, fetch_all, seat_of};
use act_laws::{Seat, Seated};
use hlfir_ops::{Op, ValueBinary, ValueId, ValueUnary, What};
use phase_ops::{Micro, MicroList, OneOp, ScalarOp};
use std::alloc::{AllocError, Global};

fn one_op(o: ValueUnary) -> OneOp
    ensures { result ≡ code.one_op o }
{
    match o {
        ValueUnary::Neg => OneOp::Minus,
        ValueUnary::Abs => OneOp::Abs,
        ValueUnary::Not => OneOp::Not,
    }
}

fn scalar_op(o: ValueBinary) -> ScalarOp
    ensures { result ≡ code.scalar_op o }
{
    match o {
        ValueBinary::Add => ScalarOp::Add,
        ValueBinary::Sub => ScalarOp::Sub,
        ValueBinary::Mul => ScalarOp::Mul,
        ValueBinary::Div => ScalarOp::Div,
        ValueBinary::Min => ScalarOp::Min,
        ValueBinary::Max => ScalarOp::Max,
        ValueBinary::Pow => ScalarOp::Pow,
        ValueBinary::Mod => ScalarOp::Mod,
        ValueBinary::Modulo => ScalarOp::Modulo,
        ValueBinary::Eq => ScalarOp::Eq,
        ValueBinary::Ne => ScalarOp::Ne,
        ValueBinary::Lt => ScalarOp::Lt,
        ValueBinary::Le => ScalarOp::Le,
        ValueBinary::Gt => ScalarOp::Gt,
        ValueBinary::Ge => ScalarOp::Ge,
        ValueBinary::And => ScalarOp::And,
        ValueBinary::Or => ScalarOp::Or,
        ValueBinary::Eqv => ScalarOp::Eqv,
        ValueBinary::Neqv => ScalarOp::Neqv,
    }
}

/// The op on the registers of its operands.
fn micro_of(what: &What, regs: &[u32]) -> Micro
    ensures { result ≡ code.micro_of what.now regs.now }
{
    match (what, regs) {
        (What::Unary(o), [r]) => Micro::Unary(one_op(*o), *r),
        (What::Binary(o), [r, s]) => Micro::Binary(scalar_op(*o), *r, *s),
        (What::Select, [m, t, f]) => Micro::Select(*m, *t, *f),
        _ => Micro::Fixed(0),
    }
}

fn operate(
    alloc: Global,
    place: u32,
    table: &[Seated],
    what: &What,
    os: &[ValueId],
    ops: &mut MicroList,
) -> Result<Seat, AllocError>
    ensures ops { IfOk result (λ r. ops.new ≡ ops.old ++ (code.operated place (length ops.old) (seats.seats_of table.now) what.now os.now).ops) }
    ensures seat { IfOk result (λ r. r ≡ (code.operated place (length ops.old) (seats.seats_of table.now) what.now os.now).seat) }
{
    let regs = fetch_all(alloc, place, table, os, ops)?;
    let op = micro_of(what, regs.as_slice());
    let reg = appended(ops, op)?;
    Ok(Seat::Register(reg))
}

/// Of no value, that of the value 0.
fn first_seat(table: &[Seated], os: &[ValueId]) -> Seat
    ensures { result ≡ seats.seat_or (seats.seats_of table.now (number_of os.now)) }
{
    match os {
        [v, ..] => seat_of(table, *v),
        [] => seat_of(table, ValueId { number: 0 }),
    }
}

/// One op of a body: appends what evaluates it, and gives where its value stands.
pub fn add_op(
    alloc: Global,
    place: u32,
    table: &[Seated],
    what: &What,
    os: &[ValueId],
    ops: &mut MicroList,
) -> Result<Seat, AllocError>
    ensures ops { IfOk result (λ r. ops.new ≡ ops.old ++ (code.op_code place (length ops.old) (seats.seats_of table.now) what.now os.now).ops) }
    ensures seat { IfOk result (λ r. r ≡ (code.op_code place (length ops.old) (seats.seats_of table.now) what.now os.now).seat) }
{
    match what {
        What::Constant(c) => Ok(Seat::Fixed(*c)),
        What::Apply => Ok(first_seat(table, os)),
        _ => operate(alloc, place, table, what, os, ops),
    }
}

fn ends(what: &What) -> bool
    ensures { result ≡ order.ends what.now }
{
    matches!(what, What::Yield | What::YieldElement)
}

/// The ops of a body: appends what evaluates them in order, and gives where the value stands that it yields. The values of the body are
/// numbered from `first` on, and come to the table.
fn walk(
    alloc: Global,
    place: u32,
    table: &mut Vec<Seated>,
    first: u32,
    body: &[Op],
    ops: &mut MicroList,
) -> Result<Seat, AllocError>
    requires { HaveOneNumber body.now }
    ensures ops { IfOk result (λ r. ops.new ≡ ops.old ++ (code.body_code place (length ops.old) (seats.seats_of table.old.items) first body.now).ops) }
    ensures seat { IfOk result (λ r. r ≡ (code.body_code place (length ops.old) (seats.seats_of table.old.items) first body.now).seat) }
    ensures table { IfOk result (λ r. IsFront table.old.items table.new.items) }
{
    let mut n = first;
    'each: for op in body {
        let os = op.operands.as_slice();
        if ends(&op.what) {
            return Ok(first_seat(table.as_slice(), os));
        }
        let seat = add_op(alloc, place, table.as_slice(), &op.what, os, ops)?;
        table.push(Seated { number: n, seat })?;
        let Some(next) = n.checked_add(1) else {
            return Err(AllocError);
        };
        n = next;
    }
    Ok(first_seat(table.as_slice(), &[]))
}

/// The same; the table comes back as it was.
pub fn add_body(
    alloc: Global,
    place: u32,
    table: &mut Vec<Seated>,
    first: u32,
    body: &[Op],
    ops: &mut MicroList,
) -> Result<Seat, AllocError>
    requires { HaveOneNumber body.now }
    ensures ops { IfOk result (λ r. ops.new ≡ ops.old ++ (code.body_code place (length ops.old) (seats.seats_of table.old.items) first body.now).ops) }
    ensures seat { IfOk result (λ r. r ≡ (code.body_code place (length ops.old) (seats.seats_of table.old.items) first body.now).seat) }
    ensures table { IfOk result (λ r. table.new.items ≡ table.old.items) }
{
    let before = table.len();
    let seat = walk(alloc, place, table, first, body, ops)?;
    table.truncate(before);
    Ok(seat)
}
