//! One op of an act.

ghost use Rattle.std.specs.Prelude.{◌≡◌, ℕ, ◌+◌, ◌*◌, ◌≤◌, ◌<◌, IsTrue, IfSome, length, slice_index, slice_index_or, ℤ, pos, ◌+ℤ◌, ◌*ℤ◌, ◌<ℤ◌, int_div, int_rem};
ghost use Rattle.std.specs.Int.{w64, int_wrap, cast_signed};
ghost use Rattle.phase_ops.specs.Phases.{source, source_cells, register, address, address_cells, cell_of, looks, divisors, turn};
ghost use Rattle.ws_base.specs.Words.{fault_number};
ghost use Rattle.phase_ops.specs.Free.{In};
ghost use Rattle.act_eval.specs.Sites.{Small, line, plane, named_cells};

use crate::number::{binary_value, unary_value};
use crate::site::Site;
use phase_ops::{Address, Effect, Micro, Source, Turn};
use ws_base::FaultName;

#[inline(always)]
fn get(registers: &[i64], at: u32) -> i64
    ensures { result ≡ register registers.now at }
{
    let at = at as usize;
    if at < registers.len() {
        registers[at]
    } else {
        0
    }
}

#[inline(always)]
fn cell_at<H, S: Site<H>>(site: &S, hand: &mut H, cell: u64) -> i64
    requires belongs { S.belongs site.now hand.old }
    requires loads { In cell (S.view site.now hand.old).may × Small cell }
    ensures value { result ≡ cast_signed w64 (slice_index (S.view site.now hand.old).cells cell) }
    ensures same { S.view site.now hand.new ≡ S.view site.now hand.old }
    ensures belongs { S.belongs site.now hand.new }
{
    site.look(hand, cell).cast_signed()
}

#[inline(always)]
fn source_at<H, S: Site<H>>(site: &S, hand: &mut H, from: Source) -> i64
    requires belongs { S.belongs site.now hand.old }
    requires loads { (c : ℕ) → In c (source_cells from) → In c (S.view site.now hand.old).may × Small c }
    ensures value { result ≡ source (S.view site.now hand.old).cells from }
    ensures same { S.view site.now hand.new ≡ S.view site.now hand.old }
    ensures belongs { S.belongs site.now hand.new }
{
    match from {
        Source::Fixed(value) => value,
        Source::Cell(cell) => cell_at(site, hand, u64::from(cell)),
    }
}

#[inline(always)]
fn plus(a: i64, b: i64) -> i64
    ensures { result ≡ int_wrap w64 (a +ℤ b) }
{
    a.wrapping_add(b)
}

#[inline(always)]
fn times(a: i64, b: i64) -> i64
    ensures { result ≡ int_wrap w64 (a *ℤ b) }
{
    a.wrapping_mul(b)
}

#[inline(always)]
fn plus_times(sum: i64, a: i64, b: i64) -> i64
    ensures { result ≡ int_wrap w64 (sum +ℤ int_wrap w64 (a *ℤ b)) }
{
    plus(sum, times(a, b))
}

/// The base, the register and the step of an address that has one term, where it reads no cell.
#[inline(always)]
fn line_of(place: &Address) -> Option<(i64, u32, i64)>
    ensures { IfSome result (λ l. place.now ≡ line l.0 l.1 l.2) }
{
    let Source::Fixed(base) = place.base else {
        return None;
    };
    let [term] = place.terms.as_slice() else {
        return None;
    };
    match term.step {
        Source::Fixed(step) => Some((base, term.reg, step)),
        Source::Cell(_) => None,
    }
}

/// The number of the cell that such an address names.
#[inline(always)]
fn line_at(base: i64, reg: u32, step: i64, registers: &[i64]) -> u64
    requires { Small (cell_of (base +ℤ (register registers.now reg *ℤ step +ℤ pos 0))) }
    ensures { result ≡ cell_of (base +ℤ (register registers.now reg *ℤ step +ℤ pos 0)) }
{
    plus_times(base, get(registers, reg), step).cast_unsigned()
}

/// The base, and the registers and the steps of both terms, of an address that has two terms, where it reads no cell.
#[inline(always)]
fn plane_of(place: &Address) -> Option<(i64, u32, i64, u32, i64)>
    ensures { IfSome result (λ l. place.now ≡ plane l.0 l.1 l.2 l.3 l.4) }
{
    let Source::Fixed(base) = place.base else {
        return None;
    };
    let [first, second] = place.terms.as_slice() else {
        return None;
    };
    let Source::Fixed(near) = first.step else {
        return None;
    };
    match second.step {
        Source::Fixed(far) => Some((base, first.reg, near, second.reg, far)),
        Source::Cell(_) => None,
    }
}

/// The number of the cell that such an address names.
#[inline(always)]
fn plane_at(base: i64, first: u32, near: i64, second: u32, far: i64, registers: &[i64]) -> u64
    requires { Small (cell_of (base +ℤ (register registers.now first *ℤ near +ℤ (register registers.now second *ℤ far +ℤ pos 0)))) }
    ensures { result ≡ cell_of (base +ℤ (register registers.now first *ℤ near +ℤ (register registers.now second *ℤ far +ℤ pos 0))) }
{
    let low = get(registers, first);
    let high = get(registers, second);
    let sum = plus_times(base, low, near);
    let all = plus_times(sum, high, far);
    all.cast_unsigned()
}

/// The number of the cell that an address names, where it names one.
#[inline(always)]
fn address_at<H, S: Site<H>>(site: &S, hand: &mut H, place: &Address, registers: &[i64]) -> u64
    requires belongs { S.belongs site.now hand.old }
    requires loads { (c : ℕ) → In c (address_cells place.now) → In c (S.view site.now hand.old).may × Small c }
    requires small { Small (address (S.view site.now hand.old).cells registers.now place.now) }
    ensures value { result ≡ address (S.view site.now hand.old).cells registers.now place.now }
    ensures same { S.view site.now hand.new ≡ S.view site.now hand.old }
    ensures belongs { S.belongs site.now hand.new }
{
    if let Some((base, reg, step)) = line_of(place) {
        return line_at(base, reg, step, registers);
    }
    if let Some((base, first, near, second, far)) = plane_of(place) {
        return plane_at(base, first, near, second, far, registers);
    }
    let mut sum = source_at(site, hand, place.base);
    let terms = place.terms.as_slice();
    for at in 0..terms.len() {
        let step = source_at(site, hand, terms[at].step);
        sum = plus_times(sum, get(registers, terms[at].reg), step);
    }
    sum.cast_unsigned()
}

#[inline(always)]
fn turn_of(value: Result<i64, FaultName>) -> Turn
    ensures { result ≡ Rattle.phase_ops.specs.Phases.turn_of value }
{
    match value {
        Ok(value) => Turn::Next(value),
        Err(name) => Turn::Fails(name),
    }
}

#[inline(always)]
fn quotient(a: i64, by: i64) -> i64
    requires { pos 0 <ℤ by }
    ensures { result ≡ int_div a by }
{
    a / by
}

#[inline(always)]
fn rest_of(a: i64, by: i64) -> i64
    requires { pos 0 <ℤ by }
    ensures { result ≡ int_rem a by }
{
    a % by
}

#[inline(always)]
fn digit(a: i64, by: i64, modulus: i64) -> i64
    requires { (pos 0 <ℤ by) × (pos 0 <ℤ modulus) }
    ensures { result ≡ int_rem (int_div a by) modulus }
{
    rest_of(quotient(a, by), modulus)
}

/// What one op gives.
#[inline(always)]
pub fn turn_at<H, S: Site<H>>(
    site: &S,
    hand: &mut H,
    op: &Micro,
    iteration: u32,
    registers: &[i64],
) -> Turn
    requires belongs { S.belongs site.now hand.old }
    requires loads { (c : ℕ) → In c (looks (S.view site.now hand.old).cells registers.now op.now) → In c (S.view site.now hand.old).may × Small c }
    requires small { (c : ℕ) → In c (named_cells (S.view site.now hand.old).cells registers.now op.now) → Small c }
    requires positive { (z : ℤ) → In z (divisors (S.view site.now hand.old).cells op.now) → pos 0 <ℤ z }
    ensures value { result ≡ turn iteration (S.view site.now hand.old).cells registers.now op.now }
    ensures same { S.view site.now hand.new ≡ S.view site.now hand.old }
    ensures belongs { S.belongs site.now hand.new }
{
    match op {
        Micro::Fixed(value) => Turn::Next(*value),
        Micro::Position => Turn::Next(i64::from(iteration)),
        Micro::Digit { reg, by, modulus } => {
            let by = source_at(site, hand, *by);
            let modulus = source_at(site, hand, *modulus);
            Turn::Next(digit(get(registers, *reg), by, modulus))
        }
        Micro::Load(from) => {
            let cell = address_at(site, hand, from, registers);
            Turn::Next(cell_at(site, hand, cell))
        }
        Micro::Unary(op, reg) => turn_of(unary_value(*op, get(registers, *reg))),
        Micro::Binary(op, a, b) => {
            turn_of(binary_value(*op, get(registers, *a), get(registers, *b)))
        }
        Micro::Select(test, yes, no) => {
            let from = if get(registers, *test) != 0 { yes } else { no };
            Turn::Next(get(registers, *from))
        }
        Micro::Gate(reg) => {
            if get(registers, *reg) != 0 {
                Turn::Next(0)
            } else {
                Turn::Shut
            }
        }
        Micro::FailIf(name, reg) => {
            if get(registers, *reg) != 0 {
                Turn::Fails(*name)
            } else {
                Turn::Next(0)
            }
        }
        Micro::Store(to, reg) => {
            let cell = address_at(site, hand, to, registers);
            Turn::Does(Effect::Store(cell, get(registers, *reg).cast_unsigned()))
        }
        Micro::Least(to, reg) => {
            let cell = address_at(site, hand, to, registers);
            Turn::Does(Effect::Least(cell, get(registers, *reg).cast_unsigned()))
        }
    }
}

#[inline(always)]
pub fn same(value: &i64) -> i64
    ensures { result ≡ value.now }
{
    *value
}

/// The key of a fault.
pub fn key_of(act: u32, op: u32, element: u32, name: FaultName) -> u64
    requires { (act < 1048576) × (op < 1048576) × (element < 1048576) }
    ensures { result ≡ ((act * 1048576 + op) * 1048576 + element) * 16 + fault_number name }
{
    ((u64::from(act) * 1_048_576 + u64::from(op)) * 1_048_576 + u64::from(element)) * 16
        + u64::from(name.number())
}
