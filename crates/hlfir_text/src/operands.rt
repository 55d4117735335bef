//! Operands as text.

ghost use Rattle.std.specs.Prelude.{◌≡◌, ◌++◌, OnOk, take, drop};
ghost use Rattle.hlfir_text.specs.OpText as ops;
ghost use Rattle.hlfir_text.specs.OperandText as operands;

use crate::form::Form;
use crate::kind::put_integer;
use hlfir_ops::{SubKind, ValueId, What};
use std::alloc::AllocError;

/// A value: `%7`.
pub fn put_value(text: &mut Vec<u8>, number: usize) -> Result<(), AllocError>
    ensures { OnOk result (text.new.items ≡ text.old.items ++ operands.value_text number) }
{
    text.extend_from_slice(b"%")?;
    put_integer(text, number)
}

fn put_id(text: &mut Vec<u8>, value: ValueId) -> Result<(), AllocError>
    ensures { OnOk result (text.new.items ≡ text.old.items ++ operands.value_text value.number) }
{
    text.extend_from_slice(b"%")?;
    put_integer(text, value.number)
}

fn first_separator(form: Form) -> &'static [u8]
    ensures { result.now ≡ operands.first_separator form }
{
    match form {
        Form::Triplet => b"",
        _ => b" ",
    }
}

fn next_separator(form: Form, k: usize) -> &'static [u8]
    ensures { result.now ≡ operands.next_separator form k }
{
    match form {
        Form::Listed => b", ",
        Form::Spaced => b" ",
        Form::Pairs => { if k % 2 == 0 { b", " } else { b":" } }
        Form::Triples => { if k % 3 == 0 { b", " } else { b":" } }
        Form::Triplet => b":",
    }
}

fn separator(form: Form, k: usize) -> &'static [u8]
    ensures { result.now ≡ operands.separator form k }
{
    if k == 0 {
        first_separator(form)
    } else {
        next_separator(form, k)
    }
}

fn put_values(text: &mut Vec<u8>, form: Form, values: &[ValueId]) -> Result<(), AllocError>
    ensures { OnOk result (text.new.items ≡ text.old.items ++ operands.values_text form 0 values.now) }
{
    'values: for (k, value) in values.iter().enumerate() {
        text.extend_from_slice(separator(form, k))?;
        put_id(text, *value)?;
    }
    Ok(())
}

fn width(sub: SubKind) -> usize
    ensures { result ≡ operands.width sub }
{
    match sub {
        SubKind::One => 1,
        SubKind::Range => 3,
        SubKind::Vector => 1,
    }
}

fn sub_word(sub: SubKind) -> &'static [u8]
    ensures { result.now ≡ operands.sub_word sub }
{
    match sub {
        SubKind::One | SubKind::Range => b"",
        SubKind::Vector => b"vector ",
    }
}

/// What stands before the item of this number.
pub fn comma(k: usize) -> &'static [u8]
    ensures { result.now ≡ operands.comma k }
{
    if k == 0 { b"" } else { b", " }
}

/// The first so many operands, as far as they are there.
fn front(values: &[ValueId], count: usize) -> &[ValueId]
    ensures { result.now ≡ take count values.now }
{
    if count <= values.len() {
        &values[..count]
    } else {
        values
    }
}

/// The operands after these.
fn rest(values: &[ValueId], count: usize) -> &[ValueId]
    ensures { result.now ≡ drop count values.now }
{
    if count <= values.len() {
        &values[count..]
    } else {
        &[]
    }
}

fn put_subs(text: &mut Vec<u8>, subs: &[SubKind], values: &[ValueId]) -> Result<(), AllocError>
    ensures { OnOk result (text.new.items ≡ text.old.items ++ operands.subs_text 0 subs.now values.now) }
{
    let mut left = values;
    'subs: for (k, sub) in subs.iter().enumerate() {
        text.extend_from_slice(comma(k))?;
        text.extend_from_slice(sub_word(*sub))?;
        put_values(text, Form::Triplet, front(left, width(*sub)))?;
        left = rest(left, width(*sub));
    }
    Ok(())
}

/// The array, and its subscripts in parentheses: ` %0 (%7:%8:%9)`.
fn put_designator(
    text: &mut Vec<u8>,
    subs: &[SubKind],
    values: &[ValueId],
) -> Result<(), AllocError>
    ensures { OnOk result (text.new.items ≡ text.old.items ++ operands.designator_text subs.now values.now) }
{
    put_values(text, Form::Listed, front(values, 1))?;
    text.extend_from_slice(b" (")?;
    put_subs(text, subs, rest(values, 1))?;
    text.extend_from_slice(b")")
}

/// The operands of an op. `yields` is the form of a yield's at its place.
pub fn put_operands(
    text: &mut Vec<u8>,
    yields: Form,
    what: &What,
    values: &[ValueId],
) -> Result<(), AllocError>
    ensures { OnOk result (text.new.items ≡ text.old.items ++ ops.operands_text yields what.now values.now) }
{
    match what {
        What::Yield => put_values(text, yields, values),
        What::Bound { dim, .. } => {
            put_values(text, Form::Listed, values)?;
            text.extend_from_slice(b", ")?;
            put_integer(text, *dim)
        }
        What::Designate(subs) => put_designator(text, subs.as_slice(), values),
        What::Vector => put_values(text, Form::Spaced, values),
        _ => put_values(text, Form::Listed, values),
    }
}

/// The form of the yields in an op's regions.
pub fn yields_in(what: &What) -> Form
    ensures { result ≡ ops.yields_in what.now }
{
    match what {
        What::Forall(_) => Form::Triples,
        What::Allocmem { .. } => Form::Pairs,
        _ => Form::Listed,
    }
}
