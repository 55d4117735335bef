//! The line of an op, up to its regions.

ghost use Rattle.std.specs.Prelude.{◌≡◌, ◌++◌, OnOk};
ghost use Rattle.hlfir_ops.specs.declared.op.Op.{out-Op};
ghost use Rattle.hlfir_text.specs.ModuleText as lines;

use crate::form::Form;
use crate::kind::{put_integer, put_kind_part};
use crate::operands::{put_operands, put_value};
use crate::words::{mark, word};
use hlfir_ops::{Elem, Op, ValueKind, What};
use std::alloc::AllocError;

/// Two blanks for each region.
pub fn put_indent(text: &mut Vec<u8>, depth: usize) -> Result<(), AllocError>
    ensures { OnOk result (text.new.items ≡ text.old.items ++ lines.indent depth) }
{
    'depth: for _ in 0..depth {
        text.extend_from_slice(b"  ")?;
    }
    Ok(())
}

fn put_result(text: &mut Vec<u8>, number: usize, kind: &Option<ValueKind>) -> Result<(), AllocError>
    ensures { OnOk result (text.new.items ≡ text.old.items ++ lines.result_part number kind.now) }
{
    match kind {
        None => Ok(()),
        Some(_) => {
            put_value(text, number)?;
            text.extend_from_slice(b" = ")
        }
    }
}

fn put_line(text: &mut Vec<u8>, what: &What, line: u32) -> Result<(), AllocError>
    ensures { OnOk result (text.new.items ≡ text.old.items ++ lines.line_part what.now line) }
{
    if what.has_line() {
        text.extend_from_slice(b" @")?;
        put_integer(text, line)?;
    }
    Ok(())
}

fn truth_word(value: i64) -> &'static [u8]
    ensures { result.now ≡ lines.truth_word value }
{
    if value != 0 { b"true" } else { b"false" }
}

fn put_constant(text: &mut Vec<u8>, kind: &Option<ValueKind>, value: i64) -> Result<(), AllocError>
    ensures { OnOk result (text.new.items ≡ text.old.items ++ lines.constant_text kind.now value) }
{
    match kind {
        Some(ValueKind::Scalar(Elem::I1)) => text.extend_from_slice(truth_word(value)),
        _ => put_integer(text, value),
    }
}

fn put_own(text: &mut Vec<u8>, what: &What, kind: &Option<ValueKind>) -> Result<(), AllocError>
    ensures { OnOk result (text.new.items ≡ text.old.items ++ lines.own_part what.now kind.now) }
{
    match what {
        What::Declare(name) => {
            text.extend_from_slice(b" \"")?;
            text.extend_from_slice(name.as_str().as_bytes())?;
            text.extend_from_slice(b"\"")
        }
        What::Constant(value) => {
            text.extend_from_slice(b" ")?;
            put_constant(text, kind, *value)
        }
        _ => Ok(()),
    }
}

fn put_words(
    text: &mut Vec<u8>,
    what: &What,
    line: u32,
    kind: &Option<ValueKind>,
) -> Result<(), AllocError>
    ensures { OnOk result (text.new.items ≡ text.old.items ++ lines.words_text what.now line kind.now) }
{
    text.extend_from_slice(word(what).as_bytes())?;
    put_line(text, what, line)?;
    text.extend_from_slice(mark(what).as_bytes())?;
    put_own(text, what, kind)
}

/// The line of the op up to its regions, for instance `%9 = hlfir.load %2 : i32`.
pub fn put_head(
    text: &mut Vec<u8>,
    depth: usize,
    yields: Form,
    number: usize,
    op: &Op,
) -> Result<(), AllocError>
    ensures { OnOk result (text.new.items ≡ text.old.items ++ lines.head_text depth yields number (out-Op op.now).what (out-Op op.now).line (out-Op op.now).operands (out-Op op.now).kind) }
{
    put_indent(text, depth)?;
    put_result(text, number, &op.kind)?;
    put_words(text, &op.what, op.line, &op.kind)?;
    put_operands(text, yields, &op.what, op.operands.as_slice())?;
    put_kind_part(text, &op.kind)
}
