//! Ops and their regions as lines.

ghost use Rattle.std.specs.Prelude.{◌≡◌, ◌+◌, ◌++◌, length, OnOk, IfOk};
ghost use Rattle.hlfir_ops.specs.declared.op.Op.{out-Op};
ghost use Rattle.hlfir_ops.specs.declared.op.Region.{out-Region};
ghost use Rattle.hlfir_ops.specs.Numbers.{own_numbers, op_numbers, numbers_of, numbers_in};
ghost use Rattle.hlfir_ops.specs.Numbers as numbers;
ghost use Rattle.hlfir_text.specs.OperandText as operands;
ghost use Rattle.hlfir_text.specs.ModuleText as lines;

use crate::form::Form;
use crate::head::{put_head, put_indent};
use crate::operands::{comma, put_value, yields_in};
use hlfir_ops::{Module, Op, Region, ValueKind, What};
use std::alloc::{AllocError, Global};
use ws_base::Name;

/// The most regions around an op that is printed. In a module within the rules no more than 132 are.
const DEEPEST: usize = 200;

/// The number after so many more. No module has more of anything than memory holds.
fn after(number: usize, more: usize) -> Result<usize, AllocError>
    ensures { IfOk result (λ next. next ≡ number + more) }
{
    match number.checked_add(more) {
        Some(next) => Ok(next),
        None => Err(AllocError),
    }
}

/// How many values it gives.
fn value_count(kind: &Option<ValueKind>) -> usize
    ensures { result ≡ own_numbers kind.now }
{
    match kind {
        Some(_) => 1,
        None => 0,
    }
}

/// How many regions are around an op in a region of an op that has so many around it. Past the most, which bounds how deep printing calls itself,
/// there is none, which counts as want of memory.
fn inside(around: usize) -> Result<usize, AllocError> {
    if around < DEEPEST {
        Ok(around + 1)
    } else {
        Err(AllocError)
    }
}

/// The index names that the region of this number brings.
fn names_in(what: &What, k: usize) -> &[Name]
    ensures { result.now ≡ numbers.names_in what.now k }
{
    match what {
        What::Forall(names) => { if k == 1 { names.as_slice() } else { &[] } }
        _ => &[],
    }
}

/// One index name: `%7 "i"`.
fn put_name(text: &mut Vec<u8>, number: usize, name: &Name) -> Result<(), AllocError>
    ensures { OnOk result (text.new.items ≡ text.old.items ++ lines.name_text number name.now) }
{
    put_value(text, number)?;
    text.extend_from_slice(b" \"")?;
    text.extend_from_slice(name.as_str().as_bytes())?;
    text.extend_from_slice(b"\"")
}

/// Index names with commas between them.
fn put_names(text: &mut Vec<u8>, number: usize, names: &[Name]) -> Result<(), AllocError>
    ensures { OnOk result (text.new.items ≡ text.old.items ++ lines.names_text 0 number names.now) }
{
    let mut next = number;
    'names: for (k, name) in names.iter().enumerate() {
        text.extend_from_slice(comma(k))?;
        put_name(text, next, name)?;
        next = after(next, 1)?;
    }
    Ok(())
}

fn put_indented(text: &mut Vec<u8>, depth: usize, words: &[u8]) -> Result<(), AllocError>
    ensures { OnOk result (text.new.items ≡ text.old.items ++ (lines.indent depth ++ words.now)) }
{
    put_indent(text, depth)?;
    text.extend_from_slice(words)
}

/// The line between the two regions of a FORALL: `} index %7 "i", %8 "j" {`.
fn put_index(
    text: &mut Vec<u8>,
    depth: usize,
    number: usize,
    names: &[Name],
) -> Result<(), AllocError>
    ensures { OnOk result (text.new.items ≡ text.old.items ++ lines.index_text depth number names.now) }
{
    put_indented(text, depth, b"} index ")?;
    put_names(text, number, names)?;
    text.extend_from_slice(b" {\n")
}

/// What stands before the region of this number: an opening brace, or what stands between two regions. The third one of a WHERE has no
/// braces.
fn put_opening(
    text: &mut Vec<u8>,
    depth: usize,
    what: &What,
    number: usize,
    k: usize,
) -> Result<(), AllocError>
    ensures { OnOk result (text.new.items ≡ text.old.items ++ lines.opening depth what.now number k) }
{
    if k == 0 {
        return text.extend_from_slice(b" {\n");
    }
    match what {
        What::Assign { .. } => put_indented(text, depth, b"} to {\n"),
        What::Masked => {
            if k == 1 {
                put_indented(text, depth, b"} do {\n")
            } else {
                Ok(())
            }
        }
        What::Elsewhere => put_indented(text, depth, b"} do {\n"),
        What::Forall(_) => put_index(text, depth, number, names_in(what, k)),
        _ => put_indented(text, depth, b"} {\n"),
    }
}

fn put_brace(text: &mut Vec<u8>, depth: usize, what: &What) -> Result<(), AllocError>
    ensures { OnOk result (text.new.items ≡ text.old.items ++ lines.brace depth what.now) }
{
    match what {
        What::Elsewhere => Ok(()),
        _ => put_indented(text, depth, b"}\n"),
    }
}

/// What stands after so many regions.
fn put_closing(text: &mut Vec<u8>, depth: usize, what: &What, k: usize) -> Result<(), AllocError>
    ensures { OnOk result (text.new.items ≡ text.old.items ++ lines.closing depth what.now k) }
{
    if k == 0 {
        text.extend_from_slice(b"\n")
    } else {
        put_brace(text, depth, what)
    }
}

/// The third region of a WHERE adds no indentation.
fn depth_in(depth: usize, what: &What, k: usize) -> Result<usize, AllocError>
    ensures { IfOk result (λ inner. inner ≡ lines.depth_in depth what.now k) }
{
    match what {
        What::Masked => { if k == 2 { Ok(depth) } else { after(depth, 1) } }
        _ => after(depth, 1),
    }
}

/// ELSEWHERE without a mask has one region.
fn lone_word(what: &What, regions: usize) -> &'static [u8]
    ensures { result.now ≡ lines.lone_part what.now regions }
{
    match what {
        What::Elsewhere => { if regions == 1 { b" do" } else { b"" } }
        _ => b"",
    }
}

/// An op, whose own value has this number. Gives the number after its values.
#[cycle(lines)]
fn put_op(
    text: &mut Vec<u8>,
    around: usize,
    depth: usize,
    yields: Form,
    number: usize,
    op: &Op,
) -> Result<usize, AllocError>
    ensures text { OnOk result (text.new.items ≡ text.old.items ++ lines.op_text depth yields number op.now) }
    ensures next { IfOk result (λ next. next ≡ number + op_numbers op.now) }
{
    put_head(text, depth, yields, number, op)?;
    text.extend_from_slice(lone_word(&op.what, op.regions.len()))?;
    let first = after(number, value_count(&op.kind))?;
    let next = put_regions(text, around, depth, &op.what, first, op.regions.as_slice())?;
    Ok(next)
}

/// The regions of an op, with what stands around them.
#[cycle(lines)]
fn put_regions(
    text: &mut Vec<u8>,
    around: usize,
    depth: usize,
    what: &What,
    number: usize,
    regions: &[Region],
) -> Result<usize, AllocError>
    ensures text { OnOk result (text.new.items ≡ text.old.items ++ lines.lines_in depth what.now number 0 regions.now) }
    ensures next { IfOk result (λ next. next ≡ number + numbers_in what.now 0 regions.now) }
{
    let mut next = number;
    'regions: for (k, region) in regions.iter().enumerate() {
        next = put_region(text, around, depth, what, next, k, region)?;
    }
    put_closing(text, depth, what, regions.len())?;
    Ok(next)
}

/// The region of this number, with what stands before it.
#[cycle(lines)]
fn put_region(
    text: &mut Vec<u8>,
    around: usize,
    depth: usize,
    what: &What,
    number: usize,
    k: usize,
    region: &Region,
) -> Result<usize, AllocError>
    ensures text { OnOk result (text.new.items ≡ text.old.items ++ lines.region_lines depth what.now number k (out-Region region.now).ops) }
    ensures next { IfOk result (λ next. next ≡ number + length (numbers.names_in what.now k) + numbers_of (out-Region region.now).ops) }
{
    put_opening(text, depth, what, number, k)?;
    let inner = depth_in(depth, what, k)?;
    let first = after(number, names_in(what, k).len())?;
    let around = inside(around)?;
    put_ops(
        text,
        around,
        inner,
        yields_in(what),
        first,
        region.ops.as_slice(),
    )
}

/// The ops of a region, or of the module.
#[cycle(lines)]
fn put_ops(
    text: &mut Vec<u8>,
    around: usize,
    depth: usize,
    yields: Form,
    number: usize,
    ops: &[Op],
) -> Result<usize, AllocError>
    ensures text { OnOk result (text.new.items ≡ text.old.items ++ lines.lines_of depth yields number ops.now) }
    ensures next { IfOk result (λ next. next ≡ number + numbers_of ops.now) }
{
    let mut next = number;
    'ops: for op in ops {
        next = put_op(text, around, depth, yields, next, op)?;
    }
    Ok(next)
}

/// The text of a module. A module whose regions nest far deeper than the rules allow is answered as want of memory.
pub fn print(alloc: Global, module: &Module) -> Result<Vec<u8>, AllocError>
    ensures { IfOk result (λ text. text.items ≡ lines.module_text «module».now) }
{
    let mut text = Vec::new(alloc);
    text.extend_from_slice(b"module ")?;
    text.extend_from_slice(module.name.as_str().as_bytes())?;
    text.extend_from_slice(b"\n")?;
    put_ops(&mut text, 0, 0, Form::Listed, 0, module.ops.as_slice())?;
    Ok(text)
}
