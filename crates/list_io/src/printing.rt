//! The lines of a report.

ghost use Rattle.std.specs.Prelude.{◌≡◌, ◌++◌, true, codes, OnOk, IfOk};
ghost use Rattle.std.specs.List.{flat_map};
ghost use Rattle.ws_space.specs.Shapes.{dims, upper};
ghost use Rattle.list_io.specs.ReportText.{value_text, item_text, dim_text, dims_text, state_text, var_line, variables_text, fault_text, report_text};

use itoa::{Buffer, Integer};
use std::alloc::{AllocError, Global};
use ws_base::Fault;
use ws_space::{Dim, Ended, Shape, State, Var, VarState};

fn put_integer<I: Integer>(text: &mut Vec<u8>, value: I) -> Result<(), AllocError>
    ensures { OnOk result (text.new.items ≡ text.old.items ++ I.text value) }
{
    let mut buffer = Buffer::new();
    text.extend_from_slice(buffer.format(value).as_bytes())
}

fn put_item(text: &mut Vec<u8>, truth: bool, value: i64) -> Result<(), AllocError>
    ensures { OnOk result (text.new.items ≡ text.old.items ++ item_text truth value) }
{
    text.extend_from_slice(b" ")?;
    if truth {
        text.extend_from_slice(truth_word(value))
    } else {
        put_integer(text, value)
    }
}

fn truth_word(value: i64) -> &'static [u8]
    ensures { result.now ≡ value_text true value }
{
    if value != 0 { b"T" } else { b"F" }
}

fn put_items(text: &mut Vec<u8>, truth: bool, values: &[i64]) -> Result<(), AllocError>
    ensures { OnOk result (text.new.items ≡ text.old.items ++ flat_map (item_text truth) values.now) }
{
    for value in values {
        put_item(text, truth, *value)?;
    }
    Ok(())
}

fn upper_bound(dim: Dim) -> i128
    ensures { result ≡ upper dim }
{
    i128::from(dim.lower) + i128::from(dim.extent) - 1
}

fn put_dim(text: &mut Vec<u8>, dim: Dim) -> Result<(), AllocError>
    ensures { OnOk result (text.new.items ≡ text.old.items ++ dim_text dim) }
{
    put_integer(text, dim.lower)?;
    text.extend_from_slice(b":")?;
    put_integer(text, upper_bound(dim))
}

fn put_next_dim(text: &mut Vec<u8>, dim: Dim) -> Result<(), AllocError>
    ensures { OnOk result (text.new.items ≡ text.old.items ++ codes "," ++ dim_text dim) }
{
    text.extend_from_slice(b",")?;
    put_dim(text, dim)
}

fn put_dims(text: &mut Vec<u8>, shape: &Shape) -> Result<(), AllocError>
    ensures { OnOk result (text.new.items ≡ text.old.items ++ dims_text (dims shape.now)) }
{
    if shape.rank >= 1 {
        put_dim(text, shape.d1)?;
    }
    if shape.rank >= 2 {
        put_next_dim(text, shape.d2)?;
    }
    if shape.rank >= 3 {
        put_next_dim(text, shape.d3)?;
    }
    Ok(())
}

fn put_state(text: &mut Vec<u8>, truth: bool, state: &VarState) -> Result<(), AllocError>
    ensures { OnOk result (text.new.items ≡ text.old.items ++ state_text truth state.now) }
{
    match state {
        VarState::Scalar(value) => {
            text.extend_from_slice(b" =")?;
            put_item(text, truth, *value)
        }
        VarState::Array(array) => {
            text.extend_from_slice(b"(")?;
            put_dims(text, &array.shape)?;
            text.extend_from_slice(b") =")?;
            put_items(text, truth, array.values.as_slice())
        }
        VarState::Unallocated { .. } => text.extend_from_slice(b" unallocated"),
    }
}

fn put_var(text: &mut Vec<u8>, var: &Var) -> Result<(), AllocError>
    ensures { OnOk result (text.new.items ≡ text.old.items ++ var_line var.now) }
{
    text.extend_from_slice(var.name.as_str().as_bytes())?;
    put_state(text, var.truth, &var.state)?;
    text.extend_from_slice(b"\n")
}

fn put_variables(text: &mut Vec<u8>, state: &State) -> Result<(), AllocError>
    ensures { OnOk result (text.new.items ≡ text.old.items ++ variables_text state.now) }
{
    for var in state.vars.as_slice() {
        put_var(text, var)?;
    }
    Ok(())
}

fn put_fault(text: &mut Vec<u8>, fault: Fault) -> Result<(), AllocError>
    ensures { OnOk result (text.new.items ≡ text.old.items ++ fault_text fault) }
{
    text.extend_from_slice(b"fault ")?;
    text.extend_from_slice(fault.name.word().as_bytes())?;
    text.extend_from_slice(b" line ")?;
    put_integer(text, fault.line)?;
    text.extend_from_slice(b" element ")?;
    put_integer(text, fault.element)?;
    text.extend_from_slice(b"\n")
}

/// The report of a run. One that is done has a line for each variable, in order of declaration: `n = 5`,
/// `t(1:2) = T F`, `u(1:2,0:1) = 1 2 3 4` in array element order, `p unallocated`. The bounds are the lower bound
/// and lower bound + extent - 1; with no elements the line ends at `=`. A fault has the one line
/// `fault NAME line L element K`. Each line ends with LF.
pub fn report(alloc: Global, ended: &Ended) -> Result<Vec<u8>, AllocError>
    ensures { IfOk result (λ text. text.items ≡ report_text ended.now) }
{
    let mut text = Vec::new(alloc);
    match ended {
        Ended::Done(state) => put_variables(&mut text, state)?,
        Ended::Faulted(fault) => put_fault(&mut text, *fault)?,
    }
    Ok(text)
}
