//! Kinds as text.

ghost use Rattle.std.specs.Prelude.{◌≡◌, ◌++◌, OnOk, codes, decimal};
ghost use Rattle.std.specs.List.{flat_map};
ghost use Rattle.ws_space.specs.Shapes.{dims, upper};
ghost use Rattle.hlfir_text.specs.KindText as kinds;

use hlfir_ops::{Elem, ValueKind};
use itoa::{Buffer, Integer};
use std::alloc::AllocError;
use ws_space::{Dim, Shape};

pub fn put_integer<I: Integer>(text: &mut Vec<u8>, value: I) -> Result<(), AllocError>
    ensures { OnOk result (text.new.items ≡ text.old.items ++ I.text value) }
{
    let mut buffer = Buffer::new();
    text.extend_from_slice(buffer.format(value).as_bytes())
}

fn elem_word(elem: Elem) -> &'static str
    ensures { result.now ≡ kinds.elem_text elem }
{
    match elem {
        Elem::I32 => "i32",
        Elem::I1 => "i1",
    }
}

fn put_elem(text: &mut Vec<u8>, elem: Elem) -> Result<(), AllocError>
    ensures { OnOk result (text.new.items ≡ text.old.items ++ kinds.elem_text elem) }
{
    text.extend_from_slice(elem_word(elem).as_bytes())
}

fn upper_bound(dim: Dim) -> i128
    ensures { result ≡ upper dim }
{
    i128::from(dim.lower) + i128::from(dim.extent) - 1
}

fn put_dim(text: &mut Vec<u8>, dim: Dim) -> Result<(), AllocError>
    ensures { OnOk result (text.new.items ≡ text.old.items ++ kinds.dim_text dim) }
{
    put_integer(text, dim.lower)?;
    text.extend_from_slice(b":")?;
    put_integer(text, upper_bound(dim))?;
    text.extend_from_slice(b"x")
}

fn put_dims(text: &mut Vec<u8>, shape: &Shape) -> Result<(), AllocError>
    ensures { OnOk result (text.new.items ≡ text.old.items ++ flat_map kinds.dim_text (dims shape.now)) }
{
    if shape.rank >= 1 {
        put_dim(text, shape.d1)?;
    }
    if shape.rank >= 2 {
        put_dim(text, shape.d2)?;
    }
    if shape.rank >= 3 {
        put_dim(text, shape.d3)?;
    }
    Ok(())
}

fn put_open_dims(text: &mut Vec<u8>, rank: u32) -> Result<(), AllocError>
    ensures { OnOk result (text.new.items ≡ text.old.items ++ kinds.open_dims rank) }
{
    'dims: for _ in 0..rank {
        text.extend_from_slice(b"?x")?;
    }
    Ok(())
}

fn put_kind(text: &mut Vec<u8>, kind: &ValueKind) -> Result<(), AllocError>
    ensures { OnOk result (text.new.items ≡ text.old.items ++ kinds.kind_text kind.now) }
{
    match kind {
        ValueKind::Scalar(elem) => put_elem(text, *elem),
        ValueKind::Place(elem) => {
            text.extend_from_slice(b"ref<")?;
            put_elem(text, *elem)?;
            text.extend_from_slice(b">")
        }
        ValueKind::Declared { elem, shape } => {
            text.extend_from_slice(b"ref<")?;
            put_dims(text, shape)?;
            put_elem(text, *elem)?;
            text.extend_from_slice(b">")
        }
        ValueKind::Allocatable { elem, rank } => {
            text.extend_from_slice(b"ref<")?;
            put_open_dims(text, *rank)?;
            put_elem(text, *elem)?;
            text.extend_from_slice(b">")
        }
        ValueKind::Section { elem, rank } => put_ranked(text, b"sec<", *elem, *rank),
        ValueKind::Array { elem, rank } => put_ranked(text, b"expr<", *elem, *rank),
    }
}

fn put_ranked(text: &mut Vec<u8>, front: &[u8], elem: Elem, rank: u32) -> Result<(), AllocError>
    ensures { OnOk result (text.new.items ≡ text.old.items ++ (front.now ++ decimal rank ++ codes "x" ++ kinds.elem_text elem ++ codes ">")) }
{
    text.extend_from_slice(front)?;
    put_integer(text, rank)?;
    text.extend_from_slice(b"x")?;
    put_elem(text, elem)?;
    text.extend_from_slice(b">")
}

/// The kind, after the operands of an op that gives a value: ` : i32`.
pub fn put_kind_part(text: &mut Vec<u8>, kind: &Option<ValueKind>) -> Result<(), AllocError>
    ensures { OnOk result (text.new.items ≡ text.old.items ++ kinds.kind_part kind.now) }
{
    match kind {
        None => Ok(()),
        Some(kind) => {
            text.extend_from_slice(b" : ")?;
            put_kind(text, kind)
        }
    }
}
