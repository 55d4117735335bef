//! The values of a module by their numbers.

ghost use Rattle.std.specs.Prelude.{◌≡◌};
ghost use Rattle.hlfir_ops.specs.RulesValues as values;
ghost use Rattle.hlfir_ops.specs.RulesForms as forms;
ghost use Rattle.hlfir_ops.specs.RulesRegions as held;
ghost use Rattle.rule_tests.specs.Seen.{seen, source_seen, value_seen};

use crate::kinds::{is_allocatable, is_expression, is_place_of};
use hlfir_ops::{Elem, ValueId, ValueKind};

/// What gives a value: a declare; a designate, with a vector subscript or without one; a vector; another op, or a forall that gives an
/// index name.
#[derive(Clone, Copy, Debug)]
pub enum Source {
    Declares,
    Designates { vector: bool },
    Lists,
    Other,
}

/// What the rules ask of a value.
#[derive(Clone, Copy, Debug)]
pub struct Value {
    pub kind: ValueKind,
    pub source: Source,
}

/// The value of this number, wherever it stands.
#[tactic(auto, using(crate::proofs::Tables::slice_get_map))]
pub fn value_at(table: &[Value], v: ValueId) -> Option<Value>
    ensures { value_seen result ≡ values.value_at (seen table.now) v }
{
    table.get(v.number as usize).copied()
}

fn kind_of(value: Option<Value>) -> Option<ValueKind>
    ensures { result ≡ values.kind_of (value_seen value) }
{
    match value {
        Some(value) => Some(value.kind),
        None => None,
    }
}

/// The kind of the value of this number.
pub fn kind_at(table: &[Value], v: ValueId) -> Option<ValueKind>
    ensures { result ≡ values.kind_at (seen table.now) v }
{
    kind_of(value_at(table, v))
}

/// The first of these values.
pub fn first_value(table: &[Value], vs: &[ValueId]) -> Option<Value>
    ensures { value_seen result ≡ held.first_value (seen table.now) vs.now }
{
    match vs {
        [] => None,
        [first, ..] => value_at(table, *first),
    }
}

pub fn first_kind(table: &[Value], vs: &[ValueId]) -> Option<ValueKind>
    ensures { result ≡ held.first_kind (seen table.now) vs.now }
{
    kind_of(first_value(table, vs))
}

/// The value of the only one of these numbers.
pub fn only_value(table: &[Value], vs: &[ValueId]) -> Option<Value>
    ensures { value_seen result ≡ forms.only_value (seen table.now) vs.now }
{
    match vs {
        [only] => value_at(table, *only),
        _ => None,
    }
}

pub fn only_kind(table: &[Value], vs: &[ValueId]) -> Option<ValueKind>
    ensures { result ≡ forms.only_kind (seen table.now) vs.now }
{
    match vs {
        [only] => kind_at(table, *only),
        _ => None,
    }
}

fn is_declares(source: Source) -> bool
    ensures { result ≡ values.is_declares (source_seen source) }
{
    matches!(source, Source::Declares)
}

/// The declare of an INTEGER scalar.
pub fn is_integer_declare(value: Option<Value>) -> bool
    ensures { result ≡ values.is_integer_declare (value_seen value) }
{
    match value {
        Some(value) => is_declares(value.source) && is_place_of(Elem::I32, value.kind),
        None => false,
    }
}

/// The declare of an allocatable.
pub fn is_allocatable_declare(value: Option<Value>) -> bool
    ensures { result ≡ values.is_allocatable_declare (value_seen value) }
{
    match value {
        Some(value) => is_declares(value.source) && is_allocatable(Some(value.kind)),
        None => false,
    }
}

fn is_designates(source: Source) -> bool
    ensures { result ≡ values.is_designates (source_seen source) }
{
    matches!(source, Source::Designates { .. })
}

/// A designator.
pub fn is_designate(value: Option<Value>) -> bool
    ensures { result ≡ values.is_designate (value_seen value) }
{
    match value {
        Some(value) => is_designates(value.source),
        None => false,
    }
}

fn has_vector_source(source: Source) -> bool
    ensures { result ≡ values.has_vector_source (source_seen source) }
{
    match source {
        Source::Designates { vector } => vector,
        _ => false,
    }
}

/// A designator with a vector subscript.
pub fn is_vector_designate(value: Option<Value>) -> bool
    ensures { result ≡ values.is_vector_designate (value_seen value) }
{
    match value {
        Some(value) => has_vector_source(value.source),
        None => false,
    }
}

fn is_lists(source: Source) -> bool
    ensures { result ≡ values.is_lists (source_seen source) }
{
    matches!(source, Source::Lists)
}

/// As a vector subscript it is evaluated whole.
pub fn is_whole(value: Option<Value>) -> bool
    ensures { result ≡ values.is_whole (value_seen value) }
{
    match value {
        Some(value) => is_expression(Some(value.kind)) && !is_lists(value.source),
        None => false,
    }
}
