//! What names stand for, parts of arrays, and inquiries.

ghost use Rattle.std.specs.Prelude.{◌≡◌, ◌∷◌, ◌++◌, IfOk, OnOk, map};
ghost use Rattle.std.specs.List.{flat_map};
ghost use Rattle.std.specs.Option.{option_copied};
ghost use Rattle.hlfir_ops.specs.RulesForms.{section_rank};
ghost use Rattle.ws_types.specs.Operations.{is_allocated_word};
ghost use Rattle.lower_values.specs.declared.names.Names.{Names};
ghost use Rattle.lower_values.specs.Lowerings.{Appends};
ghost use Rattle.lower_values.specs.References as references;

use crate::appending::{give, give_of};
use crate::elementals::{elem_of, rank_of, truth_constant};
use crate::names::{NamedTruth, Names, Variable};
use crate::operand::{Operand, Subscript};
use hlfir_ops::{
    BoundWord, Builder, Elem, SubKind, SubKindList, ValueId, ValueIdList, ValueKind, What,
};
use sqlite_items::Items;
use std::alloc::{AllocError, Global};
use ws_base::{CallWord, Name};
use ws_tree::Expr;

// ---- variables

/// What stands for a part that has no value; a checked source has none.
pub const NOTHING: Operand = Operand {
    value: ValueId { number: 0 },
    kind: ValueKind::Scalar(Elem::I32),
};

fn variable_of(variables: &[Variable], name: &Name) -> Option<Operand>
    ensures { result ≡ references.variable_of variables.now name.now }
{
    'each: for variable in variables {
        if variable.name == *name {
            return Some(variable.declare);
        }
    }
    None
}

/// The declare of a variable.
pub fn declare_of(names: &Names, name: &Name) -> Operand
    ensures { result ≡ references.declare_of names.now name.now }
{
    match variable_of(names.variables.as_slice(), name) {
        Some(declare) => declare,
        None => NOTHING,
    }
}

/// The box of an allocatable; any other variable is its declare.
pub fn boxed(alloc: Global, build: &mut Builder, declare: Operand) -> Result<Operand, AllocError>
    ensures { IfOk result (λ x. (names : Names) → Appends names (references.boxed declare) build.old build.new x) }
{
    match declare.kind {
        ValueKind::Allocatable { elem, rank } => {
            let kind = ValueKind::Allocatable { elem, rank };
            give_of(alloc, build, What::Boxed, declare, kind)
        }
        _ => Ok(declare),
    }
}

/// The variable of this name, to read it or to take a part of it.
pub fn reference(
    alloc: Global,
    build: &mut Builder,
    names: &Names,
    name: &Name,
) -> Result<Operand, AllocError>
    ensures { IfOk result (λ x. Appends names.now (references.reference name.now) build.old build.new x) }
{
    boxed(alloc, build, declare_of(names, name))
}

/// The value at a place; any other operand as it is.
pub fn loaded(alloc: Global, build: &mut Builder, place: Operand) -> Result<Operand, AllocError>
    ensures { IfOk result (λ x. (names : Names) → Appends names (references.loaded place) build.old build.new x) }
{
    match place.kind {
        ValueKind::Place(elem) => {
            give_of(alloc, build, What::Load, place, ValueKind::Scalar(elem))
        }
        _ => Ok(place),
    }
}

// ---- names in a value place

fn truth_of(truths: &[NamedTruth], name: &Name) -> bool
    ensures { result ≡ references.truth_of truths.now name.now }
{
    'each: for truth in truths {
        if truth.name == *name {
            return truth.value;
        }
    }
    false
}

/// A variable, or a LOGICAL constant.
fn variable_or_truth(
    alloc: Global,
    build: &mut Builder,
    names: &Names,
    name: &Name,
) -> Result<Operand, AllocError>
    ensures { IfOk result (λ x. Appends names.now (references.variable_or_truth names.now name.now (references.variable_of names.now.variables name.now)) build.old build.new x) }
{
    match variable_of(names.variables.as_slice(), name) {
        Some(declare) => {
            let r = boxed(alloc, build, declare)?;
            loaded(alloc, build, r)
        }
        None => {
            let value = truth_of(names.truths.as_slice(), name);
            truth_constant(alloc, build, value)
        }
    }
}

/// A name that is no INTEGER constant. An index name hides the variable.
pub fn named(
    alloc: Global,
    build: &mut Builder,
    names: &Names,
    name: &Name,
) -> Result<Operand, AllocError>
    ensures { IfOk result (λ x. Appends names.now (references.named name.now) build.old build.new x) }
{
    match build.index(name) {
        Some(value) => Ok(Operand {
            value,
            kind: ValueKind::Scalar(Elem::I32),
        }),
        None => variable_or_truth(alloc, build, names, name),
    }
}

// ---- parts of arrays

/// One subscript: a scalar or a vector.
pub fn subscript_of(x: Operand) -> Subscript
    ensures { result ≡ references.subscript_of x }
{
    if rank_of(x.kind) == 0 {
        Subscript::One(x.value)
    } else {
        Subscript::Vector(x.value)
    }
}

fn sub_kind(subscript: Subscript) -> SubKind
    ensures { result ≡ references.sub_kind subscript }
{
    match subscript {
        Subscript::One(_) => SubKind::One,
        Subscript::Range { .. } => SubKind::Range,
        Subscript::Vector(_) => SubKind::Vector,
    }
}

fn sub_kinds(alloc: Global, subscripts: &[Subscript]) -> Result<SubKindList, AllocError>
    ensures { IfOk result (λ kinds. kinds ≡ map references.sub_kind subscripts.now) }
{
    let mut kinds = Items::new(alloc);
    'each: for subscript in subscripts {
        kinds.push(sub_kind(*subscript))?;
    }
    Ok(kinds)
}

fn push_values(values: &mut ValueIdList, subscript: Subscript) -> Result<(), AllocError>
    ensures { OnOk result (values.new ≡ values.old ++ references.sub_values subscript) }
{
    match subscript {
        Subscript::One(i) => values.push(i)?,
        Subscript::Range { l, u, s } => {
            values.push(l)?;
            values.push(u)?;
            values.push(s)?;
        }
        Subscript::Vector(v) => values.push(v)?,
    }
    Ok(())
}

/// The operands of a designate.
fn part_values(
    alloc: Global,
    array: Operand,
    subscripts: &[Subscript],
) -> Result<ValueIdList, AllocError>
    ensures { IfOk result (λ values. values ≡ array.value ∷ flat_map references.sub_values subscripts.now) }
{
    let mut values = Items::new(alloc);
    values.push(array.value)?;
    'each: for subscript in subscripts {
        push_values(&mut values, *subscript)?;
    }
    Ok(values)
}

/// How much a subscript adds to the rank.
fn added_rank(kind: SubKind) -> u32
    ensures { result ≡ references.added_rank kind }
{
    match kind {
        SubKind::One => 0,
        SubKind::Range | SubKind::Vector => 1,
    }
}

/// How many subscripts are no scalar.
fn section_rank(subscripts: &[Subscript]) -> Result<u32, AllocError>
    ensures { IfOk result (λ rank. rank ≡ section_rank (map references.sub_kind subscripts.now)) }
{
    let mut rank: u32 = 0;
    'each: for subscript in subscripts {
        match rank.checked_add(added_rank(sub_kind(*subscript))) {
            Some(sum) => rank = sum,
            None => return Err(AllocError),
        }
    }
    Ok(rank)
}

/// An element, or a section.
fn part_kind(elem: Elem, rank: u32) -> ValueKind
    ensures { result ≡ references.part_kind elem rank }
{
    if rank == 0 {
        ValueKind::Place(elem)
    } else {
        ValueKind::Section { elem, rank }
    }
}

pub fn designated(
    alloc: Global,
    build: &mut Builder,
    array: Operand,
    subscripts: &[Subscript],
) -> Result<Operand, AllocError>
    ensures { IfOk result (λ x. (names : Names) → Appends names (references.designated array subscripts.now) build.old build.new x) }
{
    let operands = part_values(alloc, array, subscripts)?;
    let kind = part_kind(elem_of(array.kind), section_rank(subscripts)?);
    let kinds = sub_kinds(alloc, subscripts)?;
    give(alloc, build, What::Designate(kinds), operands, kind)
}

/// A kept bound of this dimension, counted from 1; or its extent, LBOUND or UBOUND.
pub fn bound(
    alloc: Global,
    build: &mut Builder,
    word: BoundWord,
    dim: u32,
    array: Operand,
) -> Result<Operand, AllocError>
    ensures { IfOk result (λ x. (names : Names) → Appends names (references.bound word dim array) build.old build.new x) }
{
    let kind = ValueKind::Scalar(Elem::I32);
    give_of(alloc, build, What::Bound { word, dim }, array, kind)
}

// ---- SIZE, LBOUND, UBOUND and ALLOCATED

fn first_name(es: &[Expr]) -> Option<&Name>
    ensures { option_copied result ≡ references.first_name es.now }
{
    match es {
        [Expr::Named(name), ..] => Some(name),
        _ => None,
    }
}

fn dimension_in(es: &[Expr]) -> Option<u32>
    ensures { result ≡ references.dimension_in es.now }
{
    match es {
        [_, Expr::Number(dim), ..] => Some(*dim),
        _ => None,
    }
}

fn size(
    alloc: Global,
    build: &mut Builder,
    dim: Option<u32>,
    array: Operand,
) -> Result<Operand, AllocError>
    ensures { IfOk result (λ x. (names : Names) → Appends names (references.size dim array) build.old build.new x) }
{
    match dim {
        None => {
            let kind = ValueKind::Scalar(Elem::I32);
            give_of(alloc, build, What::Size, array, kind)
        }
        Some(dim) => bound(alloc, build, BoundWord::Extent, dim, array),
    }
}

fn dimension(dim: Option<u32>) -> u32
    ensures { result ≡ references.dimension dim }
{
    match dim {
        None => 1,
        Some(dim) => dim,
    }
}

fn bound_word(word: CallWord) -> Option<BoundWord>
    ensures { result ≡ references.bound_word word }
{
    match word {
        CallWord::Lbound => Some(BoundWord::Lbound),
        CallWord::Ubound => Some(BoundWord::Ubound),
        _ => None,
    }
}

/// LBOUND or UBOUND, or SIZE.
fn bound_or_size(
    alloc: Global,
    build: &mut Builder,
    word: Option<BoundWord>,
    dim: Option<u32>,
    array: Operand,
) -> Result<Operand, AllocError>
    ensures { IfOk result (λ x. (names : Names) → Appends names (references.bound_or_size word dim array) build.old build.new x) }
{
    match word {
        Some(word) => bound(alloc, build, word, dimension(dim), array),
        None => size(alloc, build, dim, array),
    }
}

/// ALLOCATED of an allocatable's declare.
fn is_allocated(alloc: Global, build: &mut Builder, declare: Operand) -> Result<Operand, AllocError>
    ensures { IfOk result (λ x. (names : Names) → Appends names (references.is_allocated declare) build.old build.new x) }
{
    let kind = ValueKind::Scalar(Elem::I1);
    give_of(alloc, build, What::Allocated, declare, kind)
}

fn is_allocated_word(word: CallWord) -> bool
    ensures { result ≡ is_allocated_word word }
{
    match word {
        CallWord::Allocated => true,
        _ => false,
    }
}

fn inquiry_of(
    alloc: Global,
    build: &mut Builder,
    names: &Names,
    word: CallWord,
    name: &Name,
    dim: Option<u32>,
) -> Result<Operand, AllocError>
    ensures { IfOk result (λ x. Appends names.now (references.inquiry_of word name.now dim) build.old build.new x) }
{
    if is_allocated_word(word) {
        return is_allocated(alloc, build, declare_of(names, name));
    }
    let array = reference(alloc, build, names, name)?;
    bound_or_size(alloc, build, bound_word(word), dim, array)
}

/// SIZE, LBOUND, UBOUND or ALLOCATED (Fortran 2018, 16.9).
pub fn inquiry(
    alloc: Global,
    build: &mut Builder,
    names: &Names,
    word: CallWord,
    es: &[Expr],
) -> Result<Operand, AllocError>
    ensures { IfOk result (λ x. Appends names.now (references.inquiry word es.now) build.old build.new x) }
{
    match first_name(es) {
        Some(name) => inquiry_of(alloc, build, names, word, name, dimension_in(es)),
        None => Ok(NOTHING),
    }
}
