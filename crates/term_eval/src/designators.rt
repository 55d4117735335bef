//! Whole variables, sections and array elements (Fortran 2018, 9.5).

ghost use Rattle.std.specs.Prelude.{◌≡◌, ◌≤◌, ◌<◌, length, IfOk, MatchResult, Ok, pos, ◌+ℤ◌, ◌-ℤ◌, ◌*ℤ◌};
ghost use Rattle.std.specs.List.{All};
ghost use Rattle.ws_base.specs.Outcomes.{trouble};
ghost use Rattle.ws_space.specs.Sections as sections;
ghost use Rattle.ws_space.specs.Shapes.{dims};
ghost use Rattle.ws_space.specs.Values as values;
ghost use Rattle.ws_space.specs.WellFormed.{elements};
ghost use Rattle.array_meaning.specs.Stage1 as stage1;
ghost use Rattle.term_eval.specs.Words.{Gives, IsSmallArray, Stops};

use crate::names::{constant_of, state_of};
use crate::operand_shapes::{count, extents};
use crate::places::{element, is_within};
use crate::shapes::{Extents, dims_of, is_too_large};
use crate::stop::Stop;
use array_meaning::{Pick, Term, World};
use sqlite_items::Items;
use std::alloc::{AllocError, Global};
use ws_base::FaultName;
use ws_space::{ArrayValue, Dim, ELEMENT_LIMIT, Triplet, VarState};

/// Another array with the same shape and values.
pub fn copy_of(alloc: Global, array: &ArrayValue) -> Result<ArrayValue, AllocError>
    ensures { IfOk result (λ made. made ≡ array.now) }
{
    Ok(ArrayValue {
        shape: array.shape,
        values: Items::from_slice(alloc, array.values.as_slice())?,
    })
}

/// All elements of an array.
#[tactic(auto, unfolding(array_meaning::specs::Terms::terms_open))]
pub fn whole_array(alloc: Global, array: &ArrayValue) -> Result<Term, AllocError>
    ensures { IfOk result (λ t. t ≡ stage1.whole_array array.now) }
{
    let mut picks = Items::new(alloc);
    for dim in dims_of(alloc, &array.shape)?.as_slice() {
        picks.push(Pick::Full(*dim))?;
    }
    Ok(Term::Section(copy_of(alloc, array)?, picks))
}

/// A name alone: a constant, or a variable. In an accepted program it is one of them.
pub fn named(alloc: Global, world: &World, name: &str) -> Result<Term, Stop>
    ensures { Gives result (stage1.named (stage1.constant_of world.now.constants name.now) (values.state_of world.now.vars name.now)) }
{
    if let Some(value) = constant_of(world.constants.as_slice(), name) {
        return Ok(Term::Scalar(value));
    }
    match state_of(world.vars.as_slice(), name) {
        None => Ok(Term::Scalar(0)),
        Some(VarState::Scalar(value)) => Ok(Term::Scalar(*value)),
        Some(VarState::Array(array)) => Ok(whole_array(alloc, array)?),
        Some(VarState::Unallocated { .. }) => Err(Stop::from(FaultName::Unallocated)),
    }
}

// ---- bounds, which are looked at before any element

fn check_subscript(dim: Dim, subscript: i64) -> Result<(), FaultName>
    ensures { MatchResult result (λ _. sections.checked_subscript dim subscript ≡ Ok subscript) (λ fault. sections.checked_subscript dim subscript ≡ trouble fault) }
{
    if is_within(dim, i128::from(subscript)) {
        Ok(())
    } else {
        Err(FaultName::Bounds)
    }
}

/// The last of so many subscripts.
fn last(triplet: &Triplet, count: u64) -> i128
    ensures { result ≡ triplet.now.l +ℤ pos count *ℤ triplet.now.s -ℤ triplet.now.s }
{
    let stride = i128::from(triplet.s);
    i128::from(triplet.l) + i128::from(count) * stride - stride
}

/// Whether a triplet that selects something begins and ends within the dimension.
fn ends_within(dim: Dim, triplet: &Triplet) -> bool
    ensures { result ≡ sections.ends_within dim triplet.now }
{
    let count = count(triplet);
    if count == 0 {
        return true;
    }
    is_within(dim, i128::from(triplet.l)) && is_within(dim, last(triplet, count))
}

fn check_triplet(dim: Dim, triplet: &Triplet) -> Result<(), FaultName>
    ensures { MatchResult result (λ _. sections.checked_triplet dim triplet.now ≡ Ok triplet.now) (λ fault. sections.checked_triplet dim triplet.now ≡ trouble fault) }
{
    if triplet.s == 0 {
        return Err(FaultName::ZeroStride);
    }
    if ends_within(dim, triplet) {
        Ok(())
    } else {
        Err(FaultName::Bounds)
    }
}

/// The subscripts of a vector are looked at with the elements.
fn check_pick(dim: Dim, pick: &Pick) -> Result<(), FaultName>
    ensures { MatchResult result (λ _. stage1.checked_pick dim pick.now ≡ Ok pick.now) (λ fault. stage1.checked_pick dim pick.now ≡ trouble fault) }
{
    match pick {
        Pick::One(subscript) => check_subscript(dim, *subscript),
        Pick::Full(_) => Ok(()),
        Pick::Range(triplet) => check_triplet(dim, triplet),
        Pick::Vector(_) => Ok(()),
    }
}

fn check_picks(dims: &[Dim], picks: &[Pick]) -> Result<(), FaultName>
    requires { length picks.now ≤ length dims.now }
    ensures { MatchResult result (λ _. stage1.checked dims.now picks.now ≡ Ok picks.now) (λ fault. stage1.checked dims.now picks.now ≡ trouble fault) }
{
    for i in 0..picks.len() {
        check_pick(dims[i], &picks[i])?;
    }
    Ok(())
}

/// The extents of what a designator selects, once its bounds and its number of elements are found good.
pub fn selected(alloc: Global, array: &ArrayValue, picks: &[Pick]) -> Result<Extents, Stop>
    requires { length picks.now ≤ length (dims array.now.shape) }
    ensures { MatchResult result (λ extents. (stage1.selected array.now picks.now ≡ Ok picks.now) × (extents ≡ stage1.picked picks.now)) (λ stop. Stops stop (stage1.selected array.now picks.now)) }
{
    let dims = dims_of(alloc, &array.shape)?;
    check_picks(dims.as_slice(), picks)?;
    let extents = extents(alloc, picks)?;
    if is_too_large(extents.as_slice()) {
        return Err(Stop::from(FaultName::TooLarge));
    }
    Ok(extents)
}

/// The scalar subscripts.
fn only(alloc: Global, picks: &[Pick]) -> Result<Items<i64>, AllocError>
    ensures { IfOk result (λ subscripts. subscripts ≡ stage1.only picks.now) }
{
    let mut subscripts = Items::new(alloc);
    for pick in picks {
        match pick {
            Pick::One(subscript) => subscripts.push(*subscript)?,
            _ => {}
        }
    }
    Ok(subscripts)
}

/// An array element, or a section.
pub fn designator(alloc: Global, array: &ArrayValue, picks: Items<Pick>) -> Result<Term, Stop>
    requires array { elements array.now.shape ≤ ELEMENT_LIMIT }
    requires picks { length picks ≤ length (dims array.now.shape) }
    ensures { Gives result (stage1.designator array.now picks) }
{
    let extents = selected(alloc, array, picks.as_slice())?;
    if !extents.is_empty() {
        return Ok(Term::Section(copy_of(alloc, array)?, picks));
    }
    let dims = dims_of(alloc, &array.shape)?;
    let subscripts = only(alloc, picks.as_slice())?;
    let value = element(
        dims.as_slice(),
        array.values.as_slice(),
        subscripts.as_slice(),
    )?;
    Ok(Term::Scalar(value))
}
