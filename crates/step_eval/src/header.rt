//! The header of a FORALL, and that of a DO: the values that each index goes through (Fortran 2018, 10.2.4.2.2 and 11.1.7.4.1).

ghost use Rattle.std.specs.Prelude.{◌≡◌, IfOk};
ghost use Rattle.std.specs.List.{All};
ghost use Rattle.ws_space.specs.Combinations.{lengths};
ghost use Rattle.ws_space.specs.Sections as sections;
ghost use Rattle.ws_space.specs.Shapes as shapes;
ghost use Rattle.array_meaning.specs.Forall as forall;
ghost use Rattle.term_eval.specs.Limits.{IsFew, IsSmall, IsWorld};
ghost use Rattle.term_eval.specs.Made.{Gives};
ghost use Rattle.step_eval.specs.Combinations.{AreCombinations, IsAxis};
ghost use Rattle.step_eval.specs.Small.{IsSmallIndex, IsSmallOption};

use crate::assignment::every_place;
use array_meaning::World;
use sqlite_items::Items;
use std::alloc::{AllocError, Global};
use term_eval::{Extents, Stop, count, is_too_large, scalar};
use ws_base::FaultName;
use ws_space::Triplet;
use ws_tree::{Expr, Index};

/// A triplet whose stride is not 0.
fn with_stride(triplet: Triplet) -> Result<Triplet, Stop>
    ensures { Gives result (sections.with_stride triplet) }
{
    if triplet.s == 0 {
        return Err(Stop::from(FaultName::ZeroStride));
    }
    Ok(triplet)
}

fn scalar_or(alloc: Global, world: &World, other: i32, e: &Option<Expr>) -> Result<i32, Stop>
    requires world { IsWorld world.now }
    requires small { IsSmallOption e.now }
    ensures { Gives result (forall.scalar_or world.now other e.now) }
{
    match e {
        None => Ok(other),
        Some(e) => scalar(alloc, world, e),
    }
}

/// `l`, `u` and `s` of an index or a DO, of which an omitted `s` is 1. ZeroStride where `s` is 0.
pub fn stepping(
    alloc: Global,
    world: &World,
    l: &Expr,
    u: &Expr,
    s: &Option<Expr>,
) -> Result<Triplet, Stop>
    requires world { IsWorld world.now }
    requires l { IsSmall l.now }
    requires u { IsSmall u.now }
    requires s { IsSmallOption s.now }
    ensures { Gives result (forall.stepping world.now l.now u.now s.now) }
{
    let l = scalar(alloc, world, l)?;
    let u = scalar(alloc, world, u)?;
    let s = scalar_or(alloc, world, 1, s)?;
    with_stride(Triplet { l, u, s })
}

/// The values of each index.
fn axes(alloc: Global, world: &World, indexes: &[Index]) -> Result<Items<Triplet>, Stop>
    requires world { IsWorld world.now }
    requires small { All IsSmallIndex indexes.now }
    ensures { Gives result (forall.axes world.now indexes.now) }
{
    let mut triplets = Items::new(alloc);
    'each: for index in indexes {
        let triplet = stepping(alloc, world, &index.l, &index.u, &index.s)?;
        triplets.push(triplet)?;
    }
    Ok(triplets)
}

/// How many values each index has.
fn lengths_of(alloc: Global, triplets: &[Triplet]) -> Result<Extents, AllocError>
    ensures { IfOk result (λ extents. extents ≡ lengths triplets.now) }
{
    let mut extents = Items::new(alloc);
    for triplet in triplets {
        extents.push(count(triplet))?;
    }
    Ok(extents)
}

/// The values of each index. TooLarge where there are more combinations than an array may have elements.
pub fn header(alloc: Global, world: &World, indexes: &[Index]) -> Result<Items<Triplet>, Stop>
    requires world { IsWorld world.now }
    requires small { All IsSmallIndex indexes.now }
    ensures { Gives result (forall.header world.now indexes.now) }
{
    let triplets = axes(alloc, world, indexes)?;
    let extents = lengths_of(alloc, triplets.as_slice())?;
    if is_too_large(extents.as_slice()) {
        return Err(Stop::from(FaultName::TooLarge));
    }
    Ok(triplets)
}

/// The places of all combinations.
#[tactic(auto, using(crate::proofs::Headers::every_place_within))]
pub fn every_combination(alloc: Global, triplets: &[Triplet]) -> Result<Items<u32>, AllocError>
    requires few { IsFew (lengths triplets.now) }
    requires axes { All IsAxis triplets.now }
    ensures value { IfOk result (λ places. places ≡ shapes.all_places (lengths triplets.now)) }
    ensures combinations { IfOk result (AreCombinations triplets.now) }
{
    let extents = lengths_of(alloc, triplets)?;
    every_place(alloc, extents.as_slice())
}
