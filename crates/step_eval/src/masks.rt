//! Evaluated masks (Fortran 2018, 10.2.3.2).

ghost use Rattle.std.specs.Prelude.{◌≡◌, length, IfOk, OnOk};
ghost use Rattle.std.specs.List.{All};
ghost use Rattle.ws_base.specs.Numbers.{is_true};
ghost use Rattle.ws_space.specs.Masks as masks;
ghost use Rattle.term_eval.specs.Limits.{IsFew};
ghost use Rattle.step_eval.specs.Halts.{Leaves};
ghost use Rattle.step_eval.specs.Narrow.{IsNarrow};
ghost use Rattle.step_eval.specs.Masked as masked;
ghost use Rattle.step_eval.specs.Masked.{ArePlaces, IsEvaluated, IsSmallMask, splits_of, control_of, splits_through};

use crate::assignment::{every_place, values_at};
use crate::construct::{MaskTerm, Places, Under};
use crate::halt::Halt;
use sqlite_items::{Items, at};
use std::alloc::{AllocError, Global};

fn is_chosen(want: bool, value: i64) -> bool
    ensures { result ≡ masks.same_truth want (is_true value) }
{
    (value != 0) == want
}

/// The places whose value is true, or those whose value is false.
fn chosen(
    alloc: Global,
    want: bool,
    places: &[u32],
    values: &[i64],
) -> Result<Items<u32>, AllocError>
    requires { length values.now ≡ length places.now }
    ensures { IfOk result (λ chosen. chosen ≡ masks.chosen want places.now values.now) }
{
    let mut chosen = Items::new(alloc);
    for i in 0..places.len() {
        if is_chosen(want, values[i]) {
            chosen.push(places[i])?;
        }
    }
    Ok(chosen)
}

/// As `chosen`, of places of elements.
#[tactic(auto, using(crate::proofs::Chosen::chosen_places))]
pub fn chosen_places(
    alloc: Global,
    want: bool,
    places: &[u32],
    values: &[i64],
) -> Result<Items<u32>, AllocError>
    requires places { ArePlaces places.now }
    requires along { length values.now ≡ length places.now }
    ensures value { IfOk result (λ chosen. chosen ≡ masks.chosen want places.now values.now) }
    ensures places { IfOk result ArePlaces }
{
    chosen(alloc, want, places, values)
}

/// A copy of the places where a mask is true, or false. No mask has no places.
#[tactic(auto, using(crate::proofs::Splits::split_there, crate::proofs::Splits::split_absent))]
fn places_of(
    alloc: Global,
    evaluated: &[Places],
    number: usize,
    want: bool,
) -> Result<Items<u32>, AllocError>
    requires { All IsEvaluated evaluated.now }
    ensures value { IfOk result (λ places. places ≡ masked.places_at (splits_of evaluated.now) number want) }
    ensures places { IfOk result ArePlaces }
{
    match at(evaluated, number) {
        None => Ok(Items::new(alloc)),
        Some(mask) => {
            let places = mask.chosen(want);
            let copy = Items::from_slice(alloc, places)?;
            Ok(copy)
        }
    }
}

/// The places at which a mask or an assignment is active.
pub fn active(
    alloc: Global,
    evaluated: &[Places],
    extents: &[u64],
    under: Under,
) -> Result<Items<u32>, AllocError>
    requires evaluated { All IsEvaluated evaluated.now }
    requires few { IsFew extents.now }
    ensures value { IfOk result (λ places. places ≡ masks.active (splits_of evaluated.now) extents.now (control_of under)) }
    ensures places { IfOk result ArePlaces }
{
    match under {
        Under::Everywhere => every_place(alloc, extents),
        Under::Held(number) => places_of(alloc, evaluated, number, true),
        Under::Failed(number) => places_of(alloc, evaluated, number, false),
    }
}

/// The second stage of a mask, at the places that its control leaves.
pub fn evaluate_mask(
    alloc: Global,
    evaluated: &[Places],
    extents: &[u64],
    mask: &MaskTerm,
) -> Result<Places, Halt>
    requires evaluated { All IsEvaluated evaluated.now }
    requires few { IsFew extents.now }
    requires narrow { IsNarrow extents.now }
    requires mask { IsSmallMask mask.now }
    ensures value { masked.YieldsSplit result (masked.one_split extents.now (splits_of evaluated.now) mask.now) }
    ensures evaluated { IfOk result IsEvaluated }
{
    let places = active(alloc, evaluated, extents, mask.under)?;
    let values = values_at(alloc, mask.line, &mask.term, places.as_slice())?;
    let yes = chosen_places(alloc, true, places.as_slice(), values.as_slice())?;
    let no = chosen_places(alloc, false, places.as_slice(), values.as_slice())?;
    let shape = Items::from_slice(alloc, extents)?;
    Ok(Places { shape, yes, no })
}

/// The second stage of masks, one after another.
pub fn evaluate_masks(
    alloc: Global,
    evaluated: &mut Items<Places>,
    extents: &[u64],
    pending: &[MaskTerm],
) -> Result<(), Halt>
    requires evaluated { All IsEvaluated evaluated.old }
    requires few { IsFew extents.now }
    requires narrow { IsNarrow extents.now }
    requires masks { All IsSmallMask pending.now }
    ensures value { Leaves result (splits_through extents.now (splits_of evaluated.old) pending.now) (splits_of evaluated.new) }
    ensures evaluated { OnOk result (All IsEvaluated evaluated.new) }
{
    for mask in pending {
        let places = evaluate_mask(alloc, evaluated.as_slice(), extents, mask)?;
        evaluated.push(places)?;
    }
    Ok(())
}
