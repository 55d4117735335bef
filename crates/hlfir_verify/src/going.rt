//! Where a walk over the ops of a module is.

ghost use Rattle.std.specs.Prelude.{◌≡◌, suc, ◌+◌, ◌≤◌, [], ◌∷◌, ◌++◌, length, take, OnOk, IfOk};
ghost use Rattle.hlfir_ops.specs.Numbers.{own_numbers};
ghost use Rattle.hlfir_ops.specs.RulesPlaces as places;
ghost use Rattle.hlfir_verify.specs.Rising.{Rises};

use hlfir_ops::ValueKind;
use std::alloc::AllocError;
use ws_base::Name;

/// The place of the next op in printed order and the number of the next value, both from 0, and the numbers of the values that are
/// defined.
#[derive(Debug, Drop)]
pub struct Walk {
    pub place: u32,
    pub number: u32,
    pub defined: Vec<u32>,
    ghost rising: { Rises defined.items number },
}

/// The next number. No module has more ops or values than memory holds.
fn next_of(number: u32) -> Result<u32, AllocError>
    ensures { IfOk result (λ next. next ≡ suc number) }
{
    match number.checked_add(1) {
        Some(next) => Ok(next),
        None => Err(AllocError),
    }
}

/// The number after the op's own value.
fn number_inside(number: u32, kind: Option<ValueKind>) -> Result<u32, AllocError>
    ensures { IfOk result (λ next. next ≡ own_numbers kind + number) }
{
    match kind {
        Some(_) => next_of(number),
        None => Ok(number),
    }
}

/// Goes past an op, to those inside it.
#[tactic(auto, using(crate::proofs::Rising::rising_rules))]
pub fn go_past(walk: &mut Walk, kind: Option<ValueKind>) -> Result<(), AllocError>
    ensures place { OnOk result (walk.new.place ≡ suc walk.old.place) }
    ensures number { OnOk result (walk.new.number ≡ own_numbers kind + walk.old.number) }
    ensures defined { OnOk result (walk.new.defined.items ≡ walk.old.defined.items) }
{
    let place = next_of(walk.place)?;
    let number = number_inside(walk.number, kind)?;
    walk.number = number;
    walk.place = place;
    Ok(())
}

/// Defines the value of this number.
#[tactic(auto, using(crate::proofs::Rising::rising_rules))]
fn define(walk: &mut Walk, number: u32) -> Result<(), AllocError>
    requires rising { Rises walk.old.defined.items number }
    requires low { number ≤ walk.old.number }
    ensures defined { OnOk result (walk.new.defined.items ≡ walk.old.defined.items ++ number ∷ []) }
    ensures place { walk.new.place ≡ walk.old.place }
    ensures number { walk.new.number ≡ walk.old.number }
{
    walk.defined.push(number)?;
    Ok(())
}

/// Defines the value of an op, whose number it would be.
#[tactic(auto, using(rule_tests::proofs::Appended::append_none))]
pub fn define_own(walk: &mut Walk, number: u32, kind: Option<ValueKind>) -> Result<(), AllocError>
    requires rising { Rises walk.old.defined.items number }
    requires low { number ≤ walk.old.number }
    ensures defined { OnOk result (walk.new.defined.items ≡ walk.old.defined.items ++ places.own_defined number kind) }
    ensures place { walk.new.place ≡ walk.old.place }
    ensures number { walk.new.number ≡ walk.old.number }
{
    match kind {
        Some(_) => define(walk, number),
        None => Ok(()),
    }
}

/// Defines the next value.
#[tactic(auto, using(crate::proofs::Rising::rising_rules))]
fn define_next(walk: &mut Walk) -> Result<(), AllocError>
    ensures defined { OnOk result (walk.new.defined.items ≡ walk.old.defined.items ++ walk.old.number ∷ []) }
    ensures place { OnOk result (walk.new.place ≡ walk.old.place) }
    ensures number { OnOk result (walk.new.number ≡ suc walk.old.number) }
{
    let next = next_of(walk.number)?;
    define(walk, walk.number)?;
    walk.number = next;
    Ok(())
}

/// Defines index names.
pub fn define_names(walk: &mut Walk, names: &[Name]) -> Result<(), AllocError>
    ensures defined { OnOk result (walk.new.defined.items ≡ walk.old.defined.items ++ places.from_number walk.old.number names.now) }
    ensures number { OnOk result (walk.new.number ≡ length names.now + walk.old.number) }
    ensures place { OnOk result (walk.new.place ≡ walk.old.place) }
{
    'each: for _name in names {
        define_next(walk)?;
    }
    Ok(())
}

/// Leaves a region, before which so many values were defined.
#[tactic(auto, using(crate::proofs::Rising::rising_rules))]
pub fn leave(walk: &mut Walk, len: usize)
    ensures defined { walk.new.defined.items ≡ take len walk.old.defined.items }
    ensures place { walk.new.place ≡ walk.old.place }
    ensures number { walk.new.number ≡ walk.old.number }
{
    walk.defined.truncate(len);
}
