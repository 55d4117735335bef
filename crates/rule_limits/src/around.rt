//! What is around an op.

ghost use Rattle.std.specs.Prelude.{◌≡◌, IfSome};
ghost use Rattle.hlfir_ops.specs.RulesPlaces as places;
ghost use Rattle.rule_limits.specs.Arounds.{around_seen};

use hlfir_ops::{What, has_body, is_elemental, is_elsewhere, masks, shares};

/// Whether an op stands in the module's own list, how many bodies of where, forall, do_loop and workshare are around it, and whether a where
/// or forall, a workshare, an elemental is.
#[derive(Clone, Copy, Debug)]
pub struct Around {
    pub own: bool,
    pub bodies: u32,
    pub masked: bool,
    pub shared: bool,
    pub elemental: bool,
}

/// Around the module's own ops.
pub const OUTERMOST: Around = Around {
    own: true,
    bodies: 0,
    masked: false,
    shared: false,
    elemental: false,
};

/// The region of this number is a body.
fn is_body(what: &What, k: usize) -> bool
    ensures { result ≡ places.is_body what.now k }
{
    is_elsewhere(what) || has_body(what) && (shares(what) || k == 1)
}

fn one_if(test: bool) -> u32
    ensures { result ≡ places.one_if test }
{
    if test { 1 } else { 0 }
}

/// Around the ops of this region of an op. No module nests as many bodies as there are numbers.
pub fn around_in(around: Around, what: &What, k: usize) -> Option<Around>
    ensures { IfSome result (λ a. around_seen a ≡ places.around_in (around_seen around) what.now k) }
{
    let bodies = around.bodies.checked_add(one_if(is_body(what, k)))?;
    Some(Around {
        own: false,
        bodies,
        masked: masks(what) || around.masked,
        shared: shares(what) || around.shared,
        elemental: is_elemental(what) || around.elemental,
    })
}
