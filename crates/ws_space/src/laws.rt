//! Laws of the definitions, for whoever reads them. The functions do nothing.

ghost use Rattle.std.specs.Prelude.{ℕ, List, ℤ, pos, ◌≢◌};
ghost use Rattle.ws_space.specs.declared.shape.Dim.{Dim};
ghost use Rattle.ws_space.specs.declared.shape.Triplet.{Triplet};
ghost use Rattle.ws_space.specs.Laws.{PlaceIsPosition, SizeIsLength, CountsSelected, KeepsOthers, ReplacesTargets, FindsRepeat};

/// Subscripts and places undo one another: the place of subscripts is where they stand in array element order.
pub fn a_place_is_a_position()
    ensures { (dims : List Dim) (subscripts : List ℤ) (place : ℕ) → PlaceIsPosition dims subscripts place }
{}

/// The product of the extents is the number of elements.
pub fn the_size_is_the_number_of_elements()
    ensures { (dims : List Dim) → SizeIsLength dims }
{}

/// The count of a triplet is the number of subscripts that it selects.
pub fn the_count_is_the_number_of_subscripts()
    ensures { (triplet : Triplet) → triplet.s ≢ pos 0 → CountsSelected triplet }
{}

/// Replacement changes no element outside its targets.
pub fn other_elements_stay()
    ensures { (old : List ℤ) (targets : List ℕ) (values : List ℤ) (place : ℕ) → KeepsOthers old targets values place }
{}

/// Where the targets differ, each takes its value.
pub fn each_target_takes_its_value()
    ensures { (old : List ℤ) (targets : List ℕ) (values : List ℤ) (k target : ℕ) (value : ℤ) → ReplacesTargets old targets values k target value }
{}

/// A repeated target is found exactly where two are the same, and it is the least that stands earlier.
pub fn the_first_repeated_target_is_found()
    ensures { (targets : List ℕ) → FindsRepeat targets }
{}
