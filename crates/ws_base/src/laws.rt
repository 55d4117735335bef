//! Laws of the definitions, for whoever reads them. The functions do nothing. Here an item is the values of an
//! operation's operands at one position.

ghost use Rattle.std.specs.Prelude.{◌≡◌, ◌≢◌, ℕ, List, ℤ, pos, Err};
ghost use Rattle.ws_base.specs.declared.fault.Trouble.{Trouble};
ghost use Rattle.ws_base.specs.Numbers.{Exact, floor_rem};
ghost use Rattle.ws_base.specs.Outcomes.{each};
ghost use Rattle.ws_base.specs.Laws.{IsModulo, EachAlone, FailsFirst, AnyOrder};

/// MODULO has the sign of its divisor (Fortran 2018, 16.9).
pub fn modulo_has_the_divisors_sign()
    ensures { (a b : ℤ) → b ≢ pos 0 → IsModulo a b (floor_rem a b) }
{}

/// An operation over a list fails nowhere exactly where it fails at no item alone, and then gives their values.
pub fn each_item_has_its_own_value()
    ensures { (operation : List ℤ → Exact) (items : List (List ℤ)) (values : List ℤ) → EachAlone operation items values }
{}

/// The fault of an operation over a list is that of the first item at which it fails.
pub fn the_first_fault_counts()
    ensures { (operation : List ℤ → Exact) (items : List (List ℤ)) (trouble : Trouble) → each operation items ≡ Err trouble → FailsFirst operation items trouble }
{}

/// The values of an operation over a list do not depend on the order of the items.
pub fn any_order_gives_the_same_values()
    ensures { (operation : List ℤ → Exact) (items : List (List ℤ)) (values : List ℤ) (order : List ℕ) (item : List ℤ) (value : ℤ) → AnyOrder operation items values order item value }
{}
