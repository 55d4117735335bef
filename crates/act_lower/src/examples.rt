//! What ops of values do, by computation, against numbers worked out by hand.

ghost use Rattle.std.specs.Prelude.{◌≡◌, [], ◌∷◌, length};
ghost use Rattle.phase_ops.specs.declared.effect.Effect.TheVariants.{Fault, Store};
ghost use Rattle.ws_base.specs.declared.fault.FaultName.TheVariants.{Overflow};
ghost use Rattle.phase_ops.specs.Phases.{key_of};
ghost use Rattle.act_lower.specs.Examples.{backward_ops, board, copy_ops, done_by, few_cells, stencil_ops};

/// A whole array costs its load.
pub fn copy_example()
    ensures few { length copy_ops ≡ 3 }
    ensures third { done_by copy_ops few_cells 2 ≡ Store 2 7 ∷ [] }
{}

/// Each section costs its load, and the digits are there once. At the last place the four neighbours of u(3,3) are 23, 43, 32 and 34.
pub fn stencil_example()
    ensures few { length stencil_ops ≡ 13 }
    ensures last { done_by stencil_ops (board 43 0) 3 ≡ Store 26 33 ∷ [] }
    ensures fault { done_by stencil_ops (board 2147483647 0) 3 ≡ Fault (key_of 0 5 4 Overflow) ∷ [] }
{}

/// With k = 3, u(3,4) and u(3,2) are 34 and 32.
pub fn backward_example()
    ensures first { done_by backward_ops (board 43 3) 0 ≡ Store 20 34 ∷ [] }
    ensures second { done_by backward_ops (board 43 3) 1 ≡ Store 21 32 ∷ [] }
{}
