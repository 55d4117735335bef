//! What ends a run.

ghost use Rattle.std.specs.Prelude.{◌≡◌};
ghost use Rattle.step_eval.specs.declared.halt.Halt.TheVariants.{Memory};

use std::alloc::{AllocError, AllocFailed};
use ws_base::Fault;

/// Want of memory, or a fault.
#[derive(Debug, Drop)]
pub enum Halt {
    Memory,
    Faulted(Fault),
}

impl From<AllocError> for Halt {
    ghost from_gives = { λ _ e. e ≡ Memory };

    fn from(_: AllocError) -> Halt {
        Halt::Memory
    }
}

impl<T: Drop> From<AllocFailed<T>> for Halt {
    ghost from_gives = { λ _ e. e ≡ Memory };

    fn from(_: AllocFailed<T>) -> Halt {
        Halt::Memory
    }
}
