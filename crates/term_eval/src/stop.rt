//! What stops a computation.

ghost use Rattle.std.specs.Prelude.{◌≡◌};
ghost use Rattle.term_eval.specs.declared.stop.Stop.TheVariants.{Memory, Failed};

use std::alloc::{AllocError, AllocFailed};
use ws_base::{FaultName, Trouble};

/// Want of memory, or a fault whose line is not known yet.
#[derive(Debug, Drop)]
pub enum Stop {
    Memory,
    Failed(Trouble),
}

impl From<AllocError> for Stop {
    ghost from_gives = { λ _ e. e ≡ Memory };

    fn from(_: AllocError) -> Stop {
        Stop::Memory
    }
}

impl<T: Drop> From<AllocFailed<T>> for Stop {
    ghost from_gives = { λ _ e. e ≡ Memory };

    fn from(_: AllocFailed<T>) -> Stop {
        Stop::Memory
    }
}

impl From<FaultName> for Stop {
    ghost from_gives = { λ n e. e ≡ Failed (record { element = 0; name = n }) };

    fn from(name: FaultName) -> Stop {
        Stop::Failed(Trouble { element: 0, name })
    }
}
