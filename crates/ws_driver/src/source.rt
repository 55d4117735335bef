//! From the bytes of a source to its accepted tree.

ghost use Rattle.std.specs.Prelude.{◌≡◌};
ghost use Rattle.ws_driver.specs.declared.source.SourceEnd.TheVariants.{Memory};

use std::alloc::AllocError;
use ws_base::Refusal;

/// Why there is no accepted tree.
#[derive(Clone, Copy, Debug, PartialEq, Eq)]
pub enum SourceEnd {
    Refused(Refusal),
    Memory,
}

impl From<AllocError> for SourceEnd {
    ghost from_gives = { λ _ e. e ≡ Memory };

    fn from(_: AllocError) -> SourceEnd {
        SourceEnd::Memory
    }
}
