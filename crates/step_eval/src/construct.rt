//! A WHERE construct as far as it was run.

ghost use Rattle.std.specs.Prelude.{◌≡◌, cond};

use array_meaning::Term;
use sqlite_items::Items;
use term_eval::Extents;

/// Where a mask or an assignment of a WHERE is active: everywhere, or where the mask of that number is true, or false, among the
/// places that it was evaluated for.
#[derive(Clone, Copy, Debug)]
pub enum Under {
    Everywhere,
    Held(usize),
    Failed(usize),
}

/// An evaluated mask: the places where it is true, and those where it is false.
#[derive(Debug, Drop)]
pub struct Places {
    pub shape: Extents,
    pub yes: Items<u32>,
    pub no: Items<u32>,
}

impl Places {
    /// The places where the mask is true, or those where it is false.
    pub fn chosen(&self, want: bool) -> &[u32]
        ensures { result.now ≡ cond want self.now.yes self.now.no }
    {
        if want {
            self.yes.as_slice()
        } else {
            self.no.as_slice()
        }
    }
}

/// A mask whose second stage is still to come.
#[derive(Debug, Drop)]
pub struct MaskTerm {
    pub line: u32,
    pub under: Under,
    pub term: Term,
}
