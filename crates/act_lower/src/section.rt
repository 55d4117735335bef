//! Sections of arrays that stand in cells.

use phase_ops::Source;

/// One dimension of a designator: a subscript; or the first subscript and the stride of a triplet.
#[derive(Clone, Copy, Debug, PartialEq, Eq)]
pub enum Pick {
    Single(Source),
    Steps(Source, i64),
}
