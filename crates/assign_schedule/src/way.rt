//! Where to look for the designators that an expression evaluates.

/// From an array value to the arrays from whose elements its own are computed, or from a designator to its subscripts.
#[derive(Clone, Copy, Debug)]
pub enum Way {
    Elements,
    Subscripts,
}
