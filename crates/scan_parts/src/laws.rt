//! Laws of merging. The functions do nothing.

ghost use Rattle.scan_parts.specs.Laws.{MergingLaw};

/// For each of the seven reductions, merging is associative with its unit, and the merged partial gives the exact total or its
/// Overflow. A product that is too large is kept as such, and a later zero makes it 0.
pub fn merging_law()
    ensures { MergingLaw }
{}
