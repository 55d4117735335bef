//! Where statements stand.

/// Where a statement stands: outside regions, in a workshare region, under the mask of a WHERE of this line and rank,
/// or in a FORALL.
#[derive(Clone, Copy)]
pub enum Within {
    Outside,
    Shared,
    Masked { line: u32, rank: Option<usize> },
    Forall,
}
