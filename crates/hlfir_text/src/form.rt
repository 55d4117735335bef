//! Forms of lists of operands.

/// How operands stand one after another: with commas, with blanks, as the pairs `%l:%u` or the triples `%l:%u:%s` of a yield, or as the
/// one subscript or triplet of a dimension.
#[derive(Clone, Copy, Debug, PartialEq, Eq)]
pub enum Form {
    Listed,
    Spaced,
    Pairs,
    Triples,
    Triplet,
}
