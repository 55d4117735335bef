//! What is known of names and expressions.

use ws_base::Name;

/// Type and rank of an expression.
#[derive(Clone, Copy)]
pub struct Typed {
    pub truth: bool,
    pub rank: usize,
}

/// What a declaration says of its name.
#[derive(Clone, Copy)]
pub struct Entry {
    pub truth: bool,
    pub rank: usize,
    pub constant: bool,
    pub allocatable: bool,
}

/// What a name stands for: a variable or constant, the variable of a DO that is active, an index name of the FORALL
/// around, or an index name of the header around, which its bounds may not use.
#[derive(Clone, Copy)]
pub enum Standing {
    Declared(Entry),
    Active(Entry),
    Index,
    Barred,
}

/// A name that is known. Of several rows of one name the first counts.
#[derive(Drop)]
pub struct Row {
    pub name: Name,
    pub standing: Standing,
}

/// What the arguments of a call have in common: whether each has a type and rank, whether one is LOGICAL, INTEGER,
/// of rank 0, the greatest rank, whether two ranks differ and are not 0, which types stand before the last one, and
/// the last one itself.
#[derive(Clone, Copy)]
pub struct Arguments {
    pub sound: bool,
    pub truths: bool,
    pub numbers: bool,
    pub scalars: bool,
    pub rank: usize,
    pub mixed: bool,
    pub truths_before: bool,
    pub numbers_before: bool,
    pub last: Option<Typed>,
}

/// The subscripts of a designator: whether each is one, how many of them are not scalar, and whether one is a vector.
#[derive(Clone, Copy)]
pub struct Subscripts {
    pub sound: bool,
    pub rank: usize,
    pub vectors: bool,
}
