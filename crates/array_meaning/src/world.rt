//! What an expression reads, and what a run keeps.

use sqlite_items::Items;
use ws_base::Name;
use ws_space::Var;

pub type ConstantList = Items<Constant>;

/// A name that stands for a number: a named constant, or an index of FORALL.
#[derive(Debug, Drop)]
pub struct Constant {
    pub name: Name,
    pub value: i64,
}

/// What an expression may read.
#[derive(Debug, Drop)]
pub struct World {
    pub constants: ConstantList,
    pub allocatables: Items<Name>,
    pub vars: Items<Var>,
}

/// What does not change in a run: the named constants, the names of the allocatables, and the bytes of the data.
#[derive(Debug, Drop)]
pub struct Source {
    pub constants: ConstantList,
    pub allocatables: Items<Name>,
    pub input: Items<u8>,
}
