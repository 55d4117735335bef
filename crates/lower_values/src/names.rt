//! What names stand for.

use crate::operand::Operand;
use sqlite_items::Items;
use ws_base::Name;
use ws_types::Constant;

/// A variable, and the value of its declare.
#[derive(Debug, Drop)]
pub struct Variable {
    pub name: Name,
    pub declare: Operand,
}

/// A named LOGICAL constant.
#[derive(Debug, Drop)]
pub struct NamedTruth {
    pub name: Name,
    pub value: bool,
}

/// The variables of a source in order of declaration, its named INTEGER constants and its named LOGICAL constants.
#[derive(Drop)]
pub struct Names {
    pub variables: Items<Variable>,
    pub constants: Items<Constant>,
    pub truths: Items<NamedTruth>,
}
