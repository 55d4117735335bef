//! The trees of scalar values.

ghost use Rattle.std.specs.Prelude.{◌≡◌, [], ◌∷◌, ◌++◌, OnOk, IfOk};
ghost use Rattle.alias_test.specs.Givers.{ops_at};
ghost use Rattle.alias_test.specs.Symbols as symbols;

use crate::designator::{Sym, SymList};
use crate::symbol::{parts_of, symbol_of};
use crate::table::giver;
use hlfir_ops::{Op, ValueId};
use sqlite_items::Items;
use std::alloc::{AllocError, Global};

/// Trees with so many symbols are given up, as where memory is short. A value that is used twice stands twice in a tree, so a tree may
/// have far more symbols than the module has ops.
const SYMBOL_LIMIT: usize = 1_048_576;

/// Adds the symbol of the value, and the values whose trees stand before it.
#[tactic(auto, unfolding(crate::specs::Symbols::symbol_at, crate::specs::Symbols::parts_at))]
fn add_symbol(
    table: &[&Op],
    v: ValueId,
    left: &mut Vec<ValueId>,
    back: &mut Vec<Sym>,
) -> Result<(), AllocError>
    ensures symbol { OnOk result (back.new.items ≡ back.old.items ++ symbols.symbol_at (ops_at table.now) v.number ∷ []) }
    ensures parts { OnOk result (left.new.items ≡ left.old.items ++ symbols.parts_at (ops_at table.now) v.number) }
{
    match giver(table, v) {
        Some(op) => {
            let symbol = symbol_of(table, v, op);
            left.extend_from_slice(parts_of(&symbol, op))?;
            back.push(symbol)?;
            Ok(())
        }
        None => {
            back.push(Sym::Other)?;
            Ok(())
        }
    }
}

/// The trees of these values, one after the other. They are written from their end.
pub fn trees_of(alloc: Global, table: &[&Op], values: &[ValueId]) -> Result<SymList, AllocError>
    ensures { IfOk result (λ trees. trees ≡ symbols.trees_at (ops_at table.now) values.now) }
{
    let mut left = Vec::from_slice(alloc, values)?;
    let mut back = Vec::new(alloc);
    'each: for _ in 0..SYMBOL_LIMIT {
        let Some(v) = left.pop() else {
            back.reverse();
            return Ok(Items::from_vec(back));
        };
        add_symbol(table, v, &mut left, &mut back)?;
    }
    Err(AllocError)
}
