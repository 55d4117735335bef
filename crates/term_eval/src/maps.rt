//! Operators and elemental calls as maps over the active places, from the columns of their operands (Fortran 2018, 10.1.4 and 15.8.2).
//! A fault is that of the first place where the operation fails, and its element is the place in the column, from 0.

ghost use Rattle.std.specs.Prelude.{◌≡◌, ◌≤◌, ◌<◌, ◌^◌, map, length, slice_index_or, pos, OnOk, IfOk, IfErr, Err};
ghost use Rattle.std.specs.List.{All};
ghost use Rattle.ws_base.specs.Outcomes.{each};
ghost use Rattle.ws_space.specs.Maps as maps;
ghost use Rattle.term_eval.specs.Words.{Gives, keeps, Stops};

use crate::stop::Stop;
use sqlite_items::Items;
use std::alloc::{AllocError, Global};
use value_ops::{binary_value, call_value, unary_value};
use ws_base::{BinOp, CallWord, FaultName, Trouble, UnOp};

/// One more value, or the fault in its place.
pub fn keep<T: Drop>(made: &mut Items<T>, value: Result<T, FaultName>) -> Result<(), Stop>
    requires { length made.old < 2 ^ 32 }
    ensures ok { OnOk result (keeps value made.old ≡ Ok made.new) }
    ensures err { IfErr result (λ stop. Stops stop (keeps value made.old)) }
{
    match value {
        Ok(value) => {
            made.push(value)?;
            Ok(())
        }
        Err(name) => Err(Stop::Failed(Trouble {
            element: made.len() as u32,
            name,
        })),
    }
}

/// An operator in front of each value.
pub fn unary_map(alloc: Global, op: UnOp, operand: &[i64]) -> Result<Items<i64>, Stop>
    requires { length operand.now ≤ 2 ^ 32 }
    ensures { Gives result (maps.unary_map op operand.now) }
{
    let mut made = Items::new(alloc);
    for value in operand {
        keep(&mut made, unary_value(op, *value))?;
    }
    Ok(made)
}

/// An operator between the values of each place.
pub fn binary_map(
    alloc: Global,
    op: BinOp,
    places: &[u32],
    left: &[i64],
    right: &[i64],
) -> Result<Items<i64>, Stop>
    requires few { length places.now ≤ 2 ^ 32 }
    requires left { length left.now ≡ length places.now }
    requires right { length right.now ≡ length places.now }
    ensures { Gives result (maps.binary_map op places.now left.now right.now) }
{
    let mut made = Items::new(alloc);
    for i in 0..places.len() {
        keep(&mut made, binary_value(op, left[i], right[i]))?;
    }
    Ok(made)
}

/// The value of each column at one place.
pub fn row(alloc: Global, columns: &[Items<i64>], at: usize) -> Result<Items<i64>, AllocError>
    requires { All (λ column. at < length column) columns.now }
    ensures { IfOk result (λ row. row ≡ map (λ column. slice_index_or column at (pos 0)) columns.now) }
{
    let mut row = Items::new(alloc);
    for column in columns {
        row.push(column.as_slice()[at])?;
    }
    Ok(row)
}

/// An elemental call on the values of each place, with a column for each argument.
pub fn call_map(
    alloc: Global,
    word: CallWord,
    places: &[u32],
    columns: &[Items<i64>],
) -> Result<Items<i64>, Stop>
    requires few { length places.now ≤ 2 ^ 32 }
    requires columns { All (λ column. length column ≡ length places.now) columns.now }
    ensures { Gives result (maps.call_map word places.now columns.now) }
{
    let mut made = Items::new(alloc);
    for i in 0..places.len() {
        let values = row(alloc, columns, i)?;
        keep(&mut made, call_value(word, values.as_slice()))?;
    }
    Ok(made)
}

/// A fault at the first of these places.
pub fn fails<T: Drop>(alloc: Global, name: FaultName, places: &[u32]) -> Result<Items<T>, Stop>
    ensures { Gives result (each (λ _. Err name) places.now) }
{
    if places.is_empty() {
        return Ok(Items::new(alloc));
    }
    Err(Stop::from(name))
}

/// One answer for every place.
pub fn everywhere(
    alloc: Global,
    answer: Result<i64, FaultName>,
    places: &[u32],
) -> Result<Items<i64>, Stop>
    ensures { Gives result (each (λ _. answer) places.now) }
{
    match answer {
        Ok(value) => Ok(same_value(alloc, value, places)?),
        Err(name) => fails(alloc, name, places),
    }
}

/// One value at every place.
#[tactic(auto, using(crate::proofs::Elements::everywhere_is))]
pub fn same_value(alloc: Global, value: i64, places: &[u32]) -> Result<Items<i64>, AllocError>
    ensures { IfOk result (λ made. made ≡ maps.everywhere_same value places.now) }
{
    Ok(Items::from_vec(vec![in alloc; value; places.len()]?))
}
