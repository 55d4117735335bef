//! Tables of names, in which of several rows of one name the first counts.

ghost use Rattle.std.specs.Prelude.{◌≡◌, ◌++◌, OnOk, IfOk};
ghost use Rattle.ws_types.specs.Tables as tables;

use crate::types::{Row, Standing};
use std::alloc::{AllocError, Global};
use ws_tree::Index;

fn copied(alloc: Global, row: &Row) -> Result<Row, AllocError>
    ensures { IfOk result (λ copy. copy ≡ row.now) }
{
    Ok(Row {
        name: row.name.copy(alloc)?,
        standing: row.standing,
    })
}

fn index_row(alloc: Global, standing: Standing, index: &Index) -> Result<Row, AllocError>
    ensures { IfOk result (λ row. row ≡ tables.row standing index.now) }
{
    Ok(Row {
        name: index.name.copy(alloc)?,
        standing,
    })
}

/// Adds the rows of a table after those that stand there.
pub fn push_rows(alloc: Global, rows: &mut Vec<Row>, table: &[Row]) -> Result<(), AllocError>
    ensures { OnOk result (rows.new.items ≡ rows.old.items ++ table.now) }
{
    'each: for row in table {
        rows.push(copied(alloc, row)?)?;
    }
    Ok(())
}

/// The table in which these index names stand first.
pub fn with_indexes(
    alloc: Global,
    standing: Standing,
    indexes: &[Index],
    table: &[Row],
) -> Result<Vec<Row>, AllocError>
    ensures { IfOk result (λ rows. rows.items ≡ tables.with_indexes standing indexes.now table.now) }
{
    let mut rows = Vec::new(alloc);
    'each: for index in indexes {
        rows.push(index_row(alloc, standing, index)?)?;
    }
    push_rows(alloc, &mut rows, table)?;
    Ok(rows)
}
