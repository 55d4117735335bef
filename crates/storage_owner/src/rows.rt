//! Ranges, one after the other.

ghost use Rattle.std.specs.Prelude.{◌≡◌, ◌+◌, ◌<◌, ◌++◌, ◌∷◌, [], replicate, IfOk, OnOk};
ghost use Rattle.std.specs.List.{sum};
ghost use Rattle.phase_ops.specs.declared.phase.Range.{Range as Range'};
ghost use Rattle.storage_owner.specs.Ranges.{IsApart, in_a_row};
ghost use Rattle.storage_owner.specs.Layouts as layouts;

use crate::needs::Needs;
use crate::sizes::{MOST_CELLS, box_sizes, plus, var_sizes};
use hlfir_ops::ValueKind;
use phase_ops::{Layout, Range, RangeList};
use sqlite_items::Items;
use std::alloc::{AllocError, Global};

/// The most temporaries that have room.
const TEMP_LIMIT: u32 = 65_535;

/// Ranges, and the cell after the last one.
#[derive(Drop)]
struct Row {
    ranges: RangeList,
    next: u32,
}

fn add_range(row: &mut Row, cells: u32) -> Result<(), AllocError>
    ensures ranges { OnOk result (row.new.ranges ≡ row.old.ranges ++ record { first = row.old.next; cells = cells } ∷ []) }
    ensures next { OnOk result (row.new.next ≡ row.old.next + cells) }
{
    let next = plus(row.next, cells)?;
    row.ranges.push(Range {
        first: row.next,
        cells,
    })?;
    row.next = next;
    Ok(())
}

/// A range for each size, from this cell on.
fn row_of(alloc: Global, first: u32, sizes: &[u32]) -> Result<Row, AllocError>
    ensures ranges { IfOk result (λ row. row.ranges ≡ in_a_row first sizes.now) }
    ensures next { IfOk result (λ row. row.next ≡ first + sum sizes.now) }
{
    let mut row = Row {
        ranges: Items::new(alloc),
        next: first,
    };
    'each: for cells in sizes {
        add_range(&mut row, *cells)?;
    }
    Ok(row)
}

fn temp_sizes(alloc: Global, temps: u32) -> Result<Vec<u32>, AllocError>
    ensures { IfOk result (λ sizes. sizes.items ≡ replicate temps layouts.most_cells) }
{
    if temps > TEMP_LIMIT {
        return Err(AllocError);
    }
    vec![in alloc; MOST_CELLS; temps as usize]
}

fn mark_cells(marks: bool) -> u32
    ensures { result ≡ layouts.mark_cells marks }
{
    if marks { MOST_CELLS } else { 0 }
}

fn in_rows(alloc: Global, kinds: &[Option<ValueKind>], needs: &Needs) -> Result<Layout, AllocError>
    ensures owned { IfOk result (λ l. l ≡ layouts.layout_of kinds.now needs.now) }
    ensures few { IfOk result (λ l. l.marks.first + l.marks.cells < 4294967296) }
{
    let vars = var_sizes(alloc, kinds)?;
    let vars = row_of(alloc, 0, vars.as_slice())?;
    let boxes = box_sizes(alloc, kinds)?;
    let boxes = row_of(alloc, vars.next, boxes.as_slice())?;
    let temps = temp_sizes(alloc, needs.temps)?;
    let temps = row_of(alloc, plus(boxes.next, needs.slots)?, temps.as_slice())?;
    let marks = mark_cells(needs.marks);
    plus(temps.next, marks)?;
    Ok(Layout {
        vars: vars.ranges,
        boxes: boxes.ranges,
        slots: Range {
            first: boxes.next,
            cells: needs.slots,
        },
        temps: temps.ranges,
        marks: Range {
            first: temps.next,
            cells: marks,
        },
    })
}

/// The layout for these variables, of which None has no cells. There is none of more cells than have a number.
pub fn layout_of(
    alloc: Global,
    kinds: &[Option<ValueKind>],
    needs: &Needs,
) -> Result<Layout, AllocError>
    ensures owned { IfOk result (λ l. l ≡ layouts.layout_of kinds.now needs.now) }
    ensures apart { IfOk result IsApart }
{
    let layout = in_rows(alloc, kinds, needs)?;
    Ok(layout)
}
