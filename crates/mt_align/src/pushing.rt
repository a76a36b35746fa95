//! The marks of a table's boxes.
ghost use Rattle.std.specs.Prelude.{◌≡◌, All, map, IfOk, OnOk};
ghost use Rattle.mt_box.specs.Extents.{ExtentsInRange};
ghost use Rattle.mt_box.specs.Layout.{layout_of};
ghost use Rattle.mt_align.specs.Cells.{cells_of};
ghost use Rattle.mt_align.specs.CellLayers.{cell_extents, cells_on, table_extents, table_on};

use crate::{CellExtents, CellRow, CellRows, TableExtents};
use mt_box::Marks;
use std::alloc::{AllocError, Global};

// The marks of all cells on top, those of the last one uppermost: what the cells reach.
pub(crate) fn push_rows(
    alloc: Global,
    marks: &mut Marks,
    rows: &CellRows,
) -> Result<TableExtents, AllocError>
    ensures is { IfOk result (λ e. e ≡ table_extents (cells_of rows.now)) }
    ensures marks { OnOk result (marks.new ≡ table_on (cells_of rows.now) marks.old) }
    ensures in_range { IfOk result (All (All ExtentsInRange)) }
{
    let mut extents = Vec::with_capacity(alloc, rows.len())?;
    for cells in rows.as_slice() {
        extents.push(push_cells(alloc, marks, cells)?)?;
    }
    Ok(TableExtents::from_vec(extents))
}

// The marks of the cells of a row on top, those of the last one uppermost: what the cells reach.
fn push_cells(alloc: Global, marks: &mut Marks, cells: &CellRow) -> Result<CellExtents, AllocError>
    ensures is { IfOk result (λ e. e ≡ cell_extents (map layout_of cells.now)) }
    ensures marks { OnOk result (marks.new ≡ cells_on (map layout_of cells.now) marks.old) }
    ensures in_range { IfOk result (All ExtentsInRange) }
{
    let mut extents = Vec::with_capacity(alloc, cells.len())?;
    for cell in cells.as_slice() {
        marks.push_box(cell)?;
        extents.push(cell.extents())?;
    }
    Ok(CellExtents::from_vec(extents))
}
