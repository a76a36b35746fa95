//! Equations one below another, as boxes and on marks (plain TeX's \eqalign).
ghost use Rattle.std.specs.Prelude.{◌≡◌, ◌≤◌, ◌^◌, ◌+◌, All, length, IfOk, ◌∷◌, List, None, pos, OnOk};
ghost use Rattle.mt_box.specs.Extents.{ExtentsInRange};
ghost use Rattle.mt_rules.specs.Calls.{BoxAnswers};
ghost use Rattle.mt_rules.specs.Tables.{equations_table, Cells};
ghost use Rattle.mt_align.specs.Cells.{cells_of, table_level};
ghost use Rattle.mt_box.specs.declared.place.Place.{Place};
ghost use Rattle.mt_box.specs.marks.Layers.{top};
ghost use Rattle.mt_rules.specs.OnMarks.{BoxSetsOn};
ghost use Rattle.mt_align.specs.CellLayers.{bare_rows, table_extents, table_on};
ghost use Rattle.mt_align.specs.RowLines.{line_drops, lines_end};

use crate::levels::level_of_table;
use crate::lines::{LinesSoFar, lines_below};
use crate::look::Look;
use crate::placing::{TableDrops, TableShape, place_table};
use crate::pushing::push_rows;
use crate::widths::{column_widths, columns_width};
use crate::{CellRows, TableExtents};
use mt_box::{Extents, Marks, PackError, Packed};
use mt_family::{FontSet, Size};
use mt_scaled::{Length, in_range};
use std::alloc::{AllocError, Global};

/// Equations one below another, centred on the axis (plain TeX's `\eqalign`; The TeXbook, chapter 19
/// and Appendix B). The first cell of a row is its left side, the second its right side.
///
/// A column is as wide as its widest cell, and 0 wide without cells. A left side ends where the right
/// sides begin, at the end of the first column. A row is at least 8.5pt high and 3.5pt deep.
/// Baselines are 15pt apart; where the gap between two rows would be less than 3pt, it is 4pt. Half
/// of the whole is above the axis at this size.
///
/// There are at most 2^19 rows, and at most two cells in each; the level of each cell is at most
/// 2^20 - 4. The level of the box is that of a box of rows that are boxes of cells.
///
/// Refused with `Overflow` of the width of both columns, which all rows have, where there is a row
/// and this width is out of range; then of the height or the depth of the whole; and with
/// `OutOfMemory`.
pub fn align_equations(
    alloc: Global,
    fonts: &FontSet,
    size: Size,
    rows: CellRows,
) -> Result<Packed, PackError>
    requires few_rows { length rows ≤ 2 ^ 19 }
    requires two_cells { All (λ cells. length cells ≤ 2) rows }
    requires levels { All (λ cells. All (λ b. b.level + 4 ≤ 2 ^ 20) cells) rows }
    ensures is { BoxAnswers result (equations_table fonts.now size (cells_of rows)) }
    ensures level { IfOk result (λ b. b.level ≡ table_level rows) }
    ensures in_range { IfOk result (λ b. ExtentsInRange b.extents) }
{
    let mut marks = Marks::new(alloc);
    let cells = push_rows(alloc, &mut marks, &rows)?;
    let extents = equations_on_marks(alloc, &mut marks, fonts, size, &cells)?;
    Ok(marks.into_box(extents, level_of_table(&rows))?)
}

/// The layouts of the sides of equations, the last one of the last row on top, become the equations:
/// what they reach. Each side reaches as far as `rows` says, and its extents are in range.
///
/// There are at most 2^19 rows, and at most two cells in each. The rules and the order of refusals are
/// those of `align_equations`.
pub fn equations_on_marks(
    alloc: Global,
    marks: &mut Marks,
    fonts: &FontSet,
    size: Size,
    rows: &TableExtents,
) -> Result<Extents, PackError>
    requires few_rows { length rows.now ≤ 2 ^ 19 }
    requires two_cells { All (λ cells. length cells ≤ 2) rows.now }
    requires cells { All (All ExtentsInRange) rows.now }
    ensures is { (cells : List Cells) → (rest : List (List Place)) → rows.now ≡ table_extents cells → marks.old ≡ table_on cells rest
        → BoxSetsOn result (top marks.new) (equations_table fonts.now size cells) }
    ensures rest { (cells : List Cells) → (rest : List (List Place)) → rows.now ≡ table_extents cells → marks.old ≡ table_on cells rest
        → OnOk result (marks.new ≡ top marks.new ∷ rest) }
    ensures in_range { IfOk result ExtentsInRange }
{
    let widths = column_widths(alloc, rows)?;
    let gap = Length { sp: 0 };
    let width = columns_width(gap, &widths);
    if !in_range(width.sp) {
        return Err(PackError::Overflow(width.sp));
    }
    let shape = TableShape {
        look: Look::Equations,
        widths,
        gap,
        width,
    };
    let drops = equation_drops(alloc, rows)?;
    place_table(marks, fonts, size, &shape, &drops, rows)
}

// The rows alone.
fn equation_drops(alloc: Global, rows: &TableExtents) -> Result<TableDrops, AllocError>
    requires few { length rows.now ≤ 2 ^ 19 }
    requires in_range { All (All ExtentsInRange) rows.now }
    ensures baselines { IfOk result (λ d. d.baselines.items
        ≡ line_drops Look.Equations (pos 0) None (bare_rows rows.now)) }
    ensures total { IfOk result (λ d. d.total.sp
        ≡ lines_end Look.Equations (pos 0) None (bare_rows rows.now)) }
{
    let start = LinesSoFar {
        total: Length { sp: 0 },
        depth: None,
    };
    let lines = lines_below(alloc, Look::Equations, start, rows)?;
    Ok(TableDrops {
        baselines: lines.drops,
        total: lines.so_far.total,
    })
}
