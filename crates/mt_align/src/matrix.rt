//! Matrices, as boxes and on marks (plain TeX's \matrix).
ghost use Rattle.std.specs.Prelude.{◌≡◌, ◌≤◌, ◌^◌, ◌+◌, All, length, IfOk, ◌+ℤ◌, ◌∷◌, List, Some, OnOk};
ghost use Rattle.mt_box.specs.Extents.{ExtentsInRange};
ghost use Rattle.mt_rules.specs.Calls.{BoxAnswers};
ghost use Rattle.mt_rules.specs.Tables.{matrix_table, Cells, column_widths as widths_of_columns, strut_drop, with_struts};
ghost use Rattle.mt_align.specs.Cells.{cells_of, table_level};
ghost use Rattle.std.specs.Option.{ForSome};
ghost use Rattle.mt_scaled.specs.Number.{Within, max_dimen};
ghost use Rattle.mt_family.specs.Sets.{units_of};
ghost use Rattle.mt_box.specs.declared.place.Place.{Place};
ghost use Rattle.mt_box.specs.marks.Layers.{top};
ghost use Rattle.mt_rules.specs.OnMarks.{BoxSetsOn};
ghost use Rattle.mt_align.specs.CellLayers.{bare_rows, table_extents, table_on};
ghost use Rattle.mt_align.specs.RowLines.{depth_value, line_drops, matrix_end};

use crate::levels::level_of_table;
use crate::lines::{LinesSoFar, lines_below};
use crate::look::Look;
use crate::placing::{TableDrops, TableShape, place_table};
use crate::pushing::push_rows;
use crate::widths::{column_widths, columns_width};
use crate::{CellRows, TableExtents};
use mt_box::{Extents, Marks, PackError, Packed};
use mt_family::{FontSet, Size};
use mt_scaled::{Length, in_range};
use std::alloc::{AllocError, Global};

/// Cells in rows and columns, centred on the axis (plain TeX's `\matrix`; The TeXbook, chapter 18 and
/// Appendix B).
///
/// A column is as wide as its widest cell, the first one at least 0 wide, and a cell is in the
/// middle of its column. Columns are an em of the font set's units apart. Baselines are 12pt apart;
/// where the gap between two rows would be negative, it is 1pt. Above the first row and below the
/// last is `strut`, whose extents are in range, with 12pt back up: it counts as a row for the
/// gaps, and marks nothing. Half of the whole is above the axis at this size.
///
/// There are at most 2^19 rows, and at most 2^19 cells in each; the level of each cell is at most
/// 2^20 - 4. The level of the box is that of a box of rows that are boxes of cells.
///
/// Refused with `Overflow` of the width of the columns and the gaps between them, which all rows
/// have, where there is a row and this width is out of range; then of the height or the depth of the
/// whole; and with `OutOfMemory`.
pub fn align_matrix(
    alloc: Global,
    fonts: &FontSet,
    size: Size,
    strut: Extents,
    rows: CellRows,
) -> Result<Packed, PackError>
    requires strut { ExtentsInRange strut }
    requires few_rows { length rows ≤ 2 ^ 19 }
    requires few_cells { All (λ cells. length cells ≤ 2 ^ 19) rows }
    requires levels { All (λ cells. All (λ b. b.level + 4 ≤ 2 ^ 20) cells) rows }
    ensures is { BoxAnswers result (matrix_table fonts.now size strut (cells_of rows)) }
    ensures level { IfOk result (λ b. b.level ≡ table_level rows) }
    ensures in_range { IfOk result (λ b. ExtentsInRange b.extents) }
{
    let mut marks = Marks::new(alloc);
    let cells = push_rows(alloc, &mut marks, &rows)?;
    let extents = matrix_on_marks(alloc, &mut marks, fonts, size, strut, &cells)?;
    Ok(marks.into_box(extents, level_of_table(&rows))?)
}

// How far baselines in a matrix are apart: 12pt (plain TeX's \baselineskip).
const BASELINE_SKIP: Length = Length { sp: 786432 };

/// The layouts of the cells of a matrix, the last one of the last row on top, become the matrix: what
/// it reaches. Each cell reaches as far as `rows` says, and its extents are in range.
///
/// There are at most 2^19 rows, and at most 2^19 cells in each. The rules and the order of refusals
/// are those of `align_matrix`.
pub fn matrix_on_marks(
    alloc: Global,
    marks: &mut Marks,
    fonts: &FontSet,
    size: Size,
    strut: Extents,
    rows: &TableExtents,
) -> Result<Extents, PackError>
    requires strut { ExtentsInRange strut }
    requires few_rows { length rows.now ≤ 2 ^ 19 }
    requires few_cells { All (λ cells. length cells ≤ 2 ^ 19) rows.now }
    requires cells { All (All ExtentsInRange) rows.now }
    ensures is { (cells : List Cells) → (rest : List (List Place)) → rows.now ≡ table_extents cells → marks.old ≡ table_on cells rest
        → BoxSetsOn result (top marks.new) (matrix_table fonts.now size strut cells) }
    ensures rest { (cells : List Cells) → (rest : List (List Place)) → rows.now ≡ table_extents cells → marks.old ≡ table_on cells rest
        → OnOk result (marks.new ≡ top marks.new ∷ rest) }
    ensures in_range { IfOk result ExtentsInRange }
{
    let widths = matrix_widths(alloc, rows)?;
    let gap = quad(fonts);
    let width = columns_width(gap, &widths);
    if !in_range(width.sp) {
        return Err(PackError::Overflow(width.sp));
    }
    let shape = TableShape {
        look: Look::Matrix,
        widths,
        gap,
        width,
    };
    let drops = matrix_drops(alloc, strut, rows)?;
    place_table(marks, fonts, size, &shape, &drops, rows)
}

// The gap between two columns: an em of the font set's units.
fn quad(fonts: &FontSet) -> Length
    ensures is { result.sp ≡ (units_of fonts.now).em }
    ensures small { Within (2 ^ 31) result.sp }
{
    Length {
        sp: fonts.units().em,
    }
}

// The widths of the columns. Struts, which have no width, are in the first one.
fn matrix_widths(alloc: Global, rows: &TableExtents) -> Result<Vec<i64>, AllocError>
    requires { All (All ExtentsInRange) rows.now }
    ensures is { IfOk result (λ widths. widths.items
        ≡ with_struts (widths_of_columns (bare_rows rows.now))) }
    ensures small { IfOk result (λ widths. All (Within max_dimen) widths.items) }
{
    let mut widths = column_widths(alloc, rows)?;
    if !widths.is_empty() {
        widths[0] = widths[0].max(0);
    }
    Ok(widths)
}

// A strut and 12pt back up, the rows, a strut and 12pt back up.
fn matrix_drops(
    alloc: Global,
    strut: Extents,
    rows: &TableExtents,
) -> Result<TableDrops, AllocError>
    requires strut { ExtentsInRange strut }
    requires few { length rows.now ≤ 2 ^ 19 }
    requires in_range { All (All ExtentsInRange) rows.now }
    ensures baselines { IfOk result (λ d. d.baselines.items
        ≡ line_drops Look.Matrix (strut_drop strut) (Some strut.depth) (bare_rows rows.now)) }
    ensures total { IfOk result (λ d. d.total.sp ≡ matrix_end strut (bare_rows rows.now)) }
{
    let start = behind_strut(strut);
    let lines = lines_below(alloc, Look::Matrix, start, rows)?;
    let height = Length { sp: strut.height };
    let gap = lines.so_far.gap_before(Look::Matrix, height);
    let below = gap.plus(start.total);
    Ok(TableDrops {
        baselines: lines.drops,
        total: lines.so_far.total.plus(below),
    })
}

// Down a strut and 12pt back up.
#[tactic(auto, using(std::proofs::lemmas::Int::ints))]
fn behind_strut(strut: Extents) -> LinesSoFar
    requires { ExtentsInRange strut }
    ensures total { result.total.sp ≡ strut_drop strut }
    ensures small { Within (2 ^ 32) result.total.sp }
    ensures depth { depth_value result.depth ≡ Some strut.depth }
    ensures depth_small { ForSome result.depth (λ d. Within max_dimen d.sp) }
{
    let reach = Length { sp: strut.height }.plus(Length { sp: strut.depth });
    LinesSoFar {
        total: reach.minus(BASELINE_SKIP),
        depth: Some(Length { sp: strut.depth }),
    }
}
