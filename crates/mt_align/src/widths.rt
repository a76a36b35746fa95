//! The widths of columns: each is as wide as its widest cell.
ghost use Rattle.std.specs.Prelude.{◌≡◌, ◌≤◌, ◌^◌, ◌++◌, ◌∷◌, [], All, drop, length, map, take, IfOk, OnOk};
ghost use Rattle.mt_scaled.specs.Number.{Within, max_dimen};
ghost use Rattle.mt_box.specs.Extents.{ExtentsInRange};
ghost use Rattle.mt_rules.specs.Tables.{column_widths as widths_of_columns, columns_width as width_of_columns, widened};
ghost use Rattle.mt_align.specs.CellLayers.{bare, bare_rows};
ghost use Rattle.mt_align.specs.CellRows.{columns_reach as reach_of_columns};

use crate::{CellExtents, TableExtents};
use mt_box::Extents;
use mt_scaled::Length;
use std::alloc::{AllocError, Global};

// The widths of the columns, in scaled points. A column of negative cells has a negative width.
pub(crate) fn column_widths(alloc: Global, rows: &TableExtents) -> Result<Vec<i64>, AllocError>
    requires { All (All ExtentsInRange) rows.now }
    ensures is { IfOk result (λ widths. widths.items ≡ widths_of_columns (bare_rows rows.now)) }
    ensures small { IfOk result (λ widths. All (Within max_dimen) widths.items) }
{
    let mut widths = Vec::new(alloc);
    let rows = rows.as_slice();
    for i in (0..rows.len()).rev() {
        widen(&mut widths, &rows[i])?;
    }
    Ok(widths)
}

// The widths of columns that get a row of cells more.
fn widen(widths: &mut Vec<i64>, cells: &CellExtents) -> Result<(), AllocError>
    requires widths { All (Within max_dimen) widths.old.items }
    requires cells { All ExtentsInRange cells.now }
    ensures is { OnOk result (widths.new.items ≡ widened widths.old.items (map bare cells.now)) }
    ensures small { OnOk result (All (Within max_dimen) widths.new.items) }
{
    let mut column = 0;
    for cell in cells.as_slice() {
        widen_column(widths, column, *cell)?;
        column += 1;
    }
    Ok(())
}

// The width of one of the columns that gets a cell more, or of a new one behind them.
#[tactic(auto, using(std::proofs::lemmas::Int::ints, std::proofs::lemmas::Int::clamps))]
fn widen_column(widths: &mut Vec<i64>, column: usize, cell: Extents) -> Result<(), AllocError>
    requires column { column ≤ length widths.old.items }
    requires small { All (Within max_dimen) widths.old.items }
    requires cell { ExtentsInRange cell }
    ensures is { OnOk result (widths.new.items ≡ take column widths.old.items
        ++ widened (drop column widths.old.items) (bare cell ∷ [])) }
    ensures small { OnOk result (All (Within max_dimen) widths.new.items) }
{
    let width = cell.width;
    if column < widths.len() {
        widths[column] = widths[column].max(width);
    } else {
        widths.push(width)?;
    }
    Ok(())
}

// How wide columns and the gaps between them are.
pub(crate) fn columns_width(gap: Length, widths: &[i64]) -> Length
    requires gap { Within (2 ^ 31) gap.sp }
    requires widths { All (Within max_dimen) widths.now }
    requires few { length widths.now ≤ 2 ^ 19 }
    ensures is { result.sp ≡ width_of_columns gap.sp widths.now }
    ensures small { Within (2 ^ 53) result.sp }
{
    let end = columns_reach(gap, widths);
    if widths.is_empty() {
        end
    } else {
        end.minus(gap)
    }
}

// How wide columns are, with a gap behind each.
pub(crate) fn columns_reach(gap: Length, widths: &[i64]) -> Length
    requires gap { Within (2 ^ 31) gap.sp }
    requires widths { All (Within max_dimen) widths.now }
    requires few { length widths.now ≤ 2 ^ 19 }
    ensures is { result.sp ≡ reach_of_columns gap.sp widths.now }
    ensures small { Within (2 ^ 52) result.sp }
{
    let mut end = Length { sp: 0 };
    for i in (0..widths.len()).rev() {
        end = end.plus(Length { sp: widths[i] }).plus(gap);
    }
    end
}
