//! The cells of a table at their places, as one layout.
ghost use Rattle.std.specs.Prelude.{◌≡◌, ◌≤◌, ◌^◌, ◌+ℤ◌, ◌-ℤ◌, ◌∷◌, [], All, List, length, pos, IfOk, OnOk};
ghost use Rattle.mt_scaled.specs.Number.{Within, max_dimen};
ghost use Rattle.mt_box.specs.Extents.{ExtentsInRange};
ghost use Rattle.mt_box.specs.declared.place.Place.{Place};
ghost use Rattle.mt_rules.specs.OnMarks.{BoxSetsOn, layout_with};
ghost use Rattle.mt_rules.specs.Setting.{make_box};
ghost use Rattle.mt_align.specs.CellsJoined.{cells_joined, rows_joined, table_reach};
ghost use Rattle.mt_align.specs.Looks.{inset_of};

use crate::look::Look;
use crate::widths::columns_reach;
use crate::{CellExtents, TableExtents};
use mt_box::{Extents, Marks, Move, PackError};
use mt_family::{FontSet, Size};
use mt_rules::parameters::axis_height;
use mt_rules::tested_extents;
use mt_scaled::Length;
use std::alloc::AllocError;

// What all rows of a table share.
#[derive(Drop)]
pub(crate) struct TableShape {
    pub(crate) look: Look,
    // of the columns, in scaled points
    pub(crate) widths: Vec<i64>,
    // between two columns
    pub(crate) gap: Length,
    // of all columns and the gaps between them
    pub(crate) width: Length,
    ghost widths_small: { All (Within max_dimen) widths.items },
    ghost gap_small: { Within (2 ^ 31) gap.sp },
}

// How far the rows of a table reach from its top.
#[derive(Drop)]
pub(crate) struct TableDrops {
    // their baselines, in scaled points
    pub(crate) baselines: Vec<i64>,
    // the bottom of the table
    pub(crate) total: Length,
    ghost near: { All (Within (2 ^ 54)) baselines.items },
    ghost small: { Within (2 ^ 54) total.sp },
}

// The layouts of all cells on top become the table: what it reaches. Half of it is above the axis.
pub(crate) fn place_table(
    marks: &mut Marks,
    fonts: &FontSet,
    size: Size,
    shape: &TableShape,
    drops: &TableDrops,
    rows: &TableExtents,
) -> Result<Extents, PackError>
    requires drops { length drops.now.baselines.items ≡ length rows.now }
    requires few { All (λ cells. length cells ≤ 2 ^ 19) rows.now }
    requires fit { All (λ cells. length cells ≤ length shape.now.widths.items) rows.now }
    requires in_range { All (All ExtentsInRange) rows.now }
    requires width { Within max_dimen shape.now.width.sp }
    ensures is { (ps : List Place) → BoxSetsOn result ps (make_box (layout_with
        (table_reach fonts.now size shape.now.width.sp drops.now.total.sp) ps)) }
    ensures marks { OnOk result (marks.new ≡ rows_joined shape.now.look shape.now.gap.sp
        (table_reach fonts.now size shape.now.width.sp drops.now.total.sp).height
        shape.now.widths.items drops.now.baselines.items rows.now ([] ∷ marks.old)) }
    ensures in_range { IfOk result ExtentsInRange }
{
    let extents = tested_extents(reach_of(fonts, size, shape.width, drops.total))?;
    marks.begin()?;
    let top = Length { sp: extents.height };
    place_rows(marks, shape, top, &drops.baselines, rows)?;
    Ok(extents)
}

#[tactic(auto, using(std::proofs::lemmas::Int::ints))]
fn reach_of(fonts: &FontSet, size: Size, width: Length, total: Length) -> Extents
    requires total { Within (2 ^ 54) total.sp }
    ensures { result ≡ table_reach fonts.now size width.sp total.sp }
{
    let height = axis_height(fonts, size).plus(total.half());
    Extents {
        width: width.not_negative().sp,
        height: height.sp,
        depth: total.minus(height).sp,
    }
}

// The layouts of all rows under the top one, where they are in a table whose top is at `top`, become
// one with it.
fn place_rows(
    marks: &mut Marks,
    shape: &TableShape,
    top: Length,
    drops: &[i64],
    rows: &TableExtents,
) -> Result<(), AllocError>
    requires top { Within max_dimen top.sp }
    requires near { All (Within (2 ^ 54)) drops.now }
    requires drops { length drops.now ≡ length rows.now }
    requires few { All (λ cells. length cells ≤ 2 ^ 19) rows.now }
    requires fit { All (λ cells. length cells ≤ length shape.now.widths.items) rows.now }
    requires in_range { All (All ExtentsInRange) rows.now }
    ensures { OnOk result (marks.new ≡ rows_joined shape.now.look shape.now.gap.sp top.sp
        shape.now.widths.items drops.now rows.now marks.old) }
{
    let rows = rows.as_slice();
    for i in (0..rows.len()).rev() {
        let up = top.minus(Length { sp: drops[i] });
        place_cells(marks, shape, up, &rows[i])?;
    }
    Ok(())
}

// The layouts of the cells of a row under the top one, where they are in the row, become one with it.
// The row's baseline is at `up`.
fn place_cells(
    marks: &mut Marks,
    shape: &TableShape,
    up: Length,
    cells: &CellExtents,
) -> Result<(), AllocError>
    requires few { length cells.now ≤ 2 ^ 19 }
    requires fits { length cells.now ≤ length shape.now.widths.items }
    requires in_range { All ExtentsInRange cells.now }
    ensures { OnOk result (marks.new ≡ cells_joined shape.now.look shape.now.gap.sp up.sp 0 (pos 0)
        shape.now.widths.items cells.now marks.old) }
{
    let cells = cells.as_slice();
    let mut edge = columns_reach(shape.gap, &shape.widths[..cells.len()]);
    for column in (0..cells.len()).rev() {
        let width = Length {
            sp: shape.widths[column],
        };
        edge = shape.edge_before(edge, width);
        let inset = shape.inset(column, width, cells[column]);
        marks.shift(1, right_and_up(edge.plus(inset), up))?;
        marks.join();
    }
    Ok(())
}

fn right_and_up(right: Length, up: Length) -> Move
    ensures { result ≡ record { right = right.sp; up = up.sp } }
{
    Move {
        right: right.sp,
        up: up.sp,
    }
}

impl TableShape {
    // Where a column of this width begins, behind which the next one begins at `edge`.
    #[tactic(auto, using(std::proofs::lemmas::Int::ints))]
    fn edge_before(&self, edge: Length, width: Length) -> Length
        requires edge { Within (2 ^ 53) edge.sp }
        requires width { Within max_dimen width.sp }
        ensures is { result.sp ≡ edge.sp -ℤ (width.sp +ℤ self.now.gap.sp) }
        ensures near { Within (2 ^ 54) result.sp }
    {
        edge.minus(width.plus(self.gap))
    }

    // How far right a cell is in a column of this width.
    #[tactic(auto, using(std::proofs::lemmas::Int::ints))]
    fn inset(&self, column: usize, width: Length, cell: Extents) -> Length
        requires width { Within max_dimen width.sp }
        requires cell { ExtentsInRange cell }
        ensures is { result.sp ≡ inset_of self.now.look column (width.sp -ℤ cell.width) }
        ensures small { Within (2 ^ 40) result.sp }
    {
        let slack = width.minus(Length { sp: cell.width });
        self.look.inset(column, slack)
    }
}
