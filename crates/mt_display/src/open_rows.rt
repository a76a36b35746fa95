//! Rows one below another in one line, opened up as by plain TeX's \openup\jot.
ghost use Rattle.std.specs.Prelude.{◌≡◌, ◌≤◌, ◌≤ℤ◌, ◌^◌, ◌+◌, ◌-◌, ◌*◌, ◌+ℤ◌, ◌-ℤ◌, ◌++◌, ◌∷◌, [], None, Some, All, length, map, pos, IfOk, IfErr, OnOk};
ghost use Rattle.std.specs.Option.{ForSome};
ghost use Rattle.mt_scaled.specs.Number.{Within, max_dimen};
ghost use Rattle.mt_box.specs.declared.entry.Entry.TheVariants.{Boxed, Kern};
ghost use Rattle.mt_box.specs.declared.error.PackError.TheVariants.{OutOfMemory as PackMemory};
ghost use Rattle.mt_box.specs.Layout.{layout_of};
ghost use Rattle.mt_box.specs.Rows.{AllModest, pack, piece_values, row_level};
ghost use Rattle.mt_box.specs.Columns.{EntryBox, entry_values, column_level, column_width, AllModestEntries};
ghost use Rattle.mt_box.specs.Extents.{ExtentsInRange};
ghost use Rattle.mt_rules.specs.Calls.{BoxAnswers};
ghost use Rattle.mt_rules.specs.Setting.{make_box};
ghost use Rattle.mt_rules.specs.Tables.{open_drop};
ghost use Rattle.mt_rules.specs.DisplayRows.{last_depth, stacked_rows};
ghost use Rattle.mt_display.specs.Lines.{LinesAnswer, LinesFit};
ghost use Rattle.mt_display.specs.DisplayLines.{at_left_end, boxes_level};
ghost use Rattle.mt_display.specs.inner.OpenRows.{depth_or_0 as depth_of_last, depth_value, gap_before as gap_of, row_entries, strut as strut_of_width};

use crate::Lines;
use crate::inline::line_at_left_end;
use mt_box::{Column, Entry, Extents, PackError, Packed, Piece, Row, hpack, vpack};
use mt_rules::{PackedList, open_gap};
use mt_scaled::{Length, in_range};
use std::alloc::{AllocError, Global};

// Rows in a column, and what they reach.
#[derive(Drop)]
struct RowColumn {
    column: Column,
    reach: RowsSoFar,
}

// The rows so far: how far they reach from the top of the first to the bottom of the last, and how
// deep the last one is.
#[derive(Clone, Copy)]
struct RowsSoFar {
    total: Length,
    depth: Option<Length>,
}

// The line of rows that are as wide as it is.
pub(crate) fn line_of_rows(
    alloc: Global,
    rows: PackedList,
    line: Length,
) -> Result<Lines, PackError>
    requires few { length rows ≤ 2 ^ 19 }
    requires level { boxes_level rows ≤ 2 ^ 20 - 2 }
    requires wide { All (λ b. b.extents.width ≡ line.sp) rows }
    requires some { pos 1 ≤ℤ line.sp }
    requires in_range { line.sp ≤ℤ pos max_dimen }
    ensures is { LinesAnswer result (at_left_end (make_box (stacked_rows line.sp (map layout_of rows)))) }
    ensures one { IfOk result (λ lines. length lines ≡ 1) }
    ensures fits { IfOk result (LinesFit (boxes_level rows + 1)) }
{
    let body = box_of_rows(alloc, rows, line)?;
    line_at_left_end(alloc, body)
}

// The box of rows that are as wide as the line.
fn box_of_rows(alloc: Global, rows: PackedList, line: Length) -> Result<Packed, PackError>
    requires few { length rows ≤ 2 ^ 19 }
    requires level { boxes_level rows ≤ 2 ^ 20 - 2 }
    requires wide { All (λ b. b.extents.width ≡ line.sp) rows }
    requires some { pos 1 ≤ℤ line.sp }
    requires in_range { line.sp ≤ℤ pos max_dimen }
    ensures is { BoxAnswers result (make_box (stacked_rows line.sp (map layout_of rows))) }
    ensures level { IfOk result (λ b. b.level ≡ boxes_level rows + 1) }
{
    let rows = column_of_rows(alloc, rows, line)?;
    let height = rows.reach.height();
    if !in_range(height.sp) {
        return Err(PackError::Overflow(height.sp));
    }
    vpack(alloc, rows.column, height.sp)
}

// The rows with the gaps between them.
fn column_of_rows(alloc: Global, rows: PackedList, line: Length) -> Result<RowColumn, PackError>
    requires few { length rows ≤ 2 ^ 19 }
    requires level { boxes_level rows ≤ 2 ^ 20 - 2 }
    requires wide { All (λ b. b.extents.width ≡ line.sp) rows }
    requires some { pos 1 ≤ℤ line.sp }
    requires in_range { line.sp ≤ℤ pos max_dimen }
    ensures is { IfOk result (λ made. entry_values made.column
        ≡ EntryBox (pos 0) (strut_of_width line.sp) ∷ row_entries None (map layout_of rows)) }
    ensures total { IfOk result (λ made. made.reach.total.sp ≡ open_drop (map layout_of rows)) }
    ensures depth { IfOk result (λ made.
        depth_of_last (depth_value made.reach.depth) ≡ last_depth (map layout_of rows)) }
    ensures small { IfOk result (λ made. Within (2 ^ 53) made.reach.total.sp) }
    ensures depth_small { IfOk result (λ made. ForSome made.reach.depth (λ d. Within max_dimen d.sp)) }
    ensures modest { IfOk result (λ made. AllModestEntries made.column) }
    ensures few { IfOk result (λ made. length made.column ≤ 2 ^ 21) }
    ensures width { IfOk result (λ made. column_width (entry_values made.column) ≡ line.sp) }
    ensures level { IfOk result (λ made. column_level made.column ≡ boxes_level rows + 1) }
    ensures memory { IfErr result (λ e. e ≡ PackMemory) }
{
    let strut = strut(alloc, line)?;
    let mut entries = Vec::with_capacity(alloc, 2 * rows.len() + 1)?;
    let strut = Entry::Boxed {
        shift: 0,
        body: strut,
    };
    push_to(&mut entries, strut)?;
    let mut reach = RowsSoFar {
        total: Length { sp: 0 },
        depth: None,
    };
    for row in rows.into_vec() {
        let extents = row.extents();
        let gap = reach.gap_before(extents);
        push_row(&mut entries, gap, row)?;
        reach = reach.with(gap, extents);
    }
    Ok(RowColumn {
        column: Column::from_vec(entries),
        reach,
    })
}

impl RowsSoFar {
    // The gap before a row; there is none before the first one.
    fn gap_before(self, row: Extents) -> Length
        requires depth { ForSome self.depth (λ d. Within max_dimen d.sp) }
        requires row { ExtentsInRange row }
        ensures is { result.sp ≡ gap_of (depth_value self.depth) row.height }
        ensures small { Within (2 ^ 32) result.sp }
    {
        match self.depth {
            None => Length { sp: 0 },
            Some(depth) => open_gap(depth, Length { sp: row.height }),
        }
    }

    // One row more, after this gap.
    #[tactic(auto, using(std::proofs::lemmas::Int::ints))]
    fn with(self, gap: Length, row: Extents) -> RowsSoFar
        requires total { Within (2 ^ 53) self.total.sp }
        requires gap { Within (2 ^ 32) gap.sp }
        requires row { ExtentsInRange row }
        ensures total { result.total.sp ≡ self.total.sp +ℤ (gap.sp +ℤ (row.height +ℤ row.depth)) }
        ensures depth { depth_value result.depth ≡ Some row.depth }
    {
        let reach = Length { sp: row.height }.plus(Length { sp: row.depth });
        RowsSoFar {
            total: self.total.plus(gap.plus(reach)),
            depth: Some(Length { sp: row.depth }),
        }
    }

    // How far the rows reach above the baseline of the last one.
    #[tactic(auto, using(std::proofs::lemmas::Int::ints))]
    fn height(self) -> Length
        requires total { Within (2 ^ 53) self.total.sp }
        requires depth { ForSome self.depth (λ d. Within max_dimen d.sp) }
        ensures is { result.sp ≡ self.total.sp -ℤ depth_of_last (depth_value self.depth) }
        ensures small { Within (2 ^ 54) result.sp }
    {
        self.total.minus(self.last_depth())
    }

    // And below it.
    fn last_depth(self) -> Length
        requires { ForSome self.depth (λ d. Within max_dimen d.sp) }
        ensures is { result.sp ≡ depth_of_last (depth_value self.depth) }
        ensures small { Within max_dimen result.sp }
    {
        match self.depth {
            None => Length { sp: 0 },
            Some(depth) => depth,
        }
    }
}

fn push_row(entries: &mut Vec<Entry>, gap: Length, row: Packed) -> Result<(), AllocError>
    requires { Within (2 ^ 32) gap.sp }
    ensures { OnOk result (entries.new.items
        ≡ entries.old.items ++ Kern gap.sp ∷ Boxed (pos 0) row ∷ []) }
{
    entries.push(Entry::Kern(gap.sp))?;
    entries.push(Entry::Boxed {
        shift: 0,
        body: row,
    })?;
    Ok(())
}

pub(crate) fn push_to<T: Drop>(items: &mut Vec<T>, item: T) -> Result<(), AllocError>
    ensures { OnOk result (items.new.items ≡ items.old.items ++ item ∷ []) }
{
    items.push(item)?;
    Ok(())
}

// An empty box as wide as the line, so that a column without rows is as wide too.
fn strut(alloc: Global, line: Length) -> Result<Packed, PackError>
    requires { Within max_dimen line.sp }
    ensures is { IfOk result (λ b. layout_of b ≡ strut_of_width line.sp) }
    ensures level { IfOk result (λ b. b.level ≡ 1) }
    ensures memory { IfErr result (λ e. e ≡ PackMemory) }
{
    let row = Row::from_vec(vec![in alloc; Piece::Kern(line.sp)].map_err(AllocError::from)?);
    pack_in_range(alloc, row)
}

// The row packed, whose extents are in range: so it is refused only where memory ran out.
pub(crate) fn pack_in_range(alloc: Global, row: Row) -> Result<Packed, PackError>
    requires few { length row ≤ 2 ^ 21 }
    requires modest { AllModest row }
    requires in_range { ExtentsInRange (pack (piece_values row)).extents }
    ensures is { IfOk result (λ b. layout_of b ≡ pack (piece_values row)) }
    ensures level { IfOk result (λ b. b.level ≡ row_level row) }
    ensures memory { IfErr result (λ e. e ≡ PackMemory) }
{
    hpack(alloc, row)
}
