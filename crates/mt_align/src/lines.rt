//! The rows of a table one below another: where their baselines are.
ghost use Rattle.std.specs.Prelude.{◌≡◌, ◌≤◌, ◌^◌, ◌+ℤ◌, None, Some, All, length, map, pos, IfOk};
ghost use Rattle.std.specs.Option.{ForSome};
ghost use Rattle.std.specs.Int.{int_max};
ghost use Rattle.mt_scaled.specs.Number.{Within, max_dimen};
ghost use Rattle.mt_box.specs.Extents.{ExtentsInRange};
ghost use Rattle.mt_align.specs.CellLayers.{bare, bare_rows};
ghost use Rattle.mt_align.specs.RowLines.{depth_value, gap_before, last_depth, line_depth, line_height, line_drops, lines_end};

use crate::look::Look;
use crate::{CellExtents, TableExtents};
use mt_box::Extents;
use mt_scaled::Length;
use std::alloc::{AllocError, Global};

// How far the rows so far reach downward, and the depth of the last one.
#[derive(Clone, Copy)]
pub(crate) struct LinesSoFar {
    pub(crate) total: Length,
    pub(crate) depth: Option<Length>,
}

// Rows of a table.
#[derive(Drop)]
pub(crate) struct Lines {
    // how far their baselines are below the top of the table, in scaled points
    pub(crate) drops: Vec<i64>,
    pub(crate) so_far: LinesSoFar,
}

// The height and the depth of a row.
#[derive(Clone, Copy)]
pub(crate) struct Line {
    pub(crate) height: Length,
    pub(crate) depth: Length,
}

// Rows below others, with the gaps between them, and one before the first row where it comes after
// something.
pub(crate) fn lines_below(
    alloc: Global,
    look: Look,
    start: LinesSoFar,
    rows: &TableExtents,
) -> Result<Lines, AllocError>
    requires above { Within (2 ^ 33) start.total.sp }
    requires before { ForSome start.depth (λ d. Within max_dimen d.sp) }
    requires few { length rows.now ≤ 2 ^ 19 }
    requires in_range { All (All ExtentsInRange) rows.now }
    ensures drops { IfOk result (λ l. l.drops.items
        ≡ line_drops look start.total.sp (depth_value start.depth) (bare_rows rows.now)) }
    ensures total { IfOk result (λ l. l.so_far.total.sp
        ≡ lines_end look start.total.sp (depth_value start.depth) (bare_rows rows.now)) }
    ensures depth { IfOk result (λ l. depth_value l.so_far.depth
        ≡ last_depth look (depth_value start.depth) (bare_rows rows.now)) }
    ensures depth_small { IfOk result (λ l. ForSome l.so_far.depth (λ d. Within max_dimen d.sp)) }
    ensures near { IfOk result (λ l. All (Within (2 ^ 54)) l.drops.items) }
    ensures small { IfOk result (λ l. Within (2 ^ 53) l.so_far.total.sp) }
{
    let mut drops = Vec::with_capacity(alloc, rows.len())?;
    let mut so_far = start;
    for cells in rows.as_slice() {
        let line = line_of(look, cells);
        let gap = so_far.gap_before(look, line.height);
        let drop = so_far.total.plus(gap.plus(line.height));
        drops.push(drop.sp)?;
        so_far = LinesSoFar {
            total: drop.plus(line.depth),
            depth: Some(line.depth),
        };
    }
    Ok(Lines { drops, so_far })
}

impl LinesSoFar {
    // The gap before a row of this height; there is none before one that comes after nothing.
    pub(crate) fn gap_before(self, look: Look, height: Length) -> Length
        requires depth { ForSome self.depth (λ d. Within max_dimen d.sp) }
        requires height { Within max_dimen height.sp }
        ensures is { result.sp ≡ gap_before look (depth_value self.depth) height.sp }
        ensures small { Within (2 ^ 32) result.sp }
    {
        match self.depth {
            None => Length { sp: 0 },
            Some(depth) => look.gap(depth, height),
        }
    }
}

// A row that is as high and as deep as its highest and its deepest cell, and at least as rows of this
// look are.
fn line_of(look: Look, cells: &CellExtents) -> Line
    requires { All ExtentsInRange cells.now }
    ensures height { result.height.sp ≡ line_height look (map bare cells.now) }
    ensures depth { result.depth.sp ≡ line_depth look (map bare cells.now) }
    ensures high { Within max_dimen result.height.sp }
    ensures deep { Within max_dimen result.depth.sp }
{
    let mut line = Line {
        height: look.least_height(),
        depth: look.least_depth(),
    };
    for cell in cells.as_slice() {
        line = line.with(*cell);
    }
    line
}

impl Line {
    // A cell more.
    fn with(self, cell: Extents) -> Line
        ensures height { result.height.sp ≡ int_max cell.height self.height.sp }
        ensures depth { result.depth.sp ≡ int_max cell.depth self.depth.sp }
    {
        Line {
            height: self.height.at_least(Length { sp: cell.height }),
            depth: self.depth.at_least(Length { sp: cell.depth }),
        }
    }
}
