//! Lines one below another on a page.
ghost use Rattle.std.specs.Prelude.{◌≡◌, ◌≤◌, ◌<◌, ◌+ℤ◌, ◌*◌, ◌^◌, ◌++◌, ◌∷◌, length, ℕ, All, List, IfOk, IfSome, OnOk, Some, ◌+◌, ◌-◌};
ghost use Rattle.mt_scaled.specs.Number.{Within, max_dimen};
ghost use Rattle.mt_box.specs.Extents.{ExtentsInRange};
ghost use Rattle.mt_box.specs.Rows.{PieceValue};
ghost use Rattle.mt_pieces.specs.Runs.{IsAt};
ghost use Rattle.mt_display.specs.LineStack.{line_box};
ghost use Rattle.mt_display.specs.Lines.{LineValue, line_values};
ghost use Rattle.mt_display.specs.Stack.{fault_in_line as fault_of_line};
ghost use Rattle.mt_display.specs.Stack.{top_below as top_of_line, stacked_lines, StackAnswers};
ghost use Rattle.mt_display.specs.inner.NextLines.{above_value, IsNear, AddsLine};
ghost use Rattle.mt_display.specs.declared.line.Line.{Line as LineFields};

use crate::{LineStack, Lines, StackError};
use mt_box::{Extents, Place, PlaceError, PlaceList};
use mt_pieces::{PieceAt, Pieces};
use mt_rules::line_gap;
use mt_scaled::Length;
use std::alloc::Global;

// The line above another: where its bottom is, and how deep it is.
#[derive(Clone, Copy)]
pub(crate) struct LineAbove {
    bottom: Length,
    depth: Length,
}

// What the lines so far leave for the next one: its number, and the line above it, if any.
#[derive(Clone, Copy)]
pub(crate) struct NextLine {
    line: u32,
    above: Option<LineAbove>,
}

// No line is above the first one.
pub(crate) const FIRST_LINE: NextLine = NextLine {
    line: 0,
    above: None,
};

/// The places of lines one below another, from the top of a page on, in order; `room` is the
/// greatest number of them. The top of the first line is at v = 0. Baselines are 12pt apart; where
/// the gap between two lines would be negative, it is 1pt.
///
/// There are at most 2^21 lines, and their shifts are at most 2^40 in size.
///
/// Refused at the first place with a coordinate out of range (`OutOfRange`), or for which there is
/// no room (`TooMany`), both with the line of the place; at one place h is tested first, then v, then
/// the room. `OutOfMemory` may come at any time.
#[tactic(auto, unfolding(crate::specs::Stack::stacked_lines))]
pub fn stack_lines(alloc: Global, lines: &Lines, room: u64) -> Result<PlaceList, StackError>
    requires few { length lines.now ≤ 2 ^ 21 }
    requires shifts { All (λ (l : LineFields). Within (2 ^ 40) l.shift) lines.now }
    ensures { StackAnswers result (stacked_lines room (line_values lines.now)) }
{
    let mut stack = LineStack::new(alloc);
    for line in lines.as_slice() {
        stack.put_line(line)?;
    }
    stack.places(alloc, room)
}

// Puts the places of the next line after the others. Its box is the piece at this place.
pub(crate) fn add_line(
    page: &mut Vec<Place>,
    pieces: &Pieces,
    at: PieceAt,
    shift: i64,
    here: NextLine,
    room: u64,
) -> Result<NextLine, StackError>
    requires at { IsAt at pieces.now }
    requires near { IsNear here }
    requires few { here.line < 2 ^ 21 }
    requires shift { Within (2 ^ 40) shift }
    requires room { length page.old.items ≤ room }
    ensures is { (before rest : List PieceValue) (l : LineValue) → pieces.now ≡ before ++ (line_box l ∷ rest)
        → length before ≡ at.piece → shift ≡ l.shift → AddsLine room here page.old.items l result page.new.items }
    ensures line { IfOk result (λ next. next.line ≡ here.line + 1) }
    ensures near { IfOk result IsNear }
    ensures room { OnOk result (length page.new.items ≤ room) }
{
    let extents = pieces.extents_at(at);
    let v = reference_below(here, extents);
    match pieces.put_places(at, page, shift, v.sp, room) {
        Ok(()) => Ok(line_after(here, v, extents)),
        Err(error) => Err(fault_in_line(here.line, error)),
    }
}

fn fault_in_line(line: u32, error: PlaceError) -> StackError
    ensures { result ≡ fault_of_line line error }
{
    match error {
        PlaceError::OutOfRange(value) => StackError::OutOfRange { line, value },
        PlaceError::TooMany => StackError::TooMany { line },
        PlaceError::OutOfMemory => StackError::OutOfMemory,
    }
}

// Where the reference point of the next line is.
fn reference_below(here: NextLine, extents: Extents) -> Length
    requires near { IsNear here }
    requires few { here.line < 2 ^ 21 }
    requires extents { ExtentsInRange extents }
    ensures is { result.sp ≡ top_of_line (above_value here.above) extents.height +ℤ extents.height }
    ensures near { Within (2 ^ 33 * here.line + (2 ^ 32 + 2 ^ 31)) result.sp }
{
    let height = Length { sp: extents.height };
    top_below(here.above, height).plus(height)
}

// Where the top of a line of this height is.
fn top_below(above: Option<LineAbove>, height: Length) -> Length
    requires bottom { IfSome above (λ a. Within (2 ^ 55) a.bottom.sp) }
    requires depth { IfSome above (λ a. Within max_dimen a.depth.sp) }
    requires height { Within max_dimen height.sp }
    ensures is { result.sp ≡ top_of_line (above_value above) height.sp }
    ensures small { Within (2 ^ 56) result.sp }
    ensures near { (n : ℕ) → IfSome above (λ a. Within n a.bottom.sp) → Within (n + 2 ^ 32) result.sp }
{
    match above {
        None => Length { sp: 0 },
        Some(above) => above.bottom.plus(line_gap(above.depth, height)),
    }
}

// The line after this one, whose reference point is at v.
fn line_after(here: NextLine, v: Length, extents: Extents) -> NextLine
    requires few { here.line < 2 ^ 21 }
    requires v { Within (2 ^ 33 * here.line + (2 ^ 32 + 2 ^ 31)) v.sp }
    requires extents { ExtentsInRange extents }
    ensures line { result.line ≡ here.line + 1 }
    ensures above { above_value result.above
        ≡ Some (record { bottom = v.sp +ℤ extents.depth; depth = extents.depth }) }
    ensures near { IsNear result }
{
    let depth = Length { sp: extents.depth };
    NextLine {
        line: here.line + 1,
        above: Some(LineAbove {
            bottom: v.plus(depth),
            depth,
        }),
    }
}
