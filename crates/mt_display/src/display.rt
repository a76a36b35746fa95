//! Displays and their numbers (The TeXbook, chapter 19; tex.web part 48).
ghost use Rattle.std.specs.Prelude.{◌≡◌, ◌≤◌, ◌≤ℤ◌, ◌^◌, ◌+◌, ◌-◌, ◌++◌, [], pos, max, length, All, List, Ok, IfOk, IfSome, OnOk};
ghost use Rattle.std.specs.Option.{option_map};
ghost use Rattle.mt_scaled.specs.Number.{max_dimen};
ghost use Rattle.mt_box.specs.Rows.{AllMeasurable, AllModest, piece_values, row_level};
ghost use Rattle.mt_family.specs.Sets.{sy};
ghost use Rattle.mt_family.specs.declared.size.Size.TheVariants.{Text};
ghost use Rattle.mt_display.specs.declared.line.Line.{Line as LineFields};
ghost use Rattle.mt_display.specs.Lines.{LinesAnswer, LinesFit, LineValue, line_values};
ghost use Rattle.mt_display.specs.Displays.{NumberFits, number_level, number_value, display_lines};
ghost use Rattle.mt_display.specs.LineStack.{IsStack, PutsLines};

use crate::line_stack::{LineStack, NumberSide};
use crate::{Lines, Numbered};
use mt_box::{PackError, Row};
use mt_family::FontSet;
use mt_scaled::Items;
use std::alloc::{AllocError, Global};

/// The lines of a display, and of its number where it has one, in a line of this width in scaled
/// points (The TeXbook, chapter 19; tex.web part 48, sections 1199 to 1206).
///
/// Let z be the line's width, w that of the display, and s what its spaces may shrink together; let
/// e be the width of the number, and q that and the quad of the symbols at text size. Without a
/// number e and q are 0.
///
/// The width: where w + q is at most z, the display keeps its width. Else, where e is not 0 and w -
/// s + q is at most z, it is set to z - q. In every other case e becomes 0, and a display that is
/// wider than z is set to z. From here on w is the new width.
///
/// The place: d is half of z - w. But where e is positive and d is less than 2e, d is half of
/// z - w - e, or 0 where the display begins with a space.
///
/// With e not 0, display and number are one line of width z - d, with what is left of the line
/// between them: the display first, shifted by d (`\eqno`), or the number first, shifted by 0
/// (`\leqno`). With e = 0 the display is shifted by d, and a number has a line of its own: below
/// the display, with its right end at z (`\eqno`), or above it, shifted by 0 (`\leqno`).
///
/// The width of the line is from 1 to 2^30 - 1. The row has at most 2^21 pieces, each number in it
/// is at most 2^40 scaled points in size, and the level of each box in it is at most 2^20 - 4; the
/// same holds for the row of the number. There are one or two lines. The level of a box in them is
/// at most 2 above the greatest of these levels.
///
/// Refused with `Overflow` of the first of width, height and depth that is out of range: of the
/// display as it is set, then of the number, then of the row of both where they are one line; and
/// with `OutOfMemory`.
pub fn place_display(
    alloc: Global,
    fonts: &FontSet,
    row: Row,
    number: Option<Numbered>,
    line: i64,
) -> Result<Lines, PackError>
    requires few { length row ≤ 2 ^ 21 }
    requires modest { AllModest row }
    requires level { row_level row ≤ 2 ^ 20 - 3 }
    requires number { IfSome number NumberFits }
    requires some { pos 1 ≤ℤ line }
    requires in_range { line ≤ℤ pos max_dimen }
    ensures is { LinesAnswer result (display_lines (sy fonts.now 6 Text) (piece_values row)
        (option_map number_value number) line) }
    ensures fits { IfOk result (LinesFit (max (row_level row) (number_level number) + 1)) }
{
    let mut stack = LineStack::new(alloc);
    put_lines(&mut stack, fonts, row, number, line)?;
    Ok(take_lines(alloc, stack)?)
}

// The lines of a display on a stack without lines.
fn put_lines(
    stack: &mut LineStack,
    fonts: &FontSet,
    row: Row,
    number: Option<Numbered>,
    line: i64,
) -> Result<(), PackError>
    requires empty { IsStack [] [] stack.old }
    requires few { length row ≤ 2 ^ 21 }
    requires modest { AllModest row }
    requires number { IfSome number NumberFits }
    requires some { pos 1 ≤ℤ line }
    requires in_range { line ≤ℤ pos max_dimen }
    ensures { PutsLines result [] stack.new (display_lines (sy fonts.now 6 Text) (piece_values row)
        (option_map number_value number) line) }
{
    stack.pieces.put_row(row)?;
    match number {
        None => stack.put_display(fonts, 0, line),
        Some(number) => {
            let end = stack.pieces.len();
            stack.pieces.put_row(number.row)?;
            stack.put_numbered(fonts, 0, end, NumberSide::of(number.left), line)
        }
    }
}

// The lines of a stack that has one or two.
fn take_lines(alloc: Global, stack: LineStack) -> Result<Lines, AllocError>
    ensures is { (lines : List LineValue) → IsStack lines [] stack → 1 ≤ length lines → length lines ≤ 2
        → IfOk result (λ made. line_values made ≡ lines) }
    ensures levels { IfOk result (All (λ (l : LineFields). l.body.level ≡ 1)) }
{
    let mut stack = stack;
    let last = stack.take_line(alloc)?;
    if stack.shifts.is_empty() {
        return Ok(Items::from_vec(vec![in alloc; last]?));
    }
    let first = stack.take_line(alloc)?;
    Ok(Items::from_vec(vec![in alloc; first, last]?))
}
