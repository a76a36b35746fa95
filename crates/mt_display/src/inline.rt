//! Formulas in the text.
ghost use Rattle.std.specs.Prelude.{◌≡◌, ◌≤◌, ◌^◌, All, IfOk, Ok, length, pos};
ghost use Rattle.mt_scaled.specs.Number.{Within};
ghost use Rattle.mt_box.specs.Layout.{layout_of};
ghost use Rattle.mt_box.specs.Rows.{AllModest, piece_values, row_level};
ghost use Rattle.mt_display.specs.declared.line.Line.{Line as LineFields};
ghost use Rattle.mt_display.specs.Lines.{LinesAnswer, LinesFit, inline_lines};
ghost use Rattle.mt_display.specs.Displays.{one_line};

use crate::{Line, Lines};
use mt_box::{PackError, Packed, Row, hpack};
use mt_scaled::Items;
use std::alloc::{AllocError, Global};

/// The line of a formula in the text: its row packed, at the left end of the page.
///
/// The row has at most 2^21 pieces, each number in it is at most 2^40 scaled points in size, and
/// the level of each box in it is below 2^20. The level of the line's box is one more than the
/// greatest of theirs, and 1 without boxes.
///
/// Refused with `Overflow` of the first of width, height and depth of the packed row that is out of
/// range, and with `OutOfMemory`.
pub fn place_inline(alloc: Global, row: Row) -> Result<Lines, PackError>
    requires few { length row ≤ 2 ^ 21 }
    requires modest { AllModest row }
    ensures is { LinesAnswer result (inline_lines (piece_values row)) }
    ensures one { IfOk result (λ lines. length lines ≡ 1) }
    ensures shifts { IfOk result (All (λ (l : LineFields). Within (2 ^ 40) l.shift)) }
    ensures level { IfOk result (All (λ (l : LineFields). l.body.level ≡ row_level row)) }
{
    let body = hpack(alloc, row)?;
    line_at_left_end(alloc, body)
}

// A box as a line, at the left end of the page.
pub(crate) fn line_at_left_end(alloc: Global, body: Packed) -> Result<Lines, PackError>
    ensures is { LinesAnswer result (Ok (one_line (pos 0) (layout_of body))) }
    ensures one { IfOk result (λ lines. length lines ≡ 1) }
    ensures fits { IfOk result (LinesFit body.level) }
    ensures level { IfOk result (All (λ (l : LineFields). l.body.level ≡ body.level)) }
{
    let line = Line { shift: 0, body };
    Ok(Items::from_vec(vec![in alloc; line].map_err(AllocError::from)?))
}
