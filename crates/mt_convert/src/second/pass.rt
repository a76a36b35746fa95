//! The second pass: the rows side by side, with spaces, boundaries and middles (The TeXbook,
//! Appendix G, rules 19 and 20).
ghost use Rattle.std.specs.Prelude.{◌≤◌, ◌^◌, ℕ, IfOk, length};
ghost use Rattle.mt_convert.specs.SecondPass.{second_pass_of};
ghost use Rattle.mt_convert.specs.Calls.{SetsRow};
ghost use Rattle.mt_convert.specs.Halfway.{HalvesFit, RowFits, halves_value};

use crate::SetFault;
use crate::halfway::Halfway;
use crate::placing::put_halfway;
use crate::second::join::join_on;
use mt_box::Row;
use mt_family::FontSet;
use mt_pieces::Pieces;
use mt_rules::Style;
use std::alloc::Global;

/// The row of a list that the first pass has set, in the style in which the list begins: the rows
/// of its items side by side, with the spaces between atoms, the boundaries at the two ends, and the
/// middles between them (The TeXbook, Appendix G, rules 19 and 20; tex.web, sections 760 to 767).
///
/// All boundaries and middles have one wanted size, which the height and the depth of all atoms give
/// at the size of the style.
///
/// The row has at most 2^21 pieces. Each number in it is at most 2^40 in size, and its boxes have a
/// level of at most 2^16: the greatest in the items, or 2 where that is less.
///
/// # Errors
///
/// `TooTall` with the repeats of a boundary or a middle, or `Overflow` with the first extent out of
/// range of its glyphs and box, in the order of the list; then `Overflow` with the first extent out of
/// range of the row. `OutOfMemory` where memory ran out.
pub fn second_pass(
    alloc: Global,
    fonts: &FontSet,
    half: Halfway,
    style: Style,
) -> Result<Row, SetFault>
    ensures is { SetsRow result (second_pass_of fonts.now style (halves_value half)) }
    ensures few { IfOk result (λ row. length row ≤ 2 ^ 21) }
    ensures bounded { IfOk result (RowFits (2 ^ 16)) }
    ensures fits { IfOk result (λ row. (n : ℕ) → 2 ≤ n → HalvesFit n half.items → RowFits n row) }
{
    let mut pieces = Pieces::new(alloc);
    let halves = put_halfway(alloc, &mut pieces, half)?;
    join_on(&mut pieces, alloc, fonts, style, 0, halves)?;
    Ok(pieces.take_row(alloc, 0)?)
}
