//! Displays of several lines, each of which is in the middle (plain TeX's \displaylines).
ghost use Rattle.std.specs.Prelude.{◌≡◌, ◌≤◌, ◌≤ℤ◌, ◌^◌, ◌+◌, ◌-◌, ◌-ℤ◌, ◌++◌, ◌∷◌, [], map, pos, length, IfOk, IfErr, OnOk};
ghost use Rattle.mt_scaled.specs.Number.{Within, max_dimen};
ghost use Rattle.mt_box.specs.declared.error.PackError.TheVariants.{OutOfMemory as PackMemory};
ghost use Rattle.mt_box.specs.Extents.{ExtentsInRange};
ghost use Rattle.mt_box.specs.Layout.{layout_of};
ghost use Rattle.mt_box.specs.Rows.{AllModest, pack, piece_values, row_level};
ghost use Rattle.mt_rules.specs.DisplayRows.{centred_row, margin as margin_of};
ghost use Rattle.mt_display.specs.Lines.{LinesAnswer, LinesFit};
ghost use Rattle.mt_display.specs.DisplayLines.{boxes_level, row_lines};

use crate::Lines;
use crate::open_rows::{line_of_rows, pack_in_range, push_to};
use mt_box::{Extents, PackError, Packed, Piece, Row};
use mt_rules::PackedList;
use mt_scaled::{Items, Length};
use std::alloc::{AllocError, Global};

/// The line of a display of several lines, each in the middle of a line of this width in scaled
/// points (plain TeX's `\displaylines`; The TeXbook, chapter 19).
///
/// A row is at half of what it leaves of the line, and at 0 where it is wider. All rows are one
/// line of the page, with shift 0 and of the given width. Its baseline is that of the last row. A
/// row counts with a height and a depth of at least 0. Baselines are 15pt apart; where the gap
/// between two rows would be less than 3pt, it is 4pt. So the line reaches up to the top of the
/// first row and down to the bottom of the last; without rows its height and depth are 0.
///
/// The width of the line is from 1 to 2^30 - 1. There are at most 2^19 rows, and the level of each
/// is at most 2^20 - 3. The level of the line's box is at most 2 above the greatest of theirs.
///
/// Refused with `Overflow` of the height or the depth of the line that is out of range, and with
/// `OutOfMemory`.
#[tactic(auto, unfolding(mt_rules::specs::DisplayRows::rows_line))]
pub fn place_rows(alloc: Global, rows: PackedList, line: i64) -> Result<Lines, PackError>
    requires few { length rows ≤ 2 ^ 19 }
    requires level { boxes_level rows ≤ 2 ^ 20 - 3 }
    requires some { pos 1 ≤ℤ line }
    requires in_range { line ≤ℤ pos max_dimen }
    ensures is { LinesAnswer result (row_lines (map layout_of rows) line) }
    ensures one { IfOk result (λ lines. length lines ≡ 1) }
    ensures fits { IfOk result (LinesFit (boxes_level rows + 2)) }
{
    let line = Length { sp: line };
    let rows = centred_rows(alloc, rows, line)?;
    line_of_rows(alloc, rows, line)
}

// Each row in the middle of the line.
fn centred_rows(alloc: Global, rows: PackedList, line: Length) -> Result<PackedList, PackError>
    requires few { length rows ≤ 2 ^ 19 }
    requires level { boxes_level rows ≤ 2 ^ 20 - 3 }
    requires line { Within max_dimen line.sp }
    ensures is { IfOk result (λ made. map layout_of made ≡ map (centred_row line.sp) (map layout_of rows)) }
    ensures level { IfOk result (λ made. boxes_level made ≤ boxes_level rows + 1) }
    ensures memory { IfErr result (λ e. e ≡ PackMemory) }
{
    let mut made = Vec::with_capacity(alloc, rows.len())?;
    for row in rows.into_vec() {
        let row = centred(alloc, row, line)?;
        push_to(&mut made, row)?;
    }
    Ok(Items::from_vec(made))
}

// A row in the middle of the line.
fn centred(alloc: Global, row: Packed, line: Length) -> Result<Packed, PackError>
    requires level { row.level ≤ 2 ^ 20 - 3 }
    requires line { Within max_dimen line.sp }
    ensures is { IfOk result (λ b. layout_of b ≡ centred_row line.sp (layout_of row)) }
    ensures level { IfOk result (λ b. b.level ≡ row.level + 1) }
    ensures memory { IfErr result (λ e. e ≡ PackMemory) }
{
    let pieces = centred_pieces(alloc, row, line)?;
    pack_in_range(alloc, pieces)
}

// A row with what it leaves of the line before it and after it.
fn centred_pieces(alloc: Global, row: Packed, line: Length) -> Result<Row, AllocError>
    requires level { row.level ≤ 2 ^ 20 - 3 }
    requires line { Within max_dimen line.sp }
    ensures is { IfOk result (λ pieces. pack (piece_values pieces) ≡ centred_row line.sp (layout_of row)) }
    ensures in_range { IfOk result (λ pieces. ExtentsInRange (pack (piece_values pieces)).extents) }
    ensures modest { IfOk result AllModest }
    ensures few { IfOk result (λ pieces. length pieces ≤ 2 ^ 21) }
    ensures level { IfOk result (λ pieces. row_level pieces ≡ row.level + 1) }
{
    let extents = row.extents();
    let before = margin_beside(extents, line);
    let after = rest_behind(extents, line, before);
    let pieces = vec![in alloc;
        Piece::Kern(before.sp),
        Piece::Boxed {
            raise: 0,
            body: row
        },
        Piece::Kern(after.sp),
    ]?;
    Ok(Row::from_vec(pieces))
}

#[tactic(auto, using(std::proofs::lemmas::Int::ints))]
fn margin_beside(row: Extents, line: Length) -> Length
    requires row { ExtentsInRange row }
    requires line { Within max_dimen line.sp }
    ensures is { result.sp ≡ margin_of (line.sp -ℤ row.width) }
    ensures small { Within (2 ^ 34) result.sp }
{
    margin(line.minus(Length { sp: row.width }))
}

// What a row that is so far from the left end leaves behind it.
#[tactic(auto, using(std::proofs::lemmas::Int::ints))]
fn rest_behind(row: Extents, line: Length, before: Length) -> Length
    requires row { ExtentsInRange row }
    requires line { Within max_dimen line.sp }
    requires before { Within (2 ^ 34) before.sp }
    ensures is { result.sp ≡ (line.sp -ℤ row.width) -ℤ before.sp }
    ensures small { Within (2 ^ 36) result.sp }
{
    line.minus(Length { sp: row.width }).minus(before)
}

// Half of what is left of a line, and at least 0.
#[tactic(auto, using(std::proofs::lemmas::Int::ints, std::proofs::lemmas::Int::clamps))]
pub(crate) fn margin(room: Length) -> Length
    requires { Within (2 ^ 34) room.sp }
    ensures is { result.sp ≡ margin_of room.sp }
    ensures small { Within (2 ^ 34) result.sp }
{
    room.half().not_negative()
}
