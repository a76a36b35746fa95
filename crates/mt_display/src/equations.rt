//! Equations one below another, with numbers (plain TeX's \eqalignno and \leqalignno).
ghost use Rattle.std.specs.Prelude.{◌≡◌, ◌≤◌, ◌≤ℤ◌, ◌^◌, ◌+◌, ◌-◌, ◌+ℤ◌, ◌-ℤ◌, ◌∷◌, [], map, pos, get_or, length, IfOk, IfErr, IfSome, Some};
ghost use Rattle.mt_scaled.specs.Number.{Within, max_dimen};
ghost use Rattle.mt_box.specs.declared.error.PackError.TheVariants.{OutOfMemory as PackMemory};
ghost use Rattle.mt_box.specs.Layout.{layout_of};
ghost use Rattle.mt_box.specs.Rows.{AllModest, piece_values, row_level};
ghost use Rattle.mt_rules.specs.Tables.{column_width};
ghost use Rattle.mt_rules.specs.DisplayRows.{equation_row, equation_sides, equations_axis, margin as margin_of, number_place as place_of_number};
ghost use Rattle.mt_display.specs.Lines.{LinesAnswer, LinesFit};
ghost use Rattle.mt_display.specs.DisplayLines.{boxes_level, equation_layout, equation_level, equation_lines, equations_level};
ghost use Rattle.mt_display.specs.inner.EquationRows.{AreInRange, AreSmallKerns, AreSmallSides, equation_pieces, joined, side_widths};

use crate::Lines;
use crate::open_rows::{line_of_rows, pack_in_range, push_to};
use crate::rows::margin;
use crate::slot::width_of;
use mt_box::{PackError, Packed, Piece, Row};
use mt_rules::PackedList;
use mt_scaled::{Items, Length};
use std::alloc::{AllocError, Global};

/// An equation: its left side, its right side and its number. An absent one is an empty box.
#[derive(Drop)]
pub struct EquationRow {
    /// The left side, which ends where the right side begins.
    pub first: Packed,
    /// The right side.
    pub second: Packed,
    /// The number.
    pub number: Packed,
}

/// Equations, from the first one downward.
pub type EquationRows = Items<EquationRow>;

/// The line of equations one below another, with their numbers at the right end of a line of this
/// width in scaled points, or at its left end (plain TeX's `\eqalignno` and `\leqalignno`; The
/// TeXbook, chapter 19).
///
/// The left sides are as wide as the widest of them, and the right sides too. Both together are in
/// the middle of the line, or at 0 where they are wider: each left side ends where the right sides
/// begin. A number is beside its equation whether or not there is room for it. All rows are one line
/// of the page, with shift 0 and of the given width. Its baseline is that of the last row. A row
/// counts with a height and a depth of at least 0. Baselines are 15pt apart; where the gap between
/// two rows would be less than 3pt, it is 4pt. So the line reaches up to the top of the first row and
/// down to the bottom of the last; without rows its height and depth are 0.
///
/// The width of the line is from 1 to 2^30 - 1. There are at most 2^19 rows, and the level of each
/// box in them is at most 2^20 - 3. The level of the line's box is at most 2 above the greatest of
/// theirs.
///
/// Refused with `Overflow` of the height or the depth of the line that is out of range, and with
/// `OutOfMemory`.
#[tactic(auto, unfolding(mt_rules::specs::DisplayRows::equations_line))]
pub fn place_equations(
    alloc: Global,
    rows: EquationRows,
    left: bool,
    line: i64,
) -> Result<Lines, PackError>
    requires few { length rows ≤ 2 ^ 19 }
    requires level { equations_level rows ≤ 2 ^ 20 - 3 }
    requires some { pos 1 ≤ℤ line }
    requires in_range { line ≤ℤ pos max_dimen }
    ensures is { LinesAnswer result (equation_lines (map equation_layout rows) left line) }
    ensures one { IfOk result (λ lines. length lines ≡ 1) }
    ensures fits { IfOk result (LinesFit (equations_level rows + 2)) }
{
    let line = Length { sp: line };
    let axis = axis_of(&rows, line);
    let rows = numbered_rows(alloc, rows, EquationLine { line, axis, left })?;
    line_of_rows(alloc, rows, line)
}

// A line of equations: its width, where their right sides begin, and whether the numbers are at the
// left.
#[derive(Clone, Copy)]
struct EquationLine {
    line: Length,
    axis: Length,
    left: bool,
}

// How wide the left sides and the right sides are.
#[derive(Clone, Copy)]
pub(crate) struct SideWidths {
    pub(crate) first: Length,
    pub(crate) second: Length,
}

// Where the right sides begin, so that both sides together are in the middle of the line.
fn axis_of(rows: &EquationRows, line: Length) -> Length
    requires line { Within max_dimen line.sp }
    ensures is { result.sp ≡ equations_axis line.sp (map equation_layout rows.now) }
    ensures small { Within (2 ^ 35) result.sp }
{
    let widths = widths_of_sides(rows);
    axis_between(widths, line)
}

#[tactic(auto, using(std::proofs::lemmas::Int::ints))]
fn axis_between(widths: SideWidths, line: Length) -> Length
    requires line { Within max_dimen line.sp }
    requires widths { AreSmallSides widths }
    ensures is { result.sp ≡ margin_of ((line.sp -ℤ widths.first.sp) -ℤ widths.second.sp) +ℤ widths.first.sp }
    ensures small { Within (2 ^ 35) result.sp }
{
    let room = line.minus(widths.first).minus(widths.second);
    margin(room).plus(widths.first)
}

// The widths of both columns, and 0 without rows.
fn widths_of_sides(rows: &EquationRows) -> SideWidths
    ensures first { result.first.sp ≡ column_width (map equation_sides (map equation_layout rows.now)) 0 }
    ensures second { result.second.sp ≡ column_width (map equation_sides (map equation_layout rows.now)) 1 }
    ensures small { AreSmallSides result }
{
    let mut widths = None;
    for row in rows.as_slice() {
        widths = Some(with_sides(widths, row));
    }
    widths_or_0(widths)
}

#[tactic(auto, using(std::proofs::lemmas::Int::ints))]
fn widths_or_0(widths: Option<SideWidths>) -> SideWidths
    requires { IfSome widths AreSmallSides }
    ensures first { result.first.sp ≡ get_or (side_widths widths) 0 (pos 0) }
    ensures second { result.second.sp ≡ get_or (side_widths widths) 1 (pos 0) }
    ensures small { AreSmallSides result }
{
    match widths {
        None => SideWidths {
            first: Length { sp: 0 },
            second: Length { sp: 0 },
        },
        Some(widths) => widths,
    }
}

// The widths with those of one equation more.
#[tactic(auto, using(std::proofs::lemmas::Int::ints, std::proofs::lemmas::Int::clamps))]
fn with_sides(widths: Option<SideWidths>, row: &EquationRow) -> SideWidths
    requires { IfSome widths AreSmallSides }
    ensures is { side_widths (Some result)
        ≡ joined (side_widths widths) (row.now.first.extents.width ∷ row.now.second.extents.width ∷ []) }
    ensures small { AreSmallSides result }
{
    let sides = sides_of(row);
    match widths {
        None => sides,
        Some(widths) => SideWidths {
            first: widths.first.at_least(sides.first),
            second: widths.second.at_least(sides.second),
        },
    }
}

fn sides_of(row: &EquationRow) -> SideWidths
    ensures first { result.first.sp ≡ row.now.first.extents.width }
    ensures second { result.second.sp ≡ row.now.second.extents.width }
    ensures small { AreSmallSides result }
{
    SideWidths {
        first: width_of(&row.first),
        second: width_of(&row.second),
    }
}

// Each equation with its number, in a row as wide as the line.
fn numbered_rows(
    alloc: Global,
    rows: EquationRows,
    place: EquationLine,
) -> Result<PackedList, PackError>
    requires few { length rows ≤ 2 ^ 19 }
    requires level { equations_level rows ≤ 2 ^ 20 - 3 }
    requires line { Within max_dimen place.line.sp }
    requires axis { Within (2 ^ 35) place.axis.sp }
    ensures is { IfOk result (λ made. map layout_of made
        ≡ map (equation_row place.line.sp place.axis.sp place.left) (map equation_layout rows)) }
    ensures level { IfOk result (λ made. boxes_level made ≤ equations_level rows + 1) }
    ensures memory { IfErr result (λ e. e ≡ PackMemory) }
{
    let mut made = Vec::with_capacity(alloc, rows.len())?;
    for row in rows.into_vec() {
        let row = numbered(alloc, row, place)?;
        push_to(&mut made, row)?;
    }
    Ok(Items::from_vec(made))
}

// An equation with its number, in a row as wide as the line.
fn numbered(alloc: Global, row: EquationRow, place: EquationLine) -> Result<Packed, PackError>
    requires level { equation_level row ≤ 2 ^ 20 - 3 }
    requires line { Within max_dimen place.line.sp }
    requires axis { Within (2 ^ 35) place.axis.sp }
    ensures is { IfOk result (λ b. layout_of b
        ≡ equation_row place.line.sp place.axis.sp place.left (equation_layout row)) }
    ensures level { IfOk result (λ b. b.level ≡ equation_level row + 1) }
    ensures memory { IfErr result (λ e. e ≡ PackMemory) }
{
    let kerns = kerns_of(&row, place);
    let pieces = numbered_pieces(alloc, row, kerns)?;
    pack_in_range(alloc, pieces)
}

// What is before an equation, between it and its number, and after the number.
#[derive(Clone, Copy)]
struct EquationKerns {
    before: Length,
    between: Length,
    after: Length,
}

#[tactic(auto, using(std::proofs::lemmas::Int::ints))]
fn kerns_of(row: &EquationRow, place: EquationLine) -> EquationKerns
    requires line { Within max_dimen place.line.sp }
    requires axis { Within (2 ^ 35) place.axis.sp }
    ensures before { result.before.sp ≡ place.axis.sp -ℤ row.now.first.extents.width }
    ensures between { result.between.sp ≡ place_of_number place.line.sp place.left row.now.number.extents.width
        -ℤ (place.axis.sp +ℤ row.now.second.extents.width) }
    ensures after { result.after.sp ≡ place.line.sp
        -ℤ (place_of_number place.line.sp place.left row.now.number.extents.width +ℤ row.now.number.extents.width) }
    ensures small { AreSmallKerns result }
    ensures in_range { AreInRange (equation_layout row.now) }
{
    let first = width_of(&row.first);
    let number = width_of(&row.number);
    let x = number_place(number, place);
    let end = place.axis.plus(width_of(&row.second));
    EquationKerns {
        before: place.axis.minus(first),
        between: x.minus(end),
        after: place.line.minus(x.plus(number)),
    }
}

// Where a number of this width is.
#[tactic(auto, using(std::proofs::lemmas::Int::ints))]
fn number_place(number: Length, place: EquationLine) -> Length
    requires number { Within max_dimen number.sp }
    requires line { Within max_dimen place.line.sp }
    ensures is { result.sp ≡ place_of_number place.line.sp place.left number.sp }
    ensures small { Within (2 ^ 31) result.sp }
{
    if place.left {
        Length { sp: 0 }
    } else {
        place.line.minus(number)
    }
}

// The pieces of an equation and its number.
fn numbered_pieces(alloc: Global, row: EquationRow, kerns: EquationKerns) -> Result<Row, AllocError>
    requires level { equation_level row ≤ 2 ^ 20 - 3 }
    requires small { AreSmallKerns kerns }
    ensures is { IfOk result (λ pieces. piece_values pieces ≡ equation_pieces kerns (equation_layout row)) }
    ensures modest { IfOk result AllModest }
    ensures few { IfOk result (λ pieces. length pieces ≤ 2 ^ 21) }
    ensures level { IfOk result (λ pieces. row_level pieces ≡ equation_level row + 1) }
{
    let pieces = vec![in alloc;
        Piece::Kern(kerns.before.sp),
        Piece::Boxed {
            raise: 0,
            body: row.first
        },
        Piece::Boxed {
            raise: 0,
            body: row.second
        },
        Piece::Kern(kerns.between.sp),
        Piece::Boxed {
            raise: 0,
            body: row.number
        },
        Piece::Kern(kerns.after.sp),
    ]?;
    Ok(Row::from_vec(pieces))
}
