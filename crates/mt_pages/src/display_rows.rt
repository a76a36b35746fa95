//! The lines of a display of several lines (plain TeX's `\eqalignno`, `\leqalignno` and
//! `\displaylines`).
ghost use Rattle.std.specs.Prelude.{◌≡◌, ◌≤◌, ◌^◌, ◌++◌, ◌∷◌, [], List, length, IfOk, OnOk};
ghost use Rattle.mt_arena.specs.Arena.{grid_in, rows_in, sequence_in};
ghost use Rattle.mt_box.specs.Layout.{Layout};
ghost use Rattle.mt_display.specs.LineStack.{IsStack};
ghost use Rattle.mt_display.specs.Lines.{LineValue, line_values};
ghost use Rattle.mt_rules.specs.DisplayRows.{EquationLayout};
ghost use Rattle.mt_formula.specs.Counts.{AreModestEquations, AreModestRows};
ghost use Rattle.mt_rules.specs.Equations.{equations_of};
ghost use Rattle.mt_arena.specs.Formulas.{equation_in};
ghost use Rattle.mt_rules.specs.Sequence.{rows_length};
ghost use Rattle.mt_pages.specs.FormulaLines.{equation_boxes, equations_lines, equations_set, formula_box};
ghost use Rattle.mt_pages.specs.FormulaLines.{rows_lines, rows_set};
ghost use Rattle.mt_pages.specs.LineWidth.{IsLineWidth};
ghost use Rattle.mt_pages.specs.inner.Lines.{AreBoxes, AreEquations, BoxFits, BoxesFit, EquationFits, EquationsFit};
ghost use Rattle.mt_pages.specs.inner.Lines.{IsBox, IsEquation, IsModestSpan, SetsLines};

use crate::formula_lines::{pack_refusal, put_row};
use mt_arena::{Arena, EquationSpans, Span, equation_spans, next_cells, next_row};
use mt_box::Packed;
use mt_display::{EquationRow, EquationRows, LineStack, Lines, place_equations, place_rows};
use mt_family::FontSet;
use mt_pieces::Pieces;
use mt_rules::{PackedList, Style};
use mt_scaled::Items;
use mt_status::Status;
use std::alloc::{AllocError, Global};

// A list of formula n as a box. The pieces stay as they are.
fn formula_box(
    pieces: &mut Pieces,
    alloc: Global,
    fonts: &FontSet,
    arena: &Arena,
    n: u32,
    style: Style,
    list: Span,
) -> Result<Packed, Status>
    requires modest { IsModestSpan arena.now.closed list }
    ensures is { IsBox (formula_box fonts.now n style (sequence_in arena.now.closed list)) result }
    ensures fits { IfOk result (BoxFits fonts.now) }
    ensures stay { OnOk result (pieces.new ≡ pieces.old) }
{
    let first = pieces.len();
    put_row(pieces, alloc, fonts, arena, n, style, list)?;
    match pieces.pack(first) {
        Ok(()) => Ok(pieces.take_box(alloc)?),
        Err(error) => Err(pack_refusal(n, error)),
    }
}

// The boxes of an equation of formula n, and that of its number.
fn set_equation(
    pieces: &mut Pieces,
    alloc: Global,
    fonts: &FontSet,
    arena: &Arena,
    n: u32,
    equation: EquationSpans,
) -> Result<EquationRow, Status>
    requires first { IsModestSpan arena.now.closed equation.first }
    requires second { IsModestSpan arena.now.closed equation.second }
    requires number { IsModestSpan arena.now.closed equation.number }
    ensures is { IsEquation (equation_boxes fonts.now n (equation_in arena.now.closed equation)) result }
    ensures fits { IfOk result (EquationFits fonts.now) }
    ensures stay { OnOk result (pieces.new ≡ pieces.old) }
{
    let first = formula_box(pieces, alloc, fonts, arena, n, Style::T, equation.first)?;
    let second = formula_box(pieces, alloc, fonts, arena, n, Style::T, equation.second)?;
    let number = formula_box(pieces, alloc, fonts, arena, n, Style::T, equation.number)?;
    Ok(EquationRow {
        first,
        second,
        number,
    })
}

// The boxes of the equations of formula n, row by row.
fn set_equations(
    pieces: &mut Pieces,
    alloc: Global,
    fonts: &FontSet,
    arena: &Arena,
    n: u32,
    rows: Span,
) -> Result<EquationRows, Status>
    requires within { rows.end ≤ length arena.now.closed }
    requires modest { AreModestEquations (equations_of (grid_in arena.now.closed rows)) }
    requires few { length (equations_of (grid_in arena.now.closed rows)) ≤ 2 ^ 18 }
    ensures is { AreEquations (equations_set fonts.now n (equations_of (grid_in arena.now.closed rows))) result }
    ensures fit { IfOk result (EquationsFit fonts.now) }
    ensures stay { OnOk result (pieces.new ≡ pieces.old) }
{
    let mut boxes = Vec::new(alloc);
    let mut left = rows;
    while let Some(cells) = next_cells(arena, &mut left) {
        let equation = equation_spans(arena, cells);
        let row = set_equation(pieces, alloc, fonts, arena, n, equation)?;
        boxes.push(row)?;
    }
    Ok(Items::from_vec(boxes))
}

// The boxes of the rows of formula n, one after another.
fn set_rows(
    pieces: &mut Pieces,
    alloc: Global,
    fonts: &FontSet,
    arena: &Arena,
    n: u32,
    rows: Span,
) -> Result<PackedList, Status>
    requires within { rows.end ≤ length arena.now.closed }
    requires modest { AreModestRows (rows_in arena.now.closed rows) }
    requires few { rows_length (rows_in arena.now.closed rows) ≤ 2 ^ 18 }
    ensures is { AreBoxes (rows_set fonts.now n (rows_in arena.now.closed rows)) result }
    ensures fit { IfOk result (BoxesFit fonts.now) }
    ensures stay { OnOk result (pieces.new ≡ pieces.old) }
{
    let mut boxes = Vec::new(alloc);
    let mut left = rows;
    while let Some(list) = next_row(arena, &mut left) {
        let row = formula_box(pieces, alloc, fonts, arena, n, Style::D, list)?;
        boxes.push(row)?;
    }
    Ok(Items::from_vec(boxes))
}

// Puts the one line of a display of several lines after the others.
fn put_only(stack: &mut LineStack, lines: &Lines) -> Result<(), AllocError>
    requires one { length lines.now ≡ 1 }
    ensures { (before : List LineValue) → IsStack before [] stack.old
        → OnOk result (IsStack (before ++ line_values lines.now) [] stack.new) }
{
    stack.put_line(&lines.as_slice()[0])
}

/// Puts the line of the equations of formula n after the others, with their numbers at the left end
/// of a line of this width in scaled points, or at the right.
///
/// # Errors
///
/// The first refusal of a cell, row by row: of the left side, the right side and the number; of each
/// that of its list, then `Overflow` of its box. Then `Overflow` of the line. `OutOfMemory` where
/// memory ran out.
pub fn equations_lines(
    stack: &mut LineStack,
    alloc: Global,
    fonts: &FontSet,
    width: i64,
    arena: &Arena,
    n: u32,
    left: bool,
    rows: Span,
) -> Result<(), Status>
    requires within { rows.end ≤ length arena.now.closed }
    requires modest { AreModestEquations (equations_of (grid_in arena.now.closed rows)) }
    requires few { length (equations_of (grid_in arena.now.closed rows)) ≤ 2 ^ 18 }
    requires width { IsLineWidth width }
    ensures { (lines : List LineValue) → IsStack lines [] stack.old
        → SetsLines fonts.now 1 result lines stack.new
        (equations_lines fonts.now width n left (equations_of (grid_in arena.now.closed rows))) }
{
    let boxes = set_equations(&mut stack.pieces, alloc, fonts, arena, n, rows)?;
    match place_equations(alloc, boxes, left, width) {
        Ok(lines) => Ok(put_only(stack, &lines)?),
        Err(error) => Err(pack_refusal(n, error)),
    }
}

/// Puts the line of the rows of formula n after the others, each row in the middle of a line of this
/// width in scaled points.
///
/// # Errors
///
/// The first refusal of a row: that of its list, then `Overflow` of its box. Then `Overflow` of the
/// line. `OutOfMemory` where memory ran out.
pub fn rows_lines(
    stack: &mut LineStack,
    alloc: Global,
    fonts: &FontSet,
    width: i64,
    arena: &Arena,
    n: u32,
    rows: Span,
) -> Result<(), Status>
    requires within { rows.end ≤ length arena.now.closed }
    requires modest { AreModestRows (rows_in arena.now.closed rows) }
    requires few { rows_length (rows_in arena.now.closed rows) ≤ 2 ^ 18 }
    requires width { IsLineWidth width }
    ensures { (lines : List LineValue) → IsStack lines [] stack.old
        → SetsLines fonts.now 1 result lines stack.new
        (rows_lines fonts.now width n (rows_in arena.now.closed rows)) }
{
    let boxes = set_rows(&mut stack.pieces, alloc, fonts, arena, n, rows)?;
    match place_rows(alloc, boxes, width) {
        Ok(lines) => Ok(put_only(stack, &lines)?),
        Err(error) => Err(pack_refusal(n, error)),
    }
}
