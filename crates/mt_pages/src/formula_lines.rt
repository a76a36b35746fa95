//! The lines of a formula.
ghost use Rattle.std.specs.Prelude.{◌≡◌, ◌≤◌, ◌^◌, [], Err, IfSome, List, OnOk, drop, length, ⊤};
ghost use Rattle.mt_arena.specs.Arena.{sequence_in};
ghost use Rattle.mt_box.specs.Layout.{Layout};
ghost use Rattle.mt_box.specs.Rows.{PieceValue};
ghost use Rattle.mt_convert.specs.Calls.{SetFails};
ghost use Rattle.mt_display.specs.LineStack.{IsStack, PutsLines};
ghost use Rattle.mt_display.specs.Lines.{LineValue, LinesAnswer};
ghost use Rattle.mt_display.specs.declared.line_stack.LineStack.{LineStack as LineStackFields};
ghost use Rattle.mt_arena.specs.Formulas.{tag_in};
ghost use Rattle.mt_pieces.specs.Putting.{PacksPieces, boxed_on};
ghost use Rattle.mt_reader.specs.ArenaPages.{KeptFormula, page_formula};
ghost use Rattle.mt_reader.specs.Weights.{HasModestLists, formula_weight};
ghost use Rattle.mt_rules.specs.Setting.{Setting};
ghost use Rattle.mt_pages.specs.FormulaLines.{displayed_lines, formula_lines, formula_row, set_by, text_lines};
ghost use Rattle.mt_pages.specs.LineWidth.{IsLineWidth};
ghost use Rattle.mt_pages.specs.inner.Lines.{IsModestSpan, PutsFor, PutsRow, SetsLines};
ghost use Rattle.mt_status.specs.Origins.{IsPure};

use crate::display_rows::{equations_lines, rows_lines};
use mt_arena::{Arena, Span, SpanBody, SpanFormula, SpanTag};
use mt_box::PackError;
use mt_convert::{SetFault, set_span};
use mt_display::{LineStack, NumberSide};
use mt_family::FontSet;
use mt_pieces::Pieces;
use mt_reader::PageFormula;
use mt_rules::Style;
use mt_status::Status;
use std::alloc::Global;

// Formula n is not set.
fn set_refusal(n: u32, fault: SetFault) -> Status
    ensures { (setting : Setting (List PieceValue)) → SetFails fault setting
        → IsPure (set_by n setting) (Err result) }
{
    match fault {
        SetFault::MissingFamily { fam, size } => Status::MissingFamily { n, fam, size },
        SetFault::MissingChar { fam, size, code } => Status::MissingChar { n, fam, size, code },
        SetFault::SmartLigature {
            fam,
            size,
            first,
            second,
        } => Status::SmartLigature {
            n,
            fam,
            size,
            first,
            second,
        },
        SetFault::Overflow(value) => Status::Overflow {
            n,
            value: i128::from(value),
        },
        SetFault::TooTall(count) => Status::TooTall { n, count },
        SetFault::OutOfMemory => Status::OutOfMemory,
    }
}

// A box of formula n, or one on its lines, is too wide, too high or too deep.
pub(crate) fn pack_refusal(n: u32, error: PackError) -> Status
    ensures boxed { (rest pieces : List PieceValue) (setting : Setting Layout)
        → PacksPieces {U = ⊤} (Err error) pieces (boxed_on rest setting) → IsPure (set_by n setting) (Err result) }
    ensures made { (setting : Setting (List LineValue)) → LinesAnswer (Err error) setting
        → IsPure (set_by n setting) (Err result) }
    ensures put { (lines : List LineValue) (stack : LineStackFields) (setting : Setting (List LineValue))
        → PutsLines {U = ⊤} (Err error) lines stack setting → IsPure (set_by n setting) (Err result) }
{
    match error {
        PackError::Overflow(value) => Status::Overflow {
            n,
            value: i128::from(value),
        },
        PackError::OutOfMemory => Status::OutOfMemory,
    }
}

// What formula n answers where its lines were put so.
fn put_for(n: u32, put: Result<(), PackError>) -> Result<(), Status>
    ensures { (lines : List LineValue) (stack : LineStackFields) (setting : Setting (List LineValue))
        → PutsLines put lines stack setting → PutsFor n result lines stack setting }
{
    match put {
        Ok(()) => Ok(()),
        Err(error) => Err(pack_refusal(n, error)),
    }
}

// Puts the row of a list of formula n behind the pieces that are there: at most 2^21 pieces.
pub(crate) fn put_row(
    pieces: &mut Pieces,
    alloc: Global,
    fonts: &FontSet,
    arena: &Arena,
    n: u32,
    style: Style,
    list: Span,
) -> Result<(), Status>
    requires modest { IsModestSpan arena.now.closed list }
    ensures is { PutsRow fonts.now result pieces.old pieces.new
        (formula_row fonts.now n style (sequence_in arena.now.closed list)) }
    ensures few { OnOk result (length (drop (length pieces.old) pieces.new) ≤ 2 ^ 21) }
{
    match set_span(pieces, alloc, fonts, arena, list, style) {
        Ok(()) => Ok(()),
        Err(fault) => Err(set_refusal(n, fault)),
    }
}

// The line of a list in the text.
fn text_lines(
    stack: &mut LineStack,
    alloc: Global,
    fonts: &FontSet,
    arena: &Arena,
    n: u32,
    list: Span,
) -> Result<(), Status>
    requires modest { IsModestSpan arena.now.closed list }
    ensures { (lines : List LineValue) → IsStack lines [] stack.old
        → SetsLines fonts.now 1 result lines stack.new
        (text_lines fonts.now n (sequence_in arena.now.closed list)) }
{
    let first = stack.pieces.len();
    put_row(&mut stack.pieces, alloc, fonts, arena, n, Style::T, list)?;
    put_for(n, stack.put_inline(first))
}

// The lines of a displayed list and its number.
fn displayed_lines(
    stack: &mut LineStack,
    alloc: Global,
    fonts: &FontSet,
    width: i64,
    arena: &Arena,
    n: u32,
    list: Span,
    tag: Option<SpanTag>,
) -> Result<(), Status>
    requires modest { IsModestSpan arena.now.closed list }
    requires tag { IfSome tag (λ t. IsModestSpan arena.now.closed t.body) }
    requires width { IsLineWidth width }
    ensures { (lines : List LineValue) → IsStack lines [] stack.old
        → SetsLines fonts.now 2 result lines stack.new
        (displayed_lines fonts.now width n (sequence_in arena.now.closed list) (tag_in arena.now.closed tag)) }
{
    let first = stack.pieces.len();
    put_row(&mut stack.pieces, alloc, fonts, arena, n, Style::D, list)?;
    let Some(tag) = tag else {
        return put_for(n, stack.put_display(fonts, first, width));
    };
    let end = stack.pieces.len();
    let side = NumberSide::of(tag.left);
    put_row(
        &mut stack.pieces,
        alloc,
        fonts,
        arena,
        n,
        Style::T,
        tag.body,
    )?;
    put_for(n, stack.put_numbered(fonts, first, end, side, width))
}

/// Puts the lines of a formula after the others: one in the text, and one or two where it is
/// displayed. A displayed formula is in a line that is `width` scaled points wide. Its body is set in text or display
/// style (The TeXbook, Appendix G), and its number in text style. A display of several lines is one
/// line of the page, whatever the number of its rows.
///
/// # Errors
///
/// The first of these, in the order in which the items and their parts are set, those of the body
/// before those of the number, and of several lines row by row: `MissingFamily` where a family has
/// no font at a size, `MissingChar` where its font has no such character, `SmartLigature` where two
/// characters form a ligature that is not set, `Overflow` of an extent out of range, `TooTall` where
/// a delimiter needs more than 2,000 repeats. Then `Overflow` of an extent of a box on the lines.
/// `OutOfMemory` where memory ran out. What lines there are after an error is not said.
#[tactic(auto, unfolding(crate::specs::FormulaLines::formula_lines))]
pub fn formula_lines(
    stack: &mut LineStack,
    alloc: Global,
    fonts: &FontSet,
    width: i64,
    arena: &Arena,
    formula: &PageFormula,
) -> Result<(), Status>
    requires kept { KeptFormula arena.now.closed formula.now }
    requires modest { HasModestLists (page_formula arena.now.closed formula.now) }
    requires width { IsLineWidth width }
    ensures { (lines : List LineValue) → IsStack lines [] stack.old
        → SetsLines fonts.now (formula_weight (page_formula arena.now.closed formula.now)) result lines stack.new
        (formula_lines fonts.now width (page_formula arena.now.closed formula.now)) }
{
    let n = formula.number;
    let SpanFormula { body, tag } = formula.spans;
    match body {
        SpanBody::List(list) => {
            if formula.display {
                displayed_lines(stack, alloc, fonts, width, arena, n, list, tag)
            } else {
                text_lines(stack, alloc, fonts, arena, n, list)
            }
        }
        SpanBody::Equations { left, rows } => equations_lines(
            stack, alloc, fonts, width, arena, n, left, rows,
        ),
        SpanBody::Lines(rows) => rows_lines(stack, alloc, fonts, width, arena, n, rows),
    }
}
