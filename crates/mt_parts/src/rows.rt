//! Rows on marks.
ghost use Rattle.std.specs.Prelude.{◌≡◌, ◌≤◌, ◌^◌, ◌∷◌, length, pos, IfOk, List, OnOk};
ghost use Rattle.mt_scaled.specs.Number.{Within};
ghost use Rattle.mt_box.specs.declared.place.Place.{Place};
ghost use Rattle.mt_box.specs.Extents.{ExtentsInRange};
ghost use Rattle.mt_box.specs.Rows.{PieceBox};
ghost use Rattle.mt_box.specs.marks.Layers.{top};
ghost use Rattle.mt_box.specs.marks.RowParts.{AllNearParts, IsNear, on_stack};
ghost use Rattle.mt_rules.specs.Delimiters.{piece_on_axis};
ghost use Rattle.mt_rules.specs.OnMarks.{SetsOn, layout_with};
ghost use Rattle.mt_rules.specs.Setting.{pack_row};
ghost use Rattle.mt_parts.specs.PiecesOnMarks.{HasLayouts, pieces_of};

use mt_box::{Extents, Marks, Move, RowPart, RowPiece, pack_parts};
use mt_delim::raise_of;
use mt_family::{FontSet, Size};
use mt_rules::{PartError, tested_part};
use mt_scaled::Length;

// The layouts on top become the row of these parts, which is tested.
pub(crate) fn row_on_marks(marks: &mut Marks, parts: &[RowPart]) -> Result<Extents, PartError>
    requires few { length parts.now ≤ 2 ^ 21 }
    requires near { AllNearParts parts.now }
    ensures is { (ls rest : List (List Place)) → HasLayouts parts.now ls → marks.old ≡ on_stack ls rest
        → SetsOn result (top marks.new) (pack_row (pieces_of parts.now ls)) }
    ensures rest { (ls rest : List (List Place)) → HasLayouts parts.now ls → marks.old ≡ on_stack ls rest
        → OnOk result (marks.new ≡ top marks.new ∷ rest) }
    ensures in_range { IfOk result ExtentsInRange }
{
    let extents = pack_parts(marks, parts)?;
    tested_part(extents)
}

// A layout in a row, raised by so much.
pub(crate) fn raised(extents: Extents, raise: Length) -> RowPiece
    requires extents { ExtentsInRange extents }
    requires raise { Within (2 ^ 48) raise.sp }
    ensures is { (ps : List Place) → PieceBox result.raise (layout_with result.extents ps)
        ≡ PieceBox raise.sp (layout_with extents ps) }
    ensures near { IsNear result }
{
    RowPiece {
        extents,
        raise: raise.sp,
    }
}

// A layout in a row, on the baseline.
pub(crate) fn on_baseline(extents: Extents) -> RowPiece
    requires { ExtentsInRange extents }
    ensures is { (ps : List Place) → PieceBox result.raise (layout_with result.extents ps)
        ≡ PieceBox (pos 0) (layout_with extents ps) }
    ensures near { IsNear result }
{
    RowPiece { extents, raise: 0 }
}

// A layout whose middle is to be on the axis, in a row.
pub(crate) fn on_axis(fonts: &FontSet, size: Size, extents: Extents) -> RowPiece
    requires { ExtentsInRange extents }
    ensures is { (ps : List Place) → PieceBox result.raise (layout_with result.extents ps)
        ≡ piece_on_axis fonts.now size (layout_with extents ps) }
    ensures near { IsNear result }
{
    raised(extents, raise_of(fonts, size, extents))
}

pub(crate) fn up_by(length: Length) -> Move
    ensures right { result.right ≡ pos 0 }
    ensures up { result.up ≡ length.sp }
{
    Move {
        right: 0,
        up: length.sp,
    }
}
