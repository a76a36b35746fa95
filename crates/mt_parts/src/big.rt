//! Delimiters of fixed sizes (plain TeX's \big, \Big, \bigg and \Bigg; The TeXbook, chapter 17 and Appendix B).
ghost use Rattle.std.specs.Prelude.{◌≡◌, ◌≤◌, ◌∷◌, [], IfOk, List, OnOk};
ghost use Rattle.std.specs.Int.{int_max};
ghost use Rattle.mt_scaled.specs.Number.{Within, max_dimen};
ghost use Rattle.mt_box.specs.declared.place.Place.{Place};
ghost use Rattle.mt_box.specs.Extents.{ExtentsInRange};
ghost use Rattle.mt_box.specs.Rows.{PieceBox, pack};
ghost use Rattle.mt_box.specs.marks.Layers.{top};
ghost use Rattle.mt_box.specs.marks.RowParts.{IsNear};
ghost use Rattle.mt_rules.specs.BigDelimiters.{at_least_high, big_delimiter, big_height, without_null_width};
ghost use Rattle.mt_rules.specs.Calls.{PartAnswers};
ghost use Rattle.mt_rules.specs.OnMarks.{SetsOn, layout_with};
ghost use Rattle.mt_rules.specs.Setting.{make_box};
ghost use Rattle.mt_delim.specs.Variants.{variant_value};

use crate::boxed::boxed;
use crate::rows::on_axis;
use mt_box::{Extents, Marks, Packed, RowPart, RowPiece, pack_parts};
use mt_delim::{Variant, choose_variant, delimiter_on_marks};
use mt_family::{FontSet, Size};
use mt_rules::{Delim, PartError, boundary_size, tested_part};
use mt_scaled::Length;
use std::alloc::Global;

/// A delimiter of a fixed size: the one that boundaries of text size round something of a height of 8.5pt have, of
/// 11.5pt, 14.5pt or 17.5pt, by the level. The box is at least so high. Where no character is taken its width is 0.
/// Levels from 3 on count as 3. The level of the box is at most 3.
///
/// Refused as by [`mt_delim::delimiter_box`]; then with `Overflow` of the first extent of the box that is out of range;
/// and with `OutOfMemory`.
pub fn big_box(alloc: Global, fonts: &FontSet, delim: Delim, level: u8) -> Result<Packed, PartError>
    ensures is { PartAnswers result (big_delimiter fonts.now delim level) }
    ensures level { IfOk result (λ b. b.level ≤ 3) }
    ensures in_range { IfOk result (λ b. ExtentsInRange b.extents) }
{
    let mut marks = Marks::new(alloc);
    let set = big_on_marks(&mut marks, fonts, delim, level);
    boxed(marks, set, 1)
}

/// The layout of a delimiter of a fixed size on top, and what it reaches.
///
/// The size and the order of refusals are those of `big_box`.
pub fn big_on_marks(
    marks: &mut Marks,
    fonts: &FontSet,
    delim: Delim,
    level: u8,
) -> Result<Extents, PartError>
    ensures is { SetsOn result (top marks.new) (big_delimiter fonts.now delim level) }
    ensures rest { OnOk result (marks.new ≡ top marks.new ∷ marks.old) }
    ensures in_range { IfOk result ExtentsInRange }
{
    let height = least_height(level);
    let wanted = boundary_size(fonts, Size::Text, height, Length { sp: 0 });
    let variant = choose_variant(fonts, delim, Size::Text, wanted.sp);
    let body = delimiter_on_marks(marks, fonts, delim, Size::Text, wanted)?;
    let piece = on_axis(fonts, Size::Text, without_null_width(variant, body));
    high_row_on_marks(marks, piece, height)
}

// The height of what a delimiter of this level is to be beside.
fn least_height(level: u8) -> Length
    ensures is { result.sp ≡ big_height level }
    ensures small { Within max_dimen result.sp }
{
    match level {
        0 => Length { sp: 557056 },
        1 => Length { sp: 753664 },
        2 => Length { sp: 950272 },
        _ => Length { sp: 1146880 },
    }
}

// The extents of a delimiter, without its width where no character is taken.
fn without_null_width(variant: Variant, body: Extents) -> Extents
    requires { ExtentsInRange body }
    ensures is { (ps : List Place) → layout_with result ps ≡ without_null_width (variant_value variant) (layout_with body ps) }
    ensures in_range { ExtentsInRange result }
{
    match variant {
        Variant::Null => Extents { width: 0, ..body },
        Variant::Char { .. } | Variant::Extensible { .. } => body,
    }
}

// The layout on top becomes a row of its own, at least so high.
fn high_row_on_marks(
    marks: &mut Marks,
    piece: RowPiece,
    height: Length,
) -> Result<Extents, PartError>
    requires { IsNear piece }
    ensures is { (l : List Place) → (rest : List (List Place)) → marks.old ≡ l ∷ rest
        → SetsOn result (top marks.new) (make_box (at_least_high height.sp (pack (PieceBox piece.raise (layout_with piece.extents l) ∷ [])))) }
    ensures rest { (l : List Place) → (rest : List (List Place)) → marks.old ≡ l ∷ rest
        → OnOk result (marks.new ≡ top marks.new ∷ rest) }
    ensures in_range { IfOk result ExtentsInRange }
{
    let row = [RowPart::Layout(piece)];
    let extents = pack_parts(marks, &row)?;
    tested_part(with_height(extents, height))
}

#[tactic(auto, using(std::proofs::lemmas::Int::ints, std::proofs::lemmas::Int::clamps))]
fn with_height(extents: Extents, height: Length) -> Extents
    ensures width { result.width ≡ extents.width }
    ensures height { result.height ≡ int_max height.sp extents.height }
    ensures depth { result.depth ≡ extents.depth }
{
    let reached = Length { sp: extents.height };
    Extents {
        height: reached.at_least(height).sp,
        ..extents
    }
}
