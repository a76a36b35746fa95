//! The last pieces, told and changed.
ghost use Rattle.std.specs.Prelude.{◌≡◌, ◌≤◌, ◌^◌, ◌-◌, [], ◌∷◌, ◌++◌, drop, length, pos, reverse, List, ℤ};
ghost use Rattle.mt_scaled.specs.Number.{Within};
ghost use Rattle.mt_box.specs.Extents.{ExtentsInRange};
ghost use Rattle.mt_box.specs.Layout.{Layout};
ghost use Rattle.mt_box.specs.Rows.{PieceValue, PieceBox, begins_with_space_piece};
ghost use Rattle.mt_rules.specs.OnMarks.{layout_with};
ghost use Rattle.mt_rules.specs.Scripts.{begins_with_glyph};
ghost use Rattle.mt_pieces.specs.inner.LastParts.{is_glyph_first, is_space_first, last_box, last_two};

use crate::packing::parts_from;
use crate::pieces::{NO_EXTENTS, Pieces};
use mt_box::{Extents, RowPart, RowPiece};
use mt_scaled::Length;

impl Pieces {
    /// What the last piece reaches, where it is a box.
    pub fn last_extents(&self) -> Extents
        ensures is { (rest : List PieceValue) (raise : ℤ) (l : Layout) → self.now ≡ rest ++ PieceBox raise l ∷ [] → result ≡ l.extents }
        ensures in_range { ExtentsInRange result }
    {
        match last_box(&self.parts) {
            Some(piece) => piece.extents,
            None => NO_EXTENTS,
        }
    }

    /// Whether there is a piece number `first` and it is a character.
    pub fn begins_with_glyph(&self, first: usize) -> bool
        ensures { result ≡ begins_with_glyph (drop first self.now) }
    {
        is_glyph_first(parts_from(&self.parts, first))
    }

    /// Whether there is a piece number `first` and it is a space.
    pub fn begins_with_space(&self, first: usize) -> bool
        ensures { result ≡ begins_with_space_piece (drop first self.now) }
    {
        is_space_first(parts_from(&self.parts, first))
    }

    /// The last piece, where it is a box, raised above the baseline by so many scaled points, at most 2^40 in size.
    pub fn raise_last(&mut self, by: Length)
        requires { Within (2 ^ 40) by.sp }
        ensures { (rest : List PieceValue) (raise : ℤ) (l : Layout) → self.old ≡ rest ++ PieceBox raise l ∷ []
            → self.new ≡ rest ++ PieceBox by.sp l ∷ [] }
    {
        if let Some(piece) = last_box(&self.parts) {
            set_last(&mut self.parts, raised(piece, by));
        }
    }

    /// The last piece, where it is a box, with these extents, which are in range.
    pub fn set_last_extents(&mut self, extents: Extents)
        requires { ExtentsInRange extents }
        ensures { (rest : List PieceValue) (raise : ℤ) (l : Layout) → self.old ≡ rest ++ PieceBox raise l ∷ []
            → self.new ≡ rest ++ PieceBox raise (layout_with extents l.places) ∷ [] }
    {
        if let Some(piece) = last_box(&self.parts) {
            set_last(&mut self.parts, extended(piece, extents));
        }
    }
}

fn is_glyph_first(parts: &[RowPart]) -> bool
    ensures { result ≡ is_glyph_first parts.now }
{
    matches!(parts, [RowPart::Glyph { .. }, ..])
}

fn is_space_first(parts: &[RowPart]) -> bool
    ensures { result ≡ is_space_first parts.now }
{
    matches!(parts, [RowPart::Space { .. }, ..])
}

// The last part, if it is a box.
pub(crate) fn last_box(parts: &[RowPart]) -> Option<RowPiece>
    ensures { result ≡ last_box (reverse parts.now) }
{
    match parts {
        [.., RowPart::Layout(piece)] => Some(*piece),
        _ => None,
    }
}

pub(crate) fn raised(piece: RowPiece, by: Length) -> RowPiece
    ensures { result ≡ record { extents = piece.extents; raise = by.sp } }
{
    RowPiece {
        raise: by.sp,
        ..piece
    }
}

fn extended(piece: RowPiece, extents: Extents) -> RowPiece
    ensures { result ≡ record { extents = extents; raise = piece.raise } }
{
    RowPiece { extents, ..piece }
}

// The last two parts.
#[derive(Clone, Copy)]
pub(crate) struct TwoBoxes {
    pub(crate) first: RowPiece,
    pub(crate) second: RowPiece,
}

// The last two parts, if both are boxes.
pub(crate) fn last_two(parts: &[RowPart]) -> Option<TwoBoxes>
    ensures { result ≡ last_two (reverse parts.now) }
{
    match parts {
        [.., RowPart::Layout(first), RowPart::Layout(second)] => Some(TwoBoxes {
            first: *first,
            second: *second,
        }),
        _ => None,
    }
}

// A box in place of the last part.
fn set_last(parts: &mut Vec<RowPart>, piece: RowPiece)
    requires { 1 ≤ length parts.old.items }
    ensures { reverse parts.new.items ≡ RowPart.Layout piece ∷ drop 1 (reverse parts.old.items) }
{
    let last = parts.len() - 1;
    parts[last] = RowPart::Layout(piece);
}
