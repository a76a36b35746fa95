//! Boxes among the pieces, measured and put on a page.
ghost use Rattle.std.specs.Prelude.{◌≡◌, ◌≤◌, ◌^◌, ◌∷◌, ◌++◌, length, List, ℤ, OnErr, OnOk};
ghost use Rattle.mt_scaled.specs.Number.{Within};
ghost use Rattle.mt_box.specs.Extents.{ExtentsInRange};
ghost use Rattle.mt_box.specs.Layout.{Layout};
ghost use Rattle.mt_box.specs.Placing.{all_lowered, Puts};
ghost use Rattle.mt_box.specs.Rows.{PieceValue, PieceBox};
ghost use Rattle.mt_box.specs.declared.marks.row.RowPiece.{RowPiece};
ghost use Rattle.mt_pieces.specs.Runs.{IsAt};
ghost use Rattle.mt_pieces.specs.inner.Cells.{BoxesInRange};

use crate::packing::parts_from;
use crate::pieces::{NO_EXTENTS, Pieces};
use crate::runs::PieceAt;
use mt_box::{Extents, Place, PlaceError, RowPart};

impl Pieces {
    /// What the piece at this place reaches, where it is a box.
    pub fn extents_at(&self, at: PieceAt) -> Extents
        ensures is { (before rest : List PieceValue) (raise : ℤ) (l : Layout) → self.now ≡ before ++ (PieceBox raise l ∷ rest)
            → length before ≡ at.piece → result ≡ l.extents }
        ensures in_range { ExtentsInRange result }
    {
        first_extents(parts_from(&self.parts, at.piece))
    }

    /// Puts the places of the piece at this place after others, where it is a box, as by `mt_box::put_places`: the
    /// reference point of the box is at (h, v) of a page, whatever its raise.
    ///
    /// Refused as by `mt_box::put_places`, and the list is as before then.
    pub fn put_places(
        &self,
        at: PieceAt,
        places: &mut Vec<Place>,
        h: i64,
        v: i64,
        room: u64,
    ) -> Result<(), PlaceError>
        requires at { IsAt at self.now }
        requires h { Within (2 ^ 60) h }
        requires v { Within (2 ^ 60) v }
        requires room { length places.old.items ≤ room }
        ensures is { (before rest : List PieceValue) (raise : ℤ) (l : Layout) → self.now ≡ before ++ (PieceBox raise l ∷ rest)
            → length before ≡ at.piece → Puts room places.old.items (all_lowered h v l.places) result places.new.items }
        ensures fits { OnOk result (length places.new.items ≤ room) }
        ensures err { OnErr result (places.new.items ≡ places.old.items) }
    {
        self.marks.put_layer(at.layer, places, h, v, room)
    }
}

// What the first part reaches, where it is a box.
fn first_extents(parts: &[RowPart]) -> Extents
    requires { BoxesInRange parts.now }
    ensures is { (p : RowPiece) (ps : List RowPart) → parts.now ≡ RowPart.Layout p ∷ ps → result ≡ p.extents }
    ensures in_range { ExtentsInRange result }
{
    match parts {
        [RowPart::Layout(piece), ..] => piece.extents,
        _ => NO_EXTENTS,
    }
}
