//! The test of a whole row.
ghost use Rattle.std.specs.Prelude.{◌≡◌, ◌≤◌, ◌≤ℤ◌, ◌^◌, ◌++◌, ◌∷◌, [], ℤ, List, OnOk, drop, length, pos};
ghost use Rattle.mt_scaled.specs.Number.{max_dimen};
ghost use Rattle.mt_box.specs.Extents.{ExtentsInRange};
ghost use Rattle.mt_box.specs.Layout.{Layout};
ghost use Rattle.mt_box.specs.Rows.{PieceBox, PieceValue, row_depth, row_height};
ghost use Rattle.mt_rules.specs.Setting.{make_row};
ghost use Rattle.mt_convert.specs.inner.OnPieces.{SetsAtomOn, TestsRow};

use crate::SetFault;
use mt_box::first_out;
use mt_pieces::Pieces;

// The pieces from number `first` on as a row, tested as it packs.
pub(crate) fn tested(pieces: &Pieces, first: usize) -> Result<(), SetFault>
    requires few { length (drop first pieces.now) ≤ 2 ^ 21 }
    ensures is { TestsRow result (drop first pieces.now) }
    ensures height { OnOk result (row_height (drop first pieces.now) ≤ℤ pos max_dimen) }
    ensures depth { OnOk result (row_depth (drop first pieces.now) ≤ℤ pos max_dimen) }
{
    match first_out(pieces.reach(first)) {
        Some(value) => Err(SetFault::Overflow(value)),
        None => Ok(()),
    }
}

// The same of the row of an atom.
pub(crate) fn test_row(pieces: &Pieces, first: usize) -> Result<(), SetFault>
    requires few { length (drop first pieces.now) ≤ 4 }
    ensures is { (before row : List PieceValue) → length before ≡ first → pieces.now ≡ before ++ row
        → SetsAtomOn result before pieces.now (make_row row) }
{
    tested(pieces, first)
}

// Does nothing. Its contract says that the last box is in range.
pub(crate) fn look_at_last(pieces: &Pieces)
    ensures { (before : List PieceValue) (raise : ℤ) (l : Layout) → pieces.now ≡ before ++ PieceBox raise l ∷ []
        → ExtentsInRange l.extents }
{
    pieces.last_extents();
}
