//! The row of a display, set on a stack of pieces.
ghost use Rattle.std.specs.Prelude.{◌≡◌, ◌≤◌, ◌≤ℤ◌, ◌^◌, ◌+◌, ◌++◌, ◌∷◌, [], drop, take, length, ℕ, ℤ, List, IfOk, IfSome};
ghost use Rattle.mt_scaled.specs.Number.{Within};
ghost use Rattle.mt_scaled.specs.declared.length.Length.{Length};
ghost use Rattle.mt_box.specs.Layout.{Layout};
ghost use Rattle.mt_box.specs.Rows.{PieceBox, PieceValue, row_shrink, row_width};
ghost use Rattle.mt_pieces.specs.Putting.{boxed_on, PacksPieces};
ghost use Rattle.mt_rules.specs.Setting.{make_box};
ghost use Rattle.mt_display.specs.Displays.{fitted as fitted_row};
ghost use Rattle.mt_display.specs.inner.Fits.{AreWidths, target_value};
ghost use Rattle.mt_display.specs.inner.OnStack.{IsSmallSize, SetsDisplay, fit_of_row};

use crate::fit::{NumberWidths, Widths, fit_with};
use crate::slot::Slot;
use mt_box::PackError;
use mt_pieces::Pieces;
use mt_scaled::Length;

// The pieces from number `first` on are the row of a display in a line of width z: the box of it, as
// it is set, comes in their place.
pub(crate) fn set_display(
    pieces: &mut Pieces,
    first: usize,
    number: NumberWidths,
    z: Length,
) -> Result<Slot, PackError>
    requires few { length (drop first pieces.old) ≤ 2 ^ 21 }
    requires e { Within (2 ^ 61) number.e.sp }
    requires q { Within (2 ^ 61 + 2 ^ 31) number.q.sp }
    requires z { Within (2 ^ 30) z.sp }
    ensures is { SetsDisplay (take first pieces.old) (drop first pieces.old)
        (fit_of_row z.sp (drop first pieces.old) number.e.sp number.q.sp) z.sp result pieces.new }
    ensures small { IfOk result IsSmallSize }
    ensures e { (n : ℕ) → Within n number.e.sp → IfOk result (λ slot. Within n slot.e.sp) }
{
    let fit = fit_with(widths_of_row(pieces, first, number, z));
    let flush = pieces.begins_with_space(first);
    pack_fitted(pieces, first, fit.target)?;
    Ok(Slot {
        z,
        w: last_width(pieces),
        e: fit.e,
        flush,
    })
}

fn widths_of_row(pieces: &Pieces, first: usize, number: NumberWidths, z: Length) -> Widths
    requires few { length (drop first pieces.now) ≤ 2 ^ 21 }
    requires e { Within (2 ^ 61) number.e.sp }
    requires q { Within (2 ^ 61 + 2 ^ 31) number.q.sp }
    requires z { Within (2 ^ 30) z.sp }
    ensures small { AreWidths result }
    ensures z { result.z.sp ≡ z.sp }
    ensures w { result.w.sp ≡ row_width (drop first pieces.now) }
    ensures s { result.s.sp ≡ row_shrink (drop first pieces.now) }
    ensures e { result.e.sp ≡ number.e.sp }
    ensures q { result.q.sp ≡ number.q.sp }
{
    Widths {
        z,
        w: Length {
            sp: pieces.reach(first).width,
        },
        s: pieces.shrink(first),
        e: number.e,
        q: number.q,
    }
}

// The pieces from number `first` on packed, and set to a width where there is one.
fn pack_fitted(pieces: &mut Pieces, first: usize, target: Option<Length>) -> Result<(), PackError>
    requires few { length (drop first pieces.old) ≤ 2 ^ 21 }
    requires narrow { IfSome target (λ (t : Length). t.sp ≤ℤ row_width (drop first pieces.old)) }
    requires small { IfSome target (λ (t : Length). Within (2 ^ 62) t.sp) }
    ensures { PacksPieces result pieces.new (boxed_on (take first pieces.old)
        (make_box (fitted_row (drop first pieces.old) (target_value target)))) }
{
    match target {
        None => pieces.pack(first),
        Some(width) => pieces.pack_to(first, width),
    }
}

// How wide the last piece is, where it is a box.
pub(crate) fn last_width(pieces: &Pieces) -> Length
    ensures is { (rest : List PieceValue) (raise : ℤ) (l : Layout) → pieces.now ≡ rest ++ PieceBox raise l ∷ []
        → result.sp ≡ l.extents.width }
    ensures small { Within (2 ^ 30) result.sp }
{
    Length {
        sp: pieces.last_extents().width,
    }
}
