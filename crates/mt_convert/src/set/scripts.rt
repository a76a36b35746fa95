//! The last steps of an atom: its scripts, and the test of its row (The TeXbook, Appendix G, rules
//! 13a and 18).
ghost use Rattle.std.specs.Prelude.{◌≡◌, ◌≤◌, ◌^◌, ◌++◌, ◌∷◌, ℤ, List, None, Option, drop, length, pos};
ghost use Rattle.mt_family.specs.SetValue.{SetValue};
ghost use Rattle.mt_rules.specs.declared.style.Style.{Style};
ghost use Rattle.mt_scaled.specs.Number.{Within};
ghost use Rattle.mt_box.specs.Layout.{Layout};
ghost use Rattle.mt_box.specs.Rows.{PieceBox, PieceValue};
ghost use Rattle.mt_pieces.specs.Attaching.{AreThere, script_boxes};
ghost use Rattle.mt_convert.specs.inner.AtomSteps.{row_beside, row_between, symbol_row};
ghost use Rattle.mt_convert.specs.inner.OnPieces.{SetsAtomOn};
ghost use Rattle.mt_convert.specs.inner.Turns.{role_value};

use crate::SetFault;
use crate::flat::passed::JoiningRole;
use crate::set::answers::row_packed;
use crate::set::nucleus::symbol_nucleus;
use crate::set::row::{look_at_last, test_row};
use mt_family::{FontSet, Size};
use mt_pieces::{Pieces, Scripts};
use mt_rules::{Style, Symbol};
use mt_scaled::Length;

// The row of a nucleus, which are the pieces from number `first` on, with its scripts, whose boxes come after it.
#[inline(never)]
pub(crate) fn with_scripts(
    pieces: &mut Pieces,
    fonts: &FontSet,
    style: Style,
    first: usize,
    delta: Length,
    scripts: Scripts,
) -> Result<(), SetFault>
    requires few { length (drop first pieces.old) ≤ 4 }
    requires delta { Within (2 ^ 31) delta.sp }
    ensures is { (before row : List PieceValue) (above below : Option Layout) → AreThere scripts above below
        → length before ≡ first → length row ≤ 2 → pieces.old ≡ before ++ (row ++ script_boxes above below)
        → SetsAtomOn result before pieces.new
        (row_beside fonts.now style (record { row = row; delta = delta.sp }) above below) }
{
    row_packed(pieces.scripts(fonts, style, first, delta, scripts))
}

// The row of a nucleus that has no scripts: the pieces from number `first` on.
pub(crate) fn without_scripts(pieces: &Pieces, first: usize) -> Result<(), SetFault>
    requires few { length (drop first pieces.now) ≤ 4 }
    ensures is { (before row : List PieceValue) → length before ≡ first → pieces.now ≡ before ++ row
        → (fonts : SetValue) (style : Style) (delta : ℤ) → SetsAtomOn result before pieces.now
        (row_beside fonts style (record { row = row; delta = delta }) None None) }
{
    test_row(pieces, first)
}

// The row of a symbol that is no operator and has no scripts.
pub(crate) fn symbol_row(
    pieces: &mut Pieces,
    fonts: &FontSet,
    style: Style,
    role: JoiningRole,
    symbol: Symbol,
) -> Result<(), SetFault>
    ensures is { SetsAtomOn result pieces.old pieces.new (symbol_row fonts.now style (role_value role) symbol) }
{
    let first = pieces.len();
    symbol_nucleus(pieces, fonts, style, symbol, role, false)?;
    test_row(pieces, first)
}

// The row of an operator with its scripts above and below it. Its box and those of the scripts are the last pieces.
#[inline(never)]
pub(crate) fn with_limits(
    pieces: &mut Pieces,
    fonts: &FontSet,
    size: Size,
    delta: Length,
    scripts: Scripts,
) -> Result<(), SetFault>
    requires delta { Within (2 ^ 31) delta.sp }
    ensures is { (rest : List PieceValue) (n : Layout) (above below : Option Layout) → AreThere scripts above below
        → pieces.old ≡ rest ++ PieceBox (pos 0) n ∷ script_boxes above below
        → SetsAtomOn result rest pieces.new (row_between fonts.now size n delta.sp above below) }
{
    row_packed(pieces.limits(fonts, size, delta, scripts))?;
    look_at_last(pieces);
    Ok(())
}
