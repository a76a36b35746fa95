//! Tables: the strut of a matrix, the cells that have a column, and the boxes of tables (plain TeX's
//! `\matrix` and `\eqalign`; The TeXbook, chapters 18 and 19 and Appendix B).
ghost use Rattle.std.specs.Prelude.{◌≡◌, ◌≤◌, ◌^◌, ◌++◌, ◌∷◌, [], All, IfOk, IsTrue, List, OnOk};
ghost use Rattle.std.specs.Prelude.{length, map};
ghost use Rattle.mt_tfm.specs.Font.{exists};
ghost use Rattle.mt_box.specs.Extents.{ExtentsInRange};
ghost use Rattle.mt_rules.specs.AtomRow;
ghost use Rattle.mt_rules.specs.Tables;
ghost use Rattle.mt_rules.specs.Tables.{Cells};
ghost use Rattle.mt_box.specs.Rows.{PieceValue};
ghost use Rattle.mt_pieces.specs.Celled.{cell_pieces};
ghost use Rattle.mt_convert.specs.inner.Answers.{SetsExtents};
ghost use Rattle.mt_convert.specs.inner.OnPieces.{SetsBoxOn};
ghost use Rattle.mt_convert.specs.inner.Tables.{has_column, tested_glyph};

use crate::SetFault;
use crate::set::answers::row_packed;
use crate::set::clean::find_symbol;
use mt_box::{Extents, first_out};
use mt_family::{FontSet, Size};
use mt_pieces::Pieces;
use mt_rules::{Look, Symbol, extents_without_italic};
use mt_tfm::Font;
use std::alloc::{AllocError, Global};

// The extents of the strut of a matrix, in scaled points: those of the left parenthesis of family 0 at
// text size, found and tested.
pub(crate) fn table_strut(fonts: &FontSet) -> Result<Extents, SetFault>
    ensures is { SetsExtents result (AtomRow.table_strut fonts.now) }
    ensures in_range { IfOk result ExtentsInRange }
{
    let parenthesis = Symbol { fam: 0, code: 40 };
    let number = find_symbol(fonts, Size::Text, parenthesis)?;
    let Some(font) = fonts.font(number) else {
        unreachable!();
    };
    tested_glyph(font, parenthesis.code)
}

// The extents of a character of a font, tested.
fn tested_glyph(font: &Font, code: u8) -> Result<Extents, SetFault>
    requires { IsTrue (exists font.now code) }
    ensures is { SetsExtents result (tested_glyph font.now code) }
    ensures in_range { IfOk result ExtentsInRange }
{
    let extents = extents_without_italic(font, code);
    if let Some(value) = first_out(extents) {
        return Err(SetFault::Overflow(value));
    }
    Ok(extents)
}

// Whether the cells of a row have a column of this number, counted from 0: equations have two.
pub(crate) fn has_column(look: Look, number: usize) -> bool
    ensures { result ≡ has_column look number }
{
    match look {
        Look::Matrix => true,
        Look::Equations => number < 2,
    }
}

// The count of one more row.
pub(crate) fn push_count(counts: &mut Vec<usize>, count: usize) -> Result<(), AllocError>
    ensures { OnOk result (counts.new.items ≡ counts.old.items ++ count ∷ []) }
{
    counts.push(count)?;
    Ok(())
}

// The box of a matrix, whose cells are the pieces from number `first` on.
#[inline(never)]
pub(crate) fn matrix(
    pieces: &mut Pieces,
    alloc: Global,
    fonts: &FontSet,
    size: Size,
    strut: Extents,
    first: usize,
    rows: &[usize],
) -> Result<(), SetFault>
    requires strut { ExtentsInRange strut }
    requires few { length rows.now ≤ 2 ^ 18 }
    requires columns { All (λ n. n ≤ 2 ^ 18) rows.now }
    ensures { (rest : List PieceValue) (cells : List Cells) → length rest ≡ first → rows.now ≡ map length cells
        → pieces.old ≡ rest ++ cell_pieces cells
        → SetsBoxOn result rest pieces.new (Tables.matrix_table fonts.now size strut cells) }
{
    row_packed(pieces.matrix(alloc, fonts, size, strut, first, rows))
}

// The box of equations, whose sides are the pieces from number `first` on.
#[inline(never)]
pub(crate) fn equations(
    pieces: &mut Pieces,
    alloc: Global,
    fonts: &FontSet,
    size: Size,
    first: usize,
    rows: &[usize],
) -> Result<(), SetFault>
    requires few { length rows.now ≤ 2 ^ 18 }
    requires columns { All (λ n. n ≤ 2) rows.now }
    ensures { (rest : List PieceValue) (cells : List Cells) → length rest ≡ first → rows.now ≡ map length cells
        → pieces.old ≡ rest ++ cell_pieces cells
        → SetsBoxOn result rest pieces.new (Tables.equations_table fonts.now size cells) }
{
    row_packed(pieces.equations(alloc, fonts, size, first, rows))
}
