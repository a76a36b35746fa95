//! Symbols found, and the boxes of rows (tex.web, sections 720 and 722).
ghost use Rattle.std.specs.Prelude.{◌≡◌, ◌≤◌, ◌^◌, ◌++◌, ◌∷◌, [], All, IfOk, IsTrue, List, Ok, OnOk, drop, length};
ghost use Rattle.mt_scaled.specs.Number.{Within};
ghost use Rattle.mt_tfm.specs.Font.{IsSoundFont, exists, italic_of};
ghost use Rattle.mt_box.specs.Extents.{ExtentsInRange};
ghost use Rattle.mt_box.specs.Rows.{PieceGlyph, PieceKern, PieceValue};
ghost use Rattle.mt_rules.specs.Nuclei;
ghost use Rattle.mt_rules.specs.Setting.{empty_layout, pack_row};
ghost use Rattle.mt_rules.specs.Symbols.{find_symbol, font_of_number};
ghost use Rattle.mt_convert.specs.inner.Answers.{SetsNumber};
ghost use Rattle.mt_convert.specs.inner.Glyphs.{clean_glyph};
ghost use Rattle.mt_convert.specs.inner.OnPieces.{SetsBoxOn, SetsExtentsOf};

use crate::SetFault;
use crate::set::answers::row_packed;
use mt_box::{Extents, first_out};
use mt_family::{FontSet, Size};
use mt_pieces::Pieces;
use mt_rules::{Style, Symbol, extents_without_italic};
use mt_scaled::Length;
use mt_tfm::Font;

// Does nothing. Its contract says what every font of a set keeps.
pub(crate) fn look_at_fonts(fonts: &FontSet)
    ensures { All IsSoundFont fonts.now.fonts }
{
    fonts.font_count();
}

// The number of the font in which a symbol is found.
pub(crate) fn find_symbol(fonts: &FontSet, size: Size, symbol: Symbol) -> Result<u16, SetFault>
    ensures is { SetsNumber result (find_symbol fonts.now size symbol) }
    ensures there { IfOk result (λ n. IsTrue (exists (font_of_number fonts.now n) symbol.code)) }
{
    let Symbol { fam, code } = symbol;
    let Some(number) = fonts.number_of(fam, size) else {
        return Err(SetFault::MissingFamily { fam, size });
    };
    match fonts.font(number) {
        Some(font) if font.exists(code) => Ok(number),
        _ => Err(SetFault::MissingChar { fam, size, code }),
    }
}

// The pieces from number `first` on, packed.
pub(crate) fn packed(pieces: &mut Pieces, first: usize) -> Result<(), SetFault>
    requires few { length (drop first pieces.old) ≤ 2 ^ 21 }
    ensures is { (before row : List PieceValue) → length before ≡ first → pieces.old ≡ before ++ row
        → SetsBoxOn result before pieces.new (pack_row row) }
{
    row_packed(pieces.pack(first))
}

// The pieces from number `first` on as a clean box: where they are a box alone, that box.
#[inline(never)]
pub(crate) fn cleaned(pieces: &mut Pieces, first: usize) -> Result<(), SetFault>
    requires few { length (drop first pieces.old) ≤ 2 ^ 21 }
    ensures is { (before row : List PieceValue) → length before ≡ first → pieces.old ≡ before ++ row
        → SetsBoxOn result before pieces.new (Nuclei.make_clean row) }
{
    row_packed(pieces.clean(first))
}

// The clean box of a list of one ordinary symbol.
pub(crate) fn clean_symbol(
    pieces: &mut Pieces,
    fonts: &FontSet,
    style: Style,
    symbol: Symbol,
) -> Result<(), SetFault>
    ensures is { SetsBoxOn result pieces.old pieces.new (Nuclei.clean_symbol fonts.now style symbol) }
{
    let number = find_symbol(fonts, style.size(), symbol)?;
    let Some(font) = fonts.font(number) else {
        unreachable!();
    };
    clean_glyph(pieces, number, font, symbol.code)
}

// The clean box of a character of a font: the glyph is tested, then its box, whose width has the
// italic correction.
fn clean_glyph(pieces: &mut Pieces, number: u16, font: &Font, code: u8) -> Result<(), SetFault>
    requires { IsTrue (exists font.now code) }
    ensures is { SetsBoxOn result pieces.old pieces.new (clean_glyph number font.now code) }
{
    let extents = extents_without_italic(font, code);
    if let Some(value) = first_out(extents) {
        return Err(SetFault::Overflow(value));
    }
    let italic = italic_length(font, code);
    packed_glyph(pieces, number, code, extents, italic)
}

// The italic correction of a character.
pub(crate) fn italic_length(font: &Font, code: u8) -> Length
    requires { IsTrue (exists font.now code) }
    ensures is { result.sp ≡ italic_of font.now code }
    ensures small { Within (2 ^ 31) result.sp }
{
    Length {
        sp: font.italic(code),
    }
}

// A glyph with a kern after it, packed.
fn packed_glyph(
    pieces: &mut Pieces,
    number: u16,
    code: u8,
    extents: Extents,
    kern: Length,
) -> Result<(), SetFault>
    requires extents { ExtentsInRange extents }
    requires kern { Within (2 ^ 31) kern.sp }
    ensures is { SetsBoxOn result pieces.old pieces.new (pack_row (PieceGlyph number code extents ∷ PieceKern kern.sp ∷ [])) }
{
    row_packed(pieces.put_glyph_box(number, code, extents, kern))
}

// What the clean box of a symbol reaches. The box is made behind the pieces, and taken off.
pub(crate) fn symbol_extents(
    pieces: &mut Pieces,
    fonts: &FontSet,
    style: Style,
    symbol: Symbol,
) -> Result<Extents, SetFault>
    ensures is { SetsExtentsOf result (Nuclei.clean_symbol fonts.now style symbol) }
    ensures in_range { IfOk result ExtentsInRange }
    ensures others { OnOk result (pieces.new ≡ pieces.old) }
{
    let first = pieces.len();
    clean_symbol(pieces, fonts, style, symbol)?;
    let extents = pieces.last_extents();
    pieces.remove(first, 1);
    Ok(extents)
}

// The clean box of what holds nothing.
pub(crate) fn empty_box(pieces: &mut Pieces) -> Result<(), SetFault>
    ensures is { SetsBoxOn result pieces.old pieces.new (Ok empty_layout) }
{
    pieces.put_empty()?;
    Ok(())
}
