//! The nucleus of an atom: a symbol's glyph, or a box (The TeXbook, Appendix G, rules 13 and 17;
//! tex.web, sections 749, 752 and 755).
ghost use Rattle.std.specs.Prelude.{◌≡◌, ◌^◌, ◌-ℤ◌, ◌++◌, ◌∷◌, [], IsTrue, List, Ok};
ghost use Rattle.std.specs.Prelude.{if◌then◌else◌, pos};
ghost use Rattle.mt_scaled.specs.Number.{Within};
ghost use Rattle.mt_tfm.specs.Font.{exists};
ghost use Rattle.mt_box.specs.Extents.{ExtentsInRange};
ghost use Rattle.mt_box.specs.Layout.{Layout};
ghost use Rattle.mt_box.specs.Rows.{PieceBox, PieceGlyph, PieceValue};
ghost use Rattle.mt_rules.specs.Nuclei;
ghost use Rattle.mt_rules.specs.Nuclei.{BigContent, SymbolContent};
ghost use Rattle.mt_rules.specs.Operators;
ghost use Rattle.mt_rules.specs.Setting.{Setting, make_box};
ghost use Rattle.mt_rules.specs.Styles.{size_of};
ghost use Rattle.mt_rules.specs.declared.style.Style.{Style};
ghost use Rattle.mt_convert.specs.inner.AtomSteps.{as_nucleus, operator_box};
ghost use Rattle.mt_convert.specs.inner.Forms.{as_operator};
ghost use Rattle.mt_convert.specs.inner.OnPieces.{SetsBoxOn, SetsNucleusOn, SetsOperatorOn};
ghost use Rattle.mt_convert.specs.inner.Turns.{role_value};

use crate::SetFault;
use crate::flat::passed::JoiningRole;
use crate::set::answers::part_set;
use crate::set::clean::{clean_symbol, cleaned, find_symbol, italic_length};
use mt_box::{Extents, first_out};
use mt_family::FontSet;
use mt_pieces::Pieces;
use mt_rules::{Delim, Style, Symbol, extents_without_italic};
use mt_scaled::Length;
use mt_tfm::Font;

// A nucleus leaves its row behind the pieces that are there, and its answer is the italic correction
// that the row does not have yet.

// The italic correction of what has none.
const NO_ITALIC: Length = Length { sp: 0 };

// What is set as a box, as a nucleus.
pub(crate) fn part_nucleus(part: Result<(), SetFault>) -> Result<Length, SetFault>
    ensures { (old new : List PieceValue) (setting : Setting Layout) → SetsBoxOn part old new setting
        → SetsNucleusOn result old new (as_nucleus setting) }
{
    part?;
    Ok(NO_ITALIC)
}

// What is set as a box, as an operator.
pub(crate) fn part_operator(part: Result<(), SetFault>) -> Result<Length, SetFault>
    ensures { (old new : List PieceValue) (setting : Setting Layout) → SetsBoxOn part old new setting
        → SetsOperatorOn result old new (as_operator setting) }
{
    part?;
    Ok(NO_ITALIC)
}

// ---- a symbol

// The nucleus of a symbol: found, then refused or not, then its glyph.
pub(crate) fn symbol_nucleus(
    pieces: &mut Pieces,
    fonts: &FontSet,
    style: Style,
    symbol: Symbol,
    role: JoiningRole,
    has_subscript: bool,
) -> Result<Length, SetFault>
    ensures is { SetsNucleusOn result pieces.old pieces.new
        (Nuclei.symbol_nucleus fonts.now (size_of style) symbol (role_value role) has_subscript) }
{
    let number = find_symbol(fonts, style.size(), symbol)?;
    let Some(font) = fonts.font(number) else {
        unreachable!();
    };
    if let JoiningRole::Smart { first, second } = role {
        return Err(SetFault::SmartLigature {
            fam: symbol.fam,
            size: style.size(),
            first,
            second,
        });
    }
    glyph_nucleus(pieces, number, font, symbol.code, role, has_subscript)
}

// A character of a font, tested.
fn glyph_nucleus(
    pieces: &mut Pieces,
    number: u16,
    font: &Font,
    code: u8,
    role: JoiningRole,
    has_subscript: bool,
) -> Result<Length, SetFault>
    requires { IsTrue (exists font.now code) }
    ensures is { SetsNucleusOn result pieces.old pieces.new
        (Nuclei.glyph_nucleus number font.now code (role_value role) has_subscript) }
{
    let extents = extents_without_italic(font, code);
    if let Some(value) = first_out(extents) {
        return Err(SetFault::Overflow(value));
    }
    let italic = italic_of(font, code, role);
    pieces.put_glyph(number, code, extents)?;
    put_italic(pieces, italic, has_subscript)
}

// The italic correction of a character: none in a text of a font with spaces.
fn italic_of(font: &Font, code: u8, role: JoiningRole) -> Length
    requires { IsTrue (exists font.now code) }
    ensures is { result.sp ≡ Nuclei.role_italic (role_value role) font.now code }
    ensures small { Within (2 ^ 31) result.sp }
{
    match role {
        JoiningRole::Text if font.param(2) != 0 => NO_ITALIC,
        _ => italic_length(font, code),
    }
}

// The correction is a kern after the glyph where there is no subscript, and else is left to the scripts.
fn put_italic(pieces: &mut Pieces, italic: Length, has_subscript: bool) -> Result<Length, SetFault>
    requires { Within (2 ^ 31) italic.sp }
    ensures { (old : List PieceValue) (glyph : PieceValue) → pieces.old ≡ old ++ glyph ∷ []
        → SetsNucleusOn result old pieces.new (Ok (Nuclei.nucleus_with_italic glyph italic.sp has_subscript)) }
{
    if has_subscript || italic.sp == 0 {
        return Ok(italic);
    }
    pieces.put_kern(italic)?;
    Ok(NO_ITALIC)
}

// ---- a large operator

// The nucleus of an operator that is a symbol: its clean box on the axis, and its italic
// correction, which the box does not have where a subscript is beside it.
#[tactic(auto, unfolding(mt_rules::specs::Operators::operator_nucleus))]
#[inline(never)]
pub(crate) fn operator_nucleus(
    pieces: &mut Pieces,
    fonts: &FontSet,
    style: Style,
    symbol: Symbol,
    beside_subscript: bool,
) -> Result<Length, SetFault>
    ensures is { SetsNucleusOn result pieces.old pieces.new
        (Operators.operator_nucleus fonts.now style symbol beside_subscript) }
{
    let number = find_symbol(fonts, style.size(), symbol)?;
    let Some(font) = fonts.font(number) else {
        unreachable!();
    };
    let code = operator_code(font, style, symbol.code);
    let italic = italic_length(font, code);
    let symbol = Symbol {
        fam: symbol.fam,
        code,
    };
    clean_symbol(pieces, fonts, style, symbol)?;
    box_beside(pieces, italic, beside_subscript)?;
    pieces.raise_onto_axis(fonts, style.size());
    Ok(italic)
}

// In display style one step to the next larger character, if that exists.
fn operator_code(font: &Font, style: Style, code: u8) -> u8
    requires { IsTrue (exists font.now code) }
    ensures is { result ≡ Operators.operator_code font.now style code }
    ensures there { IsTrue (exists font.now result) }
{
    if !style.is_display() {
        return code;
    }
    match font.larger(code) {
        Some(larger) if font.exists(larger) => larger,
        _ => code,
    }
}

// Beside a subscript the last box does not have the italic correction.
fn box_beside(pieces: &mut Pieces, italic: Length, has_subscript: bool) -> Result<(), SetFault>
    requires { Within (2 ^ 31) italic.sp }
    ensures { (old : List PieceValue) (l : Layout) → pieces.old ≡ old ++ PieceBox (pos 0) l ∷ []
        → SetsBoxOn result old pieces.new (make_box (if has_subscript then Operators.box_without_italic l italic.sp else l)) }
{
    let extents = pieces.last_extents();
    if has_subscript {
        without_italic(pieces, extents, italic)
    } else {
        Ok(())
    }
}

fn without_italic(pieces: &mut Pieces, extents: Extents, italic: Length) -> Result<(), SetFault>
    requires extents { ExtentsInRange extents }
    requires italic { Within (2 ^ 31) italic.sp }
    ensures { (old : List PieceValue) (l : Layout) → pieces.old ≡ old ++ PieceBox (pos 0) l ∷ [] → extents ≡ l.extents
        → SetsBoxOn result old pieces.new (make_box (Operators.box_without_italic l italic.sp)) }
{
    let narrow = narrowed(extents, italic);
    if let Some(value) = first_out(narrow) {
        return Err(SetFault::Overflow(value));
    }
    pieces.set_last_extents(narrow);
    Ok(())
}

#[tactic(auto, using(std::proofs::lemmas::Int::ints))]
fn narrowed(extents: Extents, by: Length) -> Extents
    requires extents { ExtentsInRange extents }
    requires by { Within (2 ^ 31) by.sp }
    ensures width { result.width ≡ extents.width -ℤ by.sp }
    ensures height { result.height ≡ extents.height }
    ensures depth { result.depth ≡ extents.depth }
{
    let width = Length { sp: extents.width }.minus(by);
    Extents {
        width: width.sp,
        ..extents
    }
}

// An operator under limits that is a symbol: its clean box, and the italic correction that the box does not have.
pub(crate) fn symbol_operator(
    pieces: &mut Pieces,
    fonts: &FontSet,
    style: Style,
    symbol: Symbol,
) -> Result<Length, SetFault>
    ensures is { SetsOperatorOn result pieces.old pieces.new (operator_box fonts.now style (SymbolContent symbol)) }
{
    let first = pieces.len();
    let delta = operator_nucleus(pieces, fonts, style, symbol, false)?;
    cleaned(pieces, first)?;
    Ok(delta)
}

// ---- a big delimiter

// The nucleus of a delimiter of a fixed size.
#[inline(never)]
pub(crate) fn big_nucleus(
    pieces: &mut Pieces,
    fonts: &FontSet,
    delim: Delim,
    level: u8,
) -> Result<Length, SetFault>
    ensures is { SetsNucleusOn result pieces.old pieces.new (Nuclei.big_nucleus fonts.now delim level) }
{
    part_nucleus(part_set(pieces.put_big(fonts, delim, level)))
}

// An operator under limits that is a delimiter of a fixed size.
pub(crate) fn big_operator(
    pieces: &mut Pieces,
    fonts: &FontSet,
    delim: Delim,
    level: u8,
) -> Result<Length, SetFault>
    ensures is { (style : Style) → SetsOperatorOn result pieces.old pieces.new
        (operator_box fonts.now style (BigContent delim level)) }
{
    let first = pieces.len();
    let delta = big_nucleus(pieces, fonts, delim, level)?;
    cleaned(pieces, first)?;
    Ok(delta)
}
