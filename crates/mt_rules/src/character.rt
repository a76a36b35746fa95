//! How far the characters of a font reach.
ghost use Rattle.std.specs.Prelude.{◌≡◌, ◌^◌, ◌+ℤ◌, IsTrue};
ghost use Rattle.mt_scaled.specs.Number.{Within};
ghost use Rattle.mt_tfm.specs.Font.{exists, width_of, italic_of};
ghost use Rattle.mt_rules.specs.Symbols.{extents_without_italic};

use mt_box::Extents;
use mt_scaled::Length;
use mt_tfm::Font;

/// How far the glyph of a character reaches, in scaled points. The character exists.
pub fn extents_without_italic(font: &Font, code: u8) -> Extents
    requires { IsTrue (exists font.now code) }
    ensures { result ≡ extents_without_italic font.now code }
{
    Extents {
        width: font.width(code),
        height: font.height(code),
        depth: font.depth(code),
    }
}

/// The width of a character with its italic correction (tex.web, section 709). The character
/// exists.
#[tactic(auto, using(std::proofs::lemmas::Int::ints))]
pub fn width_with_italic(font: &Font, code: u8) -> Length
    requires { IsTrue (exists font.now code) }
    ensures is { result.sp ≡ width_of font.now code +ℤ italic_of font.now code }
    ensures small { Within (2 ^ 32) result.sp }
{
    Length {
        sp: font.width(code) + font.italic(code),
    }
}
