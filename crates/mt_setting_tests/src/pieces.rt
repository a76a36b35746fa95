//! What the tests of several layers are made of.
ghost use Rattle.std.specs.Prelude.{◌≡◌, pos};
ghost use Rattle.mt_scaled.specs.Number.{Within, max_dimen};
ghost use Rattle.mt_box.specs.declared.piece.Piece.TheVariants.{Glyph as GlyphPiece, Space};

use mt_box::{Extents, Piece, Place};
use mt_rules::{Delim, Symbol};
use mt_scaled::in_range;

/// A letter of the toy fonts at 10pt.
pub const LETTER: Extents = Extents {
    width: 327680,
    height: 327680,
    depth: 0,
};

/// A letter of the toy fonts at 7pt.
pub const SMALL: Extents = Extents {
    width: 229376,
    height: 229376,
    depth: 0,
};

/// No delimiter.
pub const NO_DELIMITER: Delim = Delim {
    small: Symbol { fam: 0, code: 0 },
    large: Symbol { fam: 0, code: 0 },
};

/// The place of a character.
pub fn glyph(font: u16, code: u8, h: i64, v: i64) -> Place {
    Place::Glyph { font, code, h, v }
}

/// The place of a rule.
pub fn rule(h: i64, v: i64, height: i64, width: i64) -> Place {
    Place::Rule {
        h,
        v,
        height,
        width,
    }
}

/// A letter of font 3.
pub fn letter(code: u8) -> Piece
    ensures { result ≡ GlyphPiece 3 code record { width = pos 327680; height = pos 327680; depth = pos 0 } }
{
    Piece::Glyph {
        font: 3,
        code,
        extents: LETTER,
    }
}

/// The space around a binary operator.
pub fn space() -> Piece
    ensures { result ≡ Space (pos 145632) (pos 145632) }
{
    Piece::Space {
        width: 145632,
        shrink: 145632,
    }
}

/// A length, or 0 where it is out of range.
pub fn in_range_or_zero(sp: i64) -> i64
    ensures { Within max_dimen result }
{
    if in_range(sp) { sp } else { 0 }
}
