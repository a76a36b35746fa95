//! Where places end.
ghost use Rattle.std.specs.Prelude.{◌≡◌, ◌<◌, ◌≤◌, ◌^◌, nat_abs};
ghost use Rattle.mt_dvi.specs.Edges.{lower_edge, right_edge};
ghost use Rattle.mt_dvi.specs.Fonts.{depth_in, metrics_at, width_in};
ghost use Rattle.mt_dviread.specs.Deeds.{IsNear};
ghost use Rattle.mt_dviops.specs.inner.Placed.{HasChar, IsPlaced};

use mt_box::Place;
use mt_family::FontSet;

// The width of a character in scaled points; 0 where the set has no such font.
fn width_in(fonts: &FontSet, font: u16, code: u8) -> i64
    requires { HasChar fonts.now font code }
    ensures is { result ≡ width_in (metrics_at fonts.now font) code }
    ensures small { nat_abs result ≤ 2 ^ 31 }
{
    match fonts.font(font) {
        Some(font) => font.width(code),
        None => 0,
    }
}

// Its depth in scaled points.
fn depth_in(fonts: &FontSet, font: u16, code: u8) -> i64
    requires { HasChar fonts.now font code }
    ensures is { result ≡ depth_in (metrics_at fonts.now font) code }
    ensures small { nat_abs result ≤ 2 ^ 31 }
{
    match fonts.font(font) {
        Some(font) => font.depth(code),
        None => 0,
    }
}

/// Where a place ends to the right, in scaled points.
pub fn right_edge(fonts: &FontSet, place: Place) -> i64
    requires near { IsNear place }
    requires placed { IsPlaced fonts.now place }
    ensures is { result ≡ right_edge fonts.now place }
    ensures small { nat_abs result < 2 ^ 32 }
{
    match place {
        Place::Glyph { font, code, h, .. } => h + width_in(fonts, font, code),
        Place::Rule { h, width, .. } => h + width,
    }
}

/// Where a place ends below, in scaled points.
pub fn lower_edge(fonts: &FontSet, place: Place) -> i64
    requires near { IsNear place }
    requires placed { IsPlaced fonts.now place }
    ensures is { result ≡ lower_edge fonts.now place }
    ensures small { nat_abs result < 2 ^ 32 }
{
    match place {
        Place::Glyph { font, code, v, .. } => v + depth_in(fonts, font, code),
        Place::Rule { v, .. } => v,
    }
}
