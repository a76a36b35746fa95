//! Math units (The TeXbook, chapter 18).
ghost use Rattle.std.specs.Prelude.{◌≡◌, ◌^◌};
ghost use Rattle.mt_scaled.specs.Number.{Within};
ghost use Rattle.mt_rules.specs.Modest.{IsAmount};
ghost use Rattle.mt_rules.specs.MathUnits.{in_points, math_unit as unit_of};

use crate::Style;
use mt_family::FontSet;
use mt_scaled::{Length, mu_mult, mu_of_quad};

/// The size of a math unit (mu) in a style, in scaled points: an 18th of the quad at its size, toward zero (The
/// TeXbook, chapter 18; tex.web §703).
pub fn math_unit(fonts: &FontSet, style: Style) -> Length
    ensures is { result.sp ≡ unit_of fonts.now style }
    ensures small { Within (2 ^ 31) result.sp }
{
    Length {
        sp: mu_of_quad(fonts.sy(6, style.size())),
    }
}

/// A length in 65536ths of a math unit, below 2^30 in size, in scaled points (tex.web §716).
pub fn in_points(fonts: &FontSet, style: Style, amount: Length) -> Length
    requires { IsAmount amount.sp }
    ensures { result.sp ≡ in_points fonts.now style amount.sp }
{
    Length {
        sp: mu_mult(amount.sp, math_unit(fonts, style).sp),
    }
}
