//! The size that boundaries want (The TeXbook, Appendix G, rule 19; tex.web §762).
ghost use Rattle.std.specs.Prelude.{◌≡◌, ◌^◌, ◌*ℤ◌, ◌-ℤ◌, int_div, pos};
ghost use Rattle.std.specs.Int.{int_max};
ghost use Rattle.mt_scaled.specs.Number.{Within};
ghost use Rattle.mt_rules.specs.Delimiters.{boundary_size};

use crate::parameters::axis_height;
use mt_family::{FontSet, Size};
use mt_scaled::{Length, x_over_n};

/// The size, in scaled points, that boundaries want round atoms that reach so far above the baseline and below it: at
/// least 90.1% of twice what reaches farther from the axis, and at most 5pt less than all of it (plain TeX's
/// `\delimiterfactor` and `\delimitershortfall`; The TeXbook, Appendix G, rule 19; tex.web §762).
pub fn boundary_size(fonts: &FontSet, size: Size, height: Length, depth: Length) -> Length
    requires height { Within (2 ^ 30) height.sp }
    requires depth { Within (2 ^ 30) depth.sp }
    ensures is { result.sp ≡ boundary_size fonts.now size height.sp depth.sp }
    ensures small { Within (2 ^ 40) result.sp }
{
    let axis = axis_height(fonts, size);
    size_for(depth.plus(axis).at_least(height.minus(axis)))
}

// The wanted size for what reaches so far from the axis.
#[tactic(auto, using(std::proofs::lemmas::Int::ints, std::proofs::lemmas::Int::clamps))]
fn size_for(reach: Length) -> Length
    requires { Within (2 ^ 33) reach.sp }
    ensures is { result.sp ≡ int_max (int_div reach.sp (pos 500) *ℤ pos 901) ((pos 2 *ℤ reach.sp) -ℤ pos 327680) }
    ensures small { Within (2 ^ 40) result.sp }
{
    reach
        .twice()
        .minus(Length { sp: 327680 })
        .at_least(share_of(reach))
}

fn share_of(reach: Length) -> Length
    requires { Within (2 ^ 33) reach.sp }
    ensures is { result.sp ≡ int_div reach.sp (pos 500) *ℤ pos 901 }
    ensures small { Within (2 ^ 35) result.sp }
{
    Length {
        sp: x_over_n(reach.sp, 500) * 901,
    }
}
