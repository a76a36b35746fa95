//! The parameters of the math fonts by their names (The TeXbook, Appendix G; tex.web §700, §701),
//! in scaled points. The sigmas are those of the symbols, family 2, and the xis those of the
//! extensible characters, family 3.
ghost use Rattle.std.specs.Prelude.{◌≡◌, ◌^◌};
ghost use Rattle.mt_scaled.specs.Number.{Within};
ghost use Rattle.mt_rules.specs.Parameters;

use mt_family::{FontSet, Size};
use mt_scaled::Length;

/// Sigma 5: the height of the small letters.
pub fn x_height(fonts: &FontSet, size: Size) -> Length
    ensures is { result.sp ≡ Parameters.x_height fonts.now size }
    ensures small { Within (2 ^ 31) result.sp }
{
    Length {
        sp: fonts.sy(5, size),
    }
}

/// Sigma 8: how far a numerator is raised in display style.
pub fn num1(fonts: &FontSet, size: Size) -> Length
    ensures is { result.sp ≡ Parameters.num1 fonts.now size }
    ensures small { Within (2 ^ 31) result.sp }
{
    Length {
        sp: fonts.sy(8, size),
    }
}

/// Sigma 9: how far a numerator over a rule is raised outside display style.
pub fn num2(fonts: &FontSet, size: Size) -> Length
    ensures is { result.sp ≡ Parameters.num2 fonts.now size }
    ensures small { Within (2 ^ 31) result.sp }
{
    Length {
        sp: fonts.sy(9, size),
    }
}

/// Sigma 10: how far a numerator over no rule is raised outside display style.
pub fn num3(fonts: &FontSet, size: Size) -> Length
    ensures is { result.sp ≡ Parameters.num3 fonts.now size }
    ensures small { Within (2 ^ 31) result.sp }
{
    Length {
        sp: fonts.sy(10, size),
    }
}

/// Sigma 11: how far a denominator is lowered in display style.
pub fn denom1(fonts: &FontSet, size: Size) -> Length
    ensures is { result.sp ≡ Parameters.denom1 fonts.now size }
    ensures small { Within (2 ^ 31) result.sp }
{
    Length {
        sp: fonts.sy(11, size),
    }
}

/// Sigma 12: how far a denominator is lowered outside display style.
pub fn denom2(fonts: &FontSet, size: Size) -> Length
    ensures is { result.sp ≡ Parameters.denom2 fonts.now size }
    ensures small { Within (2 ^ 31) result.sp }
{
    Length {
        sp: fonts.sy(12, size),
    }
}

/// Sigma 13: how far a superscript is raised at least in display style.
pub fn sup1(fonts: &FontSet, size: Size) -> Length
    ensures is { result.sp ≡ Parameters.sup1 fonts.now size }
    ensures small { Within (2 ^ 31) result.sp }
{
    Length {
        sp: fonts.sy(13, size),
    }
}

/// Sigma 14: how far a superscript is raised at least outside display style.
pub fn sup2(fonts: &FontSet, size: Size) -> Length
    ensures is { result.sp ≡ Parameters.sup2 fonts.now size }
    ensures small { Within (2 ^ 31) result.sp }
{
    Length {
        sp: fonts.sy(14, size),
    }
}

/// Sigma 15: how far a superscript is raised at least in cramped styles.
pub fn sup3(fonts: &FontSet, size: Size) -> Length
    ensures is { result.sp ≡ Parameters.sup3 fonts.now size }
    ensures small { Within (2 ^ 31) result.sp }
{
    Length {
        sp: fonts.sy(15, size),
    }
}

/// Sigma 16: how far a subscript alone is lowered at least.
pub fn sub1(fonts: &FontSet, size: Size) -> Length
    ensures is { result.sp ≡ Parameters.sub1 fonts.now size }
    ensures small { Within (2 ^ 31) result.sp }
{
    Length {
        sp: fonts.sy(16, size),
    }
}

/// Sigma 17: how far a subscript under a superscript is lowered at least.
pub fn sub2(fonts: &FontSet, size: Size) -> Length
    ensures is { result.sp ≡ Parameters.sub2 fonts.now size }
    ensures small { Within (2 ^ 31) result.sp }
{
    Length {
        sp: fonts.sy(17, size),
    }
}

/// Sigma 18: how far below a box's top a superscript is.
pub fn sup_drop(fonts: &FontSet, size: Size) -> Length
    ensures is { result.sp ≡ Parameters.sup_drop fonts.now size }
    ensures small { Within (2 ^ 31) result.sp }
{
    Length {
        sp: fonts.sy(18, size),
    }
}

/// Sigma 19: how far below a box's bottom a subscript is.
pub fn sub_drop(fonts: &FontSet, size: Size) -> Length
    ensures is { result.sp ≡ Parameters.sub_drop fonts.now size }
    ensures small { Within (2 ^ 31) result.sp }
{
    Length {
        sp: fonts.sy(19, size),
    }
}

/// Sigma 20: the size of a fraction's delimiters in display style.
pub fn delim1(fonts: &FontSet, size: Size) -> Length
    ensures is { result.sp ≡ Parameters.delim1 fonts.now size }
    ensures small { Within (2 ^ 31) result.sp }
{
    Length {
        sp: fonts.sy(20, size),
    }
}

/// Sigma 21: the size of a fraction's delimiters outside display style.
pub fn delim2(fonts: &FontSet, size: Size) -> Length
    ensures is { result.sp ≡ Parameters.delim2 fonts.now size }
    ensures small { Within (2 ^ 31) result.sp }
{
    Length {
        sp: fonts.sy(21, size),
    }
}

/// Sigma 22: how high the axis is, on which fractions and delimiters are centred.
pub fn axis_height(fonts: &FontSet, size: Size) -> Length
    ensures is { result.sp ≡ Parameters.axis_height fonts.now size }
    ensures small { Within (2 ^ 31) result.sp }
{
    Length {
        sp: fonts.sy(22, size),
    }
}

/// Xi 8: the thickness of a rule.
pub fn default_rule_thickness(fonts: &FontSet, size: Size) -> Length
    ensures is { result.sp ≡ Parameters.default_rule_thickness fonts.now size }
    ensures small { Within (2 ^ 31) result.sp }
{
    Length {
        sp: fonts.ex(8, size),
    }
}

/// Xi 9: the least gap above a large operator.
pub fn big_op_spacing1(fonts: &FontSet, size: Size) -> Length
    ensures is { result.sp ≡ Parameters.big_op_spacing1 fonts.now size }
    ensures small { Within (2 ^ 31) result.sp }
{
    Length {
        sp: fonts.ex(9, size),
    }
}

/// Xi 10: the least gap below a large operator.
pub fn big_op_spacing2(fonts: &FontSet, size: Size) -> Length
    ensures is { result.sp ≡ Parameters.big_op_spacing2 fonts.now size }
    ensures small { Within (2 ^ 31) result.sp }
{
    Length {
        sp: fonts.ex(10, size),
    }
}

/// Xi 11: how far above a large operator the baseline of its upper limit is at least.
pub fn big_op_spacing3(fonts: &FontSet, size: Size) -> Length
    ensures is { result.sp ≡ Parameters.big_op_spacing3 fonts.now size }
    ensures small { Within (2 ^ 31) result.sp }
{
    Length {
        sp: fonts.ex(11, size),
    }
}

/// Xi 12: how far below a large operator the baseline of its lower limit is at least.
pub fn big_op_spacing4(fonts: &FontSet, size: Size) -> Length
    ensures is { result.sp ≡ Parameters.big_op_spacing4 fonts.now size }
    ensures small { Within (2 ^ 31) result.sp }
{
    Length {
        sp: fonts.ex(12, size),
    }
}

/// Xi 13: the space outside the limits of a large operator.
pub fn big_op_spacing5(fonts: &FontSet, size: Size) -> Length
    ensures is { result.sp ≡ Parameters.big_op_spacing5 fonts.now size }
    ensures small { Within (2 ^ 31) result.sp }
{
    Length {
        sp: fonts.ex(13, size),
    }
}

/// |x| div 4.
#[tactic(auto, using(std::proofs::lemmas::Int::ints))]
pub fn quarter(x: Length) -> Length
    requires { Within (2 ^ 31) x.sp }
    ensures is { result.sp ≡ Parameters.quarter x.sp }
    ensures small { Within (2 ^ 31) result.sp }
{
    Length {
        sp: (x.sp.unsigned_abs() / 4) as i64,
    }
}

/// |4x| div 5.
#[tactic(auto, using(std::proofs::lemmas::Int::ints))]
pub fn four_fifths(x: Length) -> Length
    requires { Within (2 ^ 31) x.sp }
    ensures is { result.sp ≡ Parameters.four_fifths x.sp }
    ensures small { Within (2 ^ 31) result.sp }
{
    Length {
        sp: (4 * x.sp.unsigned_abs() / 5) as i64,
    }
}
