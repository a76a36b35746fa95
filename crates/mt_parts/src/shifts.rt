//! How far the numerator and the denominator of a fraction are shifted (The TeXbook, Appendix G, rule 15; tex.web §744
//! to §746).
ghost use Rattle.std.specs.Prelude.{◌≡◌, ◌^◌, ◌+ℤ◌, ◌-ℤ◌, ◌*ℤ◌, pos, if◌then◌else◌};
ghost use Rattle.std.specs.Int.{int_max};
ghost use Rattle.std.specs.Ordering.{int_eq};
ghost use Rattle.mt_scaled.specs.Number.{Within, half_of};
ghost use Rattle.mt_rules.specs.Styles.{size_of, is_display};
ghost use Rattle.mt_rules.specs.Parameters;
ghost use Rattle.mt_box.specs.marks.Recentred.{recentred_extents};
ghost use Rattle.mt_rules.specs.Fractions;

use mt_box::Extents;
use mt_family::FontSet;
use mt_rules::parameters::{axis_height, default_rule_thickness, denom1, denom2, num1, num2, num3};
use mt_rules::{Shifts, Style};
use mt_scaled::Length;

/// How far the numerator of a fraction is shifted up and its denominator down, in scaled points.
///
/// `thickness` is that of the rule between them, and 0 where there is none. `num` and `den` are what numerator and
/// denominator reach before they are made equally wide. The thickness, the numerator's depth and the denominator's
/// height are at most 2^40 in size.
#[tactic(auto, using(std::proofs::lemmas::Int::ints))]
pub fn fraction_shifts(
    fonts: &FontSet,
    style: Style,
    thickness: i64,
    num: Extents,
    den: Extents,
) -> Shifts
    requires thickness { Within (2 ^ 40) thickness }
    requires num { Within (2 ^ 40) num.depth }
    requires den { Within (2 ^ 40) den.height }
    ensures up { result.up ≡ (Fractions.fraction_shifts fonts.now style thickness num den).up }
    ensures down { result.down ≡ (Fractions.fraction_shifts fonts.now style thickness num den).down }
    ensures up_small { Within (2 ^ 48) result.up }
    ensures down_small { Within (2 ^ 48) result.down }
{
    let lengths = reboxed_shifts(fonts, style, Length { sp: thickness }, num, den);
    Shifts {
        up: lengths.up.sp,
        down: lengths.down.sp,
    }
}

/// The shifts in a computation.
#[derive(Clone, Copy)]
pub struct ShiftLengths {
    /// Upward.
    pub up: Length,
    /// Downward.
    pub down: Length,
}

#[tactic(auto, unfolding(mt_rules::specs::Fractions::fraction_shifts))]
fn reboxed_shifts(
    fonts: &FontSet,
    style: Style,
    thickness: Length,
    num: Extents,
    den: Extents,
) -> ShiftLengths
    requires thickness { Within (2 ^ 40) thickness.sp }
    requires num { Within (2 ^ 40) num.depth }
    requires den { Within (2 ^ 40) den.height }
    ensures up { result.up.sp ≡ (Fractions.fraction_shifts fonts.now style thickness.sp num den).up }
    ensures down { result.down.sp
        ≡ (Fractions.fraction_shifts fonts.now style thickness.sp num den).down }
    ensures up_small { Within (2 ^ 48) result.up.sp }
    ensures down_small { Within (2 ^ 48) result.down.sp }
{
    let width = greater_width(num, den);
    let num = reboxed(num, width);
    let den = reboxed(den, width);
    if thickness.is_zero() {
        shifts_without_rule(fonts, style, num, den)
    } else {
        shifts_with_rule(fonts, style, thickness, num, den)
    }
}

/// The greater of two widths.
pub fn greater_width(num: Extents, den: Extents) -> Length
    ensures { result.sp ≡ int_max num.width den.width }
{
    let least = Length { sp: num.width };
    Length { sp: den.width }.at_least(least)
}

#[tactic(auto, using(std::proofs::lemmas::Int::ints))]
fn is_as_wide(extents: Extents, width: Length) -> bool
    ensures { result ≡ int_eq extents.width width.sp }
{
    extents.width == width.sp
}

// What a box reaches that was set in the middle of a width.
#[tactic(auto, using(std::proofs::lemmas::Int::ints, std::proofs::lemmas::Int::clamps))]
fn reboxed(extents: Extents, width: Length) -> Extents
    ensures is { result ≡ recentred_extents extents width.sp }
    ensures height { Within (2 ^ 40) extents.height → Within (2 ^ 40) result.height }
    ensures depth { Within (2 ^ 40) extents.depth → Within (2 ^ 40) result.depth }
{
    if is_as_wide(extents, width) {
        return extents;
    }
    Extents {
        width: width.sp,
        height: Length { sp: extents.height }.not_negative().sp,
        depth: Length { sp: extents.depth }.not_negative().sp,
    }
}

// How far a numerator is raised at least over a rule.
fn least_up_over_rule(fonts: &FontSet, style: Style) -> Length
    ensures is { result.sp ≡ Fractions.numerator_shift_over_rule fonts.now style }
    ensures small { Within (2 ^ 31) result.sp }
{
    let size = style.size();
    if style.is_display() {
        num1(fonts, size)
    } else {
        num2(fonts, size)
    }
}

// How far a numerator is raised at least where there is no rule.
fn least_up_over_no_rule(fonts: &FontSet, style: Style) -> Length
    ensures is { result.sp ≡ Fractions.numerator_shift_over_no_rule fonts.now style }
    ensures small { Within (2 ^ 31) result.sp }
{
    let size = style.size();
    if style.is_display() {
        num1(fonts, size)
    } else {
        num3(fonts, size)
    }
}

// How far a denominator is lowered at least.
fn least_down(fonts: &FontSet, style: Style) -> Length
    ensures is { result.sp ≡ Fractions.denominator_shift fonts.now style }
    ensures small { Within (2 ^ 31) result.sp }
{
    let size = style.size();
    if style.is_display() {
        denom1(fonts, size)
    } else {
        denom2(fonts, size)
    }
}

// How high the bottom of a numerator is that is shifted up.
#[tactic(auto, using(std::proofs::lemmas::Int::ints))]
fn bottom_of(num: Extents, up: Length) -> Length
    requires num { Within (2 ^ 40) num.depth }
    requires up { Within (2 ^ 31) up.sp }
    ensures is { result.sp ≡ up.sp -ℤ num.depth }
    ensures small { Within (2 ^ 45) result.sp }
{
    up.minus(Length { sp: num.depth })
}

// How high the top of a denominator is that is shifted down.
#[tactic(auto, using(std::proofs::lemmas::Int::ints))]
fn top_of(den: Extents, down: Length) -> Length
    requires den { Within (2 ^ 40) den.height }
    requires down { Within (2 ^ 31) down.sp }
    ensures is { result.sp ≡ den.height -ℤ down.sp }
    ensures small { Within (2 ^ 45) result.sp }
{
    Length { sp: den.height }.minus(down)
}

// What the gap between two heights lacks.
#[tactic(auto, using(std::proofs::lemmas::Int::ints))]
fn lack_of(least: Length, upper: Length, lower: Length) -> Length
    requires least { Within (2 ^ 42) least.sp }
    requires upper { Within (2 ^ 45) upper.sp }
    requires lower { Within (2 ^ 45) lower.sp }
    ensures is { result.sp ≡ least.sp -ℤ (upper.sp -ℤ lower.sp) }
    ensures small { Within (2 ^ 47) result.sp }
{
    least.minus(upper.minus(lower))
}

// ---- without a rule

// The gap that there is to be at least between numerator and denominator.
#[tactic(auto, using(std::proofs::lemmas::Int::ints))]
fn least_gap(fonts: &FontSet, style: Style) -> Length
    ensures is { result.sp ≡ if is_display style
        then pos 7 *ℤ Parameters.default_rule_thickness fonts.now (size_of style)
        else pos 3 *ℤ Parameters.default_rule_thickness fonts.now (size_of style) }
    ensures small { Within (2 ^ 34) result.sp }
{
    let theta = default_rule_thickness(fonts, style.size());
    if style.is_display() {
        Length { sp: 7 * theta.sp }
    } else {
        Length { sp: 3 * theta.sp }
    }
}

/// The shifts of a numerator and a denominator of one width, without a rule between them. Where the gap between them
/// is less than 7 or 3 rules thick, half of what it lacks is added to both.
#[tactic(auto, using(std::proofs::lemmas::Int::ints, std::proofs::lemmas::Int::clamps))]
pub fn shifts_without_rule(
    fonts: &FontSet,
    style: Style,
    num: Extents,
    den: Extents,
) -> ShiftLengths
    requires num { Within (2 ^ 40) num.depth }
    requires den { Within (2 ^ 40) den.height }
    ensures up { result.up.sp ≡ (Fractions.shifts_without_rule fonts.now style num den).up }
    ensures down { result.down.sp ≡ (Fractions.shifts_without_rule fonts.now style num den).down }
    ensures up_small { Within (2 ^ 48) result.up.sp }
    ensures down_small { Within (2 ^ 48) result.down.sp }
{
    let up = least_up_over_no_rule(fonts, style);
    let down = least_down(fonts, style);
    let lack = lack_of(
        least_gap(fonts, style),
        bottom_of(num, up),
        top_of(den, down),
    );
    let more = lack.half().not_negative();
    ShiftLengths {
        up: up.plus(more),
        down: down.plus(more),
    }
}

// ---- with a rule

// The gap that there is to be at least above the rule, and below it.
#[tactic(auto, using(std::proofs::lemmas::Int::ints))]
fn least_gap_at_rule(style: Style, thickness: Length) -> Length
    requires { Within (2 ^ 40) thickness.sp }
    ensures is { result.sp ≡ if is_display style then pos 3 *ℤ thickness.sp else thickness.sp }
    ensures small { Within (2 ^ 42) result.sp }
{
    if style.is_display() {
        Length {
            sp: 3 * thickness.sp,
        }
    } else {
        thickness
    }
}

/// Half of the thickness of a rule.
pub fn half_rule(thickness: Length) -> Length
    requires { Within (2 ^ 40) thickness.sp }
    ensures is { result.sp ≡ half_of thickness.sp }
    ensures small { Within (2 ^ 40) result.sp }
{
    thickness.half()
}

/// How high the top of a rule is whose middle is on the axis.
#[tactic(auto, using(std::proofs::lemmas::Int::ints))]
pub fn top_of_rule(fonts: &FontSet, style: Style, thickness: Length) -> Length
    requires { Within (2 ^ 40) thickness.sp }
    ensures is { result.sp
        ≡ Parameters.axis_height fonts.now (size_of style) +ℤ half_of thickness.sp }
    ensures small { Within (2 ^ 45) result.sp }
{
    axis_height(fonts, style.size()).plus(half_rule(thickness))
}

// How high the bottom of such a rule of even thickness is.
#[tactic(auto, using(std::proofs::lemmas::Int::ints))]
fn bottom_of_even_rule(fonts: &FontSet, style: Style, thickness: Length) -> Length
    requires { Within (2 ^ 40) thickness.sp }
    ensures is { result.sp
        ≡ Parameters.axis_height fonts.now (size_of style) -ℤ half_of thickness.sp }
    ensures small { Within (2 ^ 45) result.sp }
{
    axis_height(fonts, style.size()).minus(half_rule(thickness))
}

/// The shifts of a numerator and a denominator of one width, with a rule of this thickness between them. The gap above
/// it and the one below it are at least three times the thickness in display style, and once else.
#[tactic(auto, using(std::proofs::lemmas::Int::ints))]
pub fn shifts_with_rule(
    fonts: &FontSet,
    style: Style,
    thickness: Length,
    num: Extents,
    den: Extents,
) -> ShiftLengths
    requires thickness { Within (2 ^ 40) thickness.sp }
    requires num { Within (2 ^ 40) num.depth }
    requires den { Within (2 ^ 40) den.height }
    ensures up { result.up.sp
        ≡ (Fractions.shifts_with_rule fonts.now style thickness.sp num den).up }
    ensures down { result.down.sp
        ≡ (Fractions.shifts_with_rule fonts.now style thickness.sp num den).down }
    ensures up_small { Within (2 ^ 48) result.up.sp }
    ensures down_small { Within (2 ^ 48) result.down.sp }
{
    let clearance = least_gap_at_rule(style, thickness);
    let top = top_of_rule(fonts, style, thickness);
    let bottom = bottom_of_even_rule(fonts, style, thickness);
    let up = least_up_over_rule(fonts, style);
    let down = least_down(fonts, style);
    ShiftLengths {
        up: up.plus(lack_of(clearance, bottom_of(num, up), top).not_negative()),
        down: down.plus(lack_of(clearance, bottom, top_of(den, down)).not_negative()),
    }
}
