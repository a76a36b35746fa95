//! How far scripts are shifted (The TeXbook, Appendix G, rule 18; tex.web §756 to §759).
ghost use Rattle.std.specs.Prelude.{◌≡◌, ◌^◌, ◌-ℤ◌, ◌*ℤ◌, pos, int_lt, if◌then◌else◌};
ghost use Rattle.std.specs.Int.{int_max};
ghost use Rattle.mt_scaled.specs.Number.{Within};
ghost use Rattle.mt_rules.specs.Styles.{size_of};
ghost use Rattle.mt_rules.specs.Parameters;
ghost use Rattle.mt_rules.specs.Scripts;
ghost use Rattle.mt_scripts.specs.Reaches.{ReachesWithin, AllReachWithin};

use mt_box::Extents;
use mt_family::FontSet;
use mt_rules::parameters::{
    default_rule_thickness, four_fifths, quarter, sub_drop, sub1, sub2, sup_drop, sup1, sup2, sup3,
    x_height,
};
use mt_rules::{Shifts, Style};
use mt_scaled::Length;

/// How far a superscript is shifted up and a subscript down, in scaled points.
///
/// `glyph` says whether the nucleus begins with a glyph; `nucleus` is what it reaches when it is
/// packed, `sup` and `sub` what the scripts reach. Without a script its shift is where it would
/// start. Heights and depths are at most 2^41 in size; where they are at most 2^33 in size, the
/// shifts are at most 2^38 in size (`up_near`, `down_near`).
#[tactic(auto, using(std::proofs::lemmas::Int::ints))]
pub fn script_shifts(
    fonts: &FontSet,
    style: Style,
    glyph: bool,
    nucleus: Extents,
    sup: Option<Extents>,
    sub: Option<Extents>,
) -> Shifts
    requires { AllReachWithin (2 ^ 41) nucleus sup sub }
    ensures up { result.up ≡ (Scripts.script_shifts fonts.now style glyph nucleus sup sub).up }
    ensures down { result.down
        ≡ (Scripts.script_shifts fonts.now style glyph nucleus sup sub).down }
    ensures up_small { Within (2 ^ 48) result.up }
    ensures down_small { Within (2 ^ 48) result.down }
    ensures up_near { AllReachWithin (2 ^ 33) nucleus sup sub → Within (2 ^ 38) result.up }
    ensures down_near { AllReachWithin (2 ^ 33) nucleus sup sub → Within (2 ^ 38) result.down }
{
    let lengths = lengths_of(fonts, style, glyph, nucleus, sup, sub);
    Shifts {
        up: lengths.up.sp,
        down: lengths.down.sp,
    }
}

// The shifts in a computation.
#[derive(Clone, Copy)]
struct ShiftLengths {
    up: Length,
    down: Length,
}

#[tactic(auto, unfolding(mt_rules::specs::Scripts::script_shifts))]
fn lengths_of(
    fonts: &FontSet,
    style: Style,
    glyph: bool,
    nucleus: Extents,
    sup: Option<Extents>,
    sub: Option<Extents>,
) -> ShiftLengths
    requires { AllReachWithin (2 ^ 41) nucleus sup sub }
    ensures up { result.up.sp ≡ (Scripts.script_shifts fonts.now style glyph nucleus sup sub).up }
    ensures down { result.down.sp
        ≡ (Scripts.script_shifts fonts.now style glyph nucleus sup sub).down }
    ensures up_small { Within (2 ^ 48) result.up.sp }
    ensures down_small { Within (2 ^ 48) result.down.sp }
    ensures up_near { AllReachWithin (2 ^ 33) nucleus sup sub → Within (2 ^ 38) result.up.sp }
    ensures down_near { AllReachWithin (2 ^ 33) nucleus sup sub → Within (2 ^ 38) result.down.sp }
{
    let up = first_up(fonts, style, glyph, nucleus);
    let down = first_down(fonts, style, glyph, nucleus);
    match (sup, sub) {
        (None, None) => ShiftLengths { up, down },
        (Some(sup), None) => ShiftLengths {
            up: lone_up(fonts, style, up, sup),
            down,
        },
        (None, Some(sub)) => ShiftLengths {
            up,
            down: lone_down(fonts, style, down, sub),
        },
        (Some(sup), Some(sub)) => lengths_of_both(fonts, style, up, down, sup, sub),
    }
}

#[tactic(auto, using(std::proofs::lemmas::Int::ints))]
fn first_up(fonts: &FontSet, style: Style, glyph: bool, nucleus: Extents) -> Length
    requires { ReachesWithin (2 ^ 41) nucleus }
    ensures is { result.sp ≡ Scripts.first_up fonts.now style glyph nucleus }
    ensures small { Within (2 ^ 42) result.sp }
    ensures near { ReachesWithin (2 ^ 33) nucleus → Within (2 ^ 34) result.sp }
{
    if glyph {
        return Length { sp: 0 };
    }
    let height = Length { sp: nucleus.height };
    height.minus(sup_drop(fonts, style.sup().size()))
}

#[tactic(auto, using(std::proofs::lemmas::Int::ints))]
fn first_down(fonts: &FontSet, style: Style, glyph: bool, nucleus: Extents) -> Length
    requires { ReachesWithin (2 ^ 41) nucleus }
    ensures is { result.sp ≡ Scripts.first_down fonts.now style glyph nucleus }
    ensures small { Within (2 ^ 42) result.sp }
    ensures near { ReachesWithin (2 ^ 33) nucleus → Within (2 ^ 34) result.sp }
{
    if glyph {
        return Length { sp: 0 };
    }
    let depth = Length { sp: nucleus.depth };
    depth.plus(sub_drop(fonts, style.sup().size()))
}

// The shift of a subscript alone, which starts at `down`.
#[tactic(auto, using(std::proofs::lemmas::Int::ints, std::proofs::lemmas::Int::clamps))]
fn lone_down(fonts: &FontSet, style: Style, down: Length, sub: Extents) -> Length
    requires down { Within (2 ^ 42) down.sp }
    requires sub { ReachesWithin (2 ^ 41) sub }
    ensures is { result.sp ≡ Scripts.lone_down fonts.now style down.sp sub }
    ensures small { Within (2 ^ 43) result.sp }
    ensures near { Within (2 ^ 34) down.sp → ReachesWithin (2 ^ 33) sub
        → Within (2 ^ 34) result.sp }
{
    let size = style.size();
    let height = Length { sp: sub.height };
    height
        .minus(four_fifths(x_height(fonts, size)))
        .at_least(sub1(fonts, size))
        .at_least(down)
}

// How far a superscript is raised at least.
fn least_up(fonts: &FontSet, style: Style) -> Length
    ensures is { result.sp ≡ Scripts.least_up fonts.now style }
    ensures small { Within (2 ^ 31) result.sp }
{
    let size = style.size();
    if style.is_cramped() {
        sup3(fonts, size)
    } else if style.is_display() {
        sup1(fonts, size)
    } else {
        sup2(fonts, size)
    }
}

// The shift of a superscript, which starts at `up`, without a subscript.
#[tactic(auto, using(std::proofs::lemmas::Int::ints, std::proofs::lemmas::Int::clamps))]
fn lone_up(fonts: &FontSet, style: Style, up: Length, sup: Extents) -> Length
    requires up { Within (2 ^ 42) up.sp }
    requires sup { ReachesWithin (2 ^ 41) sup }
    ensures is { result.sp ≡ Scripts.lone_up fonts.now style up.sp sup }
    ensures small { Within (2 ^ 43) result.sp }
    ensures near { Within (2 ^ 34) up.sp → ReachesWithin (2 ^ 33) sup → Within (2 ^ 34) result.sp }
{
    let depth = Length { sp: sup.depth };
    depth
        .plus(quarter(x_height(fonts, style.size())))
        .at_least(least_up(fonts, style))
        .at_least(up)
}

#[tactic(auto, using(std::proofs::lemmas::Int::ints))]
fn four_rules(fonts: &FontSet, style: Style) -> Length
    ensures is { result.sp ≡ pos 4 *ℤ Parameters.default_rule_thickness fonts.now (size_of style) }
    ensures small { Within (2 ^ 33) result.sp }
{
    Length {
        sp: 4 * default_rule_thickness(fonts, style.size()).sp,
    }
}

// By how much the gap between both scripts is less than `least_gap`.
#[tactic(auto, using(std::proofs::lemmas::Int::ints, std::proofs::lemmas::Int::clamps))]
fn lack_of(least_gap: Length, up: Length, down: Length, sup: Extents, sub: Extents) -> Length
    requires least_gap { Within (2 ^ 33) least_gap.sp }
    requires up { Within (2 ^ 43) up.sp }
    requires down { Within (2 ^ 43) down.sp }
    requires sup { ReachesWithin (2 ^ 41) sup }
    requires sub { ReachesWithin (2 ^ 41) sub }
    ensures is { result.sp ≡ int_max (pos 0)
        (least_gap.sp -ℤ ((up.sp -ℤ sup.depth) -ℤ (sub.height -ℤ down.sp))) }
    ensures small { Within (2 ^ 46) result.sp }
    ensures near { Within (2 ^ 34) up.sp → Within (2 ^ 34) down.sp
        → ReachesWithin (2 ^ 33) sup → ReachesWithin (2 ^ 33) sub → Within (2 ^ 36) result.sp }
{
    let bottom = up.minus(Length { sp: sup.depth });
    let top = Length { sp: sub.height }.minus(down);
    least_gap.minus(bottom.minus(top)).not_negative()
}

// How much higher both are, where the gap lacked something: so that the superscript's bottom is at
// least at `least_bottom`.
#[tactic(auto, using(std::proofs::lemmas::Int::ints, std::proofs::lemmas::Int::clamps))]
fn rise_of(least_bottom: Length, up: Length, sup: Extents, lack: Length) -> Length
    requires least_bottom { Within (2 ^ 31) least_bottom.sp }
    requires up { Within (2 ^ 43) up.sp }
    requires sup { ReachesWithin (2 ^ 41) sup }
    ensures is { result.sp
        ≡ (if int_lt (pos 0) lack.sp then int_max (pos 0) (least_bottom.sp -ℤ (up.sp -ℤ sup.depth))
        else pos 0) }
    ensures small { Within (2 ^ 45) result.sp }
    ensures near { Within (2 ^ 34) up.sp → ReachesWithin (2 ^ 33) sup → Within (2 ^ 35) result.sp }
{
    if lack.is_positive() {
        let bottom = up.minus(Length { sp: sup.depth });
        least_bottom.minus(bottom).not_negative()
    } else {
        Length { sp: 0 }
    }
}

#[tactic(auto, using(std::proofs::lemmas::Int::ints, std::proofs::lemmas::Int::clamps))]
fn lengths_of_both(
    fonts: &FontSet,
    style: Style,
    first_up: Length,
    first_down: Length,
    sup: Extents,
    sub: Extents,
) -> ShiftLengths
    requires first_up { Within (2 ^ 42) first_up.sp }
    requires first_down { Within (2 ^ 42) first_down.sp }
    requires sup { ReachesWithin (2 ^ 41) sup }
    requires sub { ReachesWithin (2 ^ 41) sub }
    ensures up { result.up.sp
        ≡ (Scripts.shifts_of_both fonts.now style first_up.sp first_down.sp sup sub).up }
    ensures down { result.down.sp
        ≡ (Scripts.shifts_of_both fonts.now style first_up.sp first_down.sp sup sub).down }
    ensures up_small { Within (2 ^ 48) result.up.sp }
    ensures down_small { Within (2 ^ 48) result.down.sp }
    ensures up_near { Within (2 ^ 34) first_up.sp → ReachesWithin (2 ^ 33) sup
        → Within (2 ^ 38) result.up.sp }
    ensures down_near { Within (2 ^ 34) first_up.sp → Within (2 ^ 34) first_down.sp
        → ReachesWithin (2 ^ 33) sup → ReachesWithin (2 ^ 33) sub → Within (2 ^ 38) result.down.sp }
{
    let size = style.size();
    let up = lone_up(fonts, style, first_up, sup);
    let down = sub2(fonts, size).at_least(first_down);
    let lack = lack_of(four_rules(fonts, style), up, down, sup, sub);
    let rise = rise_of(four_fifths(x_height(fonts, size)), up, sup, lack);
    ShiftLengths {
        up: up.plus(rise),
        down: down.plus(lack).minus(rise),
    }
}
