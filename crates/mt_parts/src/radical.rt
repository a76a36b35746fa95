//! A body under a radical sign (The TeXbook, Appendix G, rule 11; tex.web §737).
ghost use Rattle.std.specs.Prelude.{◌≡◌, ◌≤◌, ◌^◌, ◌+◌, ◌+ℤ◌, ◌-ℤ◌, ◌∷◌, IfOk, List, OnOk};
ghost use Rattle.mt_scaled.specs.Number.{Within};
ghost use Rattle.mt_box.specs.declared.place.Place.{Place};
ghost use Rattle.mt_box.specs.Extents.{ExtentsInRange};
ghost use Rattle.mt_box.specs.Layout.{layout_of};
ghost use Rattle.mt_box.specs.marks.Layers.{top};
ghost use Rattle.mt_rules.specs.Calls.{PartAnswers};
ghost use Rattle.mt_rules.specs.OnMarks.{SetsOn, layout_with};
ghost use Rattle.mt_rules.specs.Radicals;

use crate::boxed::boxed;
use crate::rows::{on_baseline, raised, row_on_marks};
use crate::rules::under_rule_on_marks;
use mt_box::{Extents, Marks, Packed, RowPart};
use mt_delim::delimiter_on_marks;
use mt_family::FontSet;
use mt_rules::parameters::{default_rule_thickness, quarter, x_height};
use mt_rules::{Delim, PartError, Style};
use mt_scaled::Length;
use std::alloc::Global;

/// The body beside a radical sign and under its rule. The rule is as thick as the sign is high, and
/// the space above it is as high. The least gap between body and rule is the thickness of a rule of
/// the font, plus a quarter of the absolute value of the x-height in display style and of that
/// thickness else, rounded down. The sign is a delimiter for what the body, the least gap and a rule
/// of the font reach together. Where the sign is deeper than body and least gap reach, half of the
/// difference is added to the gap. The body's level is at most 2^20 - 4.
///
/// Refused as by [`mt_delim::delimiter_box`] of the sign; then with `Overflow` of the first extent out of range, of body
/// and rule together, then of the whole; and with `OutOfMemory`. The rule's width and thickness are those of boxes in
/// range.
pub fn radical_box(
    alloc: Global,
    fonts: &FontSet,
    style: Style,
    sign: Delim,
    body: Packed,
) -> Result<Packed, PartError>
    requires { body.level + 4 ≤ 2 ^ 20 }
    ensures is { PartAnswers result (Radicals.radical fonts.now style sign (layout_of body)) }
    ensures level { IfOk result (λ b. b.level ≡ body.level + 2) }
    ensures in_range { IfOk result (λ b. ExtentsInRange b.extents) }
{
    let (reach, level) = (body.extents(), body.level() + 2);
    let mut marks = Marks::of_box(alloc, body)?;
    let set = radical_on_marks(&mut marks, fonts, style, sign, reach);
    boxed(marks, set, level)
}

/// The layout on top beside a radical sign and under its rule: what it reaches.
///
/// The order of refusals is that of `radical_box`.
pub fn radical_on_marks(
    marks: &mut Marks,
    fonts: &FontSet,
    style: Style,
    sign: Delim,
    body: Extents,
) -> Result<Extents, PartError>
    requires { ExtentsInRange body }
    ensures is { (n : List Place) → (rest : List (List Place)) → marks.old ≡ n ∷ rest
        → SetsOn result (top marks.new) (Radicals.radical fonts.now style sign (layout_with body n)) }
    ensures rest { (n : List Place) → (rest : List (List Place)) → marks.old ≡ n ∷ rest
        → OnOk result (marks.new ≡ top marks.new ∷ rest) }
    ensures in_range { IfOk result ExtentsInRange }
{
    let wanted = sign_size(fonts, style, body);
    let sign = delimiter_on_marks(marks, fonts, sign, style.size(), wanted)?;
    marks.swap(0);
    let height = bottom_over_body(fonts, style, body, sign);
    let nucleus = under_rule_on_marks(marks, height, Length { sp: sign.height }, body)?;
    row_on_marks(
        marks,
        &[
            RowPart::Layout(raised(sign, height)),
            RowPart::Layout(on_baseline(nucleus)),
        ],
    )
}

// The height and the depth of the body together.
#[tactic(auto, using(std::proofs::lemmas::Int::ints))]
fn total_of(body: Extents) -> Length
    requires { ExtentsInRange body }
    ensures is { result.sp ≡ body.height +ℤ body.depth }
    ensures small { Within (2 ^ 31) result.sp }
{
    Length {
        sp: body.height + body.depth,
    }
}

// The gap that there is to be at least between body and rule.
#[tactic(auto, using(std::proofs::lemmas::Int::ints))]
fn least_clearance(fonts: &FontSet, style: Style) -> Length
    ensures is { result.sp ≡ Radicals.least_clearance fonts.now style }
    ensures small { Within (2 ^ 32) result.sp }
{
    let size = style.size();
    let theta = default_rule_thickness(fonts, size);
    if style.is_display() {
        theta.plus(quarter(x_height(fonts, size)))
    } else {
        theta.plus(quarter(theta))
    }
}

// The size that the sign is to have.
#[tactic(auto, using(std::proofs::lemmas::Int::ints))]
fn sign_size(fonts: &FontSet, style: Style, body: Extents) -> Length
    requires { ExtentsInRange body }
    ensures is { result.sp ≡ Radicals.sign_size fonts.now style body }
    ensures small { Within (2 ^ 34) result.sp }
{
    let theta = default_rule_thickness(fonts, style.size());
    total_of(body)
        .plus(least_clearance(fonts, style))
        .plus(theta)
}

// By how much the sign is deeper than the body and the least gap are high.
#[tactic(auto, using(std::proofs::lemmas::Int::ints))]
fn excess_of(least: Length, body: Extents, sign: Extents) -> Length
    requires least { Within (2 ^ 32) least.sp }
    requires body { ExtentsInRange body }
    requires sign { ExtentsInRange sign }
    ensures is { result.sp ≡ sign.depth -ℤ (body.height +ℤ body.depth +ℤ least.sp) }
    ensures small { Within (2 ^ 34) result.sp }
{
    Length { sp: sign.depth }.minus(total_of(body).plus(least))
}

// The gap between body and rule.
#[tactic(auto, using(std::proofs::lemmas::Int::ints, std::proofs::lemmas::Int::clamps))]
fn gap_over_body(fonts: &FontSet, style: Style, body: Extents, sign: Extents) -> Length
    requires body { ExtentsInRange body }
    requires sign { ExtentsInRange sign }
    ensures is { result.sp ≡ Radicals.clearance fonts.now style body sign }
    ensures small { Within (2 ^ 37) result.sp }
{
    let least = least_clearance(fonts, style);
    let gain = excess_of(least, body, sign).half().not_negative();
    least.plus(gain)
}

// How high the bottom of the rule is above the body's baseline.
#[tactic(auto, using(std::proofs::lemmas::Int::ints))]
fn bottom_over_body(fonts: &FontSet, style: Style, body: Extents, sign: Extents) -> Length
    requires body { ExtentsInRange body }
    requires sign { ExtentsInRange sign }
    ensures is { result.sp ≡ body.height +ℤ Radicals.clearance fonts.now style body sign }
    ensures small { Within (2 ^ 38) result.sp }
{
    Length { sp: body.height }.plus(gap_over_body(fonts, style, body, sign))
}
