//! A rule over a body and under it (The TeXbook, Appendix G, rules 9 and 10; tex.web §705, §734, §735).
ghost use Rattle.std.specs.Prelude.{◌≡◌, ◌≤◌, ◌^◌, ◌+◌, ◌+ℤ◌, ◌*ℤ◌, ◌∷◌, neg_ℤ, pos, IfOk, List, OnOk};
ghost use Rattle.std.specs.Int.{int_max};
ghost use Rattle.mt_scaled.specs.Number.{Within};
ghost use Rattle.mt_box.specs.declared.place.Place.{Place};
ghost use Rattle.mt_box.specs.Extents.{ExtentsInRange};
ghost use Rattle.mt_box.specs.Layout.{layout_of};
ghost use Rattle.mt_box.specs.marks.Layers.{top};
ghost use Rattle.mt_rules.specs.Calls.{PartAnswers};
ghost use Rattle.mt_rules.specs.Lines.{overline, underline};
ghost use Rattle.mt_rules.specs.OnMarks.{SetsOn, layout_with};

use crate::boxed::boxed;
use crate::rules::{rule_on_marks, rule_width, tested_rule, under_rule_on_marks};
use mt_box::{Extents, Marks, Packed};
use mt_family::{FontSet, Size};
use mt_rules::parameters::default_rule_thickness;
use mt_rules::{PartError, tested_extents};
use mt_scaled::Length;
use std::alloc::Global;

/// The body with a rule over it. The gap between them is three times the rule's thickness, and the space above the
/// rule is as high as it is thick. The body's level is at most 2^20 - 4.
///
/// Refused with `Overflow` of the first number out of range: the rule's thickness, then an extent
/// of the whole; and with `OutOfMemory`. The rule's width is in range, since the body's is.
pub fn overline_box(
    alloc: Global,
    fonts: &FontSet,
    size: Size,
    body: Packed,
) -> Result<Packed, PartError>
    requires { body.level + 4 ≤ 2 ^ 20 }
    ensures is { PartAnswers result (overline fonts.now size (layout_of body)) }
    ensures level { IfOk result (λ b. b.level ≡ body.level + 1) }
    ensures in_range { IfOk result (λ b. ExtentsInRange b.extents) }
{
    let (reach, level) = (body.extents(), body.level() + 1);
    let mut marks = Marks::of_box(alloc, body)?;
    let set = overline_on_marks(&mut marks, fonts, size, reach);
    boxed(marks, set, level)
}

/// The body with a rule under it. The gap between them is three times the rule's thickness, and the space below the
/// rule is as high as it is thick. The body's level is at most 2^20 - 4.
///
/// Refused with `Overflow` of the first number out of range: the rule's thickness, then an extent
/// of the whole; and with `OutOfMemory`. The rule's width is in range, since the body's is.
pub fn underline_box(
    alloc: Global,
    fonts: &FontSet,
    size: Size,
    body: Packed,
) -> Result<Packed, PartError>
    requires { body.level + 4 ≤ 2 ^ 20 }
    ensures is { PartAnswers result (underline fonts.now size (layout_of body)) }
    ensures level { IfOk result (λ b. b.level ≡ body.level + 1) }
    ensures in_range { IfOk result (λ b. ExtentsInRange b.extents) }
{
    let (reach, level) = (body.extents(), body.level() + 1);
    let mut marks = Marks::of_box(alloc, body)?;
    let set = underline_on_marks(&mut marks, fonts, size, reach);
    boxed(marks, set, level)
}

/// The layout on top with a rule over it: what it reaches.
///
/// The order of refusals is that of `overline_box`.
pub fn overline_on_marks(
    marks: &mut Marks,
    fonts: &FontSet,
    size: Size,
    body: Extents,
) -> Result<Extents, PartError>
    requires { ExtentsInRange body }
    ensures is { (n : List Place) → (rest : List (List Place)) → marks.old ≡ n ∷ rest
        → SetsOn result (top marks.new) (overline fonts.now size (layout_with body n)) }
    ensures rest { (n : List Place) → (rest : List (List Place)) → marks.old ≡ n ∷ rest
        → OnOk result (marks.new ≡ top marks.new ∷ rest) }
    ensures in_range { IfOk result ExtentsInRange }
{
    let thickness = default_rule_thickness(fonts, size);
    under_rule_on_marks(marks, bottom_of_overline(body, thickness), thickness, body)
}

/// The layout on top with a rule under it: what it reaches.
///
/// The order of refusals is that of `underline_box`.
#[tactic(auto, unfolding(mt_rules::specs::Lines::underline))]
pub fn underline_on_marks(
    marks: &mut Marks,
    fonts: &FontSet,
    size: Size,
    body: Extents,
) -> Result<Extents, PartError>
    requires { ExtentsInRange body }
    ensures is { (n : List Place) → (rest : List (List Place)) → marks.old ≡ n ∷ rest
        → SetsOn result (top marks.new) (underline fonts.now size (layout_with body n)) }
    ensures rest { (n : List Place) → (rest : List (List Place)) → marks.old ≡ n ∷ rest
        → OnOk result (marks.new ≡ top marks.new ∷ rest) }
    ensures in_range { IfOk result ExtentsInRange }
{
    let thickness = default_rule_thickness(fonts, size);
    let width = rule_width(body);
    tested_rule(width, thickness)?;
    let extents = tested_extents(extents_over(thickness, body))?;
    rule_on_marks(
        marks,
        bottom_of_underline(body, thickness),
        thickness,
        width,
    )?;
    Ok(extents)
}

// How high the bottom of a rule over a body is. The gap below it is three times its thickness.
#[tactic(auto, using(std::proofs::lemmas::Int::ints))]
fn bottom_of_overline(body: Extents, thickness: Length) -> Length
    requires body { ExtentsInRange body }
    requires thickness { Within (2 ^ 31) thickness.sp }
    ensures is { result.sp ≡ body.height +ℤ (pos 3 *ℤ thickness.sp) }
    ensures small { Within (2 ^ 38) result.sp }
{
    Length {
        sp: body.height + 3 * thickness.sp,
    }
}

// How high the bottom of a rule under a body is. The gap above it is three times its thickness.
#[tactic(auto, using(std::proofs::lemmas::Int::ints))]
fn bottom_of_underline(body: Extents, thickness: Length) -> Length
    requires body { ExtentsInRange body }
    requires thickness { Within (2 ^ 31) thickness.sp }
    ensures is { result.sp ≡ neg_ℤ (body.depth +ℤ (pos 4 *ℤ thickness.sp)) }
    ensures small { Within (2 ^ 38) result.sp }
{
    Length {
        sp: -(body.depth + 4 * thickness.sp),
    }
}

// What a body reaches with a rule under it and the space below.
#[tactic(auto, using(std::proofs::lemmas::Int::ints, std::proofs::lemmas::Int::clamps))]
fn extents_over(thickness: Length, body: Extents) -> Extents
    requires thickness { Within (2 ^ 31) thickness.sp }
    requires body { ExtentsInRange body }
    ensures width { result.width ≡ int_max (pos 0) body.width }
    ensures height { result.height ≡ body.height }
    ensures depth { result.depth ≡ body.depth +ℤ (pos 5 *ℤ thickness.sp) }
{
    Extents {
        width: rule_width(body).sp,
        height: body.height,
        depth: body.depth + 5 * thickness.sp,
    }
}
