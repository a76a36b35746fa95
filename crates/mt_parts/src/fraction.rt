//! Fractions (The TeXbook, Appendix G, rule 15; tex.web §743 to §748).
ghost use Rattle.std.specs.Prelude.{◌≡◌, ◌≤◌, ◌^◌, ◌+◌, ◌+ℤ◌, ◌-ℤ◌, ◌*ℤ◌, ◌∷◌, max, pos, if◌then◌else◌, IfOk, List, OnOk};
ghost use Rattle.std.specs.Ordering.{int_eq};
ghost use Rattle.mt_scaled.specs.Number.{Within, half_of};
ghost use Rattle.mt_box.specs.declared.place.Place.{Place};
ghost use Rattle.mt_box.specs.Extents.{ExtentsInRange};
ghost use Rattle.mt_box.specs.Layout.{layout_of};
ghost use Rattle.mt_box.specs.marks.Layers.{top};
ghost use Rattle.mt_rules.specs.Calls.{PartAnswers};
ghost use Rattle.mt_rules.specs.Fractions;
ghost use Rattle.mt_rules.specs.OnMarks.{SetsOn, layout_with};
ghost use Rattle.mt_rules.specs.Setting.{make_box};

use crate::boxed::boxed;
use crate::rows::{on_axis, on_baseline, row_on_marks, up_by};
use crate::rules::{rule_on_marks, tested_rule};
use crate::shifts::{
    ShiftLengths, greater_width, half_rule, shifts_with_rule, shifts_without_rule, top_of_rule,
};
use mt_box::{Extents, Marks, Packed, RowPart, recentre_layer};
use mt_delim::delimiter_on_marks;
use mt_family::FontSet;
use mt_rules::parameters::{delim1, delim2};
use mt_rules::{Delim, PartError, Style, tested_extents};
use mt_scaled::Length;
use std::alloc::Global;

/// A numerator over a denominator, with a rule of this thickness between them or, where it is 0, with none, and a
/// delimiter at each side. The narrower of the two is set in the middle of the width of the other. `fraction_shifts`
/// says how far both are shifted; under a rule of odd thickness the denominator is 1sp higher. The thickness is at
/// most 2^40 in size, and the levels of both are at most 2^20 - 4.
///
/// Refused as by `delimiter_box` of mt_delim of the left delimiter, then of the right one; then with `Overflow` of the first
/// number out of range: the rule's thickness, an extent of numerator and denominator together, an extent of the whole;
/// and with `OutOfMemory`. The rule's width is in range, since the widths of both are.
pub fn fraction_box(
    alloc: Global,
    fonts: &FontSet,
    style: Style,
    thickness: i64,
    left: Delim,
    right: Delim,
    num: Packed,
    den: Packed,
) -> Result<Packed, PartError>
    requires thickness { Within (2 ^ 40) thickness }
    requires num_level { num.level + 4 ≤ 2 ^ 20 }
    requires den_level { den.level + 4 ≤ 2 ^ 20 }
    ensures is { PartAnswers result (Fractions.fraction fonts.now style thickness left right
        (layout_of num) (layout_of den)) }
    ensures level { IfOk result (λ b. b.level ≡ max num.level den.level + 3) }
    ensures in_range { IfOk result (λ b. ExtentsInRange b.extents) }
{
    let (above, below) = (num.extents(), den.extents());
    let level = num.level().max(den.level()) + 3;
    let mut marks = Marks::of_box(alloc, num)?;
    marks.push_box(&den)?;
    let thickness = Length { sp: thickness };
    let set = fraction_on_marks(
        &mut marks, fonts, style, thickness, left, right, above, below,
    );
    boxed(marks, set, level)
}

/// The numerator and, on top, the denominator become the fraction: what it reaches.
///
/// The order of refusals is that of `fraction_box`.
pub fn fraction_on_marks(
    marks: &mut Marks,
    fonts: &FontSet,
    style: Style,
    thickness: Length,
    left: Delim,
    right: Delim,
    num: Extents,
    den: Extents,
) -> Result<Extents, PartError>
    requires thickness { Within (2 ^ 40) thickness.sp }
    requires num { ExtentsInRange num }
    requires den { ExtentsInRange den }
    ensures is { (n d : List Place) → (rest : List (List Place)) → marks.old ≡ d ∷ n ∷ rest
        → SetsOn result (top marks.new) (Fractions.fraction fonts.now style thickness.sp left right
        (layout_with num n) (layout_with den d)) }
    ensures rest { (n d : List Place) → (rest : List (List Place)) → marks.old ≡ d ∷ n ∷ rest
        → OnOk result (marks.new ≡ top marks.new ∷ rest) }
    ensures in_range { IfOk result ExtentsInRange }
{
    let size = style.size();
    let wanted = delimiter_size(fonts, style);
    let left = delimiter_on_marks(marks, fonts, left, size, wanted)?;
    marks.swap(0);
    marks.swap(1);
    let right = delimiter_on_marks(marks, fonts, right, size, wanted)?;
    marks.swap(0);
    marks.swap(1);
    let body = body_on_marks(marks, fonts, style, thickness, num, den)?;
    marks.swap(0);
    row_on_marks(
        marks,
        &[
            RowPart::Layout(on_axis(fonts, size, left)),
            RowPart::Layout(on_baseline(body)),
            RowPart::Layout(on_axis(fonts, size, right)),
        ],
    )
}

// The size that the delimiters are to have.
fn delimiter_size(fonts: &FontSet, style: Style) -> Length
    ensures is { result.sp ≡ Fractions.fraction_delimiter_size fonts.now style }
    ensures small { Within (2 ^ 31) result.sp }
{
    let size = style.size();
    if style.is_display() {
        delim1(fonts, size)
    } else {
        delim2(fonts, size)
    }
}

// The fraction without its delimiters.
fn body_on_marks(
    marks: &mut Marks,
    fonts: &FontSet,
    style: Style,
    thickness: Length,
    num: Extents,
    den: Extents,
) -> Result<Extents, PartError>
    requires thickness { Within (2 ^ 40) thickness.sp }
    requires num { ExtentsInRange num }
    requires den { ExtentsInRange den }
    ensures is { (n d : List Place) → (rest : List (List Place)) → marks.old ≡ d ∷ n ∷ rest
        → SetsOn result (top marks.new) (Fractions.fraction_body fonts.now style thickness.sp
        (layout_with num n) (layout_with den d)) }
    ensures rest { (n d : List Place) → (rest : List (List Place)) → marks.old ≡ d ∷ n ∷ rest
        → OnOk result (marks.new ≡ top marks.new ∷ rest) }
    ensures in_range { IfOk result ExtentsInRange }
{
    let width = greater_width(num, den);
    let num = recentre_layer(marks, 1, num, width)?;
    let den = recentre_layer(marks, 0, den, width)?;
    centred_on_marks(marks, fonts, style, thickness, num, den)
}

// The same of a numerator and a denominator of one width. The rule is tested first.
fn centred_on_marks(
    marks: &mut Marks,
    fonts: &FontSet,
    style: Style,
    thickness: Length,
    num: Extents,
    den: Extents,
) -> Result<Extents, PartError>
    requires thickness { Within (2 ^ 40) thickness.sp }
    requires num { ExtentsInRange num }
    requires den { ExtentsInRange den }
    ensures is { (n d : List Place) → (rest : List (List Place)) → marks.old ≡ d ∷ n ∷ rest
        → SetsOn result (top marks.new) (if int_eq thickness.sp (pos 0)
        then make_box (Fractions.layout_without_rule fonts.now style (layout_with num n) (layout_with den d))
        else Fractions.box_with_rule fonts.now style thickness.sp (layout_with num n) (layout_with den d)) }
    ensures rest { (n d : List Place) → (rest : List (List Place)) → marks.old ≡ d ∷ n ∷ rest
        → OnOk result (marks.new ≡ top marks.new ∷ rest) }
    ensures in_range { IfOk result ExtentsInRange }
{
    if thickness.is_zero() {
        return without_rule_on_marks(marks, fonts, style, num, den);
    }
    tested_rule(Length { sp: num.width }, thickness)?;
    with_rule_on_marks(marks, fonts, style, thickness, num, den)
}

// What both reach together, of one width and with these shifts.
#[tactic(auto, using(std::proofs::lemmas::Int::ints))]
fn extents_of_both(shifts: ShiftLengths, num: Extents, den: Extents) -> Extents
    requires up { Within (2 ^ 48) shifts.up.sp }
    requires down { Within (2 ^ 48) shifts.down.sp }
    requires num { ExtentsInRange num }
    requires den { ExtentsInRange den }
    ensures width { result.width ≡ num.width }
    ensures height { result.height ≡ shifts.up.sp +ℤ num.height }
    ensures depth { result.depth ≡ shifts.down.sp +ℤ den.depth }
{
    Extents {
        width: num.width,
        height: shifts.up.plus(Length { sp: num.height }).sp,
        depth: shifts.down.plus(Length { sp: den.depth }).sp,
    }
}

// Numerator and denominator, of one width, without a rule.
fn without_rule_on_marks(
    marks: &mut Marks,
    fonts: &FontSet,
    style: Style,
    num: Extents,
    den: Extents,
) -> Result<Extents, PartError>
    requires num { ExtentsInRange num }
    requires den { ExtentsInRange den }
    ensures is { (n d : List Place) → (rest : List (List Place)) → marks.old ≡ d ∷ n ∷ rest
        → SetsOn result (top marks.new) (make_box (Fractions.layout_without_rule fonts.now style
        (layout_with num n) (layout_with den d))) }
    ensures rest { (n d : List Place) → (rest : List (List Place)) → marks.old ≡ d ∷ n ∷ rest
        → OnOk result (marks.new ≡ top marks.new ∷ rest) }
    ensures in_range { IfOk result ExtentsInRange }
{
    let shifts = shifts_without_rule(fonts, style, num, den);
    let extents = tested_extents(extents_of_both(shifts, num, den))?;
    marks.shift(1, up_by(shifts.up))?;
    marks.shift(0, up_by(shifts.down.negated()))?;
    marks.join();
    Ok(extents)
}

// Numerator and denominator, of one width, and the rule between them.
fn with_rule_on_marks(
    marks: &mut Marks,
    fonts: &FontSet,
    style: Style,
    thickness: Length,
    num: Extents,
    den: Extents,
) -> Result<Extents, PartError>
    requires thickness { Within (2 ^ 40) thickness.sp }
    requires num { ExtentsInRange num }
    requires den { ExtentsInRange den }
    ensures is { (n d : List Place) → (rest : List (List Place)) → marks.old ≡ d ∷ n ∷ rest
        → SetsOn result (top marks.new) (make_box (Fractions.layout_with_rule fonts.now style thickness.sp
        (layout_with num n) (layout_with den d))) }
    ensures rest { (n d : List Place) → (rest : List (List Place)) → marks.old ≡ d ∷ n ∷ rest
        → OnOk result (marks.new ≡ top marks.new ∷ rest) }
    ensures in_range { IfOk result ExtentsInRange }
{
    let shifts = shifts_with_rule(fonts, style, thickness, num, den);
    let extents = tested_extents(extents_of_both(shifts, num, den))?;
    let drop = drop_under_rule(shifts.down, thickness);
    marks.shift(1, up_by(shifts.up))?;
    marks.shift(0, up_by(drop.negated()))?;
    let bottom = top_of_rule(fonts, style, thickness).minus(thickness);
    marks.begin()?;
    rule_on_marks(marks, bottom, thickness, Length { sp: num.width })?;
    marks.swap(0);
    marks.join();
    marks.join();
    Ok(extents)
}

// How far a denominator is lowered: under a rule of odd thickness 1sp less than its shift.
#[tactic(auto, using(std::proofs::lemmas::Int::ints))]
fn drop_under_rule(down: Length, thickness: Length) -> Length
    requires down { Within (2 ^ 48) down.sp }
    requires thickness { Within (2 ^ 40) thickness.sp }
    ensures is { result.sp ≡ down.sp -ℤ ((pos 2 *ℤ half_of thickness.sp) -ℤ thickness.sp) }
    ensures small { Within (2 ^ 49) result.sp }
{
    down.minus(half_rule(thickness).twice().minus(thickness))
}
