//! Scripts above and below a large operator (The TeXbook, Appendix G, rule 13a; tex.web §750,
//! §751).
ghost use Rattle.std.specs.Prelude.{◌≡◌, ◌≤◌, ◌^◌, ◌+◌, ◌∷◌, max, IfOk, OnOk, neg_ℤ, Some, None, List, Option};
ghost use Rattle.std.specs.Option.{ForSome, option_map};
ghost use Rattle.mt_scaled.specs.Number.{Within, half_of, max_dimen};
ghost use Rattle.mt_box.specs.Layout.{layout_of};
ghost use Rattle.mt_box.specs.Extents.{ExtentsInRange};
ghost use Rattle.mt_rules.specs.Setting.{layout_or_empty, make_box};
ghost use Rattle.mt_rules.specs.Calls.{BoxAnswers};
ghost use Rattle.mt_rules.specs.Limits;
ghost use Rattle.mt_scripts.specs.Levels.{script_level};
ghost use Rattle.mt_scripts.specs.LimitMarks.{extents_in, limit_of, IsLimit, middle_extents, middle_layer, limit_up, reach_up, limit_down, reach_down};
ghost use Rattle.std.specs.Int.{int_max};
ghost use Rattle.mt_box.specs.declared.place.Place.{Place};
ghost use Rattle.mt_box.specs.marks.Layers.{top};
ghost use Rattle.mt_rules.specs.OnMarks.{BoxSetsOn, layout_with};

use mt_box::{Extents, Marks, Move, PackError, Packed, recentre_layer};
use mt_family::{FontSet, Size};
use mt_rules::parameters::{
    big_op_spacing1, big_op_spacing2, big_op_spacing3, big_op_spacing4, big_op_spacing5,
};
use mt_rules::tested_extents;
use mt_scaled::Length;
use std::alloc::{AllocError, Global};

/// An operator with its superscript above it and its subscript below it. `delta` is the operator's
/// italic correction: the superscript is half of it to the right, the subscript as much to the
/// left.
///
/// All three are set in the middle of the greatest of their widths, an absent script counting as 0
/// wide. `delta` is at most 2^40 in size, and the level of each box at most 2^20 - 4.
///
/// Refused with `Overflow` of the first extent of the whole that is out of range, and with
/// `OutOfMemory`.
pub fn limits_box(
    alloc: Global,
    fonts: &FontSet,
    size: Size,
    nucleus: Packed,
    delta: i64,
    sup: Option<Packed>,
    sub: Option<Packed>,
) -> Result<Packed, PackError>
    requires delta { Within (2 ^ 40) delta }
    requires nucleus_level { nucleus.level + 4 ≤ 2 ^ 20 }
    requires sup_level { ForSome sup (λ b. b.level + 4 ≤ 2 ^ 20) }
    requires sub_level { ForSome sub (λ b. b.level + 4 ≤ 2 ^ 20) }
    ensures is { BoxAnswers result (Limits.limits fonts.now size (layout_of nucleus) delta
        (option_map layout_of sup) (option_map layout_of sub)) }
    ensures level { IfOk result (λ b. b.level
        ≤ max nucleus.level (max (script_level sup) (script_level sub)) + 3) }
    ensures in_range { IfOk result (λ b. ExtentsInRange b.extents) }
{
    let reach = nucleus.extents();
    let mut marks = Marks::of_box(alloc, nucleus)?;
    let above = push_limit(&mut marks, &sup)?;
    let below = push_limit(&mut marks, &sub)?;
    let delta = Length { sp: delta };
    let extents = limits_on_marks(&mut marks, fonts, size, reach, delta, above, below)?;
    Ok(marks.into_box(extents, 1)?)
}

// The marks of a script on top, none where it is absent.
fn push_limit(marks: &mut Marks, script: &Option<Packed>) -> Result<Option<Extents>, AllocError>
    ensures is { IfOk result (λ e. e ≡ extents_in script.now) }
    ensures marks { OnOk result (marks.new
        ≡ (layout_or_empty (option_map layout_of script.now)).places ∷ marks.old) }
    ensures in_range { IfOk result (λ e. ForSome e ExtentsInRange) }
{
    match script {
        None => {
            marks.begin()?;
            Ok(None)
        }
        Some(body) => {
            marks.push_box(body)?;
            Ok(Some(body.extents()))
        }
    }
}

// How far a limit is from the baseline, and how far the whole reaches with it.
#[derive(Clone, Copy)]
struct Limit {
    shift: Length,
    reach: Length,
}

/// The layouts of an operator, of its superscript and, on top, of its subscript become one: what it reaches. A script
/// that is absent has a layout without marks.
#[tactic(auto, unfolding(mt_rules::specs::Limits::limits))]
pub fn limits_on_marks(
    marks: &mut Marks,
    fonts: &FontSet,
    size: Size,
    nucleus: Extents,
    delta: Length,
    sup: Option<Extents>,
    sub: Option<Extents>,
) -> Result<Extents, PackError>
    requires nucleus { ExtentsInRange nucleus }
    requires delta { Within (2 ^ 40) delta.sp }
    requires sup { ForSome sup ExtentsInRange }
    requires sub { ForSome sub ExtentsInRange }
    ensures is { (n s b : List Place) → (rest : List (List Place)) → IsLimit sup s → IsLimit sub b
        → marks.old ≡ b ∷ s ∷ n ∷ rest
        → BoxSetsOn result (top marks.new) (Limits.limits fonts.now size (layout_with nucleus n)
        delta.sp (limit_of sup s) (limit_of sub b)) }
    ensures rest { (n s b : List Place) → (rest : List (List Place)) → marks.old ≡ b ∷ s ∷ n ∷ rest
        → OnOk result (marks.new ≡ top marks.new ∷ rest) }
    ensures in_range { IfOk result ExtentsInRange }
{
    let width = greatest(nucleus, sup, sub);
    let nucleus = recentre_layer(marks, 2, nucleus, width)?;
    let sup = in_middle(marks, 1, sup, width)?;
    let sub = in_middle(marks, 0, sub, width)?;
    join_limits(marks, fonts, size, nucleus, delta, sup, sub)
}

// The greatest width of all three.
#[tactic(auto, using(std::proofs::lemmas::Int::ints, std::proofs::lemmas::Int::clamps))]
fn greatest(nucleus: Extents, sup: Option<Extents>, sub: Option<Extents>) -> Length
    requires nucleus { ExtentsInRange nucleus }
    requires sup { ForSome sup ExtentsInRange }
    requires sub { ForSome sub ExtentsInRange }
    ensures is { (s b : List Place) → result.sp ≡ int_max (layout_or_empty (limit_of sup s)).extents.width
        (int_max nucleus.width (layout_or_empty (limit_of sub b)).extents.width) }
    ensures in_range { Within max_dimen result.sp }
{
    let middle = Length { sp: nucleus.width };
    width_of(sub).at_least(middle).at_least(width_of(sup))
}

fn width_of(script: Option<Extents>) -> Length
    requires { ForSome script ExtentsInRange }
    ensures is { (ps : List Place) → result.sp ≡ (layout_or_empty (limit_of script ps)).extents.width }
    ensures in_range { Within max_dimen result.sp }
{
    match script {
        None => Length { sp: 0 },
        Some(extents) => Length { sp: extents.width },
    }
}

// A limit, if it is there, in the middle of a width.
fn in_middle(
    marks: &mut Marks,
    under: usize,
    script: Option<Extents>,
    width: Length,
) -> Result<Option<Extents>, AllocError>
    requires script { ForSome script ExtentsInRange }
    requires width { Within max_dimen width.sp }
    ensures is { IfOk result (λ s. s ≡ middle_extents script width.sp) }
    ensures marks { OnOk result (marks.new ≡ middle_layer under script width.sp marks.old) }
    ensures in_range { IfOk result (λ s. ForSome s ExtentsInRange) }
{
    match script {
        None => Ok(None),
        Some(extents) => Ok(Some(recentre_layer(marks, under, extents, width)?)),
    }
}

// All three, of one width.
fn join_limits(
    marks: &mut Marks,
    fonts: &FontSet,
    size: Size,
    nucleus: Extents,
    delta: Length,
    sup: Option<Extents>,
    sub: Option<Extents>,
) -> Result<Extents, PackError>
    requires nucleus { ExtentsInRange nucleus }
    requires delta { Within (2 ^ 40) delta.sp }
    requires sup { ForSome sup ExtentsInRange }
    requires sub { ForSome sub ExtentsInRange }
    ensures is { (n s b : List Place) → (rest : List (List Place)) → IsLimit sup s → IsLimit sub b
        → marks.old ≡ b ∷ s ∷ n ∷ rest
        → BoxSetsOn result (top marks.new) (make_box (Limits.limits_layout fonts.now size delta.sp
        (limit_of sup s) (layout_with nucleus n) (limit_of sub b))) }
    ensures rest { (n s b : List Place) → (rest : List (List Place)) → marks.old ≡ b ∷ s ∷ n ∷ rest
        → OnOk result (marks.new ≡ top marks.new ∷ rest) }
    ensures in_range { IfOk result ExtentsInRange }
{
    let above = limit_above(fonts, size, nucleus, sup);
    let below = limit_below(fonts, size, nucleus, sub);
    let extents = tested_extents(Extents {
        width: nucleus.width,
        height: above.reach.sp,
        depth: below.reach.sp,
    })?;
    marks.shift(1, right_and_up(delta, above.shift))?;
    marks.shift(0, left_and_down(delta, below.shift))?;
    marks.swap(1);
    marks.join();
    marks.join();
    Ok(extents)
}

#[tactic(auto, using(std::proofs::lemmas::Int::ints))]
fn right_and_up(delta: Length, up: Length) -> Move
    requires delta { Within (2 ^ 40) delta.sp }
    requires up { Within (2 ^ 40) up.sp }
    ensures right { result.right ≡ half_of delta.sp }
    ensures up { result.up ≡ up.sp }
{
    Move {
        right: delta.half().sp,
        up: up.sp,
    }
}

#[tactic(auto, using(std::proofs::lemmas::Int::ints))]
fn left_and_down(delta: Length, down: Length) -> Move
    requires delta { Within (2 ^ 40) delta.sp }
    requires down { Within (2 ^ 40) down.sp }
    ensures right { result.right ≡ neg_ℤ (half_of delta.sp) }
    ensures up { result.up ≡ neg_ℤ down.sp }
{
    Move {
        right: -delta.half().sp,
        up: -down.sp,
    }
}

#[tactic(auto, using(std::proofs::lemmas::Int::ints))]
fn limit_above(fonts: &FontSet, size: Size, nucleus: Extents, sup: Option<Extents>) -> Limit
    requires nucleus { ExtentsInRange nucleus }
    requires sup { ForSome sup ExtentsInRange }
    ensures shift { result.shift.sp ≡ limit_up fonts.now size nucleus.height sup }
    ensures reach { result.reach.sp ≡ reach_up fonts.now size nucleus.height sup }
    ensures small { Within (2 ^ 36) result.shift.sp }
    ensures near { Within (2 ^ 36) result.reach.sp }
{
    let height = Length { sp: nucleus.height };
    match sup {
        None => Limit {
            shift: height,
            reach: height,
        },
        Some(sup) => limit_over(fonts, size, height, sup),
    }
}

#[tactic(auto, using(std::proofs::lemmas::Int::ints))]
fn limit_over(fonts: &FontSet, size: Size, height: Length, sup: Extents) -> Limit
    requires height { Within max_dimen height.sp }
    requires sup { ExtentsInRange sup }
    ensures shift { result.shift.sp ≡ limit_up fonts.now size height.sp (Some sup) }
    ensures reach { result.reach.sp ≡ reach_up fonts.now size height.sp (Some sup) }
    ensures small { Within (2 ^ 36) result.shift.sp }
    ensures near { Within (2 ^ 36) result.reach.sp }
{
    let near = Length { sp: sup.depth };
    let far = Length { sp: sup.height };
    let shift = height.plus(gap_above(fonts, size, sup)).plus(near);
    let reach = shift.plus(far).plus(big_op_spacing5(fonts, size));
    Limit { shift, reach }
}

#[tactic(auto, using(std::proofs::lemmas::Int::ints))]
fn limit_below(fonts: &FontSet, size: Size, nucleus: Extents, sub: Option<Extents>) -> Limit
    requires nucleus { ExtentsInRange nucleus }
    requires sub { ForSome sub ExtentsInRange }
    ensures shift { result.shift.sp ≡ limit_down fonts.now size nucleus.depth sub }
    ensures reach { result.reach.sp ≡ reach_down fonts.now size nucleus.depth sub }
    ensures small { Within (2 ^ 36) result.shift.sp }
    ensures near { Within (2 ^ 36) result.reach.sp }
{
    let depth = Length { sp: nucleus.depth };
    match sub {
        None => Limit {
            shift: depth,
            reach: depth,
        },
        Some(sub) => limit_under(fonts, size, depth, sub),
    }
}

#[tactic(auto, using(std::proofs::lemmas::Int::ints))]
fn limit_under(fonts: &FontSet, size: Size, depth: Length, sub: Extents) -> Limit
    requires depth { Within max_dimen depth.sp }
    requires sub { ExtentsInRange sub }
    ensures shift { result.shift.sp ≡ limit_down fonts.now size depth.sp (Some sub) }
    ensures reach { result.reach.sp ≡ reach_down fonts.now size depth.sp (Some sub) }
    ensures small { Within (2 ^ 36) result.shift.sp }
    ensures near { Within (2 ^ 36) result.reach.sp }
{
    let near = Length { sp: sub.height };
    let far = Length { sp: sub.depth };
    let shift = depth.plus(gap_below(fonts, size, sub)).plus(near);
    let reach = shift.plus(far).plus(big_op_spacing5(fonts, size));
    Limit { shift, reach }
}

// The gap between the operator and its superscript.
#[tactic(auto, using(std::proofs::lemmas::Int::ints, std::proofs::lemmas::Int::clamps))]
fn gap_above(fonts: &FontSet, size: Size, sup: Extents) -> Length
    requires { ExtentsInRange sup }
    ensures is { result.sp ≡ Limits.gap_above fonts.now size sup }
    ensures small { Within (2 ^ 33) result.sp }
{
    big_op_spacing3(fonts, size)
        .minus(Length { sp: sup.depth })
        .at_least(big_op_spacing1(fonts, size))
}

// The gap between the operator and its subscript.
#[tactic(auto, using(std::proofs::lemmas::Int::ints, std::proofs::lemmas::Int::clamps))]
fn gap_below(fonts: &FontSet, size: Size, sub: Extents) -> Length
    requires { ExtentsInRange sub }
    ensures is { result.sp ≡ Limits.gap_below fonts.now size sub }
    ensures small { Within (2 ^ 33) result.sp }
{
    big_op_spacing4(fonts, size)
        .minus(Length { sp: sub.height })
        .at_least(big_op_spacing2(fonts, size))
}
