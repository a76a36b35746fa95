//! Rows one below another, centred on the axis (The TeXbook, Appendix G, rule 8; tex.web §736),
//! with the gaps between lines (plain TeX's \baselineskip and \lineskip).
ghost use Rattle.std.specs.Prelude.{◌≡◌, ◌≤◌, ◌<◌, ◌^◌, ◌+◌, ◌+ℤ◌, ◌-ℤ◌, ◌∷◌, All, drop, length, map, IfOk, List, OnOk};
ghost use Rattle.std.specs.Int.{int_max};
ghost use Rattle.mt_scaled.specs.Number.{Within, half_of};
ghost use Rattle.mt_box.specs.declared.place.Place.{Place};
ghost use Rattle.mt_box.specs.Extents.{ExtentsInRange};
ghost use Rattle.mt_box.specs.Layout.{Layout, layout_of};
ghost use Rattle.mt_box.specs.marks.Layers.{top};
ghost use Rattle.mt_box.specs.marks.RowParts.{on_stack};
ghost use Rattle.mt_rules.specs.Calls.{PartAnswers};
ghost use Rattle.mt_rules.specs.OnMarks.{SetsOn, layout_with};
ghost use Rattle.mt_rules.specs.Parameters as parameters;
ghost use Rattle.mt_rules.specs.Setting.{make_box};
ghost use Rattle.mt_rules.specs.Vcenter.{lines_places, vcenter};
ghost use Rattle.mt_parts.specs.LineColumns.{boxes_level};
ghost use Rattle.mt_parts.specs.LineLayers.{all_extents, all_places, first_gap, lines_joined, lines_reach, widest};

use crate::boxed::boxed;
use crate::rows::up_by;
use mt_box::{Extents, Marks, Packed};
use mt_family::{FontSet, Size};
use mt_rules::parameters::axis_height;
use mt_rules::{PackedList, PartError, line_gap, tested_extents};
use mt_scaled::Length;
use std::alloc::{AllocError, Global};

/// Rows one below another, the middle of the whole on the axis. Baselines are 12pt apart; where the
/// gap between two rows would be negative, it is 1pt.
///
/// There are at most 2^20 rows, and the level of each is at most 2^20 - 4. The level of the box is
/// one more than the greatest of theirs, and 1 without rows.
///
/// Refused with `Overflow` of the height or the depth of the whole that is out of range, and with
/// `OutOfMemory`.
pub fn vcenter_box(
    alloc: Global,
    fonts: &FontSet,
    size: Size,
    rows: PackedList,
) -> Result<Packed, PartError>
    requires few { length rows ≤ 2 ^ 20 }
    requires levels { All (λ b. b.level + 4 ≤ 2 ^ 20) rows }
    ensures is { PartAnswers result (vcenter fonts.now size (map layout_of rows)) }
    ensures level { IfOk result (λ b. b.level ≡ boxes_level rows) }
    ensures in_range { IfOk result (λ b. ExtentsInRange b.extents) }
{
    let mut marks = Marks::new(alloc);
    let level = level_over(rows.as_slice());
    let lines = push_rows(alloc, &mut marks, rows.as_slice())?;
    let set = vcenter_on_marks(&mut marks, fonts, size, &lines);
    boxed(marks, set, level)
}

// One more than the greatest level of the rows.
fn level_over(rows: &[Packed]) -> u32
    requires { All (λ b. b.level + 4 ≤ 2 ^ 20) rows.now }
    ensures is { result ≡ boxes_level rows.now }
    ensures low { 1 ≤ result }
    ensures small { result ≤ 2 ^ 20 }
{
    let mut level = 1;
    for i in (0..rows.len()).rev() {
        level = level.max(rows[i].level() + 1);
    }
    level
}

// The layouts of the rows on top of each other, and what each reaches.
fn push_rows(alloc: Global, marks: &mut Marks, rows: &[Packed]) -> Result<Vec<Extents>, AllocError>
    ensures extents { IfOk result (λ v. v.items ≡ all_extents (map layout_of rows.now)) }
    ensures marks { OnOk result (marks.new ≡ on_stack (all_places (map layout_of rows.now)) marks.old) }
    ensures in_range { IfOk result (λ v. All ExtentsInRange v.items) }
{
    let mut lines = Vec::with_capacity(alloc, rows.len())?;
    for row in rows {
        marks.push_box(row)?;
        lines.push(row.extents())?;
    }
    Ok(lines)
}

/// The layouts of rows, the last of which is on top, become one: one below another, the middle of the whole on the axis.
/// The answer is what it reaches. There are at most 2^20 rows.
///
/// The gaps and the order of refusals are those of `vcenter_box`.
pub fn vcenter_on_marks(
    marks: &mut Marks,
    fonts: &FontSet,
    size: Size,
    rows: &[Extents],
) -> Result<Extents, PartError>
    requires few { length rows.now ≤ 2 ^ 20 }
    requires rows { All ExtentsInRange rows.now }
    ensures is { (ls : List Layout) → (rest : List (List Place)) → rows.now ≡ all_extents ls → marks.old ≡ on_stack (all_places ls) rest
        → SetsOn result (top marks.new) (vcenter fonts.now size ls) }
    ensures rest { (ls : List Layout) → (rest : List (List Place)) → rows.now ≡ all_extents ls → marks.old ≡ on_stack (all_places ls) rest
        → OnOk result (marks.new ≡ top marks.new ∷ rest) }
    ensures in_range { IfOk result ExtentsInRange }
{
    let whole = about_axis(fonts, size, measured(rows));
    lines_on_marks(marks, rows, whole)
}

// The layouts of rows become one that is to reach so far, which is tested first.
fn lines_on_marks(marks: &mut Marks, rows: &[Extents], whole: Extents) -> Result<Extents, PartError>
    requires few { length rows.now ≤ 2 ^ 20 }
    requires rows { All ExtentsInRange rows.now }
    requires whole { whole.height +ℤ whole.depth ≡ lines_reach rows.now }
    ensures is { (ls : List Layout) → (rest : List (List Place)) → rows.now ≡ all_extents ls → marks.old ≡ on_stack (all_places ls) rest
        → SetsOn result (top marks.new) (make_box (layout_with whole (lines_places whole.height ls))) }
    ensures rest { (ls : List Layout) → (rest : List (List Place)) → rows.now ≡ all_extents ls → marks.old ≡ on_stack (all_places ls) rest
        → OnOk result (marks.new ≡ top marks.new ∷ rest) }
    ensures in_range { IfOk result ExtentsInRange }
{
    let extents = tested_extents(whole)?;
    marks.begin()?;
    join_lines(marks, rows, extents)?;
    Ok(extents)
}

// How wide lines are, and how far it is from the top of the first to the bottom of the last.
#[derive(Clone, Copy)]
struct Reach {
    width: Length,
    total: Length,
}

impl Reach {
    // With a line more above, and this gap between.
    #[tactic(auto, using(std::proofs::lemmas::Int::ints, std::proofs::lemmas::Int::clamps))]
    fn under(self, line: Extents, gap: Length) -> Reach
        requires total { Within (2 ^ 53) self.total.sp }
        requires line { ExtentsInRange line }
        requires gap { Within (2 ^ 32) gap.sp }
        ensures width { result.width.sp ≡ int_max line.width self.width.sp }
        ensures total { result.total.sp ≡ ((self.total.sp +ℤ gap.sp) +ℤ line.depth) +ℤ line.height }
    {
        let baseline = self.total.plus(gap).plus(Length { sp: line.depth });
        Reach {
            width: self.width.at_least(Length { sp: line.width }),
            total: baseline.plus(Length { sp: line.height }),
        }
    }
}

fn measured(rows: &[Extents]) -> Reach
    requires few { length rows.now ≤ 2 ^ 20 }
    requires rows { All ExtentsInRange rows.now }
    ensures width { result.width.sp ≡ widest rows.now }
    ensures total { result.total.sp ≡ lines_reach rows.now }
    ensures small { Within (2 ^ 53) result.total.sp }
{
    let mut reach = Reach {
        width: Length { sp: 0 },
        total: Length { sp: 0 },
    };
    for i in (0..rows.len()).rev() {
        reach = reach.under(rows[i], gap_below(rows, i));
    }
    reach
}

// The gap between a line and the next one, if there is one.
fn gap_below(rows: &[Extents], i: usize) -> Length
    requires i { i < length rows.now }
    requires rows { All ExtentsInRange rows.now }
    ensures is { result.sp ≡ first_gap (drop i rows.now) }
    ensures small { Within (2 ^ 32) result.sp }
{
    if i + 1 < rows.len() {
        line_gap(
            Length { sp: rows[i].depth },
            Length {
                sp: rows[i + 1].height,
            },
        )
    } else {
        Length { sp: 0 }
    }
}

// What all lines reach with half of their height and depth above the axis.
#[tactic(auto, using(std::proofs::lemmas::Int::ints))]
fn about_axis(fonts: &FontSet, size: Size, lines: Reach) -> Extents
    requires { Within (2 ^ 53) lines.total.sp }
    ensures width { result.width ≡ lines.width.sp }
    ensures height { result.height ≡ parameters.axis_height fonts.now size +ℤ half_of lines.total.sp }
    ensures depth { result.depth ≡ lines.total.sp -ℤ (parameters.axis_height fonts.now size +ℤ half_of lines.total.sp) }
{
    let height = height_of(fonts, size, lines.total);
    Extents {
        width: lines.width.sp,
        height: height.sp,
        depth: lines.total.minus(height).sp,
    }
}

// The height of the whole: half of it is above the axis.
#[tactic(auto, using(std::proofs::lemmas::Int::ints))]
fn height_of(fonts: &FontSet, size: Size, total: Length) -> Length
    requires { Within (2 ^ 53) total.sp }
    ensures is { result.sp ≡ parameters.axis_height fonts.now size +ℤ half_of total.sp }
    ensures small { Within (2 ^ 54) result.sp }
{
    axis_height(fonts, size).plus(total.half())
}

// The layouts of the lines under the top one, each moved to its baseline, become one with it. The last line ends at the
// bottom of the whole.
fn join_lines(marks: &mut Marks, rows: &[Extents], whole: Extents) -> Result<(), AllocError>
    requires few { length rows.now ≤ 2 ^ 20 }
    requires rows { All ExtentsInRange rows.now }
    requires whole { ExtentsInRange whole }
    ensures { OnOk result (marks.new ≡ lines_joined (lines_reach rows.now -ℤ whole.depth) rows.now marks.old) }
{
    let mut top = Length { sp: whole.depth }.negated();
    for i in (0..rows.len()).rev() {
        let baseline = baseline_above(top, gap_below(rows, i), rows[i]);
        marks.shift(1, up_by(baseline))?;
        marks.join();
        top = baseline.plus(Length { sp: rows[i].height });
    }
    Ok(())
}

// How high the baseline of a line is above what has its top here, with this gap between.
#[tactic(auto, using(std::proofs::lemmas::Int::ints))]
fn baseline_above(top: Length, gap: Length, line: Extents) -> Length
    requires top { Within (2 ^ 54) top.sp }
    requires gap { Within (2 ^ 32) gap.sp }
    requires line { ExtentsInRange line }
    ensures is { result.sp ≡ (top.sp +ℤ gap.sp) +ℤ line.depth }
    ensures small { Within (2 ^ 55) result.sp }
{
    top.plus(gap).plus(Length { sp: line.depth })
}
