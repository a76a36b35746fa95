//! Rules on marks, and a body under a rule (The TeXbook, Appendix G, rules 9 and 11; tex.web §704, §705).
ghost use Rattle.std.specs.Prelude.{◌≡◌, ◌^◌, ◌+ℤ◌, ◌*ℤ◌, ◌∷◌, pos, IfOk, List, OnOk};
ghost use Rattle.std.specs.Int.{int_max};
ghost use Rattle.mt_scaled.specs.Number.{Within, max_dimen};
ghost use Rattle.mt_box.specs.declared.place.Place.{Place};
ghost use Rattle.mt_box.specs.Extents.{ExtentsInRange};
ghost use Rattle.mt_box.specs.Layout.{rule_places};
ghost use Rattle.mt_box.specs.marks.Layers.{put_on, top};
ghost use Rattle.mt_rules.specs.Calls.{TestAnswers};
ghost use Rattle.mt_rules.specs.OnMarks.{SetsOn, layout_with};
ghost use Rattle.mt_rules.specs.Setting.{test_rule as rule_test};
ghost use Rattle.mt_parts.specs.RuledBodies.{ruled_body};

use crate::rows::up_by;
use mt_box::{Extents, Mark, Marks};
use mt_rules::{PartError, test_rule, tested_extents};
use mt_scaled::Length;
use std::alloc::AllocError;

// A rule at the end of the top layout, if it is seen.
pub(crate) fn rule_on_marks(
    marks: &mut Marks,
    bottom: Length,
    height: Length,
    width: Length,
) -> Result<(), AllocError>
    ensures { OnOk result (marks.new ≡ put_on (rule_places (pos 0) bottom.sp height.sp width.sp) marks.old) }
{
    if height.is_positive() && width.is_positive() {
        let mark = Mark::Rule {
            height: height.sp,
            width: width.sp,
        };
        marks.put(up_by(bottom), mark)
    } else {
        Ok(())
    }
}

// The width of a rule over or under a body.
#[tactic(auto, using(std::proofs::lemmas::Int::ints, std::proofs::lemmas::Int::clamps))]
pub(crate) fn rule_width(body: Extents) -> Length
    requires { ExtentsInRange body }
    ensures is { result.sp ≡ int_max (pos 0) body.width }
    ensures in_range { Within max_dimen result.sp }
{
    Length { sp: body.width }.not_negative()
}

// The test of a rule.
pub(crate) fn tested_rule(width: Length, thickness: Length) -> Result<(), PartError>
    requires width { Within max_dimen width.sp }
    requires thickness { Within (2 ^ 40) thickness.sp }
    ensures { TestAnswers result (rule_test width.sp thickness.sp) }
{
    test_rule(width.sp, thickness.sp)
}

// The layout on top under a rule whose bottom is at this height, and as much space above the rule as it is thick: what
// it reaches. The rule is tested first.
pub(crate) fn under_rule_on_marks(
    marks: &mut Marks,
    bottom: Length,
    thickness: Length,
    body: Extents,
) -> Result<Extents, PartError>
    requires bottom { Within (2 ^ 38) bottom.sp }
    requires thickness { Within (2 ^ 31) thickness.sp }
    requires body { ExtentsInRange body }
    ensures is { (n : List Place) → (rest : List (List Place)) → marks.old ≡ n ∷ rest
        → SetsOn result (top marks.new) (ruled_body bottom.sp thickness.sp (layout_with body n)) }
    ensures rest { (n : List Place) → (rest : List (List Place)) → marks.old ≡ n ∷ rest
        → OnOk result (marks.new ≡ top marks.new ∷ rest) }
    ensures in_range { IfOk result ExtentsInRange }
{
    let width = rule_width(body);
    tested_rule(width, thickness)?;
    let extents = tested_extents(extents_under(bottom, thickness, body))?;
    marks.begin()?;
    rule_on_marks(marks, bottom, thickness, width)?;
    marks.swap(0);
    marks.join();
    Ok(extents)
}

// What a body reaches with a rule over it and the space above.
#[tactic(auto, using(std::proofs::lemmas::Int::ints, std::proofs::lemmas::Int::clamps))]
fn extents_under(bottom: Length, thickness: Length, body: Extents) -> Extents
    requires bottom { Within (2 ^ 38) bottom.sp }
    requires thickness { Within (2 ^ 31) thickness.sp }
    requires body { ExtentsInRange body }
    ensures width { result.width ≡ int_max (pos 0) body.width }
    ensures height { result.height ≡ bottom.sp +ℤ (pos 2 *ℤ thickness.sp) }
    ensures depth { result.depth ≡ body.depth }
{
    Extents {
        width: rule_width(body).sp,
        height: bottom.plus(thickness.twice()).sp,
        depth: body.depth,
    }
}
