//! The box of a part that was set on marks.
ghost use Rattle.std.specs.Prelude.{◌≡◌, ◌≤◌, ◌^◌, IfOk};
ghost use Rattle.mt_box.specs.Extents.{ExtentsInRange};
ghost use Rattle.mt_box.specs.Layout.{Layout};
ghost use Rattle.mt_box.specs.marks.Layers.{top};
ghost use Rattle.mt_rules.specs.Calls.{PartAnswers};
ghost use Rattle.mt_rules.specs.OnMarks.{SetsOn};
ghost use Rattle.mt_rules.specs.Setting.{Setting};

use mt_box::{Extents, Marks, Packed};
use mt_rules::PartError;

// The box of what was set on top of marks, with this level, or the fault.
pub(crate) fn boxed(
    marks: Marks,
    set: Result<Extents, PartError>,
    level: u32,
) -> Result<Packed, PartError>
    requires in_range { IfOk set ExtentsInRange }
    requires level { level ≤ 2 ^ 20 }
    requires level_low { 1 ≤ level }
    ensures is { (s : Setting Layout) → SetsOn set (top marks) s → PartAnswers result s }
    ensures level { IfOk result (λ b. b.level ≡ level) }
    ensures in_range { IfOk result (λ b. ExtentsInRange b.extents) }
{
    Ok(marks.into_box(set?, level)?)
}
