//! The last step of a part, and the test of its rule.
ghost use Rattle.std.specs.Prelude.{◌≡◌, ℕ, IfOk};
ghost use Rattle.mt_scaled.specs.Number.{Within, max_dimen};
ghost use Rattle.mt_box.specs.Layout.{Layout, layout_of};
ghost use Rattle.mt_box.specs.Packs.{Packs};
ghost use Rattle.mt_rules.specs.Setting.{make_box, test_rule as rule_test};
ghost use Rattle.mt_rules.specs.Calls.{PartAnswers, TestAnswers};

use crate::PartError;
use mt_box::{Extents, PackError, Packed, with_extents};
use mt_scaled::in_range;

/// What a part answers whose last step packed its box.
pub fn part_answer(packed: Result<Packed, PackError>) -> Result<Packed, PartError>
    ensures is { (l : Layout) → Packs l packed → PartAnswers result (make_box l) }
    ensures level { (n : ℕ) → IfOk packed (λ b. b.level ≡ n) → IfOk result (λ b. b.level ≡ n) }
{
    match packed {
        Ok(body) => Ok(body),
        Err(error) => Err(PartError::from(error)),
    }
}

/// The box with another width, which is in range.
pub fn with_width(body: Packed, width: i64) -> Packed
    requires { Within max_dimen width }
    ensures is { layout_of result ≡ record {
      extents = record { width = width; height = body.extents.height; depth = body.extents.depth };
      places = body.places;
    } }
    ensures level { result.level ≡ body.level }
{
    let extents = Extents {
        width,
        ..body.extents()
    };
    with_extents(body, extents)
}

/// The test of a part's rule: its width, then its thickness, in scaled points, also where it would
/// place nothing.
///
/// Refused with `Overflow` of the first that is out of range.
pub fn test_rule(width: i64, thickness: i64) -> Result<(), PartError>
    ensures { TestAnswers result (rule_test width thickness) }
{
    if !in_range(width) {
        return Err(PartError::Overflow(width));
    }
    if !in_range(thickness) {
        return Err(PartError::Overflow(thickness));
    }
    Ok(())
}
