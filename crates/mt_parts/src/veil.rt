//! Layouts and boxes of which only a part is left (plain TeX's \phantom, \hphantom, \vphantom and \smash; The TeXbook,
//! chapter 18 and Appendix B).
ghost use Rattle.std.specs.Prelude.{◌≡◌, ◌∷◌, IfOk, List, OnOk};
ghost use Rattle.mt_box.specs.declared.place.Place.{Place};
ghost use Rattle.mt_box.specs.Extents.{ExtentsInRange};
ghost use Rattle.mt_box.specs.Layout.{layout_of};
ghost use Rattle.mt_box.specs.marks.Layers.{begun, dropped, top};
ghost use Rattle.mt_rules.specs.OnMarks.{layout_with};
ghost use Rattle.mt_rules.specs.Veils.{veil_extents, veil_layout};

use mt_box::{Extents, Marks, Packed, unmarked, with_extents};
use std::alloc::AllocError;

/// Of the layout on top is left what is kept: its width, its height and depth, its marks. The answer is what it reaches
/// then.
#[tactic(auto, unfolding(mt_rules::specs::Veils::veil_layout))]
pub fn veil_on_marks(
    marks: &mut Marks,
    body: Extents,
    width: bool,
    height: bool,
    marked: bool,
) -> Result<Extents, AllocError>
    requires { ExtentsInRange body }
    ensures is { (n : List Place) → (rest : List (List Place)) → marks.old ≡ n ∷ rest
        → IfOk result (λ e. layout_with e (top marks.new) ≡ veil_layout width height marked (layout_with body n)) }
    ensures rest { (n : List Place) → (rest : List (List Place)) → marks.old ≡ n ∷ rest
        → OnOk result (marks.new ≡ top marks.new ∷ rest) }
    ensures in_range { IfOk result ExtentsInRange }
{
    if !marked {
        unmark_top(marks)?;
    }
    Ok(extents_under(body, width, height))
}

// The layout on top without its marks.
fn unmark_top(marks: &mut Marks) -> Result<(), AllocError>
    ensures { OnOk result (marks.new ≡ begun (dropped marks.old)) }
{
    marks.drop_top();
    marks.begin()
}

// What is left of the extents.
fn extents_under(extents: Extents, width: bool, height: bool) -> Extents
    requires { ExtentsInRange extents }
    ensures is { result ≡ veil_extents width height extents }
    ensures in_range { ExtentsInRange result }
{
    let width = if width { extents.width } else { 0 };
    if height {
        Extents { width, ..extents }
    } else {
        Extents {
            width,
            height: 0,
            depth: 0,
        }
    }
}

/// The box with width 0 where it does not keep its width, with height and depth 0 where it does not keep its height,
/// and without what it marks where it does not keep its marks. It takes no memory, and the level stays the same.
#[tactic(auto, unfolding(mt_rules::specs::Veils::veil_layout))]
pub fn veil_box(body: Packed, width: bool, height: bool, marks: bool) -> Packed
    ensures is { layout_of result ≡ veil_layout width height marks (layout_of body) }
    ensures level { result.level ≡ body.level }
    ensures in_range { ExtentsInRange result.extents }
{
    let extents = extents_under(body.extents(), width, height);
    let body = with_extents(body, extents);
    if marks { body } else { unmarked(body) }
}
