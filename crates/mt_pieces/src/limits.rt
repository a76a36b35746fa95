//! Limits above and below the last box (The TeXbook, Appendix G, rule 13a; tex.web §750, §751).
ghost use Rattle.std.specs.Prelude.{◌≡◌, ◌^◌, pos, [], ◌∷◌, ◌++◌, reverse, List, Option, IfOk, OnErr, OnOk};
ghost use Rattle.std.specs.Option.{ForSome};
ghost use Rattle.mt_scaled.specs.Number.{Within};
ghost use Rattle.mt_box.specs.declared.place.Place.{Place};
ghost use Rattle.mt_box.specs.Extents.{ExtentsInRange};
ghost use Rattle.mt_box.specs.Layout.{Layout};
ghost use Rattle.mt_box.specs.Rows.{PieceValue, PieceBox};
ghost use Rattle.mt_box.specs.marks.Layers.{top};
ghost use Rattle.mt_rules.specs.Limits as limits;
ghost use Rattle.mt_rules.specs.OnMarks.{BoxSetsOn, layout_with};
ghost use Rattle.mt_scripts.specs.LimitMarks.{IsLimit, limit_of};
ghost use Rattle.mt_pieces.specs.Attaching.{AreThere, script_boxes};
ghost use Rattle.mt_pieces.specs.Putting.{PacksPieces, boxed_on};
ghost use Rattle.mt_pieces.specs.inner.Taken.{extents_if, layer_if};

use crate::pieces::Pieces;
use crate::putting::settle;
use crate::scripts::{Scripts, Taken, pop_box, take_scripts};
use mt_box::{Extents, Marks, PackError, RowPart, RowPiece};
use mt_family::{FontSet, Size};
use mt_scaled::Length;
use mt_scripts::limits_on_marks;
use std::alloc::AllocError;

impl Pieces {
    /// An operator with its superscript above it and its subscript below it, as by `limits_box` of mt_scripts. The last
    /// pieces are the boxes of the operator and of the scripts that are there, the superscript first, and none of them is
    /// raised; the box of all comes in their place. `delta` is the operator's italic correction, at most 2^40 in size.
    ///
    /// Refused with `Overflow` of the first extent of the whole that is out of range, and with `OutOfMemory`, also where
    /// these boxes are not there.
    pub fn limits(
        &mut self,
        fonts: &FontSet,
        size: Size,
        delta: Length,
        scripts: Scripts,
    ) -> Result<(), PackError>
        requires { Within (2 ^ 40) delta.sp }
        ensures { (rest : List PieceValue) → (n : Layout) → (above below : Option Layout) → AreThere scripts above below
            → self.old ≡ rest ++ PieceBox (pos 0) n ∷ script_boxes above below
            → PacksPieces result self.new (boxed_on rest (limits.limits fonts.now size n delta.sp above below)) }
    {
        let taken = take_scripts(&mut self.marks, &mut self.parts, scripts)?;
        let nucleus = take_box(&mut self.marks, &mut self.parts)?;
        let made = limit_layers(&mut self.marks, fonts, size, nucleus, delta, taken);
        let keep = self.parts.len();
        settle(&mut self.marks, &mut self.parts, keep, made)
    }
}

// The last part taken off. Where it is no box, the answer is that memory ran out, and there are no parts and no layers.
fn take_box(marks: &mut Marks, parts: &mut Vec<RowPart>) -> Result<RowPiece, PackError>
    ensures parts { IfOk result (λ p. reverse parts.old.items ≡ RowPart.Layout p ∷ reverse parts.new.items) }
    ensures marks { OnOk result (marks.new ≡ marks.old) }
    ensures memory { OnErr result (result ≡ Err PackError.OutOfMemory) }
    ensures no_marks { OnErr result (marks.new ≡ []) }
    ensures no_parts { OnErr result (parts.new.items ≡ []) }
{
    match pop_box(parts) {
        Some(piece) => Ok(piece),
        None => {
            marks.clear();
            parts.clear();
            Err(PackError::OutOfMemory)
        }
    }
}

// The layouts of an operator, of its superscript and, on top, of its subscript, where they are there, become one.
fn limit_layers(
    marks: &mut Marks,
    fonts: &FontSet,
    size: Size,
    nucleus: RowPiece,
    delta: Length,
    taken: Taken,
) -> Result<Extents, PackError>
    requires nucleus { ExtentsInRange nucleus.extents }
    requires delta { Within (2 ^ 40) delta.sp }
    requires sup { ForSome taken.sup (λ p. ExtentsInRange p.extents) }
    requires sub { ForSome taken.sub (λ p. ExtentsInRange p.extents) }
    ensures is { (n s b : List Place) → (rest : List (List Place)) → IsLimit (extents_if taken.sup) s → IsLimit (extents_if taken.sub) b
        → marks.old ≡ layer_if taken.sub b (layer_if taken.sup s (n ∷ rest))
        → BoxSetsOn result (top marks.new) (limits.limits fonts.now size (layout_with nucleus.extents n) delta.sp
        (limit_of (extents_if taken.sup) s) (limit_of (extents_if taken.sub) b)) }
    ensures rest { (n s b : List Place) → (rest : List (List Place)) → IsLimit (extents_if taken.sup) s → IsLimit (extents_if taken.sub) b
        → marks.old ≡ layer_if taken.sub b (layer_if taken.sup s (n ∷ rest))
        → OnOk result (marks.new ≡ top marks.new ∷ rest) }
    ensures in_range { IfOk result ExtentsInRange }
{
    lay_absent(marks, taken)?;
    let sup = extents_if(taken.sup);
    let sub = extents_if(taken.sub);
    limits_on_marks(marks, fonts, size, nucleus.extents, delta, sup, sub)
}

// Layouts without marks where there is no script.
fn lay_absent(marks: &mut Marks, taken: Taken) -> Result<(), AllocError>
    ensures { (s b : List Place) → (rest : List (List Place)) → IsLimit (extents_if taken.sup) s → IsLimit (extents_if taken.sub) b
        → marks.old ≡ layer_if taken.sub b (layer_if taken.sup s rest) → OnOk result (marks.new ≡ b ∷ s ∷ rest) }
{
    match (taken.sup, taken.sub) {
        (Some(_), Some(_)) => Ok(()),
        (Some(_), None) => marks.begin(),
        (None, Some(_)) => {
            marks.begin()?;
            marks.swap(0);
            Ok(())
        }
        (None, None) => {
            marks.begin()?;
            marks.begin()
        }
    }
}

fn extents_if(piece: Option<RowPiece>) -> Option<Extents>
    requires { ForSome piece (λ p. ExtentsInRange p.extents) }
    ensures is { result ≡ extents_if piece }
    ensures in_range { ForSome result ExtentsInRange }
{
    match piece {
        None => None,
        Some(piece) => Some(piece.extents),
    }
}
