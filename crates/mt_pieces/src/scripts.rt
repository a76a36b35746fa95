//! Scripts beside the last pieces (The TeXbook, Appendix G, rule 18; tex.web §756 to §759).
ghost use Rattle.std.specs.Prelude.{◌≡◌, ◌≤◌, ◌^◌, ◌+ℤ◌, ◌-ℤ◌, [], ◌∷◌, ◌++◌, drop, is_some, length, reverse, List, Option, IfErr, IfOk, IfSome, IsOk, OnErr, OnOk};
ghost use Rattle.std.specs.Int.{int_max};
ghost use Rattle.std.specs.Option.{ForSome};
ghost use Rattle.mt_scaled.specs.Number.{Within};
ghost use Rattle.mt_box.specs.declared.place.Place.{Place};
ghost use Rattle.mt_box.specs.Extents.{ExtentsInRange};
ghost use Rattle.mt_box.specs.Layout.{Layout};
ghost use Rattle.mt_box.specs.Rows.{PieceValue, pack};
ghost use Rattle.mt_box.specs.marks.Layers.{top};
ghost use Rattle.mt_box.specs.marks.RowParts.{AreParts, IsNear};
ghost use Rattle.mt_rules.specs.Scripts.{row_with_scripts};
ghost use Rattle.mt_rules.specs.Setting.{Setting};
ghost use Rattle.mt_scripts.specs.LimitMarks.{limit_of};
ghost use Rattle.mt_scripts.specs.Nuclei.{IsNucleusOf};
ghost use Rattle.mt_scripts.specs.Reaches.{ReachesWithin};
ghost use Rattle.mt_pieces.specs.Attaching.{AreThere, row_beside, row_on, script_boxes};
ghost use Rattle.mt_pieces.specs.Putting.{PacksPieces};
ghost use Rattle.mt_pieces.specs.inner.View.{IsBoxLaid};
ghost use Rattle.mt_pieces.specs.inner.Taken.{AllKept, AttachesOn, StandsOn, extents_if, layer_if, part_if, reach_with, tested_row};

use crate::packing::parts_from;
use crate::pieces::Pieces;
use crate::putting::push_part;
use mt_box::{Extents, Marks, PackError, RowPart, RowPiece, extents_beside, parts_extents};
use mt_family::FontSet;
use mt_rules::{Style, tested_extents};
use mt_scaled::Length;
use mt_scripts::{Nucleus, both_on_marks, sub_on_marks, sup_on_marks};

/// Which scripts of an atom there are.
#[derive(Clone, Copy, Debug, PartialEq, Eq)]
pub struct Scripts {
    /// Whether there is a superscript.
    pub sup: bool,
    /// Whether there is a subscript.
    pub sub: bool,
}

impl Pieces {
    /// The row of a nucleus, which are the pieces from number `first` on, with its scripts after it. After the nucleus
    /// come the boxes of the scripts that are there, the superscript first, and none of them is raised. `delta` is the
    /// italic correction that the nucleus does not have, at most 2^40 in size: with both scripts the superscript is
    /// so far to the right. From `first` on there are at most 2^21 pieces.
    ///
    /// Refused with `Overflow` of the first extent out of range of what is made in this order: the superscript and the
    /// subscript, each made wider, with both scripts their box, and the whole row; and with `OutOfMemory`, also where these
    /// boxes are not there.
    pub fn scripts(
        &mut self,
        fonts: &FontSet,
        style: Style,
        first: usize,
        delta: Length,
        scripts: Scripts,
    ) -> Result<(), PackError>
        requires few { length (drop first self.old) ≤ 2 ^ 21 }
        requires delta { Within (2 ^ 40) delta.sp }
        ensures { (before row : List PieceValue) → (above below : Option Layout) → AreThere scripts above below
            → length before ≡ first → self.old ≡ before ++ (row ++ script_boxes above below)
            → PacksPieces result self.new (row_on before (row_beside fonts.now style row delta.sp above below)) }
    {
        let glyph = self.begins_with_glyph(first);
        let taken = take_scripts(&mut self.marks, &mut self.parts, scripts)?;
        let nucleus = nucleus_of(parts_from(&self.parts, first), glyph);
        let made = attach_tested(&mut self.marks, fonts, style, nucleus, delta, taken);
        settle_scripts(&mut self.marks, &mut self.parts, made)
    }
}

// The boxes of scripts that were taken off.
#[derive(Clone, Copy)]
pub(crate) struct Taken {
    pub(crate) sup: Option<RowPiece>,
    pub(crate) sub: Option<RowPiece>,
}

// The boxes of the scripts that are there, taken off the parts. Where they are not there, the answer is that memory ran
// out, and there are no parts and no layers.
pub(crate) fn take_scripts(
    marks: &mut Marks,
    parts: &mut Vec<RowPart>,
    scripts: Scripts,
) -> Result<Taken, PackError>
    ensures parts { IfOk result (λ t. reverse parts.old.items ≡ part_if t.sub (part_if t.sup (reverse parts.new.items))) }
    ensures marks { OnOk result (marks.new ≡ marks.old) }
    ensures sup { IfOk result (λ t. is_some t.sup ≡ scripts.sup) }
    ensures sub { IfOk result (λ t. is_some t.sub ≡ scripts.sub) }
    ensures memory { OnErr result (result ≡ Err PackError.OutOfMemory) }
    ensures no_marks { OnErr result (marks.new ≡ []) }
    ensures no_parts { OnErr result (parts.new.items ≡ []) }
{
    match pop_scripts(parts, scripts) {
        Some(taken) => Ok(taken),
        None => {
            marks.clear();
            parts.clear();
            Err(PackError::OutOfMemory)
        }
    }
}

fn pop_scripts(parts: &mut Vec<RowPart>, scripts: Scripts) -> Option<Taken>
    ensures parts { IfSome result (λ t. reverse parts.old.items ≡ part_if t.sub (part_if t.sup (reverse parts.new.items))) }
    ensures sup { IfSome result (λ t. is_some t.sup ≡ scripts.sup) }
    ensures sub { IfSome result (λ t. is_some t.sub ≡ scripts.sub) }
{
    let sub = pop_if(parts, scripts.sub)?;
    let sup = pop_if(parts, scripts.sup)?;
    Some(Taken { sup, sub })
}

// The last part, if there is a script: none where that part is no box.
fn pop_if(parts: &mut Vec<RowPart>, there: bool) -> Option<Option<RowPiece>>
    ensures parts { IfSome result (λ o. reverse parts.old.items ≡ part_if o (reverse parts.new.items)) }
    ensures is { IfSome result (λ o. is_some o ≡ there) }
{
    if there {
        let piece = pop_box(parts)?;
        Some(Some(piece))
    } else {
        Some(None)
    }
}

// The last part taken off, if it is a box.
pub(crate) fn pop_box(parts: &mut Vec<RowPart>) -> Option<RowPiece>
    ensures { IfSome result (λ p. reverse parts.old.items ≡ RowPart.Layout p ∷ reverse parts.new.items) }
{
    match parts.pop() {
        Some(RowPart::Layout(piece)) => Some(piece),
        _ => None,
    }
}

// The nucleus of these parts.
fn nucleus_of(parts: &[RowPart], glyph: bool) -> Nucleus
    requires few { length parts.now ≤ 2 ^ 21 }
    requires kept { AllKept parts.now }
    ensures extents { (ms : List PieceValue) → (ls : List (List Place)) → AreParts ms parts.now ls
        → result.extents ≡ (pack ms).extents }
    ensures glyph { result.glyph ≡ glyph }
    ensures wide { Within (2 ^ 61) result.extents.width }
    ensures near { ReachesWithin (2 ^ 41) result.extents }
{
    Nucleus {
        extents: parts_extents(parts),
        glyph,
    }
}

// The layouts of scripts, that of the subscript on top, become one: the box that it is beside the nucleus. Without
// scripts there is none. The row of the nucleus and this box is tested.
fn attach_tested(
    marks: &mut Marks,
    fonts: &FontSet,
    style: Style,
    nucleus: Nucleus,
    delta: Length,
    taken: Taken,
) -> Result<Option<RowPiece>, PackError>
    requires wide { Within (2 ^ 61) nucleus.extents.width }
    requires nucleus { ReachesWithin (2 ^ 41) nucleus.extents }
    requires delta { Within (2 ^ 40) delta.sp }
    requires sup { ForSome taken.sup (λ p. ExtentsInRange p.extents) }
    requires sub { ForSome taken.sub (λ p. ExtentsInRange p.extents) }
    ensures is { (row : List PieceValue) → (s b : List Place) → (rest : List (List Place)) → IsNucleusOf row nucleus
        → marks.old ≡ layer_if taken.sub b (layer_if taken.sup s rest)
        → AttachesOn row result (top marks.new) (row_beside fonts.now style row delta.sp
        (limit_of (extents_if taken.sup) s) (limit_of (extents_if taken.sub) b)) }
    ensures rest { (s b : List Place) → (rest : List (List Place)) → marks.old ≡ layer_if taken.sub b (layer_if taken.sup s rest)
        → StandsOn result marks.new rest }
    ensures laid { IfOk result (λ o. ForSome o IsBoxLaid) }
{
    let made = attach(marks, fonts, style, nucleus, delta, taken);
    tested_row(nucleus.extents, made)
}

// The box beside a nucleus that reaches so far, if their row is in range.
fn tested_row(
    row: Extents,
    made: Result<Option<RowPiece>, PackError>,
) -> Result<Option<RowPiece>, PackError>
    requires wide { Within (2 ^ 61) row.width }
    requires reach { ReachesWithin (2 ^ 41) row }
    requires near { IfOk made (λ o. ForSome o IsNear) }
    requires in_range { IfOk made (λ o. ForSome o (λ p. ExtentsInRange p.extents)) }
    ensures is { (ms : List PieceValue) → (ps : List Place) → (setting : Setting (List PieceValue)) → row ≡ (pack ms).extents
        → AttachesOn ms made ps setting → AttachesOn ms result ps (tested_row setting) }
    ensures rest { (now rest : List (List Place)) → StandsOn made now rest → StandsOn result now rest }
    ensures laid { IfOk result (λ o. ForSome o IsBoxLaid) }
{
    match made {
        Err(fault) => Err(fault),
        Ok(piece) => match tested_extents(reach_with(row, piece)) {
            Err(fault) => Err(fault),
            Ok(_) => Ok(piece),
        },
    }
}

// The layouts of scripts, that of the subscript on top, become one: the box that it is beside the nucleus. Without
// scripts there is none.
#[tactic(auto, unfolding(mt_rules::specs::Scripts::row_with_scripts))]
fn attach(
    marks: &mut Marks,
    fonts: &FontSet,
    style: Style,
    nucleus: Nucleus,
    delta: Length,
    taken: Taken,
) -> Result<Option<RowPiece>, PackError>
    requires nucleus { ReachesWithin (2 ^ 41) nucleus.extents }
    requires delta { Within (2 ^ 40) delta.sp }
    requires sup { ForSome taken.sup (λ p. ExtentsInRange p.extents) }
    requires sub { ForSome taken.sub (λ p. ExtentsInRange p.extents) }
    ensures is { (row : List PieceValue) → (s b : List Place) → (rest : List (List Place)) → IsNucleusOf row nucleus
        → marks.old ≡ layer_if taken.sub b (layer_if taken.sup s rest)
        → AttachesOn row result (top marks.new) (row_with_scripts fonts.now style row delta.sp
        (limit_of (extents_if taken.sup) s) (limit_of (extents_if taken.sub) b)) }
    ensures rest { (s b : List Place) → (rest : List (List Place)) → marks.old ≡ layer_if taken.sub b (layer_if taken.sup s rest)
        → StandsOn result marks.new rest }
    ensures near { IfOk result (λ o. ForSome o IsNear) }
    ensures in_range { IfOk result (λ o. ForSome o (λ p. ExtentsInRange p.extents)) }
{
    match (taken.sup, taken.sub) {
        (None, None) => Ok(None),
        (Some(sup), None) => Ok(Some(sup_on_marks(fonts, style, nucleus, sup.extents)?)),
        (None, Some(sub)) => Ok(Some(sub_on_marks(fonts, style, nucleus, sub.extents)?)),
        (Some(sup), Some(sub)) => Ok(Some(both_on_marks(
            marks,
            fonts,
            style,
            nucleus,
            delta,
            sup.extents,
            sub.extents,
        )?)),
    }
}

// What a row reaches with a box after it, if there is one.
fn reach_with(row: Extents, piece: Option<RowPiece>) -> Extents
    requires wide { Within (2 ^ 61) row.width }
    requires reach { ReachesWithin (2 ^ 41) row }
    requires near { ForSome piece IsNear }
    ensures { result ≡ reach_with row piece }
{
    match piece {
        None => row,
        Some(piece) => extents_beside(row, piece),
    }
}

// The box that scripts were made, if there are any, after the parts. After a fault there are no parts and no layers.
fn settle_scripts(
    marks: &mut Marks,
    parts: &mut Vec<RowPart>,
    made: Result<Option<RowPiece>, PackError>,
) -> Result<(), PackError>
    ensures ok { OnOk result (IsOk made) }
    ensures marks { OnOk result (marks.new ≡ marks.old) }
    ensures parts { IfOk made (λ o. OnOk result (reverse parts.new.items ≡ part_if o (reverse parts.old.items))) }
    ensures no_marks { OnErr result (marks.new ≡ []) }
    ensures no_parts { OnErr result (parts.new.items ≡ []) }
    ensures fault { IfErr made (λ fault. result ≡ Err fault) }
    ensures memory { IfOk made (λ o. OnErr result (result ≡ Err PackError.OutOfMemory)) }
{
    let settled = push_scripts(parts, made);
    if settled.is_err() {
        marks.clear();
        parts.clear();
    }
    settled
}

fn push_scripts(
    parts: &mut Vec<RowPart>,
    made: Result<Option<RowPiece>, PackError>,
) -> Result<(), PackError>
    ensures ok { OnOk result (IsOk made) }
    ensures parts { IfOk made (λ o. OnOk result (reverse parts.new.items ≡ part_if o (reverse parts.old.items))) }
    ensures fault { IfErr made (λ fault. result ≡ Err fault) }
    ensures memory { IfOk made (λ o. OnErr result (result ≡ Err PackError.OutOfMemory)) }
{
    if let Some(piece) = made? {
        push_part(parts, Ok(()), RowPart::Layout(piece))?;
    }
    Ok(())
}
