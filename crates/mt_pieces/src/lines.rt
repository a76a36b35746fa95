//! Rows one below another (The TeXbook, Appendix G, rule 8; tex.web §736).
ghost use Rattle.std.specs.Prelude.{◌≡◌, ◌≤◌, ◌^◌, ◌∷◌, ◌++◌, drop, length, List, IfOk, OnOk};
ghost use Rattle.mt_box.specs.declared.place.Place.{Place};
ghost use Rattle.mt_box.specs.Extents.{ExtentsInRange};
ghost use Rattle.mt_box.specs.Layout.{Layout};
ghost use Rattle.mt_box.specs.Rows.{PieceValue};
ghost use Rattle.mt_box.specs.marks.Layers.{top};
ghost use Rattle.mt_box.specs.marks.RowParts.{AreParts, on_stack};
ghost use Rattle.mt_rules.specs.OnMarks.{SetsOn};
ghost use Rattle.mt_rules.specs.Vcenter.{vcenter};
ghost use Rattle.mt_pieces.specs.Putting.{SetsPieces, boxed_on, unraised_boxes};
ghost use Rattle.mt_pieces.specs.inner.Cells.{BoxesInRange};

use crate::packing::parts_from;
use crate::pieces::Pieces;
use crate::putting::settle;
use crate::tables::row_extents;
use mt_box::{Extents, Marks, RowPart};
use mt_family::{FontSet, Size};
use mt_parts::vcenter_on_marks;
use mt_rules::PartError;
use std::alloc::Global;

impl Pieces {
    /// The rows from number `first` on, each a box that is not raised, become one box: one below another, the middle of
    /// the whole on the axis, as by `vcenter_box` of mt_parts. There are at most 2^20 rows.
    ///
    /// Refused as by `vcenter_box`, and with `OutOfMemory` where the pieces are no such boxes.
    pub fn vcenter(
        &mut self,
        alloc: Global,
        fonts: &FontSet,
        size: Size,
        first: usize,
    ) -> Result<(), PartError>
        requires few { length (drop first self.old) ≤ 2 ^ 20 }
        ensures { (rest : List PieceValue) → (rows : List Layout) → length rest ≡ first → self.old ≡ rest ++ unraised_boxes rows
            → SetsPieces result self.new (boxed_on rest (vcenter fonts.now size rows)) }
    {
        let parts = parts_from(&self.parts, first);
        let made = vcenter_layers(alloc, &mut self.marks, parts, fonts, size);
        settle(&mut self.marks, &mut self.parts, first, made)
    }
}

// The layouts of rows become one.
fn vcenter_layers(
    alloc: Global,
    marks: &mut Marks,
    parts: &[RowPart],
    fonts: &FontSet,
    size: Size,
) -> Result<Extents, PartError>
    requires few { length parts.now ≤ 2 ^ 20 }
    requires in_range { BoxesInRange parts.now }
    ensures is { (rows : List Layout) → (ls rest : List (List Place)) → AreParts (unraised_boxes rows) parts.now ls
        → marks.old ≡ on_stack ls rest → SetsOn result (top marks.new) (vcenter fonts.now size rows) }
    ensures rest { (ms : List PieceValue) → (ls rest : List (List Place)) → AreParts ms parts.now ls → marks.old ≡ on_stack ls rest
        → OnOk result (marks.new ≡ top marks.new ∷ rest) }
    ensures in_range { IfOk result ExtentsInRange }
{
    let rows = row_extents(alloc, parts)?;
    vcenter_on_marks(marks, fonts, size, rows.as_slice())
}
