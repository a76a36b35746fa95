//! Pieces packed.
ghost use Rattle.std.specs.Prelude.{◌≡◌, ◌≤◌, ◌≤ℤ◌, ◌^◌, ◌∷◌, [], ℕ, length, map, take, drop, List, IfOk, OnOk};
ghost use Rattle.mt_scaled.specs.Number.{Within};
ghost use Rattle.mt_box.specs.declared.place.Place.{Place};
ghost use Rattle.mt_box.specs.Extents.{ExtentsInRange};
ghost use Rattle.mt_box.specs.Rows.{PieceGlyph, PieceKern, PieceValue, piece_shrink, row_width, row_height, row_depth, row_shrink};
ghost use Rattle.mt_box.specs.SetRows.{pack_to};
ghost use Rattle.mt_box.specs.marks.Layers.{top};
ghost use Rattle.mt_box.specs.marks.RowParts.{AreParts, AllNearParts, on_stack, part_shrink, part_width, parts_sum};
ghost use Rattle.mt_rules.specs.Nuclei.{make_clean};
ghost use Rattle.mt_rules.specs.OnMarks.{BoxSetsOn};
ghost use Rattle.mt_rules.specs.Setting.{make_box, pack_row};
ghost use Rattle.mt_pieces.specs.Putting.{boxed_on, PacksPieces};
ghost use Rattle.mt_pieces.specs.inner.LastParts.{is_lone_part};

use crate::pieces::Pieces;
use crate::putting::settle;
use mt_box::{
    Extents, Marks, PackError, RowPart, RowPiece, pack_parts, pack_parts_to, parts_extents,
    parts_shrink,
};
use mt_rules::tested_extents;
use mt_scaled::Length;

impl Pieces {
    /// What the row of the pieces from number `first` on reaches, in range or not. These are at most 2^21.
    pub fn reach(&self, first: usize) -> Extents
        requires few { length (drop first self.now) ≤ 2 ^ 21 }
        ensures width { result.width ≡ row_width (drop first self.now) }
        ensures height { result.height ≡ row_height (drop first self.now) }
        ensures depth { result.depth ≡ row_depth (drop first self.now) }
        ensures wide { Within (2 ^ 61) result.width }
    {
        parts_extents(parts_from(&self.parts, first))
    }

    /// By how much the spaces of the pieces from number `first` on may shrink together. These are at most 2^21.
    pub fn shrink(&self, first: usize) -> Length
        requires few { length (drop first self.now) ≤ 2 ^ 21 }
        ensures is { result.sp ≡ row_shrink (drop first self.now) }
        ensures small { Within (2 ^ 61) result.sp }
    {
        parts_shrink(parts_from(&self.parts, first))
    }

    /// The pieces from number `first` on, at most 2^21, packed: the box of their row comes in their place.
    ///
    /// Refused with `Overflow` of the first of width, height and depth that is out of range, and with `OutOfMemory`.
    pub fn pack(&mut self, first: usize) -> Result<(), PackError>
        requires few { length (drop first self.old) ≤ 2 ^ 21 }
        ensures { PacksPieces result self.new (boxed_on (take first self.old) (pack_row (drop first self.old))) }
    {
        let made = pack_layers(&mut self.marks, parts_from(&self.parts, first));
        settle(&mut self.marks, &mut self.parts, first, made)
    }

    /// A character of a font and a kern after it, packed, behind the others: the box of a row of both. The font is its
    /// number in the font list, the extents of the character are in range, and the kern is at most 2^40 in size.
    ///
    /// Refused as by [`Pieces::pack`].
    pub fn put_glyph_box(
        &mut self,
        font: u16,
        code: u8,
        extents: Extents,
        kern: Length,
    ) -> Result<(), PackError>
        requires extents { ExtentsInRange extents }
        requires kern { Within (2 ^ 40) kern.sp }
        ensures { PacksPieces result self.new
            (boxed_on self.old (pack_row (PieceGlyph font code extents ∷ PieceKern kern.sp ∷ []))) }
    {
        let keep = self.parts.len();
        let made = glyph_layer(&mut self.marks, font, code, extents, kern);
        settle(&mut self.marks, &mut self.parts, keep, made)
    }

    /// The pieces from number `first` on, at most 2^21, as a row set to a width that is at most its own, as by
    /// `mt_box::hpack_to` (tex.web §664, §665). The width is at most 2^62 scaled points in size.
    ///
    /// Refused as by [`Pieces::pack`].
    pub fn pack_to(&mut self, first: usize, width: Length) -> Result<(), PackError>
        requires few { length (drop first self.old) ≤ 2 ^ 21 }
        requires small { Within (2 ^ 62) width.sp }
        requires narrow { width.sp ≤ℤ row_width (drop first self.old) }
        ensures { PacksPieces result self.new
            (boxed_on (take first self.old) (make_box (pack_to (drop first self.old) width.sp))) }
    {
        let made = set_layers(&mut self.marks, parts_from(&self.parts, first), width);
        settle(&mut self.marks, &mut self.parts, first, made)
    }

    /// The clean box of the pieces from number `first` on, at most 2^21 (tex.web §720): a lone box that is not raised
    /// stays, and others are packed as by [`Pieces::pack`]. A character is no box here.
    pub fn clean(&mut self, first: usize) -> Result<(), PackError>
        requires few { length (drop first self.old) ≤ 2 ^ 21 }
        ensures { PacksPieces result self.new (boxed_on (take first self.old) (make_clean (drop first self.old))) }
    {
        if is_lone_box(parts_from(&self.parts, first)) {
            return Ok(());
        }
        self.pack(first)
    }
}

// The row of these parts becomes the layout on top, which is tested.
fn pack_layers(marks: &mut Marks, parts: &[RowPart]) -> Result<Extents, PackError>
    requires few { length parts.now ≤ 2 ^ 21 }
    requires near { AllNearParts parts.now }
    ensures is { (ms : List PieceValue) → (ls rest : List (List Place)) → AreParts ms parts.now ls → marks.old ≡ on_stack ls rest
        → BoxSetsOn result (top marks.new) (pack_row ms) }
    ensures rest { (ms : List PieceValue) → (ls rest : List (List Place)) → AreParts ms parts.now ls → marks.old ≡ on_stack ls rest
        → OnOk result (marks.new ≡ top marks.new ∷ rest) }
    ensures in_range { IfOk result ExtentsInRange }
{
    let extents = pack_parts(marks, parts)?;
    tested_extents(extents)
}

// The box of a character and a kern after it becomes the layout on top, which is tested.
fn glyph_layer(
    marks: &mut Marks,
    font: u16,
    code: u8,
    extents: Extents,
    kern: Length,
) -> Result<Extents, PackError>
    requires extents { ExtentsInRange extents }
    requires kern { Within (2 ^ 40) kern.sp }
    ensures is { BoxSetsOn result (top marks.new)
        (pack_row (PieceGlyph font code extents ∷ PieceKern kern.sp ∷ [])) }
    ensures rest { OnOk result (marks.new ≡ top marks.new ∷ marks.old) }
    ensures in_range { IfOk result ExtentsInRange }
{
    marks.push_glyph(font, code)?;
    tested_extents(extents_with_kern(extents, kern))
}

// What a character and a kern after it reach as a row.
#[tactic(auto, using(std::proofs::lemmas::Int::ints, std::proofs::lemmas::Int::clamps))]
fn extents_with_kern(extents: Extents, kern: Length) -> Extents
    requires extents { ExtentsInRange extents }
    requires kern { Within (2 ^ 40) kern.sp }
    ensures width { (font code : ℕ) → result.width ≡ row_width (PieceGlyph font code extents ∷ PieceKern kern.sp ∷ []) }
    ensures height { (font code : ℕ) → result.height ≡ row_height (PieceGlyph font code extents ∷ PieceKern kern.sp ∷ []) }
    ensures depth { (font code : ℕ) → result.depth ≡ row_depth (PieceGlyph font code extents ∷ PieceKern kern.sp ∷ []) }
{
    Extents {
        width: extents.width + kern.sp,
        height: extents.height.max(0),
        depth: extents.depth.max(0),
    }
}

// The parts from number `first` on.
pub(crate) fn parts_from(parts: &[RowPart], first: usize) -> &[RowPart]
    ensures { result.now ≡ drop first parts.now }
{
    &parts[first.min(parts.len())..]
}

// The same for a row that is set to a width.
fn set_layers(marks: &mut Marks, parts: &[RowPart], width: Length) -> Result<Extents, PackError>
    requires few { length parts.now ≤ 2 ^ 21 }
    requires near { AllNearParts parts.now }
    requires small { Within (2 ^ 62) width.sp }
    requires narrow { width.sp ≤ℤ parts_sum part_width parts.now }
    ensures is { (ms : List PieceValue) → (ls rest : List (List Place)) → AreParts ms parts.now ls
        → map piece_shrink ms ≡ map part_shrink parts.now → marks.old ≡ on_stack ls rest
        → BoxSetsOn result (top marks.new) (make_box (pack_to ms width.sp)) }
    ensures rest { (ms : List PieceValue) → (ls rest : List (List Place)) → AreParts ms parts.now ls
        → map piece_shrink ms ≡ map part_shrink parts.now → marks.old ≡ on_stack ls rest
        → OnOk result (marks.new ≡ top marks.new ∷ rest) }
    ensures in_range { IfOk result ExtentsInRange }
{
    let extents = pack_parts_to(marks, parts, width)?;
    tested_extents(extents)
}

fn is_lone_box(parts: &[RowPart]) -> bool
    ensures { result ≡ is_lone_part parts.now }
{
    matches!(parts, [RowPart::Layout(RowPiece { raise: 0, .. })])
}
