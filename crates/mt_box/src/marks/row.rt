//! Rows of layouts with gaps and spaces between them (tex.web §649 to §656, §664, §665).
ghost use Rattle.std.specs.Prelude.{◌≡◌, ◌≤◌, ◌≤ℤ◌, ◌^◌, ◌+ℤ◌, ◌-ℤ◌, ◌∷◌, pos, length, map, List, OnOk, IfOk};
ghost use Rattle.std.specs.Int.{int_max};
ghost use Rattle.mt_scaled.specs.Number.{Within};
ghost use Rattle.mt_box.specs.declared.place.Place.{Place};
ghost use Rattle.mt_box.specs.Rows.{PieceValue, pack, piece_shrink};
ghost use Rattle.mt_box.specs.SetRows.{IsShrink, pack_to, shrunk};
ghost use Rattle.mt_box.specs.marks.RowParts.{AreParts, IsNear, IsNearPart, AllNearParts, on_stack, glyph_piece, part_piece, part_width, part_height, part_depth, part_shrink, parts_sum, parts_max, parts_joined};

use crate::Extents;
use crate::marks::moves::Move;
use crate::marks::stack::Marks;
use crate::setting::Shrink;
use mt_scaled::Length;
use std::alloc::AllocError;

/// What a layout in a row reaches from its reference point, and how far it is raised above the row's baseline.
#[derive(Clone, Copy, Debug, PartialEq, Eq)]
pub struct RowPiece {
    /// From its reference point, in scaled points.
    pub extents: Extents,
    /// Above the baseline of the row, in scaled points.
    pub raise: i64,
}

/// A part of a row: a character, another layout, or a gap or a space between others.
#[derive(Clone, Copy, Debug, PartialEq, Eq)]
pub enum RowPart {
    /// A character of a font on the row's baseline, whose layer is its mark alone.
    Glyph {
        /// The number of the font in the font list.
        font: u16,
        /// The character's number in the font.
        code: u8,
        /// What the character reaches, in scaled points.
        extents: Extents,
    },
    /// A layout, whose marks are those of a layer.
    Layout(RowPiece),
    /// So many scaled points to the right.
    Gap(i64),
    /// A gap that may shrink.
    Space {
        /// In scaled points.
        width: i64,
        /// By how much it may shrink, in scaled points.
        shrink: i64,
    },
}

/// The row of the layouts on top, the last of which is the top one, with gaps between them, and with spaces as they are:
/// they become one layout, and the answer is what it reaches. There is a layout for each part that is no gap and no space,
/// there are at most 2^21 parts, no width and no shrink is greater than 2^40 in size, and no other number than 2^48.
pub fn pack_parts(marks: &mut Marks, parts: &[RowPart]) -> Result<Extents, AllocError>
    requires few { length parts.now ≤ 2 ^ 21 }
    requires near { AllNearParts parts.now }
    ensures marks { (ms : List PieceValue) → (ls rest : List (List Place)) → AreParts ms parts.now ls
        → marks.old ≡ on_stack ls rest → OnOk result (marks.new ≡ (pack ms).places ∷ rest) }
    ensures extents { (ms : List PieceValue) → (ls : List (List Place)) → AreParts ms parts.now ls
        → IfOk result (λ e. e ≡ (pack ms).extents) }
{
    let row = reach_of(parts);
    marks.begin()?;
    join_parts(marks, parts, row, Shrink::NONE)?;
    Ok(row.extents())
}

/// The row of the layouts on top, as by [`pack_parts`], set to a width that is at most its own, as by
/// [`crate::hpack_to`] (tex.web §664, §665). The conditions of [`pack_parts`] hold, and the width is at most 2^62
/// scaled points in size.
pub fn pack_parts_to(
    marks: &mut Marks,
    parts: &[RowPart],
    width: Length,
) -> Result<Extents, AllocError>
    requires few { length parts.now ≤ 2 ^ 21 }
    requires near { AllNearParts parts.now }
    requires small { Within (2 ^ 62) width.sp }
    requires narrow { width.sp ≤ℤ parts_sum part_width parts.now }
    ensures marks { (ms : List PieceValue) → (ls rest : List (List Place)) → AreParts ms parts.now ls
        → map piece_shrink ms ≡ map part_shrink parts.now
        → marks.old ≡ on_stack ls rest → OnOk result (marks.new ≡ (pack_to ms width.sp).places ∷ rest) }
    ensures extents { (ms : List PieceValue) → (ls : List (List Place)) → AreParts ms parts.now ls
        → IfOk result (λ e. e ≡ (pack_to ms width.sp).extents) }
{
    let row = reach_of(parts);
    marks.begin()?;
    join_parts(marks, parts, row, Shrink::of(row, width))?;
    Ok(row.widened(width).extents())
}

// What a row reaches with its spaces as they are, and by how much these may shrink.
#[derive(Clone, Copy)]
pub(crate) struct RowReach {
    pub(crate) width: i64,
    pub(crate) height: i64,
    pub(crate) depth: i64,
    pub(crate) shrink: i64,
}

impl RowReach {
    pub(crate) const NONE: RowReach = RowReach {
        width: 0,
        height: 0,
        depth: 0,
        shrink: 0,
    };

    // With a part more.
    #[tactic(auto, using(std::proofs::lemmas::Int::ints, std::proofs::lemmas::Int::clamps))]
    pub(crate) fn with(self, part: &RowPart) -> RowReach
        requires width { Within (2 ^ 61) self.width }
        requires shrink { Within (2 ^ 61) self.shrink }
        requires part { IsNearPart part.now }
        ensures width { result.width ≡ self.width +ℤ part_width part.now }
        ensures height { result.height ≡ int_max self.height (part_height part.now) }
        ensures depth { result.depth ≡ int_max self.depth (part_depth part.now) }
        ensures shrink { result.shrink ≡ self.shrink +ℤ part_shrink part.now }
    {
        let reach = RowReach::of(part);
        RowReach {
            width: self.width + reach.width,
            height: self.height.max(reach.height),
            depth: self.depth.max(reach.depth),
            shrink: self.shrink + reach.shrink,
        }
    }

    #[tactic(auto, using(std::proofs::lemmas::Int::ints))]
    fn of(part: &RowPart) -> RowReach
        requires { IsNearPart part.now }
        ensures width { result.width ≡ part_width part.now }
        ensures height { result.height ≡ part_height part.now }
        ensures depth { result.depth ≡ part_depth part.now }
        ensures shrink { result.shrink ≡ part_shrink part.now }
        ensures wide { Within (2 ^ 40) result.width }
        ensures soft { Within (2 ^ 40) result.shrink }
    {
        match part {
            RowPart::Glyph { extents, .. } => RowReach::of_piece(glyph_piece(*extents)),
            RowPart::Layout(piece) => RowReach::of_piece(*piece),
            RowPart::Gap(width) => RowReach {
                width: *width,
                ..RowReach::NONE
            },
            RowPart::Space { width, shrink } => RowReach {
                width: *width,
                shrink: *shrink,
                ..RowReach::NONE
            },
        }
    }

    #[tactic(auto, using(std::proofs::lemmas::Int::ints))]
    fn of_piece(piece: RowPiece) -> RowReach
        requires { IsNear piece }
        ensures width { result.width ≡ piece.extents.width }
        ensures height { result.height ≡ piece.extents.height +ℤ piece.raise }
        ensures depth { result.depth ≡ piece.extents.depth -ℤ piece.raise }
        ensures shrink { result.shrink ≡ pos 0 }
    {
        RowReach {
            width: piece.extents.width,
            height: piece.extents.height + piece.raise,
            depth: piece.extents.depth - piece.raise,
            shrink: 0,
        }
    }

    // With this width.
    fn widened(self, width: Length) -> RowReach
        ensures { result ≡ record { width = width.sp; height = self.height; depth = self.depth; shrink = self.shrink } }
    {
        RowReach {
            width: width.sp,
            ..self
        }
    }

    pub(crate) fn extents(self) -> Extents
        ensures { result ≡ record { width = self.width; height = self.height; depth = self.depth } }
    {
        Extents {
            width: self.width,
            height: self.height,
            depth: self.depth,
        }
    }
}

// The layout of a part that has one.
fn piece_of(part: RowPart) -> Option<RowPiece>
    ensures { result ≡ part_piece part }
{
    match part {
        RowPart::Glyph { extents, .. } => Some(glyph_piece(extents)),
        RowPart::Layout(piece) => Some(piece),
        RowPart::Gap(_) | RowPart::Space { .. } => None,
    }
}

fn glyph_piece(extents: Extents) -> RowPiece
    ensures { result ≡ glyph_piece extents }
{
    RowPiece { extents, raise: 0 }
}

/// What the row of these parts reaches with its spaces as they are, in range or not, under the conditions of
/// [`pack_parts`].
pub fn parts_extents(parts: &[RowPart]) -> Extents
    requires few { length parts.now ≤ 2 ^ 21 }
    requires near { AllNearParts parts.now }
    ensures width { result.width ≡ parts_sum part_width parts.now }
    ensures height { result.height ≡ parts_max part_height parts.now }
    ensures depth { result.depth ≡ parts_max part_depth parts.now }
    ensures wide { Within (2 ^ 61) result.width }
{
    reach_of(parts).extents()
}

/// By how much the spaces of the row of these parts may shrink together, under the conditions of [`pack_parts`].
pub fn parts_shrink(parts: &[RowPart]) -> Length
    requires few { length parts.now ≤ 2 ^ 21 }
    requires near { AllNearParts parts.now }
    ensures is { result.sp ≡ parts_sum part_shrink parts.now }
    ensures small { Within (2 ^ 61) result.sp }
{
    Length {
        sp: reach_of(parts).shrink,
    }
}

/// What a row that reaches so far, at most 2^61 to the right, reaches with a layout after it. No number of the layout is
/// greater than those that [`pack_parts`] takes.
pub fn extents_beside(row: Extents, piece: RowPiece) -> Extents
    requires wide { Within (2 ^ 61) row.width }
    requires near { IsNear piece }
    ensures width { result.width ≡ row.width +ℤ piece.extents.width }
    ensures height { result.height ≡ int_max row.height (piece.extents.height +ℤ piece.raise) }
    ensures depth { result.depth ≡ int_max row.depth (piece.extents.depth -ℤ piece.raise) }
{
    let reach = RowReach {
        width: row.width,
        height: row.height,
        depth: row.depth,
        shrink: 0,
    };
    reach.with(&RowPart::Layout(piece)).extents()
}

fn reach_of(parts: &[RowPart]) -> RowReach
    requires few { length parts.now ≤ 2 ^ 21 }
    requires near { AllNearParts parts.now }
    ensures width { result.width ≡ parts_sum part_width parts.now }
    ensures height { result.height ≡ parts_max part_height parts.now }
    ensures depth { result.depth ≡ parts_max part_depth parts.now }
    ensures shrink { result.shrink ≡ parts_sum part_shrink parts.now }
    ensures wide { Within (2 ^ 61) result.width }
    ensures soft { Within (2 ^ 61) result.shrink }
{
    let mut row = RowReach::NONE;
    for i in (0..parts.len()).rev() {
        row = row.with(&parts[i]);
    }
    row
}

// The empty layout on top takes the layouts under it, from the last part of the row to the first: each is moved to where
// its part begins, and joined with what is on top.
fn join_parts(
    marks: &mut Marks,
    parts: &[RowPart],
    row: RowReach,
    shrink: Shrink,
) -> Result<(), AllocError>
    requires few { length parts.now ≤ 2 ^ 21 }
    requires near { AllNearParts parts.now }
    requires width { row.width ≡ parts_sum part_width parts.now }
    requires before { row.shrink ≡ parts_sum part_shrink parts.now }
    requires shrink { IsShrink shrink.most.sp shrink.used.sp }
    ensures { OnOk result (marks.new ≡ parts_joined shrink.most.sp shrink.used.sp (pos 0) (pos 0) parts.now marks.old) }
{
    let mut edge = Edge {
        x: row.width,
        before: row.shrink,
    };
    let mut i = parts.len();
    while i > 0 {
        i -= 1;
        let part = parts[i];
        edge = edge.before(&part);
        if let Some(piece) = piece_of(part) {
            marks.shift(1, edge.to(piece, shrink))?;
            marks.join();
        }
    }
    Ok(())
}

// Where a part of a row begins with the spaces as they are, and by how much those before it may shrink.
#[derive(Clone, Copy)]
struct Edge {
    x: i64,
    before: i64,
}

impl Edge {
    #[tactic(auto, using(std::proofs::lemmas::Int::ints))]
    fn before(self, part: &RowPart) -> Edge
        requires x { Within (2 ^ 61) self.x }
        requires before { Within (2 ^ 61) self.before }
        requires part { IsNearPart part.now }
        ensures x { result.x ≡ self.x -ℤ part_width part.now }
        ensures before { result.before ≡ self.before -ℤ part_shrink part.now }
    {
        let reach = RowReach::of(part);
        Edge {
            x: self.x - reach.width,
            before: self.before - reach.shrink,
        }
    }

    #[tactic(auto, using(std::proofs::lemmas::Int::ints))]
    fn to(self, piece: RowPiece, shrink: Shrink) -> Move
        requires x { Within (2 ^ 61) self.x }
        requires before { Within (2 ^ 61) self.before }
        requires shrink { IsShrink shrink.most.sp shrink.used.sp }
        ensures right { result.right ≡ self.x -ℤ shrunk shrink.most.sp shrink.used.sp self.before }
        ensures up { result.up ≡ piece.raise }
    {
        let x = Length { sp: self.x };
        let before = Length { sp: self.before };
        Move {
            right: x.minus(shrink.left(before)).sp,
            up: piece.raise,
        }
    }
}
