//! Pieces of rows that are made of boxes, put and taken.
ghost use Rattle.std.specs.Prelude.{◌≡◌, ◌≤◌, ◌++◌, ◌∷◌, [], length, pos, reverse, take, drop, List, ℤ, IfOk, OnOk};
ghost use Rattle.mt_box.specs.Layout.{Layout, layout_of};
ghost use Rattle.mt_box.specs.Rows.{PieceValue, PieceBox, piece_value, piece_values, AllMeasurable, AllModest, IsMeasurable, IsModest, row_level};
ghost use Rattle.mt_box.specs.marks.Layers.{top};
ghost use Rattle.mt_pieces.specs.inner.LastParts.{first_part};
ghost use Rattle.mt_pieces.specs.inner.Taken.{IsFirstLevel};
ghost use Rattle.mt_pieces.specs.inner.View.{piece_of, under, IsLaid};

use crate::pieces::Pieces;
use crate::putting::{box_part, put_part};
use crate::runs::has_layer;
use mt_box::{Marks, Packed, Piece, Row, RowPart, part_of, push_piece};
use std::alloc::{AllocError, Global};

impl Pieces {
    /// A piece of a row after the others. Each number in it is at most 2^40 in size.
    pub fn put_piece(&mut self, piece: Piece) -> Result<(), AllocError>
        requires { IsMeasurable piece }
        ensures { OnOk result (self.new ≡ self.old ++ piece_value piece ∷ []) }
    {
        let part = part_of(&piece);
        let laid = push_piece(&mut self.marks, &piece);
        put_part(&mut self.marks, &mut self.parts, laid, part)
    }

    /// The pieces of a row after the others, as by [`Pieces::put_piece`].
    pub fn put_row(&mut self, row: Row) -> Result<(), AllocError>
        requires { AllMeasurable row }
        ensures { OnOk result (self.new ≡ self.old ++ piece_values row) }
    {
        for piece in row.into_vec() {
            self.put_piece(piece)?;
        }
        Ok(())
    }

    /// A box after the others, not raised.
    pub fn put_box(&mut self, body: &Packed) -> Result<(), AllocError>
        ensures { OnOk result (self.new ≡ self.old ++ PieceBox (pos 0) (layout_of body.now) ∷ []) }
    {
        let part = box_part(body.extents());
        let laid = self.marks.push_box(body);
        put_part(&mut self.marks, &mut self.parts, laid, part)
    }

    /// The last piece, a box, which goes. The box is of level 1, and the raise of the piece is left out.
    ///
    /// Where the last piece is no box, this is refused.
    pub fn take_box(&mut self, alloc: Global) -> Result<Packed, AllocError>
        ensures is { (rest : List PieceValue) (raise : ℤ) (l : Layout) → self.old ≡ rest ++ PieceBox raise l ∷ []
            → IfOk result (λ b. layout_of b ≡ l) }
        ensures others { (rest : List PieceValue) (raise : ℤ) (l : Layout) → self.old ≡ rest ++ PieceBox raise l ∷ []
            → OnOk result (self.new ≡ rest) }
        ensures level { IfOk result (λ b. b.level ≡ 1) }
    {
        if self.len() == 0 {
            return Err(AllocError);
        }
        match self.take_last(alloc)? {
            Piece::Boxed { body, .. } => Ok(body),
            _ => Err(AllocError),
        }
    }

    /// The pieces from number `first` on, as a row of boxes of level 1. The others stay.
    pub fn take_row(&mut self, alloc: Global, first: usize) -> Result<Row, AllocError>
        ensures row { IfOk result (λ row. piece_values row ≡ drop first self.old) }
        ensures others { OnOk result (self.new ≡ take first self.old) }
        ensures measurable { IfOk result AllMeasurable }
        ensures levels { IfOk result (λ row. row_level row ≤ 2) }
        ensures modest { IfOk result AllModest }
    {
        let mut row = Vec::with_capacity(alloc, self.len().saturating_sub(first))?;
        'taking: while self.len() > first {
            let piece = self.take_last(alloc)?;
            row.push(piece)?;
        }
        row.reverse();
        Ok(Row::from_vec(row))
    }

    // The last piece, which goes.
    fn take_last(&mut self, alloc: Global) -> Result<Piece, AllocError>
        requires { 1 ≤ length self.old }
        ensures piece { (rest : List PieceValue) (m : PieceValue) → self.old ≡ rest ++ m ∷ [] → IfOk result (λ p. piece_value p ≡ m) }
        ensures others { (rest : List PieceValue) (m : PieceValue) → self.old ≡ rest ++ m ∷ [] → OnOk result (self.new ≡ rest) }
        ensures modest { IfOk result IsModest }
        ensures level { IfOk result IsFirstLevel }
    {
        let Some(part) = last_part(&self.parts) else {
            unreachable!();
        };
        let piece = taken(alloc, &self.marks, part)?;
        drop_layer(&mut self.marks, part);
        self.parts.pop();
        Ok(piece)
    }
}

fn last_part(parts: &[RowPart]) -> Option<RowPart>
    ensures { result ≡ first_part (reverse parts.now) }
{
    match parts {
        [.., part] => Some(*part),
        [] => None,
    }
}

// The piece of a part whose layer is on top.
#[tactic(auto, using(std::proofs::lemmas::Int::ints))]
fn taken(alloc: Global, marks: &Marks, part: RowPart) -> Result<Piece, AllocError>
    requires { IsLaid part marks.now }
    ensures is { IfOk result (λ p. piece_value p ≡ piece_of part (top marks.now)) }
    ensures modest { IfOk result IsModest }
    ensures level { IfOk result IsFirstLevel }
{
    match part {
        RowPart::Glyph {
            font,
            code,
            extents,
        } => Ok(Piece::Glyph {
            font,
            code,
            extents,
        }),
        RowPart::Layout(piece) => Ok(Piece::Boxed {
            raise: piece.raise,
            body: marks.top_box(alloc, piece.extents, 1)?,
        }),
        RowPart::Gap(width) => Ok(Piece::Kern(width)),
        RowPart::Space { width, shrink } => Ok(Piece::Space { width, shrink }),
    }
}

// Without the layer of a part, which is on top, if it has one.
fn drop_layer(marks: &mut Marks, part: RowPart)
    ensures { marks.new ≡ under part marks.old }
{
    if has_layer(&part) {
        marks.drop_top();
    }
}
