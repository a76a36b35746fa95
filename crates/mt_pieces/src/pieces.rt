//! The type, and the calls that put pieces.
ghost use Rattle.std.specs.Prelude.{◌≡◌, ◌^◌, [], ◌∷◌, ◌++◌, length, pos, IfOk, OnOk};
ghost use Rattle.mt_scaled.specs.Number.{Within};
ghost use Rattle.mt_box.specs.Extents.{ExtentsInRange};
ghost use Rattle.mt_box.specs.Rows.{PieceGlyph, PieceBox, PieceKern, PieceSpace};
ghost use Rattle.mt_rules.specs.Setting.{empty_layout};

use crate::gaps::Run;
use crate::items::PlacedItem;
use crate::putting::{box_part, put_part};
use mt_box::{Extents, Marks, RowPart};
use mt_scaled::Length;
use std::alloc::{AllocError, Global};
use std::marker::Model;

/// Pieces one after another. Contracts see all of them, in their order.
///
/// After a fault no clause says which pieces there are: those that the call has not touched, or none.
#[derive(Drop)]
pub struct Pieces {
    // a layer for each character and each box, the last one on top
    pub(crate) marks: Marks,
    pub(crate) parts: Vec<RowPart>,
    // memory for the runs of lists that are joined
    pub(crate) runs: Vec<Run>,
    // memory for the items of lists that are set
    pub(crate) items: Vec<Vec<PlacedItem>>,
}

impl Model for Pieces {
    ghost use Rattle.std.specs.Prelude.{List};
    ghost use Rattle.mt_box.specs.Rows.{PieceValue};

    ghost Value = { List PieceValue };

    ghost use Rattle.mt_pieces.specs.inner.View.{pieces_of, ArePieces};

    ghost view = { pieces_of };

    ghost invariant = { ArePieces };
}

/// A space between pieces.
#[derive(Clone, Copy, Debug, PartialEq, Eq)]
pub struct Space {
    /// In scaled points, at most 2^40 in size.
    pub width: i64,
    /// By how much it may shrink, in scaled points, at most 2^40 in size.
    pub shrink: i64,
}

impl Pieces {
    /// No piece.
    pub fn new(alloc: Global) -> Pieces
        ensures { result ≡ [] }
    {
        Pieces {
            marks: Marks::new(alloc),
            parts: Vec::new(alloc),
            runs: Vec::new(alloc),
            items: Vec::new(alloc),
        }
    }

    /// No piece, with room for so many pieces.
    pub fn with_capacity(alloc: Global, pieces: usize) -> Result<Pieces, AllocError>
        ensures { IfOk result (λ p. p ≡ []) }
    {
        Ok(Pieces {
            marks: Marks::with_capacity(alloc, pieces, pieces)?,
            parts: Vec::with_capacity(alloc, pieces)?,
            runs: Vec::new(alloc),
            items: Vec::new(alloc),
        })
    }

    /// How many pieces there are.
    pub fn len(&self) -> usize
        ensures { result ≡ length self.now }
    {
        self.parts.len()
    }

    /// Without pieces. What memory they had stays.
    pub fn clear(&mut self)
        ensures { self.new ≡ [] }
    {
        self.marks.clear();
        self.parts.clear();
    }

    /// A character of a font after the others. The font is its number in the font list, and the extents are in range.
    pub fn put_glyph(&mut self, font: u16, code: u8, extents: Extents) -> Result<(), AllocError>
        requires { ExtentsInRange extents }
        ensures { OnOk result (self.new ≡ self.old ++ PieceGlyph font code extents ∷ []) }
    {
        let laid = self.marks.push_glyph(font, code);
        let part = RowPart::Glyph {
            font,
            code,
            extents,
        };
        put_part(&mut self.marks, &mut self.parts, laid, part)
    }

    /// So many scaled points after the others, at most 2^40 in size.
    pub fn put_kern(&mut self, width: Length) -> Result<(), AllocError>
        requires { Within (2 ^ 40) width.sp }
        ensures { OnOk result (self.new ≡ self.old ++ PieceKern width.sp ∷ []) }
    {
        let part = RowPart::Gap(width.sp);
        put_part(&mut self.marks, &mut self.parts, Ok(()), part)
    }

    /// A space after the others.
    pub fn put_space(&mut self, space: Space) -> Result<(), AllocError>
        requires width { Within (2 ^ 40) space.width }
        requires shrink { Within (2 ^ 40) space.shrink }
        ensures { OnOk result (self.new ≡ self.old ++ PieceSpace space.width space.shrink ∷ []) }
    {
        let part = RowPart::Space {
            width: space.width,
            shrink: space.shrink,
        };
        put_part(&mut self.marks, &mut self.parts, Ok(()), part)
    }

    /// The box of an empty row after the others.
    pub fn put_empty(&mut self) -> Result<(), AllocError>
        ensures { OnOk result (self.new ≡ self.old ++ PieceBox (pos 0) empty_layout ∷ []) }
    {
        let laid = self.marks.begin();
        let part = box_part(NO_EXTENTS);
        put_part(&mut self.marks, &mut self.parts, laid, part)
    }
}

// What an empty row reaches.
pub(crate) const NO_EXTENTS: Extents = Extents {
    width: 0,
    height: 0,
    depth: 0,
};
