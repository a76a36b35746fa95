//! Pieces copied, moved and taken out.
ghost use Rattle.std.specs.Prelude.{◌≡◌, ◌≤◌, ◌+◌, ◌-◌, [], ◌++◌, count_by, length, min, take, drop, List, IsOk, IfOk, OnErr, OnOk};
ghost use Rattle.mt_box.specs.Rows.{PieceValue};
ghost use Rattle.mt_pieces.specs.Runs.{IsAt};
ghost use Rattle.mt_pieces.specs.inner.LastParts.{has_layer};

use crate::packing::parts_from;
use crate::pieces::Pieces;
use mt_box::{Marks, RowPart, cut};
use std::alloc::AllocError;

/// A place among pieces: that of a piece, or behind all of them.
#[derive(Clone, Copy, Debug, PartialEq, Eq)]
pub struct PieceAt {
    // how many pieces are before it
    pub(crate) piece: usize,
    // and how many layers these have
    pub(crate) layer: usize,
}

impl Pieces {
    /// The place of piece number `first`, or behind all pieces where there are not so many.
    pub fn place_of(&self, first: usize) -> PieceAt
        ensures at { IsAt result self.now }
        ensures piece { result.piece ≡ min first (length self.now) }
    {
        let piece = first.min(self.parts.len());
        let above = count_layers(parts_from(&self.parts, piece));
        PieceAt {
            piece,
            layer: self.marks.len().saturating_sub(above),
        }
    }

    /// The place behind the piece at this place, or behind all pieces.
    pub fn place_after(&self, at: PieceAt) -> PieceAt
        requires { IsAt at self.now }
        ensures at { IsAt result self.now }
        ensures piece { result.piece ≡ min (at.piece + 1) (length self.now) }
    {
        self.after_run(at, 1)
    }

    // The place behind so many pieces from this place on, or behind all of these.
    fn after_run(&self, at: PieceAt, count: usize) -> PieceAt
        requires { IsAt at self.now }
        ensures at { IsAt result self.now }
        ensures piece { result.piece ≡ min (at.piece + count) (length self.now) }
    {
        let end = end_of_run(at.piece, count, self.parts.len());
        let layers = count_layers(parts_between(&self.parts, at.piece, end));
        PieceAt {
            piece: end,
            layer: at.layer + layers,
        }
    }

    /// Copies of so many pieces behind all others, in their order, the first of which is at this place. Where there are
    /// not so many from there on, of all of these. The answer is the place behind the pieces that were copied.
    ///
    /// A place stays that of its piece when pieces are put behind all others.
    pub fn copy_run(&mut self, at: PieceAt, count: usize) -> Result<PieceAt, AllocError>
        requires { IsAt at self.old }
        ensures pieces { OnOk result (self.new ≡ self.old ++ take count (drop at.piece self.old)) }
        ensures after { IfOk result (λ a. IsAt a self.new) }
        ensures piece { IfOk result (λ a. a.piece ≡ min (at.piece + count) (length self.old)) }
    {
        let after = self.after_run(at, count);
        let laid = self.marks.copy_run(at.layer, after.layer - at.layer);
        put_run(
            &mut self.marks,
            &mut self.parts,
            laid,
            at.piece,
            after.piece,
        )?;
        Ok(after)
    }

    /// So many pieces from number `first` on come behind all others, in their order. The answer is the number that the
    /// first of them has then.
    pub fn put_behind(&mut self, first: usize, count: usize) -> Result<usize, AllocError>
        ensures pieces { (before moved after : List PieceValue) → self.old ≡ before ++ (moved ++ after) → length before ≡ first
            → length moved ≡ count → OnOk result (self.new ≡ before ++ (after ++ moved)) }
        ensures number { (before moved after : List PieceValue) → self.old ≡ before ++ (moved ++ after) → length before ≡ first
            → length moved ≡ count → IfOk result (λ n. n ≡ length before + length after) }
        ensures few { IfOk result (λ n. length (drop n self.new) ≤ count) }
    {
        let at = self.place_of(first);
        self.copy_run(at, count)?;
        self.remove(first, count);
        Ok(self.len().saturating_sub(count))
    }

    /// Without so many pieces from number `first` on. This takes no memory.
    pub fn remove(&mut self, first: usize, count: usize)
        ensures { self.new ≡ take first self.old ++ drop (first + count) self.old }
    {
        let first = first.min(self.parts.len());
        let end = end_of_run(first, count, self.parts.len());
        let above = count_layers(parts_from(&self.parts, end));
        let gone = count_layers(&self.parts[first..end]);
        self.marks.remove(above, gone);
        cut(&mut self.parts, first, end);
    }
}

// A kern and a space have none.
pub(crate) fn has_layer(part: &RowPart) -> bool
    ensures { result ≡ has_layer part.now }
{
    matches!(part, RowPart::Glyph { .. } | RowPart::Layout(_))
}

fn count_layers(parts: &[RowPart]) -> usize
    ensures { result ≡ count_by has_layer parts.now }
{
    parts.iter().filter(|part| has_layer(part)).count()
}

// Where so many parts from `start` on end, or all parts, whose number is `len`.
pub(crate) fn end_of_run(start: usize, count: usize, len: usize) -> usize
    ensures { result ≡ min (start + count) len }
{
    start.saturating_add(count).min(len)
}

// The parts from `start` on before `end`.
fn parts_between(parts: &[RowPart], start: usize, end: usize) -> &[RowPart]
    requires start { start ≤ end }
    requires end { end ≤ length parts.now }
    ensures { result.now ≡ take (end - start) (drop start parts.now) }
{
    &parts[start..end]
}

// The parts from `start` on before `end` once more, whose layers were laid. After a fault there are no parts and no layers.
fn put_run(
    marks: &mut Marks,
    parts: &mut Vec<RowPart>,
    laid: Result<(), AllocError>,
    start: usize,
    end: usize,
) -> Result<(), AllocError>
    requires start { start ≤ end }
    requires end { end ≤ length parts.old.items }
    ensures laid { OnOk result (IsOk laid) }
    ensures marks { OnOk result (marks.new ≡ marks.old) }
    ensures parts { OnOk result (parts.new.items ≡ parts.old.items ++ take (end - start) (drop start parts.old.items)) }
    ensures no_marks { OnErr result (marks.new ≡ []) }
    ensures no_parts { OnErr result (parts.new.items ≡ []) }
{
    let put = push_run(parts, laid, start, end);
    if put.is_err() {
        marks.clear();
        parts.clear();
    }
    put
}

fn push_run(
    parts: &mut Vec<RowPart>,
    laid: Result<(), AllocError>,
    start: usize,
    end: usize,
) -> Result<(), AllocError>
    requires start { start ≤ end }
    requires end { end ≤ length parts.old.items }
    ensures laid { OnOk result (IsOk laid) }
    ensures parts { OnOk result (parts.new.items ≡ parts.old.items ++ take (end - start) (drop start parts.old.items)) }
{
    laid?;
    parts.extend_from_within(start..end)?;
    Ok(())
}
