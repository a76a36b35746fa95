//! Tables of the last pieces (plain TeX's \matrix and \eqalign).
ghost use Rattle.std.specs.Prelude.{◌≡◌, ◌≤◌, ◌^◌, ◌∷◌, ◌++◌, All, length, map, List, IfOk, OnOk};
ghost use Rattle.mt_box.specs.declared.place.Place.{Place};
ghost use Rattle.mt_box.specs.Extents.{ExtentsInRange};
ghost use Rattle.mt_box.specs.Rows.{PieceValue};
ghost use Rattle.mt_box.specs.marks.Layers.{top};
ghost use Rattle.mt_box.specs.marks.RowParts.{AreParts, on_stack};
ghost use Rattle.mt_rules.specs.OnMarks.{BoxSetsOn};
ghost use Rattle.mt_rules.specs.Tables.{Cells, equations_table, matrix_table};
ghost use Rattle.mt_pieces.specs.Celled.{cell_pieces};
ghost use Rattle.mt_pieces.specs.Putting.{PacksPieces, boxed_on};
ghost use Rattle.mt_pieces.specs.inner.Cells.{AreBoxes, BoxesInRange, flat};

use crate::packing::parts_from;
use crate::pieces::Pieces;
use crate::putting::settle;
use mt_align::{CellExtents, TableExtents, equations_on_marks, matrix_on_marks};
use mt_box::{Extents, Marks, PackError, RowPart, RowPiece};
use mt_family::{FontSet, Size};
use std::alloc::{AllocError, Global};

// The last pieces are the cells, row by row, each a box that is not raised. A row has so many of them as `rows` says.
impl Pieces {
    /// The cells from number `first` on become the matrix, as by `align_matrix` of mt_align. There are at most 2^19 rows,
    /// and at most 2^19 cells in each, and the strut's extents are in range.
    ///
    /// Refused as by `align_matrix`, and with `OutOfMemory` where the cells are not there.
    pub fn matrix(
        &mut self,
        alloc: Global,
        fonts: &FontSet,
        size: Size,
        strut: Extents,
        first: usize,
        rows: &[usize],
    ) -> Result<(), PackError>
        requires strut { ExtentsInRange strut }
        requires few_rows { length rows.now ≤ 2 ^ 19 }
        requires few_cells { All (λ n. n ≤ 2 ^ 19) rows.now }
        ensures { (rest : List PieceValue) → (cells : List Cells) → length rest ≡ first → rows.now ≡ map length cells
            → self.old ≡ rest ++ cell_pieces cells
            → PacksPieces result self.new (boxed_on rest (matrix_table fonts.now size strut cells)) }
    {
        let parts = parts_from(&self.parts, first);
        let made = matrix_layers(alloc, &mut self.marks, parts, fonts, size, strut, rows);
        settle(&mut self.marks, &mut self.parts, first, made)
    }

    /// The sides of equations from number `first` on become the equations, as by `align_equations` of mt_align. There are
    /// at most 2^19 rows, and at most two cells in each.
    ///
    /// Refused as by `align_equations`, and with `OutOfMemory` where the cells are not there.
    pub fn equations(
        &mut self,
        alloc: Global,
        fonts: &FontSet,
        size: Size,
        first: usize,
        rows: &[usize],
    ) -> Result<(), PackError>
        requires few_rows { length rows.now ≤ 2 ^ 19 }
        requires two_cells { All (λ n. n ≤ 2) rows.now }
        ensures { (rest : List PieceValue) → (cells : List Cells) → length rest ≡ first → rows.now ≡ map length cells
            → self.old ≡ rest ++ cell_pieces cells
            → PacksPieces result self.new (boxed_on rest (equations_table fonts.now size cells)) }
    {
        let parts = parts_from(&self.parts, first);
        let made = equations_layers(alloc, &mut self.marks, parts, fonts, size, rows);
        settle(&mut self.marks, &mut self.parts, first, made)
    }
}

// The layouts of the cells of a matrix become one.
fn matrix_layers(
    alloc: Global,
    marks: &mut Marks,
    parts: &[RowPart],
    fonts: &FontSet,
    size: Size,
    strut: Extents,
    rows: &[usize],
) -> Result<Extents, PackError>
    requires strut { ExtentsInRange strut }
    requires few_rows { length rows.now ≤ 2 ^ 19 }
    requires few_cells { All (λ n. n ≤ 2 ^ 19) rows.now }
    requires in_range { BoxesInRange parts.now }
    ensures is { (cells : List Cells) → (ls rest : List (List Place)) → AreParts (cell_pieces cells) parts.now ls
        → rows.now ≡ map length cells → marks.old ≡ on_stack ls rest
        → BoxSetsOn result (top marks.new) (matrix_table fonts.now size strut cells) }
    ensures rest { (ms : List PieceValue) → (ls rest : List (List Place)) → AreParts ms parts.now ls → marks.old ≡ on_stack ls rest
        → OnOk result (marks.new ≡ top marks.new ∷ rest) }
    ensures in_range { IfOk result ExtentsInRange }
{
    let cells = table_extents(alloc, parts, rows)?;
    matrix_on_marks(alloc, marks, fonts, size, strut, &cells)
}

// The layouts of the sides of equations become one.
fn equations_layers(
    alloc: Global,
    marks: &mut Marks,
    parts: &[RowPart],
    fonts: &FontSet,
    size: Size,
    rows: &[usize],
) -> Result<Extents, PackError>
    requires few_rows { length rows.now ≤ 2 ^ 19 }
    requires two_cells { All (λ n. n ≤ 2) rows.now }
    requires in_range { BoxesInRange parts.now }
    ensures is { (cells : List Cells) → (ls rest : List (List Place)) → AreParts (cell_pieces cells) parts.now ls
        → rows.now ≡ map length cells → marks.old ≡ on_stack ls rest
        → BoxSetsOn result (top marks.new) (equations_table fonts.now size cells) }
    ensures rest { (ms : List PieceValue) → (ls rest : List (List Place)) → AreParts ms parts.now ls → marks.old ≡ on_stack ls rest
        → OnOk result (marks.new ≡ top marks.new ∷ rest) }
    ensures in_range { IfOk result ExtentsInRange }
{
    let cells = table_extents(alloc, parts, rows)?;
    equations_on_marks(alloc, marks, fonts, size, &cells)
}

// What the cells reach, row by row. Where the parts are no such cells, the answer is that memory ran out.
fn table_extents(
    alloc: Global,
    parts: &[RowPart],
    rows: &[usize],
) -> Result<TableExtents, AllocError>
    requires { BoxesInRange parts.now }
    ensures boxes { IfOk result (λ t. AreBoxes parts.now (flat t)) }
    ensures counts { IfOk result (λ t. map length t ≡ rows.now) }
    ensures in_range { IfOk result (All (All ExtentsInRange)) }
{
    let mut extents = Vec::with_capacity(alloc, rows.len())?;
    let mut rest = parts;
    for count in rows {
        if rest.len() < *count {
            return Err(AllocError);
        }
        let (cells, others) = rest.split_at(*count);
        extents.push(row_extents(alloc, cells)?)?;
        rest = others;
    }
    if !rest.is_empty() {
        return Err(AllocError);
    }
    Ok(TableExtents::from_vec(extents))
}

// What the cells of a row reach.
pub(crate) fn row_extents(alloc: Global, parts: &[RowPart]) -> Result<CellExtents, AllocError>
    requires { BoxesInRange parts.now }
    ensures boxes { IfOk result (AreBoxes parts.now) }
    ensures in_range { IfOk result (All ExtentsInRange) }
{
    let mut extents = Vec::with_capacity(alloc, parts.len())?;
    for part in parts {
        match part {
            RowPart::Layout(
                RowPiece {
                    extents: cell,
                    raise: 0,
                },
            ) => extents.push(*cell)?,
            _ => return Err(AllocError),
        }
    }
    Ok(CellExtents::from_vec(extents))
}
