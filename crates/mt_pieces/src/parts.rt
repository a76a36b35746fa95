//! Parts of formulas, which come in place of the last pieces.
ghost use Rattle.std.specs.Prelude.{◌≡◌, ◌^◌, ◌-◌, [], ◌∷◌, ◌++◌, pos, length, take, List, ℕ, ℤ, IfOk, IsOk, Ok, OnErr, OnOk};
ghost use Rattle.mt_scaled.specs.Number.{Within};
ghost use Rattle.mt_box.specs.declared.place.Place.{Place};
ghost use Rattle.mt_box.specs.Extents.{ExtentsInRange};
ghost use Rattle.mt_box.specs.Layout.{Layout};
ghost use Rattle.mt_box.specs.Rows.{PieceValue, PieceBox};
ghost use Rattle.mt_box.specs.marks.Layers.{top};
ghost use Rattle.mt_rules.specs.Accents as accents;
ghost use Rattle.mt_rules.specs.BigDelimiters.{big_delimiter};
ghost use Rattle.mt_rules.specs.Delimiters.{delimiter, piece_on_axis};
ghost use Rattle.mt_rules.specs.Fractions as fractions;
ghost use Rattle.mt_rules.specs.Lines as lines;
ghost use Rattle.mt_rules.specs.OnMarks.{SetsOn, layout_with};
ghost use Rattle.mt_rules.specs.Radicals as radicals;
ghost use Rattle.mt_rules.specs.Roots.{root_row};
ghost use Rattle.mt_rules.specs.Symbols.{find_symbol};
ghost use Rattle.mt_rules.specs.Veils.{veil_layout};
ghost use Rattle.mt_pieces.specs.Putting.{boundary_on, boxed_on, row_on, SetsPieces};
ghost use Rattle.mt_pieces.specs.inner.View.{root_parts};

use crate::last::{TwoBoxes, last_box, last_two, raised};
use crate::pieces::Pieces;
use crate::putting::{box_part, settle};
use mt_box::{Extents, Marks, RowPart};
use mt_delim::{delimiter_on_marks, raise_of};
use mt_family::{FontSet, Size};
use mt_parts::{
    RootKerns, accent_on_marks, big_on_marks, fraction_on_marks, overline_on_marks,
    radical_on_marks, raise_of_degree, root_kerns, underline_on_marks, veil_on_marks,
};
use mt_rules::{Delim, PartError, Style, Symbol};
use mt_scaled::Length;
use std::alloc::AllocError;

// Each call takes the last pieces off, which are boxes that are not raised, and leaves what it makes. Where they are no
// boxes, nothing changes.
impl Pieces {
    /// A delimiter of a wanted size, at most 2^40 scaled points, after the others, not raised.
    ///
    /// Refused as by `delimiter_on_marks` of mt_delim.
    pub fn put_delimiter(
        &mut self,
        fonts: &FontSet,
        d: Delim,
        size: Size,
        wanted: Length,
    ) -> Result<(), PartError>
        requires { Within (2 ^ 40) wanted.sp }
        ensures { SetsPieces result self.new (boxed_on self.old (delimiter fonts.now d size wanted.sp)) }
    {
        let keep = self.parts.len();
        let made = delimiter_on_marks(&mut self.marks, fonts, d, size, wanted);
        settle(&mut self.marks, &mut self.parts, keep, made)
    }

    /// The same, raised so that the middle of its height and depth is on the axis: a boundary of a formula.
    pub fn put_boundary(
        &mut self,
        fonts: &FontSet,
        d: Delim,
        size: Size,
        wanted: Length,
    ) -> Result<(), PartError>
        requires { Within (2 ^ 40) wanted.sp }
        ensures { SetsPieces result self.new (boundary_on fonts.now size self.old (delimiter fonts.now d size wanted.sp)) }
    {
        match self.put_delimiter(fonts, d, size, wanted) {
            Ok(()) => {
                self.raise_onto_axis(fonts, size);
                Ok(())
            }
            Err(fault) => Err(fault),
        }
    }

    /// The last piece, where it is a box, raised so that the middle of its height and depth is on the axis.
    pub fn raise_onto_axis(&mut self, fonts: &FontSet, size: Size)
        ensures { (rest : List PieceValue) (raise : ℤ) (l : Layout) → self.old ≡ rest ++ PieceBox raise l ∷ []
            → self.new ≡ rest ++ piece_on_axis fonts.now size l ∷ [] }
    {
        let by = raise_of(fonts, size, self.last_extents());
        self.raise_last(by);
    }

    /// A delimiter of a fixed size after the others (plain TeX's \big, \Big, \bigg and \Bigg are the levels 0 to 3).
    ///
    /// Refused as by `big_on_marks` of mt_parts.
    pub fn put_big(&mut self, fonts: &FontSet, delim: Delim, level: u8) -> Result<(), PartError>
        ensures { SetsPieces result self.new (boxed_on self.old (big_delimiter fonts.now delim level)) }
    {
        let keep = self.parts.len();
        let made = big_on_marks(&mut self.marks, fonts, delim, level);
        settle(&mut self.marks, &mut self.parts, keep, made)
    }

    /// The numerator and, last, the denominator become the fraction.
    ///
    /// Refused as by `fraction_on_marks` of mt_parts.
    pub fn fraction(
        &mut self,
        fonts: &FontSet,
        style: Style,
        thickness: Length,
        left: Delim,
        right: Delim,
    ) -> Result<(), PartError>
        requires { Within (2 ^ 40) thickness.sp }
        ensures { (rest : List PieceValue) (n d : Layout) → self.old ≡ rest ++ PieceBox (pos 0) n ∷ PieceBox (pos 0) d ∷ []
            → SetsPieces result self.new (boxed_on rest (fractions.fraction fonts.now style thickness.sp left right n d)) }
    {
        let Some(boxes) = last_two(&self.parts) else {
            return Ok(());
        };
        let num = boxes.first.extents;
        let den = boxes.second.extents;
        let keep = self.parts.len().saturating_sub(2);
        let made = fraction_on_marks(
            &mut self.marks,
            fonts,
            style,
            thickness,
            left,
            right,
            num,
            den,
        );
        settle(&mut self.marks, &mut self.parts, keep, made)
    }

    /// The last piece beside a radical sign and under its rule.
    ///
    /// Refused as by `radical_on_marks` of mt_parts.
    pub fn radical(&mut self, fonts: &FontSet, style: Style, sign: Delim) -> Result<(), PartError>
        ensures { (rest : List PieceValue) (l : Layout) → self.old ≡ rest ++ PieceBox (pos 0) l ∷ []
            → SetsPieces result self.new (boxed_on rest (radicals.radical fonts.now style sign l)) }
    {
        let Some(body) = last_box(&self.parts) else {
            return Ok(());
        };
        let keep = self.parts.len().saturating_sub(1);
        let made = radical_on_marks(&mut self.marks, fonts, style, sign, body.extents);
        settle(&mut self.marks, &mut self.parts, keep, made)
    }

    /// The last piece with a rule over it.
    ///
    /// Refused as by `overline_on_marks` of mt_parts.
    pub fn overline(&mut self, fonts: &FontSet, size: Size) -> Result<(), PartError>
        ensures { (rest : List PieceValue) (l : Layout) → self.old ≡ rest ++ PieceBox (pos 0) l ∷ []
            → SetsPieces result self.new (boxed_on rest (lines.overline fonts.now size l)) }
    {
        let Some(body) = last_box(&self.parts) else {
            return Ok(());
        };
        let keep = self.parts.len().saturating_sub(1);
        let made = overline_on_marks(&mut self.marks, fonts, size, body.extents);
        settle(&mut self.marks, &mut self.parts, keep, made)
    }

    /// The last piece with a rule under it.
    ///
    /// Refused as by `underline_on_marks` of mt_parts.
    pub fn underline(&mut self, fonts: &FontSet, size: Size) -> Result<(), PartError>
        ensures { (rest : List PieceValue) (l : Layout) → self.old ≡ rest ++ PieceBox (pos 0) l ∷ []
            → SetsPieces result self.new (boxed_on rest (lines.underline fonts.now size l)) }
    {
        let Some(body) = last_box(&self.parts) else {
            return Ok(());
        };
        let keep = self.parts.len().saturating_sub(1);
        let made = underline_on_marks(&mut self.marks, fonts, size, body.extents);
        settle(&mut self.marks, &mut self.parts, keep, made)
    }

    /// The last piece with an accent over it. `plain` is what the nucleus reaches without its scripts; `skew`, its width
    /// and its height are at most 2^40 in size. The accent's symbol is found at this size.
    ///
    /// Refused as by `accent_on_marks` of mt_parts.
    pub fn accent(
        &mut self,
        fonts: &FontSet,
        size: Size,
        accent: Symbol,
        skew: Length,
        plain: Extents,
    ) -> Result<(), PartError>
        requires found { IsOk (find_symbol fonts.now size accent) }
        requires skew { Within (2 ^ 40) skew.sp }
        requires plain_width { Within (2 ^ 40) plain.width }
        requires plain_height { Within (2 ^ 40) plain.height }
        ensures { (k : ℕ) → find_symbol fonts.now size accent ≡ Ok k → (rest : List PieceValue) (l : Layout)
            → self.old ≡ rest ++ PieceBox (pos 0) l ∷ []
            → SetsPieces result self.new (boxed_on rest (accents.accent fonts.now k accent.code skew.sp plain l)) }
    {
        let Some(body) = last_box(&self.parts) else {
            return Ok(());
        };
        let keep = self.parts.len().saturating_sub(1);
        let made = accent_on_marks(
            &mut self.marks,
            fonts,
            size,
            accent,
            skew,
            plain,
            body.extents,
        );
        settle(&mut self.marks, &mut self.parts, keep, made)
    }

    /// The degree and, last, the radical become the row of both: a kern of 5mu, the degree, raised by 0.6 of the
    /// radical's height less its depth, a kern of -10mu, the radical. The math units are those of the style.
    ///
    /// Refused with `Overflow` of the first kern, in scaled points, that is out of range, and with `OutOfMemory`.
    pub fn root(&mut self, fonts: &FontSet, style: Style) -> Result<(), PartError>
        ensures { (rest : List PieceValue) (d r : Layout) → self.old ≡ rest ++ PieceBox (pos 0) d ∷ PieceBox (pos 0) r ∷ []
            → SetsPieces result self.new (row_on rest (root_row fonts.now style d r)) }
    {
        let Some(boxes) = last_two(&self.parts) else {
            return Ok(());
        };
        let kerns = root_kerns(fonts, style)?;
        let raise = raise_of_degree(boxes.second.extents);
        put_root(&mut self.marks, &mut self.parts, boxes, kerns, raise)?;
        Ok(())
    }

    /// Of the last piece is left what is kept: its width, its height and depth, its marks.
    pub fn veil(&mut self, width: bool, height: bool, marked: bool) -> Result<(), PartError>
        ensures { (rest : List PieceValue) (l : Layout) → self.old ≡ rest ++ PieceBox (pos 0) l ∷ []
            → SetsPieces result self.new (boxed_on rest (Ok (veil_layout width height marked l))) }
    {
        let Some(body) = last_box(&self.parts) else {
            return Ok(());
        };
        let keep = self.parts.len().saturating_sub(1);
        let made = veiled(&mut self.marks, body.extents, width, height, marked);
        settle(&mut self.marks, &mut self.parts, keep, made)
    }
}

// What is left of the layout on top.
fn veiled(
    marks: &mut Marks,
    body: Extents,
    width: bool,
    height: bool,
    marked: bool,
) -> Result<Extents, PartError>
    requires { ExtentsInRange body }
    ensures is { (n : List Place) → (rest : List (List Place)) → marks.old ≡ n ∷ rest
        → SetsOn result (top marks.new) (Ok (veil_layout width height marked (layout_with body n))) }
    ensures rest { (n : List Place) → (rest : List (List Place)) → marks.old ≡ n ∷ rest
        → OnOk result (marks.new ≡ top marks.new ∷ rest) }
    ensures in_range { IfOk result ExtentsInRange }
{
    Ok(veil_on_marks(marks, body, width, height, marked)?)
}

// The row of a root in place of the last two parts, whose layers stay. After a fault there are no parts and no layers.
fn put_root(
    marks: &mut Marks,
    parts: &mut Vec<RowPart>,
    boxes: TwoBoxes,
    kerns: RootKerns,
    raise: Length,
) -> Result<(), AllocError>
    ensures marks { OnOk result (marks.new ≡ marks.old) }
    ensures parts { OnOk result (parts.new.items ≡ take (length parts.old.items - 2) parts.old.items
        ++ root_parts boxes kerns.before.sp kerns.behind.sp raise.sp) }
    ensures no_marks { OnErr result (marks.new ≡ []) }
    ensures no_parts { OnErr result (parts.new.items ≡ []) }
{
    let put = push_root(parts, boxes, kerns, raise);
    if put.is_err() {
        marks.clear();
        parts.clear();
    }
    put
}

fn push_root(
    parts: &mut Vec<RowPart>,
    boxes: TwoBoxes,
    kerns: RootKerns,
    raise: Length,
) -> Result<(), AllocError>
    ensures { OnOk result (parts.new.items ≡ take (length parts.old.items - 2) parts.old.items
        ++ root_parts boxes kerns.before.sp kerns.behind.sp raise.sp) }
{
    let keep = parts.len().saturating_sub(2);
    parts.truncate(keep);
    parts.push(RowPart::Gap(kerns.before.sp))?;
    parts.push(RowPart::Layout(raised(boxes.first, raise)))?;
    parts.push(RowPart::Gap(kerns.behind.sp))?;
    parts.push(box_part(boxes.second.extents))?;
    Ok(())
}
