//! A file so far: its pages, and what is before and after them.
ghost use Rattle.std.specs.Prelude.{◌≡◌, ◌<◌, ◌+◌, ◌*◌, ◌++◌, ◌∷◌, [], List, length, All, OnOk, IfOk};
ghost use Rattle.mt_box.specs.declared.place.Place.{Place};
ghost use Rattle.mt_family.specs.SetValue.{IsSet};
ghost use Rattle.mt_dvi.specs.File.{Dvi};
ghost use Rattle.mt_dvi.specs.FileOf.{CanTake, IsFile, IsFileOf};
ghost use Rattle.mt_dvi.specs.writer.Emits.{FitsFourBytes};
ghost use Rattle.mt_dvi.specs.Writable.{IsWritable};
ghost use Rattle.mt_dvi.specs.Written.{Written};
ghost use Rattle.mt_dvi.specs.Lean.{Lean};
ghost use Rattle.mt_dvi.specs.writer.Greatest.{edges_after};
ghost use Rattle.mt_dvi.specs.writer.LeadsTo.{GrowsBy, GrowsWith, numbers_after_all};
ghost use Rattle.mt_dvi.specs.writer.Pages.{DefinesAgain, IsTail, WritesPage};

use crate::defined::DefinedFonts;
use crate::edges::{GreatestEdges, NO_EDGES};
use crate::opcode::PADDING;
use crate::page::write_places;
use crate::{emit, encode};
use mt_box::Place;
use mt_family::FontSet;
use mt_scaled::Items;
use std::alloc::{AllocError, Global};

/// The bytes of a DVI file.
pub type DviBytes = Items<u8>;

// The room that a file has at first, in bytes.
const FIRST_ROOM: usize = 1024;

// Writes a page, where last is the offset of the page before, or -1.
#[tactic(auto, using(crate::proofs::Prefix::longer))]
fn write_page(
    out: &mut Vec<u8>,
    defined: &mut DefinedFonts,
    greatest: &mut GreatestEdges,
    fonts: &FontSet,
    number: u32,
    last: i64,
    page: &[Place],
) -> Result<(), AllocError>
    requires set { IsSet fonts.now }
    requires can { All (IsWritable fonts.now) page.now }
    requires last { FitsFourBytes last }
    ensures defined { OnOk result (defined.new ≡ numbers_after_all defined.old page.now) }
    ensures edges { OnOk result (greatest.new ≡ edges_after fonts.now greatest.old page.now) }
    ensures leads { OnOk result (WritesPage fonts.now
        out.old.items out.new.items defined.old defined.new number last page.now) }
    ensures long { OnOk result (GrowsWith (19 * length page.now + 46)
        out.old.items out.new.items defined.old defined.new) }
{
    emit::bop(out, number, last)?;
    write_places(out, defined, greatest, fonts, page)?;
    emit::eop(out)?;
    Ok(())
}

// Writes the definitions again, after post.
fn define_again(out: &mut Vec<u8>, defined: &[u16], fonts: &FontSet) -> Result<(), AllocError>
    requires set { IsSet fonts.now }
    requires there { All (λ n. n < length fonts.now.fonts) defined.now }
    ensures leads { OnOk result (DefinesAgain fonts.now
        out.old.items out.new.items defined.now defined.now) }
    ensures long { OnOk result (GrowsBy (271 * length defined.now) out.old.items out.new.items) }
{
    for n in defined {
        encode::define(out, fonts, *n)?;
    }
    Ok(())
}

// Four to seven bytes 223 at the end of a file of so many bytes.
fn tail(long: usize) -> &'static [u8]
    ensures { IsTail long result.now }
{
    match long % 4 {
        0 => &[PADDING; 4],
        1 => &[PADDING; 7],
        2 => &[PADDING; 6],
        _ => &[PADDING; 5],
    }
}

/// A DVI file so far (tex.web, part 31), to which pages are added.
///
/// It is a file of the format's identifier 2, in scaled points, with the magnification 1000. Its k-th
/// page has k in count 0. The fonts that are used are defined before their first use and once more
/// after the pages; a font's number is that in the set. Each call takes the same set.
///
/// After an error no page can be added to the file, and it cannot be finished.
#[derive(Debug, Drop)]
pub struct DviFile {
    out: Vec<u8>,
    defined: DefinedFonts,
    greatest: GreatestEdges,
    // The offset of the last page, or -1.
    last: i64,
    // How many pages there are.
    pages: u16,
    // How many places there are. No call reads it; the contracts count by it (`IsFileOf`).
    places: usize,
}

impl DviFile {
    /// A file without pages so far.
    pub fn new(alloc: Global, fonts: &FontSet) -> Result<DviFile, AllocError>
        ensures { IfOk result (λ file. IsFileOf fonts.now [] file) }
    {
        let mut out = Vec::with_capacity(alloc, FIRST_ROOM)?;
        let defined = DefinedFonts::with_capacity(alloc, fonts.font_count())?;
        encode::pre(&mut out, emit::MAG)?;
        Ok(DviFile {
            out,
            defined,
            greatest: NO_EDGES,
            last: -1,
            pages: 0,
            places: 0,
        })
    }

    /// Adds a page.
    ///
    /// There are at most [`MAX_DVI_PAGES`](crate::MAX_DVI_PAGES) pages and at most
    /// [`MAX_PLACES`](crate::MAX_PLACES) places with it. The
    /// coordinates of its places, the widths and depths of their glyphs and the heights and widths of
    /// their rules are dimensions (at most 2^30 - 1 scaled points in size), each glyph exists in its
    /// font, and each rule has a positive height and a positive width.
    pub fn add_page(&mut self, fonts: &FontSet, places: &[Place]) -> Result<(), AllocError>
        requires { CanTake fonts.now self.old places.now }
        ensures { (pages : List (List Place)) → IsFileOf fonts.now pages self.old
            → OnOk result (IsFileOf fonts.now (pages ++ places.now ∷ []) self.new) }
    {
        let start = self.out.len() as i64;
        let number = self.pages + 1;
        write_page(
            &mut self.out,
            &mut self.defined,
            &mut self.greatest,
            fonts,
            u32::from(number),
            self.last,
            places,
        )?;
        self.last = start;
        self.pages = number;
        self.places += places.len();
        Ok(())
    }

    /// The whole file, after its last page.
    pub fn finish(self, fonts: &FontSet) -> Result<DviBytes, AllocError>
        requires { IsFile fonts.now self }
        ensures written { (pages : List (List Place)) → IsFileOf fonts.now pages self
            → IfOk result (λ bytes. Written fonts.now bytes pages) }
        ensures lean { IfOk result (λ bytes. Lean fonts.now bytes) }
        ensures read_back { (pages : List (List Place)) → IsFileOf fonts.now pages self
            → IfOk result (λ bytes. Dvi fonts.now bytes pages) }
    {
        let mut out = self.out;
        let start = out.len() as u32;
        emit::post(
            &mut out,
            self.last,
            self.greatest.lower,
            self.greatest.right,
            self.pages,
        )?;
        define_again(&mut out, self.defined.as_slice(), fonts)?;
        emit::post_post(&mut out, start)?;
        let end = tail(out.len());
        out.extend_from_slice(end)?;
        Ok(Items::from_vec(out))
    }
}
