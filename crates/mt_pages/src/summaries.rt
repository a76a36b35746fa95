//! What was set, counted.
ghost use Rattle.std.specs.Prelude.{◌≡◌, ◌++◌, ◌≤◌, ◌^◌, ◌∷◌, [], List, count_by, IfOk};
ghost use Rattle.mt_box.specs.declared.place.Place.{Place as PlaceFields};
ghost use Rattle.mt_dvi.specs.WrittenPlaces.{all_places};
ghost use Rattle.mt_pages.specs.Listing.{is_glyph_place, is_rule_place, summary};
ghost use Rattle.mt_pages.specs.inner.Texts.{AreCountsOf, GrowsByPage, HasRoom};

use crate::page_sink::PageSink;
use crate::text_line::push_number_line;
use mt_box::{PageList, Place, PlaceList};
use mt_family::FontSet;
use mt_scaled::{Bytes, Items};
use std::alloc::{AllocError, Global};

// How many glyphs there are on a page.
fn glyphs_on(page: &[Place]) -> usize
    ensures { result ≡ count_by is_glyph_place page.now }
{
    page.iter()
        .filter(|place| matches!(place, Place::Glyph { .. }))
        .count()
}

// How many rules there are on a page.
fn rules_on(page: &[Place]) -> usize
    ensures { result ≡ count_by is_rule_place page.now }
{
    page.iter()
        .filter(|place| matches!(place, Place::Rule { .. }))
        .count()
}

/// How many pages, glyphs and rules there are.
#[derive(Drop)]
pub struct Counts {
    pages: u64,
    glyphs: u128,
    rules: u128,
}

impl Counts {
    /// None.
    pub fn new() -> Counts
        ensures { AreCountsOf [] result }
    {
        Counts {
            pages: 0,
            glyphs: 0,
            rules: 0,
        }
    }

    /// Counts a page.
    pub fn add_page(&mut self, page: &[Place])
        requires { HasRoom self.old }
        ensures counts { (pages : List (List PlaceFields)) → AreCountsOf pages self.old
            → AreCountsOf (pages ++ page.now ∷ []) self.new }
        ensures grows { GrowsByPage self.old self.new }
    {
        self.pages += 1;
        self.glyphs += glyphs_on(page) as u128;
        self.rules += rules_on(page) as u128;
    }

    /// The summary of the pages, which so many formulas gave, as [`summary`] says.
    #[tactic(auto, using(std::proofs::Common::append_assoc), unfolding(crate::specs::Listing::summary))]
    pub fn text(&self, alloc: Global, formulas: u32) -> Result<Bytes, AllocError>
        ensures { (pages : List (List PlaceFields)) → AreCountsOf pages self.now
            → IfOk result (λ text. text ≡ summary formulas pages) }
    {
        let mut out = Vec::new(alloc);
        push_number_line(&mut out, b"formulas", u128::from(formulas))?;
        push_number_line(&mut out, b"pages", u128::from(self.pages))?;
        push_number_line(&mut out, b"glyphs", self.glyphs)?;
        push_number_line(&mut out, b"rules", self.rules)?;
        Ok(Items::from_vec(out))
    }
}

impl PageSink for Counts {
    ghost HasPages = { λ _ pages counts. AreCountsOf pages counts };

    fn add(&mut self, _: &FontSet, page: PlaceList) -> Result<(), AllocError> {
        self.add_page(page.as_slice());
        Ok(())
    }
}

/// The summary of pages that so many formulas gave: the lines `formulas N`, `pages N`, `glyphs N` and `rules N`, each
/// of them ended by LF.
pub fn summary(alloc: Global, formulas: u32, pages: &PageList) -> Result<Bytes, AllocError>
    ensures { IfOk result (λ text. text ≡ summary formulas pages.now) }
{
    let pages = pages.as_slice();
    let mut counts = Counts::new();
    for page in pages {
        counts.add_page(page.as_slice());
    }
    counts.text(alloc, formulas)
}
