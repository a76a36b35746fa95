//! What post says of the pages of a file, and how many places and bytes they have.
ghost use Rattle.std.specs.Prelude.{◌≡◌, ◌+◌, ◌<◌, ◌≤◌, ◌^◌, All, List, length};
ghost use Rattle.mt_dvi.specs.Limits.{max_dvi_pages};
ghost use Rattle.mt_family.specs.SetValue.{SetValue};
ghost use Rattle.mt_dviops.specs.Source.{SourcePage};
ghost use Rattle.mt_dviops.specs.inner.Shown.{AreShown, IncludesPage, IsTotal, all_told, pages_length};

use crate::page::PageCopy;
use crate::selected::{NO_FONTS, SelectedFonts};

// The bytes of a page beside its body: bop with its operands, and eop.
const AROUND_BODY: u64 = 46;

/// Sums and maxima over pages.
#[derive(Clone, Copy, Debug)]
pub struct Totals {
    /// The bytes of the pages, each from bop to eop.
    pub bytes: u64,
    /// The places.
    pub places: u64,
    /// The greatest depth of the stack.
    pub depth: u16,
    /// The greatest of 0 and of the lower edges of the places, in scaled points.
    pub tallest: u32,
    /// The greatest of 0 and of the right edges of the places, in scaled points.
    pub widest: u32,
    /// The fonts that the pages select.
    pub fonts: SelectedFonts,
}

const NO_PAGES: Totals = Totals {
    bytes: 0,
    places: 0,
    depth: 0,
    tallest: 0,
    widest: 0,
    fonts: NO_FONTS,
};

impl Totals {
    // Takes one page more into account.
    fn include(&mut self, page: PageCopy<'_>)
        requires short { length page.body.now < 2 ^ 32 }
        requires bytes { self.old.bytes < 2 ^ 62 }
        requires places { self.old.places < 2 ^ 62 }
        ensures is { IncludesPage self.old self.new page.entry }
        ensures bytes { self.new.bytes ≤ self.old.bytes + 8589934592 }
        ensures places { self.new.places ≤ self.old.places + 4294967296 }
    {
        self.bytes += page.body.len() as u64 + AROUND_BODY;
        self.places += u64::from(page.places);
        self.depth = self.depth.max(page.depth);
        self.tallest = self.tallest.max(page.tallest);
        self.widest = self.widest.max(page.widest);
        self.fonts = self.fonts.union(page.fonts);
    }

    /// The totals of at most 65,535 pages, each shorter than 2^32 bytes.
    pub fn of(pages: &[PageCopy<'_>]) -> Totals
        requires few { length pages.now ≤ max_dvi_pages }
        requires short { All (λ page. length page.body.now < 2 ^ 32) pages.now }
        ensures is { (fonts : SetValue) (shown : List SourcePage) → AreShown fonts pages.now shown
            → IsTotal fonts result shown }
        ensures bytes { result.bytes ≡ pages_length (all_told pages.now) }
        ensures small { result.bytes < 2 ^ 62 }
    {
        let mut totals = NO_PAGES;
        for page in pages {
            totals.include(*page);
        }
        totals
    }
}
