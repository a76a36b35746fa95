//! A file whose pages are being copied.
ghost use Rattle.std.specs.Prelude.{◌≡◌, ◌<◌, ◌≤◌, ◌+◌, ◌∷◌, ◌++◌, ◌==◌, ◌||◌, ◌^◌, [], ℕ, Some, None, OnOk, IfOk, IfSome, length, max, nat_abs};
ghost use Rattle.mt_dvi.specs.Edges.{or_zero};
ghost use Rattle.mt_dvi.specs.Limits.{max_pushes};
ghost use Rattle.mt_dvi.specs.Opcodes.{fnt_num_0};
ghost use Rattle.mt_family.specs.Limits.{max_fonts};
ghost use Rattle.mt_family.specs.SetValue.{IsSet};
ghost use Rattle.mt_dviread.specs.Deeds.{IsNear, IsNearDeed, IsSmallMark, place_filled};
ghost use Rattle.mt_dviread.specs.declared.deed.Deed.TheVariants.{Selects as TheSelects};
ghost use Rattle.mt_dviops.specs.inner.Placed.{IsPlaced};
ghost use Rattle.mt_dviops.specs.inner.Copying.{begun_page, including_edges, kept_of, kept_with};
ghost use Rattle.mt_dviops.specs.inner.Copying.{CopiesOpcode, CopiesRun, CopiesSelection, Ends, IsCopying, TakesDeed, TakesSelection};

use crate::copies::{CopiedPage, bytes_between};
use crate::edges::{lower_edge, right_edge};
use crate::selected::NO_FONTS;
use mt_box::Place;
use mt_dvi::opcode::FNT_NUM_0;
use mt_dviread::{Deed, DviError, Mark, OpenFile, RunOpcode};
use mt_family::FontSet;
use std::alloc::{AllocError, Global};

/// What has been copied of a file so far.
#[derive(Drop)]
pub struct OpenCopies {
    /// The bodies, one after another.
    pub bodies: Vec<u8>,
    /// The pages that have ended.
    pub pages: Vec<CopiedPage>,
    // The page that has begun.
    page: CopiedPage,
}

// A page that begins, by the offset of its counts and the place of its body.
fn begun_page(counts: usize, start: usize) -> CopiedPage
    ensures { result ≡ begun_page counts start }
{
    CopiedPage {
        counts,
        start,
        end: start,
        fonts: NO_FONTS,
        depth: 0,
        places: 0,
        tallest: 0,
        widest: 0,
    }
}

// The greater one of a number and an edge.
fn greater(most: u32, edge: i64) -> u32
    requires { nat_abs edge < 2 ^ 32 }
    ensures { result ≡ max most (or_zero edge) }
{
    if edge > i64::from(most) {
        edge as u32
    } else {
        most
    }
}

// Takes one place more into account, by its edges.
#[inline(always)]
fn include(page: &mut CopiedPage, right: i64, lower: i64)
    requires right { nat_abs right < 2 ^ 32 }
    requires lower { nat_abs lower < 2 ^ 32 }
    ensures { page.new ≡ including_edges page.old right lower }
{
    page.places = page.places.saturating_add(1);
    page.tallest = greater(page.tallest, lower);
    page.widest = greater(page.widest, right);
}

impl OpenCopies {
    /// Nothing, with room for bodies of so many bytes.
    pub fn none(alloc: Global, room: usize) -> Result<OpenCopies, AllocError>
        ensures bodies { IfOk result (λ copies. copies.bodies.items ≡ []) }
        ensures pages { IfOk result (λ copies. copies.pages.items ≡ []) }
    {
        let bodies = Vec::with_capacity(alloc, room)?;
        Ok(OpenCopies {
            bodies,
            pages: Vec::new(alloc),
            page: begun_page(0, 0),
        })
    }

    /// Takes what an opcode of these bytes does, whose ten counts would begin at an offset.
    pub fn take(
        &mut self,
        fonts: &FontSet,
        deed: Deed,
        counts: usize,
        opcode: &[u8],
        file: &OpenFile<'_>,
    ) -> Result<(), AllocError>
        requires near { IsNearDeed deed }
        requires placed { IfSome (place_filled deed) (IsPlaced fonts.now) }
        requires font { deed ≡ TheSelects → (n : ℕ) → file.now.machine.font ≡ Some n → n < max_fonts }
        ensures { TakesDeed fonts.now result (kept_of self.old) (kept_of self.new) deed counts opcode.now
            file.now.machine }
    {
        match deed {
            Deed::Passes => Ok(()),
            Deed::BeginsPage => {
                self.begin(counts);
                Ok(())
            }
            Deed::EndsPage => self.end(),
            Deed::Selects => match file.font() {
                Some(font) => self.select(font),
                None => Ok(()),
            },
            Deed::Performs(place) => self.perform(fonts, opcode, place, file.depth()),
        }
    }

    /// Copies the opcodes of a run of a file of these bytes, as long as they come. Bytes that stay as they
    /// are are copied together.
    ///
    /// # Errors
    ///
    /// The fault of an opcode, with its offset. `OutOfMemory` where memory ran out.
    #[inline(always)]
    pub fn run(
        &mut self,
        fonts: &FontSet,
        bytes: &[u8],
        file: &mut OpenFile<'_>,
    ) -> Result<(), DviError>
        requires set { IsSet fonts.now }
        requires copying { IsCopying fonts.now bytes.now file.old (kept_of self.old) }
        ensures copies { CopiesRun fonts.now bytes.now result file.new self.new }
        ensures left { IfOk result (λ done. length file.new.rest.now ≤ length file.old.rest.now) }
    {
        // The bytes from here on are not copied yet.
        let mut from = file.at();
        while let Some(kind) = file.coming() {
            match kind {
                RunOpcode::Mark => {
                    let mark = file.perform_mark(fonts)?;
                    self.put(mark, file.depth());
                }
                RunOpcode::Move => {
                    file.perform_move(fonts)?;
                    self.deepen(file.depth());
                }
                RunOpcode::Select => {
                    let at = file.at();
                    file.perform_move(fonts)?;
                    from = self.reselect(file.font(), bytes, from, at)?;
                }
            }
        }
        self.copy(bytes_between(bytes, from, file.at()))?;
        Ok(())
    }

    // Takes these bytes as they are.
    fn copy(&mut self, bytes: &[u8]) -> Result<(), AllocError>
        ensures { OnOk result (kept_of self.new ≡ kept_with self.old bytes.now) }
    {
        self.bodies.extend_from_slice(bytes)?;
        Ok(())
    }

    // Takes the depth of the stack into account.
    #[inline(always)]
    fn deepen(&mut self, depth: usize)
        requires { depth ≤ max_pushes }
        ensures { self.new ≡ record (self.old) {
          page = record (self.old.page) { depth = max self.old.page.depth depth };
        } }
    {
        self.page.depth = self.page.depth.max(depth as u16);
    }

    // Takes a mark at this depth of the stack into account.
    #[inline(always)]
    fn put(&mut self, mark: Mark, depth: usize)
        requires deep { depth ≤ max_pushes }
        requires small { IsSmallMark mark }
        ensures { self.new ≡ record (self.old) {
          page = including_edges (record (self.old.page) { depth = max self.old.page.depth depth }) mark.right mark.lower;
        } }
    {
        self.deepen(depth);
        include(&mut self.page, mark.right, mark.lower);
    }

    // Takes the selection of a font by the opcode at an offset, and gives the offset from which bytes are not
    // copied after it; they were not copied from `from` on. An opcode that has the font's number in the set stays.
    #[inline(always)]
    fn reselect(
        &mut self,
        font: Option<u16>,
        bytes: &[u8],
        from: usize,
        at: usize,
    ) -> Result<usize, AllocError>
        requires font { IfSome font (λ n. n < max_fonts) }
        requires order { from ≤ at }
        requires there { at < length bytes.now }
        ensures { TakesSelection result self.old self.new font bytes.now from at }
    {
        match font {
            Some(font) if bytes[at] == FNT_NUM_0 + font as u8 => {
                self.page.fonts = self.page.fonts.with(font);
                Ok(from)
            }
            _ => {
                self.copy(bytes_between(bytes, from, at))?;
                if let Some(font) = font {
                    self.select(font)?;
                }
                Ok(at + 1)
            }
        }
    }

    fn begin(&mut self, counts: usize)
        ensures { self.new ≡ record (self.old) { page = begun_page counts (length self.old.bodies.items) } }
    {
        self.page = begun_page(counts, self.bodies.len());
    }

    fn end(&mut self) -> Result<(), AllocError>
        ensures { Ends result (kept_of self.old) (kept_of self.new) }
    {
        self.page.end = self.bodies.len();
        self.pages.push(self.page)?;
        Ok(())
    }

    // A font is selected by its number in the set.
    fn select(&mut self, font: u16) -> Result<(), AllocError>
        requires { font < max_fonts }
        ensures { CopiesSelection result (kept_of self.old) (kept_of self.new) font }
    {
        self.bodies.push(FNT_NUM_0 + font as u8)?;
        self.page.fonts = self.page.fonts.with(font);
        Ok(())
    }

    // Any other opcode of the page stays byte for byte.
    fn perform(
        &mut self,
        fonts: &FontSet,
        opcode: &[u8],
        place: Option<Place>,
        depth: usize,
    ) -> Result<(), AllocError>
        requires near { IfSome place IsNear }
        requires placed { IfSome place (IsPlaced fonts.now) }
        requires deep { depth ≤ max_pushes }
        ensures { CopiesOpcode fonts.now result (kept_of self.old) (kept_of self.new) opcode.now place depth }
    {
        self.bodies.extend_from_slice(opcode)?;
        self.deepen(depth);
        if let Some(place) = place {
            let right = right_edge(fonts, place);
            let lower = lower_edge(fonts, place);
            include(&mut self.page, right, lower);
        }
        Ok(())
    }
}
