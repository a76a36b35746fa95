//! The reader.
ghost use Rattle.std.specs.Prelude.{◌≡◌, ◌≤◌, ◌++◌, ◌∷◌, ℕ, List, length, [], IfOk, IfErr, IfSome, IsErrAnd, OnOk, Some};
ghost use Rattle.mt_box.specs.declared.place.Place.{Place};
ghost use Rattle.mt_dvi.specs.File.{Dvi, DviFault, Fault};
ghost use Rattle.mt_dvi.specs.Limits.{max_places};
ghost use Rattle.mt_dvi.specs.Written.{Written};
ghost use Rattle.mt_dvi.specs.WrittenPlaces.{all_places};
ghost use Rattle.mt_dviread.specs.Deeds.{places_after};
ghost use Rattle.mt_dviread.specs.Errors.{fault_of, ReadsBack};
ghost use Rattle.mt_dviread.specs.Sees.{IsWithin};
ghost use Rattle.mt_dviread.specs.inner.Kept.{lists_after, IsKeeping, RunKeeps};

use crate::deed::Deed;
use crate::error::DviError;
use crate::file::OpenFile;
use crate::run::RunOpcode;
use mt_box::{PageList, Place, PlaceList};
use mt_family::FontSet;
use std::alloc::{AllocError, Global};
use std::mem;

/// The most bytes of a DVI file that mathset reads.
pub const MAX_DVI: u64 = 67_108_864;

// The places of the pages that have ended, and those of the page that has begun.
#[derive(Drop)]
struct PagePlaces {
    pages: Vec<PlaceList>,
    page: Vec<Place>,
}

impl PagePlaces {
    fn none(alloc: Global) -> PagePlaces
        ensures pages { result.pages.items ≡ [] }
        ensures page { result.page.items ≡ [] }
    {
        PagePlaces {
            pages: Vec::new(alloc),
            page: Vec::new(alloc),
        }
    }

    // Takes a place of the page.
    #[inline(always)]
    fn put(&mut self, place: Place) -> Result<(), AllocError>
        ensures pages { OnOk result (self.new.pages.items ≡ self.old.pages.items) }
        ensures page { OnOk result (self.new.page.items ≡ self.old.page.items ++ place ∷ []) }
    {
        self.page.push(place)?;
        Ok(())
    }

    // Takes what the opcodes of a run do, as long as they come.
    #[inline(always)]
    fn run(&mut self, fonts: &FontSet, file: &mut OpenFile<'_>) -> Result<(), DviError>
        requires within { IsWithin file.old }
        ensures keeps { (bytes : List ℕ)
            → IsKeeping fonts.now bytes file.old self.old.pages.items self.old.page.items
            → RunKeeps fonts.now bytes result file.new self.new.pages.items self.new.page.items }
        ensures within { IfOk result (λ done. IsWithin file.new) }
        ensures left { IfOk result (λ done. length file.new.rest.now ≤ length file.old.rest.now) }
    {
        while let Some(kind) = file.coming() {
            match kind {
                RunOpcode::Mark => {
                    let mark = file.perform_mark(fonts)?;
                    self.put(mark.place)?;
                }
                RunOpcode::Move | RunOpcode::Select => file.perform_move(fonts)?,
            }
        }
        Ok(())
    }

    // Takes what an operation does.
    fn take(&mut self, alloc: Global, deed: Deed) -> Result<(), AllocError>
        ensures pages { OnOk result (self.new.pages.items
            ≡ lists_after deed self.old.pages.items self.old.page.items) }
        ensures page { OnOk result (self.new.page.items ≡ places_after deed self.old.page.items) }
    {
        match deed {
            Deed::BeginsPage => self.page = Vec::new(alloc),
            Deed::EndsPage => {
                let page = mem::replace(&mut self.page, Vec::new(alloc));
                self.pages.push(PlaceList::from_vec(page))?;
            }
            Deed::Performs(Some(place)) => self.put(place)?,
            _ => {}
        }
        Ok(())
    }
}

/// The places of the pages of a DVI file (tex.web, part 31), at most 2,000,000, in scaled points.
///
/// The file has the format's identifier 2 and its unit is the scaled point, whatever its magnification,
/// which changes no place. A font of the file is the font of the set with its name and its size;
/// specials are passed over. The extents that post states, checksums and design sizes are not tested.
///
/// # Errors
///
/// The first fault of the file, with the offset of its opcode. `OutOfMemory` where memory ran out.
pub fn read_dvi(alloc: Global, fonts: &FontSet, bytes: &[u8]) -> Result<PageList, DviError>
    ensures is { IfOk result (λ pages. Dvi fonts.now bytes.now pages) }
    ensures fault { IfErr result (λ error.
        IfSome (fault_of error) (λ fault. DviFault fonts.now bytes.now fault)) }
    ensures early { (fault : Fault) → DviFault fonts.now bytes.now fault → fault.at ≡ 0
        → IsErrAnd result (λ error. fault_of error ≡ Some fault) }
    ensures few { IfOk result (λ pages. length (all_places pages) ≤ max_places) }
    ensures round_trip { (pages : List (List Place)) → Written fonts.now bytes.now pages
        → ReadsBack result pages }
{
    let mut file = OpenFile::at_start(alloc, bytes);
    let mut places = PagePlaces::none(alloc);
    loop {
        places.run(fonts, &mut file)?;
        let Some(deed) = file.next(alloc, fonts)? else {
            break;
        };
        places.take(alloc, deed)?;
    }
    Ok(PageList::from_vec(places.pages))
}
