//! All pages of a file at once.
ghost use Rattle.std.specs.Prelude.{◌≡◌, ◌-◌, ◌^◌, min, length, All, IfOk};
ghost use Rattle.mt_dvi.specs.File.{Dvi};
ghost use Rattle.mt_dvi.specs.Writable.{IsWritable};
ghost use Rattle.mt_dvi.specs.WrittenPlaces.{all_places};
ghost use Rattle.mt_dvi.specs.Written.{Written};
ghost use Rattle.mt_dvi.specs.Lean.{Lean};
ghost use Rattle.mt_dvi.specs.Refusal.{refusal_of, refusal_in};

use crate::error::DviWriteError;
use crate::file::{DviBytes, DviFile};
use mt_box::{PageList, PlaceList};
use mt_family::FontSet;
use std::alloc::Global;

/// The most pages of a DVI file, which states their number in two bytes.
pub const MAX_DVI_PAGES: usize = 65_535;

/// The most places on all pages of a DVI file together.
pub const MAX_PLACES: u64 = 2_000_000;

// The number of places, or the greatest usize.
fn count_places(pages: &[PlaceList]) -> usize
    ensures { result ≡ min (length (all_places pages.now)) (2 ^ 64 - 1) }
{
    let mut count: usize = 0;
    for page in pages {
        count = count.saturating_add(page.as_slice().len());
    }
    count
}

/// The DVI file of pages (tex.web, part 31).
///
/// It is the file that [`DviFile`] makes of them. The coordinates of the places, the widths and depths
/// of their glyphs and the heights and widths of their rules are dimensions (at most 2^30 - 1 scaled
/// points in size), each glyph exists in its font, and each rule has a positive height and a positive
/// width.
///
/// # Errors
///
/// The first of these: `TooManyPages` above [`MAX_DVI_PAGES`] pages, `TooManyPlaces` above [`MAX_PLACES`]
/// places on all pages together, with their number, which is given as 2^64 - 1 where it is greater. `OutOfMemory`
/// where memory ran out.
pub fn write_dvi(
    alloc: Global,
    fonts: &FontSet,
    pages: &PageList,
) -> Result<DviBytes, DviWriteError>
    requires can { All (λ page. All (IsWritable fonts.now) page) pages.now }
    ensures written { IfOk result (λ bytes. Written fonts.now bytes pages.now) }
    ensures lean { IfOk result (λ bytes. Lean fonts.now bytes) }
    ensures read_back { IfOk result (λ bytes. Dvi fonts.now bytes pages.now) }
    ensures refused { refusal_in result ≡ refusal_of pages.now }
{
    let pages = pages.as_slice();
    if pages.len() > MAX_DVI_PAGES {
        return Err(DviWriteError::TooManyPages(pages.len() as u64));
    }
    let count = count_places(pages) as u64;
    if count > MAX_PLACES {
        return Err(DviWriteError::TooManyPlaces(count));
    }
    let mut file = DviFile::new(alloc, fonts)?;
    for page in pages {
        file.add_page(fonts, page.as_slice())?;
    }
    let bytes = file.finish(fonts)?;
    Ok(bytes)
}
