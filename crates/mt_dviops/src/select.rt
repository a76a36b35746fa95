//! A file of chosen pages of one file.
ghost use Rattle.std.specs.Prelude.{◌≡◌, ◌∷◌, [], IfErr, IfOk, None, length, map};
ghost use Rattle.std.specs.List.{find};
ghost use Rattle.mt_family.specs.SetValue.{SetValue};
ghost use Rattle.mt_dviops.specs.Copied.{Copied, Numbered, copied};
ghost use Rattle.mt_dviops.specs.PagesRead.{ReadsChosen};
ghost use Rattle.mt_dviops.specs.Refused.{Refuses};
ghost use Rattle.mt_dviops.specs.Source.{SourceFile};
ghost use Rattle.mt_dviops.specs.inner.Copies.{Holds};
ghost use Rattle.mt_dviops.specs.inner.Shown.{AreShown};
ghost use Rattle.mt_dviops.specs.inner.Chosen.{is_out_of_range, page_or_empty};

use crate::copies::Copies;
use crate::error::OpError;
use crate::page::PageCopy;
use crate::source::copied_file;
use crate::write::{test_page_count, write_copied};
use mt_dvi::DviBytes;
use mt_family::FontSet;
use std::alloc::{AllocError, Global};

// The first number that none of so many pages has.
fn first_out_of_range(numbers: &[u32], count: usize) -> Option<u32>
    ensures { result ≡ find (is_out_of_range count) numbers.now }
{
    numbers
        .iter()
        .copied()
        .find(|number| *number == 0 || *number as usize > count)
}

// The pages of these numbers.
fn numbered<'a>(
    alloc: Global,
    source: &'a Copies<'a>,
    numbers: &[u32],
) -> Result<Vec<PageCopy<'a>>, AllocError>
    requires { find (is_out_of_range (length source.now.pages.items)) numbers.now ≡ None }
    ensures { (fonts : SetValue) (file : SourceFile) → Holds fonts source.now file
        → IfOk result (λ chosen. AreShown fonts chosen.items (map (page_or_empty file.pages) numbers.now)) }
{
    let mut chosen = Vec::with_capacity(alloc, numbers.len())?;
    for number in numbers {
        chosen.push(source.page(*number as usize - 1))?;
    }
    Ok(chosen)
}

/// A DVI file of the pages of these numbers, from 1 on, of a file, in the order of the numbers.
///
/// Pages are copied and not set again, so their counts and their specials stay. The new file defines
/// the fonts that its pages select, with their numbers in the set; it has the magnification of the
/// old one and no comment.
///
/// # Errors
///
/// The first of these: `BadFile` with file 0, where the file has a fault; `PageOutOfRange` with the
/// first number that is 0 or above the number of pages; `TooManyPages` above
/// [`MAX_DVI_PAGES`](mt_dvi::MAX_DVI_PAGES) pages, `TooManyPlaces` above
/// [`MAX_PLACES`](mt_dvi::MAX_PLACES) places, `TooLong` above [`MAX_DVI`](mt_dviread::MAX_DVI) bytes
/// in the new file. `OutOfMemory` where memory ran out.
pub fn select_pages(
    alloc: Global,
    fonts: &FontSet,
    bytes: &[u8],
    pages: &[u32],
) -> Result<DviBytes, OpError>
    ensures is { IfOk result (λ file. Copied fonts.now (bytes.now ∷ []) (Numbered pages.now) file) }
    ensures read { IfOk result (λ file. ReadsChosen fonts.now (bytes.now ∷ []) (Numbered pages.now) file) }
    ensures refused { IfErr result (λ error.
        Refuses error (copied fonts.now (bytes.now ∷ []) (Numbered pages.now))) }
{
    let source = copied_file(alloc, fonts, 0, bytes)?;
    if let Some(page) = first_out_of_range(pages, source.pages.len()) {
        return Err(OpError::PageOutOfRange(page));
    }
    test_page_count(pages.len())?;
    let chosen = numbered(alloc, &source, pages)?;
    write_copied(alloc, fonts, source.magnification(), &chosen)
}
