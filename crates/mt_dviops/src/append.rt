//! A file of all pages of several files.
ghost use Rattle.std.specs.Prelude.{◌≡◌, ◌≤◌, ◌++◌, IfErr, IfOk, List, OnOk, length};
ghost use Rattle.std.specs.List.{position};
ghost use Rattle.mt_family.specs.SetValue.{SetValue};
ghost use Rattle.mt_dviops.specs.Copied.{Copied, Every, all_pages, copied};
ghost use Rattle.mt_dviops.specs.PagesRead.{ReadsChosen};
ghost use Rattle.mt_dviops.specs.Refused.{Refuses};
ghost use Rattle.mt_dviops.specs.Source.{SourceFile, SourcePage};
ghost use Rattle.mt_dviops.specs.inner.Copies.{Holds};
ghost use Rattle.mt_dviops.specs.inner.Chosen.{AllHold, has_other_mag};
ghost use Rattle.mt_dviops.specs.inner.Shown.{AreShown};

use crate::copies::Copies;
use crate::error::OpError;
use crate::page::PageCopy;
use crate::source::{FileBytes, copied_files};
use crate::write::{test_page_count, write_copied};
use mt_dvi::DviBytes;
use mt_family::FontSet;
use std::alloc::{AllocError, Global};

// The first file that has another magnification.
fn first_with_other_mag(sources: &[Copies<'_>], mag: i32) -> Option<usize>
    ensures { result ≡ position (has_other_mag mag) sources.now }
{
    sources
        .iter()
        .position(|source| source.magnification() != mag)
}

// Puts the pages of a file behind the others.
fn push_pages<'a>(chosen: &mut Vec<PageCopy<'a>>, source: &'a Copies<'_>) -> Result<(), AllocError>
    ensures { (fonts : SetValue) (file : SourceFile) (pages : List SourcePage) → Holds fonts source.now file
        → AreShown fonts chosen.old.items pages → OnOk result (AreShown fonts chosen.new.items (pages ++ file.pages)) }
{
    for k in 0..source.pages.len() {
        chosen.push(source.page(k))?;
    }
    Ok(())
}

// The pages of all files.
fn pages_of<'a>(alloc: Global, sources: &'a [Copies<'_>]) -> Result<Vec<PageCopy<'a>>, AllocError>
    ensures { (fonts : SetValue) (files : List SourceFile) → AllHold fonts sources.now files
        → IfOk result (λ chosen. AreShown fonts chosen.items (all_pages files)) }
{
    let mut chosen = Vec::new(alloc);
    for source in sources {
        push_pages(&mut chosen, source)?;
    }
    Ok(chosen)
}

/// A DVI file of all pages of 1 to 16 files, in order.
///
/// Pages are copied and not set again, so their counts and their specials stay. The new file defines
/// the fonts that its pages select, with their numbers in the set; it has the magnification of the
/// old ones and no comment.
///
/// # Errors
///
/// The first of these: `BadFile` with the first file that has a fault, and its fault; `MagClash` with
/// the first file whose magnification is not that of file 0; `TooManyPages` above
/// [`MAX_DVI_PAGES`](mt_dvi::MAX_DVI_PAGES) pages, `TooManyPlaces` above
/// [`MAX_PLACES`](mt_dvi::MAX_PLACES) places, `TooLong` above [`MAX_DVI`](mt_dviread::MAX_DVI) bytes
/// in the new file. `OutOfMemory` where memory ran out.
pub fn append_files(alloc: Global, fonts: &FontSet, files: &FileBytes) -> Result<DviBytes, OpError>
    requires some { 1 ≤ length files.now }
    requires few { length files.now ≤ 16 }
    ensures is { IfOk result (λ file. Copied fonts.now files.now Every file) }
    ensures read { IfOk result (λ file. ReadsChosen fonts.now files.now Every file) }
    ensures refused { IfErr result (λ error. Refuses error (copied fonts.now files.now Every)) }
{
    let sources = copied_files(alloc, fonts, files.as_slice())?;
    let mag = sources[0].magnification();
    if let Some(file) = first_with_other_mag(&sources, mag) {
        return Err(OpError::MagClash(file as u32));
    }
    let chosen = pages_of(alloc, &sources)?;
    test_page_count(chosen.len())?;
    write_copied(alloc, fonts, mag, &chosen)
}
