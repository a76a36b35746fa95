//! A source that is set: its DVI file, its pages, its listing, its summary.
ghost use Rattle.std.specs.Prelude.{◌≡◌, ◌++◌, ◌∷◌, [], All, IfOk, None, OnOk};
ghost use Rattle.mt_dvi.specs.FileOf.{IsFileOf};
ghost use Rattle.mt_dvi.specs.Refusal.{refusal_of};
ghost use Rattle.mt_dvi.specs.Writable.{IsWritable};
ghost use Rattle.mt_pages.specs.LineWidth.{IsLineWidth};
ghost use Rattle.mt_status.specs.Notes.{NotesFault};
ghost use Rattle.mt_status.specs.Origins.{IsPure};
ghost use Rattle.mt_pages.specs.Output.{IsFileOfSource, listed, summed_up};
ghost use Rattle.mt_pages.specs.Pages.{NotesOnly, source_overfull, source_pages};

use crate::listings::ListingText;
use crate::page_sink::{PageSink, add_pages};
use crate::summaries::Counts;
use mt_box::{PageList, PlaceList};
use mt_dvi::{DviBytes, DviFile};
use mt_family::FontSet;
use mt_scaled::{Bytes, Items};
use mt_status::{Notes, Status};
use std::alloc::{AllocError, Global};

impl PageSink for DviFile {
    ghost HasPages = { λ fonts pages file. IsFileOf fonts pages file };

    fn add(&mut self, fonts: &FontSet, page: PlaceList) -> Result<(), AllocError> {
        self.add_page(fonts, page.as_slice())
    }
}

/// The DVI file of a source of at most 4,194,304 bytes, set in these fonts on lines of `width` scaled points. A page is
/// written as soon as it is set.
///
/// # Errors
///
/// The first fault of the source, as [`add_pages`] says. Where that is place 2,000,001, the number of its formula is
/// noted.
pub fn source_file(
    alloc: Global,
    fonts: &FontSet,
    width: i64,
    source: &[u8],
    notes: &mut Notes,
) -> Result<DviBytes, Status>
    requires width { IsLineWidth width }
    ensures is { IsFileOfSource fonts.now (source_pages fonts.now width source.now) result }
    ensures units { notes.new.units ≡ notes.old.units }
    ensures formula { NotesFault result notes.new.formula }
    ensures overfull { NotesOnly (source_overfull fonts.now width source.now) notes.new.formula }
{
    notes.formula = None;
    let mut file = DviFile::new(alloc, fonts)?;
    add_pages(&mut file, alloc, fonts, width, source, notes)?;
    Ok(file.finish(fonts)?)
}

impl PageSink for Vec<PlaceList> {
    ghost HasPages = { λ _ pages list. list.items ≡ pages };

    fn add(&mut self, _: &FontSet, page: PlaceList) -> Result<(), AllocError> {
        self.push(page)?;
        Ok(())
    }
}

/// The pages of a source, as [`source_file`] writes them.
///
/// # Errors
///
/// Those of [`source_file`].
pub fn source_pages(
    alloc: Global,
    fonts: &FontSet,
    width: i64,
    source: &[u8],
) -> Result<PageList, Status>
    requires width { IsLineWidth width }
    ensures is { IsPure (source_pages fonts.now width source.now) result }
    ensures writable { IfOk result (λ pages. All (λ page. All (IsWritable fonts.now) page) pages) }
    ensures few_places { IfOk result (λ pages. refusal_of pages ≡ None) }
{
    let mut pages = Vec::new(alloc);
    add_pages(&mut pages, alloc, fonts, width, source, &mut Notes::none())?;
    Ok(Items::from_vec(pages))
}

/// The listing of the pages of a source, as [`listing`](crate::listing) says.
///
/// # Errors
///
/// Those of [`source_file`].
pub fn source_listing(
    alloc: Global,
    fonts: &FontSet,
    width: i64,
    source: &[u8],
    notes: &mut Notes,
) -> Result<Bytes, Status>
    requires width { IsLineWidth width }
    ensures is { IsPure (listed (source_pages fonts.now width source.now)) result }
    ensures units { notes.new.units ≡ notes.old.units }
    ensures formula { NotesFault result notes.new.formula }
    ensures overfull { NotesOnly (source_overfull fonts.now width source.now) notes.new.formula }
{
    let mut text = ListingText::new(alloc);
    add_pages(&mut text, alloc, fonts, width, source, notes)?;
    Ok(text.finish()?)
}

/// The summary of the pages of a source, which so many formulas gave, as [`summary`](crate::summary) says.
///
/// # Errors
///
/// Those of [`source_file`].
pub fn source_summary(
    alloc: Global,
    fonts: &FontSet,
    width: i64,
    formulas: u32,
    source: &[u8],
    notes: &mut Notes,
) -> Result<Bytes, Status>
    requires width { IsLineWidth width }
    ensures is { IsPure (summed_up formulas (source_pages fonts.now width source.now)) result }
    ensures units { notes.new.units ≡ notes.old.units }
    ensures formula { NotesFault result notes.new.formula }
    ensures overfull { NotesOnly (source_overfull fonts.now width source.now) notes.new.formula }
{
    let mut counts = Counts::new();
    add_pages(&mut counts, alloc, fonts, width, source, notes)?;
    Ok(counts.text(alloc, formulas)?)
}
