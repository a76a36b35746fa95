//! What the pages of a source are added to.
ghost use Rattle.std.specs.Prelude.{◌≡◌, ◌++◌, ◌∷◌, [], List, None, OnOk, ℕ};
ghost use Rattle.mt_box.specs.declared.place.Place.{Place as PlaceFields};
ghost use Rattle.mt_family.specs.SetValue.{SetValue};
ghost use Rattle.mt_pages.specs.LineWidth.{IsLineWidth};
ghost use Rattle.mt_pages.specs.Pages.{NotesOnly, source_overfull, source_pages};
ghost use Rattle.mt_status.specs.Notes.{NotesFault};
ghost use Rattle.mt_pages.specs.inner.Added.{AddsPages, CanAdd};
ghost use Rattle.mt_pages.specs.inner.SetPages.{ArePagesOf, IsAtStart};
ghost use Rattle.mt_reader.specs.PageReading.{CanGoOn};

use crate::pages::PageSetter;
use mt_box::PlaceList;
use mt_family::FontSet;
use mt_status::{Notes, Status};
use mt_tables::Tables;
use mt_token::MAX_SOURCE;
use std::alloc::{AllocError, Global};

/// What is made of pages that are added one after another.
pub trait PageSink {
    /// It is made of these pages, set in these fonts.
    ghost HasPages: { SetValue → List (List PlaceFields) → Self → Type 0 };

    /// Adds a page.
    fn add(&mut self, fonts: &FontSet, page: PlaceList) -> Result<(), AllocError>
        requires { CanAdd fonts.now (HasPages fonts.now) self.old page }
        ensures { (pages : List (List PlaceFields)) → HasPages fonts.now pages self.old
            → OnOk result (HasPages fonts.now (pages ++ page ∷ []) self.new) };
}

// Adds the pages of a setter that has handed out none.
fn add_all<S: PageSink>(
    sink: &mut S,
    alloc: Global,
    fonts: &FontSet,
    width: i64,
    setter: &mut PageSetter<'_>,
    notes: &mut Notes,
) -> Result<(), Status>
    requires width { IsLineWidth width }
    requires start { IsAtStart fonts.now width setter.old }
    requires more { CanGoOn setter.old.reader }
    requires none { notes.old.formula ≡ None }
    requires empty { S.HasPages fonts.now [] sink.old }
    ensures is { (source : List ℕ) → ArePagesOf fonts.now width source [] setter.old
        → AddsPages fonts.now (S.HasPages fonts.now) (source_pages fonts.now width source) result sink.new }
    ensures units { notes.new.units ≡ notes.old.units }
    ensures formula { NotesFault result notes.new.formula }
    ensures overfull { (source : List ℕ) → ArePagesOf fonts.now width source [] setter.old
        → NotesOnly (source_overfull fonts.now width source) notes.new.formula }
{
    while let Some(page) = setter.next_page(alloc, fonts, width, notes)? {
        sink.add(fonts, page)?;
    }
    Ok(())
}

/// Adds the pages of a source, set in these fonts on lines of `width` scaled points. A page is added as soon as it is set.
/// Where the refusal is place 2,000,001, the number of its formula is noted; else no formula is.
///
/// # Errors
///
/// The first fault of the source, as [`PageSetter::next_page`] says.
pub fn add_pages<S: PageSink>(
    sink: &mut S,
    alloc: Global,
    fonts: &FontSet,
    width: i64,
    source: &[u8],
    notes: &mut Notes,
) -> Result<(), Status>
    requires width { IsLineWidth width }
    requires none { S.HasPages fonts.now [] sink.old }
    ensures is { AddsPages fonts.now (S.HasPages fonts.now) (source_pages fonts.now width source.now) result sink.new }
    ensures units { notes.new.units ≡ notes.old.units }
    ensures formula { NotesFault result notes.new.formula }
    ensures overfull { NotesOnly (source_overfull fonts.now width source.now) notes.new.formula }
{
    notes.formula = None;
    // Never: a source is no longer than its fetch allows.
    if source.len() > MAX_SOURCE {
        return Err(Status::OutOfMemory);
    }
    let Ok(tables) = Tables::plain(alloc) else {
        return Err(Status::OutOfMemory);
    };
    let mut setter = PageSetter::new(alloc, tables, source)?;
    add_all(sink, alloc, fonts, width, &mut setter, notes)
}
