//! The pages of a source, one after another.
ghost use Rattle.std.specs.Prelude.{◌≡◌, ◌≤◌, ◌^◌, [], All, IfErr, IfOk, IfSome, List, None, Ok, Option};
ghost use Rattle.std.specs.Prelude.{Result, false, get_or, length, ℕ, ℤ};
ghost use Rattle.mt_family.specs.SetValue.{SetValue};
ghost use Rattle.mt_box.specs.declared.place.Place.{Place as PlaceFields};
ghost use Rattle.mt_dvi.specs.Writable.{IsWritable};
ghost use Rattle.mt_token.specs.Tokens.{max_source};
ghost use Rattle.mt_plain.specs.CodeTables.{plain_codes};
ghost use Rattle.mt_rules.specs.declared.document.Formula.{Formula};
ghost use Rattle.mt_reader.specs.PageReading.{CanGoOn, GoesOn};
ghost use Rattle.mt_reader.specs.Sources.{plain_words};
ghost use Rattle.mt_reader.specs.Views.{pages_view};
ghost use Rattle.mt_reader.specs.Weights.{HasModestLists, page_weight};
ghost use Rattle.mt_pages.specs.Pages.{PageLinesValue, no_lines, page_lines, page_overfull, page_places};
ghost use Rattle.mt_pages.specs.Pages.{NotesOnly, overfull_formula, source_overfull, stack_refusal};
ghost use Rattle.mt_status.specs.Notes.{NotesFault, has_too_many_places};
ghost use Rattle.mt_pages.specs.LineWidth.{IsLineWidth};
ghost use Rattle.mt_pages.specs.inner.Lines.{IsPage, IsStackable, LinesHold};
ghost use Rattle.mt_pages.specs.inner.Placed.{IsToldAnswer, overfull_of, place_fault, status_of};
ghost use Rattle.mt_pages.specs.inner.SetPages.{AreFormulasOf, ArePagesOf, GoesOnAfter, IsNextOf, IsReadFrom};
ghost use Rattle.mt_pages.specs.inner.SetPages.{IsTold, SetsPage, KeepsPlaces, end_of, is_nothing, is_setting};
ghost use Rattle.mt_pages.specs.inner.SetPages.{noted_at_end};

use crate::document::document_refusal;
use crate::page_lines::{PageLines, page_lines};
use mt_box::PlaceList;
use mt_display::StackError;
use mt_dvi::MAX_PLACES;
use mt_family::FontSet;
use mt_reader::{ArenaPage, PageReader};
use mt_status::{Much, Notes, Status};
use mt_tables::Tables;
use std::alloc::{AllocError, Global};
use std::mem;

// The number of the formula of a line.
fn formula_of(formulas: &[u32], line: u32) -> u32
    ensures { result ≡ get_or formulas.now line 0 }
{
    formulas.get(line as usize).copied().unwrap_or(0)
}

// A page of these formulas, by the lines, has a place out of range, or too many.
fn stack_refusal(formulas: &[u32], error: StackError) -> Status
    ensures { result ≡ stack_refusal formulas.now error }
{
    match error {
        StackError::OutOfRange { line, value } => Status::Overflow {
            n: formula_of(formulas, line),
            value,
        },
        StackError::TooMany { .. } => Status::TooMuch {
            kind: Much::Places,
            count: MAX_PLACES + 1,
        },
        StackError::OutOfMemory => Status::OutOfMemory,
    }
}

// The formula of a page of these formulas, by the lines, that has a place too many.
fn overfull_formula(formulas: &[u32], error: StackError) -> Option<u32>
    ensures { result ≡ overfull_formula formulas.now error }
{
    match error {
        StackError::TooMany { line } => Some(formula_of(formulas, line)),
        StackError::OutOfRange { .. } | StackError::OutOfMemory => None,
    }
}

// Why a page has no places, and the number of the formula that has a place too many.
#[derive(Drop)]
struct PlaceFault {
    status: Status,
    formula: Option<u32>,
}

impl PlaceFault {
    fn of(formulas: &[u32], error: StackError) -> PlaceFault
        ensures { result ≡ place_fault formulas.now error }
    {
        PlaceFault {
            status: stack_refusal(formulas, error),
            formula: overfull_formula(formulas, error),
        }
    }
}

// The places of a page, where there is room for so many. That memory ran out is alone an `Err` of the whole.
fn page_places(
    alloc: Global,
    page: &PageLines,
    room: u64,
) -> Result<Result<PlaceList, PlaceFault>, AllocError>
    requires { IsStackable page.now }
    ensures is { (lines : PageLinesValue) → IsPage lines page.now
        → IfOk result (λ places. status_of places ≡ page_places room lines) }
    ensures formula { (lines : PageLinesValue) → IsPage lines page.now
        → IfOk result (λ places. overfull_of places ≡ page_overfull room lines) }
    ensures told { IfOk result IsToldAnswer }
    ensures few { IfOk result (λ places. IfOk places (λ page. length page ≤ room)) }
    ensures writable { (fonts : SetValue) → (lines : PageLinesValue) → IsPage lines page.now → LinesHold fonts lines.lines
        → IfOk result (λ places. IfOk places (λ page. All (IsWritable fonts) page)) }
{
    match page.stack.places(alloc, room) {
        Ok(places) => Ok(Ok(places)),
        Err(StackError::OutOfMemory) => Err(AllocError),
        Err(error) => Ok(Err(PlaceFault::of(&page.formulas, error))),
    }
}

// The first fault that is held back: that of a place, until all formulas are set, or that of a formula that is not set,
// until all are read.
#[derive(Drop)]
enum FirstFault {
    Nothing,
    Place(PlaceFault),
    Setting(Status),
}

impl FirstFault {
    fn is_nothing(&self) -> bool
        ensures { result ≡ is_nothing self.now }
    {
        matches!(self, FirstFault::Nothing)
    }

    fn is_setting(&self) -> bool
        ensures { result ≡ is_setting self.now }
    {
        matches!(self, FirstFault::Setting(_))
    }
}

/// The pages of a source, one after another: they are read, set and placed as they are asked for. Each formula is on a
/// line of its own, or on two where its number is not beside it. Lines are one below another from v = 0 on, 12pt from
/// baseline to baseline, or 1pt apart. After an error it is of no more use.
#[derive(Drop)]
pub struct PageSetter<'a> {
    reader: PageReader<'a>,
    // how many places more there may be
    room: u64,
    held: FirstFault,
    // of the page that was set last: its memory is used again for the next one
    lines: PageLines,
}

impl<'a> PageSetter<'a> {
    /// The pages of a source of at most 4,194,304 bytes, under plain TeX's tables. None of them is read yet.
    ///
    /// # Errors
    ///
    /// Memory ran out.
    pub fn new(
        alloc: Global,
        tables: Tables,
        source: &'a [u8],
    ) -> Result<PageSetter<'a>, AllocError>
        requires codes { tables.codes ≡ plain_codes }
        requires macros { tables.macros ≡ plain_words }
        requires few { length source.now ≤ max_source }
        ensures is { IfOk result (λ setter. (fonts : SetValue) → (width : ℤ)
            → ArePagesOf fonts width source.now [] setter) }
        ensures more { IfOk result (λ setter. CanGoOn setter.reader) }
    {
        Ok(PageSetter {
            reader: PageReader::new(alloc, tables, source),
            room: MAX_PLACES,
            held: FirstFault::Nothing,
            lines: PageLines::new(alloc)?,
        })
    }

    // Finds the places of the page that is set, unless a fault is held back.
    fn place(&mut self, alloc: Global) -> Result<Option<PlaceList>, AllocError>
        requires { IsStackable self.old.lines }
        ensures reader { self.new.reader ≡ self.old.reader }
        ensures is { (fonts : SetValue) → (width : ℤ) → (formulas : List Formula) → (page : PageLinesValue)
            → IsPage page self.old.lines → page_lines fonts width no_lines formulas ≡ Ok page
            → IfOk result (λ places. SetsPage fonts width formulas self.old self.new places) }
        ensures writable { (fonts : SetValue) → (page : PageLinesValue) → IsPage page self.old.lines → LinesHold fonts page.lines
            → IfOk result (λ places. IfSome places (λ page. All (IsWritable fonts) page)) }
    {
        if !self.held.is_nothing() {
            return Ok(None);
        }
        match page_places(alloc, &self.lines, self.room)? {
            Ok(places) => {
                self.room -= places.len() as u64;
                Ok(Some(places))
            }
            Err(fault) => {
                self.held = FirstFault::Place(fault);
                Ok(None)
            }
        }
    }

    // Sets a page and finds its places, unless a fault is held back.
    fn set(
        &mut self,
        alloc: Global,
        fonts: &FontSet,
        width: i64,
        page: &ArenaPage,
    ) -> Result<Option<PlaceList>, AllocError>
        requires width { IsLineWidth width }
        requires modest { All HasModestLists page.now }
        requires few { page_weight page.now ≤ 2 ^ 21 }
        ensures reader { self.new.reader ≡ self.old.reader }
        ensures is { IfOk result (λ places. SetsPage fonts.now width page.now self.old self.new places) }
        ensures writable { IfOk result (λ places. IfSome places (λ page. All (IsWritable fonts.now) page)) }
    {
        if self.held.is_setting() {
            return Ok(None);
        }
        match page_lines(&mut self.lines, alloc, fonts, width, page) {
            Ok(()) => self.place(alloc),
            Err(Status::OutOfMemory) => Err(AllocError),
            Err(status) => {
                self.held = FirstFault::Setting(status);
                Ok(None)
            }
        }
    }

    // Sets a page and finds its places, and gives its memory back to the reader.
    fn set_and_recycle(
        &mut self,
        alloc: Global,
        fonts: &FontSet,
        width: i64,
        page: ArenaPage,
    ) -> Result<Option<PlaceList>, AllocError>
        requires width { IsLineWidth width }
        requires modest { All HasModestLists page }
        requires few { page_weight page ≤ 2 ^ 21 }
        ensures reader { pages_view self.new.reader ≡ pages_view self.old.reader }
        ensures is { IfOk result (λ places. SetsPage fonts.now width page self.old self.new places) }
        ensures writable { IfOk result (λ places. IfSome places (λ page. All (IsWritable fonts.now) page)) }
    {
        let places = self.set(alloc, fonts, width, &page)?;
        self.reader.recycle(page);
        Ok(places)
    }

    // The formulas of the next page.
    fn formulas(&mut self, alloc: Global, fonts: &FontSet) -> Result<Option<ArenaPage>, Status>
        requires more { CanGoOn self.old.reader }
        ensures is { (source : List ℕ) → (read : List (List Formula))
            → IsReadFrom fonts.now source read self.old.reader
            → AreFormulasOf fonts.now source read self.new result }
        ensures keeps { KeepsPlaces self.old self.new }
        ensures more { IfOk result (λ (page : Option (List Formula)). GoesOn self.old.reader self.new.reader (Ok page)) }
        ensures few { IfErr result (λ status. has_too_many_places status ≡ false) }
    {
        match self.reader.next_page(alloc, fonts.units()) {
            Ok(page) => Ok(page),
            Err(error) => Err(document_refusal(error)),
        }
    }

    // The end of the pages, or the fault that was held back. The formula that has a place too many is noted.
    fn end(&mut self, notes: &mut Notes) -> Result<Option<PlaceList>, Status>
        requires none { notes.old.formula ≡ None }
        ensures is { result ≡ end_of self.old.held }
        ensures units { notes.new.units ≡ notes.old.units }
        ensures formula { IsTold self.old.held → NotesFault result notes.new.formula }
        ensures overfull { notes.new.formula ≡ noted_at_end self.old.held }
    {
        match mem::replace(&mut self.held, FirstFault::Nothing) {
            FirstFault::Nothing => Ok(None),
            FirstFault::Place(fault) => {
                notes.formula = fault.formula;
                Err(fault.status)
            }
            FirstFault::Setting(status) => Err(status),
        }
    }

    /// The places of the next page; `None` where there are no more. `width` is the width of a line in scaled points;
    /// fonts and width are the same ones for all pages.
    ///
    /// # Errors
    ///
    /// `BadSource` at the first byte of the source that is not ASCII (cause 1) or is not allowed where it is (cause 2),
    /// wherever that is; pages before it may come first. Where there is none, the first fault of the document, in the
    /// order of the source: `BadFormula` for a token outside of formulas (causes 31 to 36), a macro of a formula
    /// without an argument (21) and a token at which a formula cannot be read on (1 to 10 and 13); `Budget` for a
    /// formula whose macros do not come to an end, and where the formulas have too many tokens together; `TooDeep`
    /// where too many groups of a formula are open; `TooMuch` pages, at the formula that would begin one. Where all
    /// formulas are read, the first fault of setting them, as [`page_lines`] says. Where all are set, the first of
    /// these, page by page and in the order of the places: `Overflow` with a coordinate that is out of range, and the
    /// number of its formula; `TooMuch` at place 2,000,001, with the number of its formula in `notes`. `OutOfMemory`
    /// where memory ran out.
    pub fn next_page(
        &mut self,
        alloc: Global,
        fonts: &FontSet,
        width: i64,
        notes: &mut Notes,
    ) -> Result<Option<PlaceList>, Status>
        requires width { IsLineWidth width }
        requires more { CanGoOn self.old.reader }
        requires none { notes.old.formula ≡ None }
        ensures is { (source : List ℕ) → (pages : List (List PlaceFields))
            → ArePagesOf fonts.now width source pages self.old
            → IsNextOf fonts.now width source pages self.new result }
        ensures more { IfOk result (λ places. IfSome places (λ page. GoesOnAfter fonts.now self.old self.new page)) }
        ensures units { notes.new.units ≡ notes.old.units }
        ensures formula { (source : List ℕ) → (pages : List (List PlaceFields))
            → ArePagesOf fonts.now width source pages self.old → NotesFault result notes.new.formula }
        ensures overfull { (source : List ℕ) → (pages : List (List PlaceFields))
            → ArePagesOf fonts.now width source pages self.old
            → NotesOnly (source_overfull fonts.now width source) notes.new.formula }
    {
        while let Some(page) = self.formulas(alloc, fonts)? {
            if let Some(places) = self.set_and_recycle(alloc, fonts, width, page)? {
                return Ok(Some(places));
            }
        }
        self.end(notes)
    }
}
