//! A source set in the fonts of a font list.
ghost use Rattle.std.specs.Prelude.{◌≡◌, ◌≤◌, IsSome, List, None, Some, length, true};
ghost use Rattle.mt_outside.specs.declared.files.Held.{Held};
ghost use Rattle.mt_status.specs.Notes.{NotesFault};
ghost use Rattle.mt_pages.specs.LineWidth.{IsLineWidth};
ghost use Rattle.mt_pages.specs.Pages.{NotesOnly, source_overfull};
ghost use Rattle.mt_pages.specs.Typeset.{typeset_of};
ghost use Rattle.mathset.specs.FontSteps.{font_set_step};
ghost use Rattle.mathset.specs.Noted.{AreUnitsIn, file_overfull, is_refused_source, words_overfull};
ghost use Rattle.mathset.specs.inner.Forms.{IsPutOut, IsTypesetStep};
ghost use Rattle.mathset.specs.Steps.{source_step, typeset_steps};

use crate::fetch::fetch_file;
use crate::fonts::read_font_set;
use mt_family::FontSet;
use mt_outside::Cabinet;
use mt_pages::{source_file, source_listing, source_summary};
use mt_scaled::Bytes;
use mt_status::{Notes, Status};
use mt_token::MAX_SOURCE;
use mt_words::Source;
use std::alloc::Global;

/// What is made of the pages of a source.
#[derive(Clone, Copy)]
pub enum Form {
    /// A DVI file.
    File,
    /// Their listing.
    Listing,
    /// Their summary, which so many formulas gave.
    Summary(u32),
}

// A source that is set in these fonts, in one of its forms.
fn source_in_form(
    alloc: Global,
    form: Form,
    fonts: &FontSet,
    width: i64,
    source: &[u8],
    notes: &mut Notes,
) -> Result<Bytes, Status>
    requires width { IsLineWidth width }
    ensures is { IsPutOut form (typeset_of fonts.now width source.now) result }
    ensures units { notes.new.units ≡ notes.old.units }
    ensures formula { NotesFault result notes.new.formula }
    ensures overfull { NotesOnly (source_overfull fonts.now width source.now) notes.new.formula }
{
    match form {
        Form::File => source_file(alloc, fonts, width, source, notes),
        Form::Listing => source_listing(alloc, fonts, width, source, notes),
        Form::Summary(formulas) => source_summary(alloc, fonts, width, formulas, source, notes),
    }
}

fn set_source<C: Cabinet>(
    alloc: Global,
    words: &Source<'_>,
    form: Form,
    fonts: &FontSet,
    cabinet: &mut C,
    notes: &mut Notes,
) -> Result<Bytes, Status>
    ensures is { IsTypesetStep C.holds C.faults C.lost cabinet.old cabinet.new
        (source_step words.now.source words.now.line fonts.now) form result }
    ensures units { notes.new.units ≡ notes.old.units }
    ensures formula { NotesFault result notes.new.formula }
    ensures overfull { (files : List Held) → C.holds cabinet.old ≡ Some files
        → NotesOnly (file_overfull words.now.source words.now.line fonts.now files) notes.new.formula }
{
    notes.formula = None;
    let source = fetch_file(alloc, cabinet, words.source, MAX_SOURCE as u64)?;
    source_in_form(alloc, form, fonts, words.line, source.as_slice(), notes)
}

/// Reads the font list, its fonts and the source, sets the source in these fonts and makes its pages in this form. What
/// em and ex are is noted once the fonts are read, and so is the number of the formula that has a place too many.
///
/// # Errors
///
/// The first refusal of the font list, of its fonts in order, of the families and of the source.
pub fn typeset<C: Cabinet>(
    alloc: Global,
    words: &Source<'_>,
    form: Form,
    cabinet: &mut C,
    notes: &mut Notes,
) -> Result<Bytes, Status>
    requires none { notes.old.units ≡ None }
    ensures is { IsTypesetStep C.holds C.faults C.lost cabinet.old cabinet.new
        (typeset_steps words.now) form result }
    ensures units { (files : List Held) → C.holds cabinet.old ≡ Some files
        → AreUnitsIn (font_set_step words.now.fonts files).result notes.new.units }
    ensures noted { is_refused_source result ≡ true → IsSome notes.new.units }
    ensures formula { NotesFault result notes.new.formula }
    ensures overfull { (files : List Held) → C.holds cabinet.old ≡ Some files
        → NotesOnly (words_overfull words.now files) notes.new.formula }
{
    notes.formula = None;
    let fonts = read_font_set(alloc, words.fonts, cabinet)?;
    notes.units = Some(fonts.units());
    set_source(alloc, words, form, &fonts, cabinet, notes)
}
