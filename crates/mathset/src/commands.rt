//! The commands, from their files to what is to be written.
ghost use Rattle.std.specs.Prelude.{◌≡◌, ◌&&◌, IsSome, List, None, Some, true};
ghost use Rattle.mt_outside.specs.declared.files.Held.{Held};
ghost use Rattle.mathset.specs.FontSteps.{font_set_step};
ghost use Rattle.mathset.specs.Noted.{AreUnitsIn, AreUnitsOf, is_refused_source, request_overfull};
ghost use Rattle.mathset.specs.Noted.{sets_source, words_overfull};
ghost use Rattle.mt_pages.specs.Pages.{NotesOnly};
ghost use Rattle.mathset.specs.inner.Steps.{IsMade, text_of};
ghost use Rattle.mathset.specs.Steps.{gen_answer, places_steps, request_steps, set_steps};
ghost use Rattle.mt_status.specs.Notes.{NotesFault, is_noted, is_too_many};
ghost use Rattle.mt_status.specs.Origins.{IsPure};
ghost use Rattle.mt_words.specs.RequestValues.{SampleValue};
ghost use Rattle.mt_words.specs.declared.request.Request.TheVariants.{Gen};

use crate::copies::{join, pick};
use crate::dvi::read;
use crate::sample::generated_summary;
use crate::typesetting::{Form, typeset};
use mt_outside::Cabinet;
use mt_scaled::Bytes;
use mt_status::{Notes, Status};
use mt_words::{Request, Source};
use std::alloc::Global;

// `set`: the DVI file of the source's pages.
fn set<C: Cabinet>(
    alloc: Global,
    words: &Source<'_>,
    cabinet: &mut C,
    notes: &mut Notes,
) -> Result<Bytes, Status>
    requires none { notes.old.units ≡ None }
    ensures is { IsMade C.holds C.faults C.lost cabinet.old cabinet.new
        (set_steps words.now) result }
    ensures units { (files : List Held) → C.holds cabinet.old ≡ Some files
        → AreUnitsIn (font_set_step words.now.fonts files).result notes.new.units }
    ensures noted { is_refused_source result ≡ true → IsSome notes.new.units }
    ensures formula { NotesFault result notes.new.formula }
    ensures overfull { (files : List Held) → C.holds cabinet.old ≡ Some files
        → NotesOnly (words_overfull words.now files) notes.new.formula }
{
    typeset(alloc, words, Form::File, cabinet, notes)
}

// `places`: the listing of the same pages.
fn places<C: Cabinet>(
    alloc: Global,
    words: &Source<'_>,
    cabinet: &mut C,
    notes: &mut Notes,
) -> Result<Bytes, Status>
    requires none { notes.old.units ≡ None }
    ensures is { IsMade C.holds C.faults C.lost cabinet.old cabinet.new
        (places_steps words.now) result }
    ensures units { (files : List Held) → C.holds cabinet.old ≡ Some files
        → AreUnitsIn (font_set_step words.now.fonts files).result notes.new.units }
    ensures noted { is_refused_source result ≡ true → IsSome notes.new.units }
    ensures formula { NotesFault result notes.new.formula }
    ensures overfull { (files : List Held) → C.holds cabinet.old ≡ Some files
        → NotesOnly (words_overfull words.now files) notes.new.formula }
{
    typeset(alloc, words, Form::Listing, cabinet, notes)
}

/// Does what a command line asks for, up to what is to be written. What the words about a fault need is noted.
///
/// # Errors
///
/// The first refusal of the command's files.
pub fn perform<C: Cabinet>(
    alloc: Global,
    request: &Request<'_>,
    cabinet: &mut C,
    notes: &mut Notes,
) -> Result<Bytes, Status>
    requires no_units { notes.old.units ≡ None }
    requires no_formula { notes.old.formula ≡ None }
    ensures is { IsMade C.holds C.faults C.lost cabinet.old cabinet.new
        (request_steps request.now) result }
    ensures generates { (sample : SampleValue) → request.now ≡ Gen sample
        → IsPure (gen_answer sample) (text_of result) }
    ensures untouched { (sample : SampleValue) → request.now ≡ Gen sample
        → cabinet.new ≡ cabinet.old }
    ensures units { (files : List Held) → C.holds cabinet.old ≡ Some files
        → AreUnitsOf (Some request.now) files notes.new.units }
    ensures noted { sets_source (Some request.now) ≡ true → is_refused_source result ≡ true
        → IsSome notes.new.units }
    ensures formula { is_noted notes.new.formula
        ≡ (sets_source (Some request.now) && is_too_many result) }
    ensures overfull { (files : List Held) → C.holds cabinet.old ≡ Some files
        → NotesOnly (request_overfull (Some request.now) files) notes.new.formula }
{
    match request {
        Request::Set(words) => set(alloc, words, cabinet, notes),
        Request::Places(words) => places(alloc, words, cabinet, notes),
        Request::Read(words) => read(alloc, words, cabinet),
        Request::Pick(words) => pick(alloc, words, cabinet),
        Request::Join(words) => join(alloc, words, cabinet),
        Request::Gen(sample) => generated_summary(alloc, sample),
    }
}
