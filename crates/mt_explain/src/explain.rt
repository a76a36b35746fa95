//! What is said of a refusal, for a person: the lines that main writes below the log's.
ghost use Rattle.std.specs.Prelude.{◌≡◌};
ghost use Rattle.mt_status.specs.declared.status.Status.TheVariants.{Done};

use crate::dvi_files::explain_dvi;
use crate::family_lines::explain_family;
use crate::font_files::{explain_font, explain_unread};
use crate::list_lines::explain_list;
use crate::refusal::Refusal;
use crate::source_lines::explain_source;
use crate::text::{Text, Unsaid};
use mt_outside::{Cabinet, Sink, write_all};
use mt_status::{Notes, Status, Subject, write_explanation};
use mt_words::{Request, read_words};
use std::alloc::Global;

/// The files of a run that are read with its font list.
#[derive(Clone, Copy)]
enum Input<'a> {
    /// The source.
    Source(&'a str),
    /// DVI files.
    Dvi(&'a [&'a str]),
}

impl<'a> Input<'a> {
    // The first one.
    fn first(self) -> &'a str {
        match self {
            Input::Source(source) => source,
            Input::Dvi([file, ..]) => *file,
            Input::Dvi([]) => "",
        }
    }
}

// Adds what is said of a refusal of these files.
fn explain_files<C: Cabinet>(
    out: &mut Text,
    run: Refusal<'_>,
    list: &str,
    input: Input<'_>,
    cabinet: &mut C,
) -> Result<(), Unsaid>
    ensures holds { C.holds cabinet.new ≡ C.holds cabinet.old }
{
    match (run.status.subject(), input) {
        (Subject::ListLine(line), _) => explain_list(out, run, list, line, input.first(), cabinet),
        (Subject::Font(number), _) => explain_font(out, run, list, number, cabinet),
        (Subject::Family(named), _) => explain_family(out, run, list, named, cabinet),
        (Subject::Unread, _) => explain_unread(out, run, list, cabinet),
        (Subject::Byte(..) | Subject::Fault(_) | Subject::Places, Input::Source(file)) => {
            explain_source(out, run, list, file, None, cabinet)
        }
        (Subject::Formula(_, named), Input::Source(file)) => {
            explain_source(out, run, list, file, named, cabinet)
        }
        (Subject::Dvi(fault), Input::Dvi(files)) => explain_dvi(out, run, files, fault, cabinet),
        (
            Subject::Byte(..) | Subject::Fault(_) | Subject::Places | Subject::Formula(..),
            Input::Dvi(_),
        )
        | (Subject::Dvi(_), Input::Source(_))
        | (Subject::Nothing, _) => Err(Unsaid),
    }
}

// Adds what is said of a refusal beyond its explanation.
fn push_explained<C: Cabinet>(
    out: &mut Text,
    run: Refusal<'_>,
    words: &[String],
    cabinet: &mut C,
) -> Result<(), Unsaid>
    ensures holds { C.holds cabinet.new ≡ C.holds cabinet.old }
{
    match read_words(run.alloc, words)? {
        Some(Request::Set(words)) | Some(Request::Places(words)) => {
            explain_files(out, run, words.fonts, Input::Source(words.source), cabinet)
        }
        Some(Request::Read(words)) => {
            explain_files(out, run, words.fonts, Input::Dvi(&[words.dvi]), cabinet)
        }
        Some(Request::Pick(words)) => {
            explain_files(out, run, words.fonts, Input::Dvi(&[words.dvi]), cabinet)
        }
        Some(Request::Join(words)) => {
            explain_files(
                out,
                run,
                words.fonts,
                Input::Dvi(words.files.as_slice()),
                cabinet,
            )
        }
        Some(Request::Gen(_)) | None => Err(Unsaid),
    }
}

/// Writes what a refusal means and where it is, for a person, and nothing for `Done`; docs/FORMATS.md has the lines
/// ("Explanations" and "Places"). The font list, the source or the TFM file that the status is about is fetched once
/// more; where it cannot be fetched, or does not have what the status names, the lines are those of
/// `write_explanation`. Of a DVI file the name is written, and where its font is the cause, it is fetched too. A fault of
/// the stream changes nothing else.
///
/// `notes` are those of the run. Without units in them no formula is read again, and without the number of a formula
/// no place is written where there are too many places.
pub fn write_located<C: Cabinet, L: Sink>(
    alloc: Global,
    words: &[String],
    status: &Status,
    notes: Notes,
    cabinet: &mut C,
    log: &mut L,
)
    ensures holds { C.holds cabinet.new ≡ C.holds cabinet.old }
    ensures done { status.now ≡ Done
        → (L.written log.new ≡ L.written log.old) × (L.faults log.new ≡ L.faults log.old) }
{
    if let Status::Done = status {
        return;
    }
    let run = Refusal {
        alloc,
        status,
        notes,
    };
    let mut out = Text::new(alloc);
    match (push_explained(&mut out, run, words, cabinet), out.finish()) {
        (Ok(()), Some(text)) => {
            let _ = write_all(log, text);
        }
        _ => write_explanation(log, status),
    }
}
