//! What a refusal means in words, for a person: the text that main writes below the log's.
ghost use Rattle.std.specs.Prelude.{◌≡◌, ◌∷◌, [], List, ℕ, codes};
ghost use Rattle.std.specs.List.{concat};
ghost use Rattle.mt_scaled.specs.Meanings.{IsLine};
ghost use Rattle.mt_status.specs.Log.{Gets};
ghost use Rattle.mt_status.specs.Explanation.{usage};
ghost use Rattle.mt_status.specs.Statuses.{explained};
ghost use Rattle.mt_status.specs.Statuses.{meaning, too_much_meaning};
ghost use Rattle.mt_status.specs.inner.LogParts.{part_bytes};

use crate::causes::{font_cause, token_cause};
use crate::log_part::{LogPart, write_parts};
use crate::status::{Much, Status};
use mt_dviread::dvi_cause_text;
use mt_family::{family_cause_text, list_cause_text};
use mt_outside::Sink;
use mt_token::byte_cause_text;

const USAGE: &str =
    "usage: mathset [--line WIDTH] set FONTS SOURCE       as in: mathset set my.fonts my.tex > my.dvi\n       \
     mathset [--line WIDTH] places FONTS SOURCE    the places of the glyphs and rules as text\n       \
     mathset read FONTS DVI, mathset pick FONTS DVI RANGE.., mathset join FONTS DVI.., or mathset gen SEED COUNT\n       \
     WIDTH is the width of a line in scaled points; without it a line is 6.5in = 30785863\n       \
     RANGE is the number of a page, or of the first and the last of several, as 3 or 2-5";

// How the program is called, in five lines.
#[tactic(auto, unfolding(crate::specs::Explanation::usage))]
fn usage() -> &'static str
    ensures { result.now ≡ usage }
{
    USAGE
}

fn too_much(kind: Much) -> &'static str
    ensures is { result.now ≡ too_much_meaning kind }
    ensures line { IsLine result.now }
{
    match kind {
        Much::Pages => "a source can have at most 5,000 pages, and a file of copied pages 65,535",
        Much::Places => "at most 2,000,000 glyphs and rules can be placed",
        Much::Bytes => "a DVI file can have at most 67,108,864 bytes",
    }
}

// What a refusal means. docs/FORMATS.md has the table.
fn explanation(status: &Status) -> &'static str
    ensures is { result.now ≡ meaning status.now }
    ensures line { IsLine result.now }
{
    match status {
        Status::Done | Status::BadWords => "",
        Status::ReadFault { .. } => "the file does not exist, is a directory, or cannot be read",
        Status::TooLong { .. } => {
            "a font list can have at most 65,536 bytes, a TFM file 131,068, a source 4,194,304, \
             and a DVI file 67,108,864"
        }
        Status::WriteFault { .. } => "the output could not be written in full",
        Status::FontList { cause, .. } => list_cause_text(*cause),
        Status::BadTfm { cause, .. } => font_cause(*cause),
        Status::BadFamily { cause, .. } => family_cause_text(*cause),
        Status::BadSource { cause, .. } => byte_cause_text(*cause),
        Status::BadFormula { cause, .. } => token_cause(*cause),
        Status::TooMuch { kind, .. } => too_much(*kind),
        Status::BadDvi { cause, .. } | Status::BadFile { cause, .. } => dvi_cause_text(*cause),
        Status::BadPick { .. } => "the DVI file does not have this page",
        Status::MagClash { .. } => "the magnification is not that of file 0",
        Status::OutOfMemory => "there is not enough memory",
        Status::Budget { .. } => {
            "a formula can take at most 20,000 steps of macros and 50,000 tokens, \
             and all formulas together 1,000,000 tokens"
        }
        Status::MissingFamily { .. } => "the family has no font at this size",
        Status::MissingChar { .. } => "the font does not have this character",
        Status::SmartLigature { .. } => {
            "a ligature that keeps one of its characters is not supported"
        }
        Status::Overflow { .. } => "a length or a position is 16384pt or more",
        Status::TooTall { .. } => "a delimiter can repeat its piece at most 2,000 times",
        Status::TooDeep { .. } => "at most 150 groups can be open",
    }
}

// A place, and what is wrong there.
fn write_at<'a, L: Sink>(log: &mut L, head: &'a [u8], place: LogPart<'a>, text: &'a str)
    ensures { Gets L.written L.faults log.old log.new
        (concat (head.now ∷ part_bytes place.entry ∷ codes ": " ∷ text.now ∷ codes "\n" ∷ [])) }
{
    write_parts(
        log,
        &[
            LogPart::Text(head),
            place,
            LogPart::Text(b": "),
            LogPart::Text(text.as_bytes()),
            LogPart::Text(b"\n"),
        ],
    );
}

fn write_whole<L: Sink>(log: &mut L, text: &str)
    ensures { Gets L.written L.faults log.old log.new (concat (text.now ∷ codes "\n" ∷ [])) }
{
    write_parts(log, &[LogPart::Text(text.as_bytes()), LogPart::Text(b"\n")]);
}

// The place that the refusal names, and the text.
fn write_explained<L: Sink>(log: &mut L, status: &Status, text: &str)
    ensures { Gets L.written L.faults log.old log.new (explained status.now text.now) }
{
    match status {
        Status::Done => {}
        Status::ReadFault { name } | Status::TooLong { name } => {
            write_at(log, b"", LogPart::Text(name.as_slice()), text)
        }
        Status::FontList { line, .. } => write_at(
            log,
            b"font list line ",
            LogPart::Word(*line),
            text,
        ),
        Status::BadTfm { font, .. } => write_at(log, b"font ", LogPart::Word(*font), text),
        Status::BadFamily { fam, .. } => write_at(log, b"family ", LogPart::Byte(*fam), text),
        Status::BadSource { offset, .. } => {
            write_at(log, b"source byte ", LogPart::Long(*offset), text)
        }
        Status::BadFormula { n, .. }
        | Status::Budget { n }
        | Status::MissingFamily { n, .. }
        | Status::MissingChar { n, .. }
        | Status::SmartLigature { n, .. }
        | Status::Overflow { n, .. }
        | Status::TooTall { n, .. }
        | Status::TooDeep { n, .. } => write_at(log, b"formula ", LogPart::Word(*n), text),
        Status::BadDvi { offset, .. } => {
            write_at(log, b"dvi byte ", LogPart::Long(*offset), text)
        }
        Status::BadPick { page } => write_at(log, b"page ", LogPart::Word(*page), text),
        Status::MagClash { file } | Status::BadFile { file, .. } => {
            write_at(log, b"file ", LogPart::Word(*file), text)
        }
        Status::BadWords => write_whole(log, usage()),
        Status::WriteFault { .. } | Status::TooMuch { .. } | Status::OutOfMemory => write_whole(
            log, text,
        ),
    }
}

/// Writes what a refusal means, in a line for a person, and nothing for `Done`; for `BadWords` five
/// lines on how the program is called. The name of a file is in it unchanged: one that has a line
/// feed makes two lines. A fault of the stream changes nothing else. Line and texts are those of
/// docs/FORMATS.md ("Explanations").
pub fn write_explanation<L: Sink>(log: &mut L, status: &Status)
    ensures is { Gets L.written L.faults log.old log.new (explained status.now (meaning status.now)) }
    ensures line { (text : List ℕ) × IsLine text
        × Gets L.written L.faults log.old log.new (explained status.now text) }
{
    write_explained(log, status, explanation(status));
}
