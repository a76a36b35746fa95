//! What is said of a font whose TFM file has a fault or cannot be read.
ghost use Rattle.std.specs.Prelude.{◌≡◌, ◌⊎◌, IfSome};
ghost use Rattle.mt_tfm.specs.Tfm.{TfmFault};
ghost use Rattle.mt_tfm.specs.declared.error.TfmError.TheVariants.{BadIndex, ChainCycle};
ghost use Rattle.mt_tfm.specs.declared.wanted.Wanted.TheVariants.{Scaled};

use crate::files::{fetched, fetched_list};
use crate::fonts::{DESIGN_SIZE, push_character};
use crate::list_lines::{ListLine, line_of, push_list_line};
use crate::refusal::Refusal;
use crate::text::{Text, Unsaid};
use mt_family::MAX_LIST_BYTES;
use mt_outside::Cabinet;
use mt_scaled::Name;
use mt_status::Status;
use mt_tfm::{MAX_TFM, TfmError, read_tfm_wanted};
use std::alloc::Global;

/// What the name of a TFM file ends with.
const TFM_ENDING: &[u8] = b".tfm";

// The name of a font's file.
fn tfm_name(alloc: Global, name: &Name) -> Result<String, Unsaid> {
    let mut bytes = Vec::from_slice(alloc, name.as_slice())?;
    bytes.extend_from_slice(TFM_ENDING)?;
    Ok(String::from_utf8_lossy(alloc, &bytes)?)
}

// The character that a font is refused for, where it is refused for one.
fn character_of(error: TfmError) -> Option<u8>
    ensures { IfSome result (λ code. (error ≡ BadIndex code) ⊎ (error ≡ ChainCycle code)) }
{
    match error {
        TfmError::BadIndex(code) | TfmError::ChainCycle(code) => Some(code),
        TfmError::Truncated
        | TfmError::BadCounts
        | TfmError::BadHeader
        | TfmError::BadFix { .. }
        | TfmError::BadZero(_)
        | TfmError::BadProgram(_)
        | TfmError::BadRecipe(_)
        | TfmError::OutOfMemory
        | TfmError::BadSize(_) => None,
    }
}

// The character at fault in a font's file with these bytes, which was refused for this cause. There is none where the
// bytes are refused for another cause: the file has changed since the run, or the run tests the size of the font first.
fn character_at_fault(alloc: Global, font: &[u8], cause: u8) -> Option<u8>
    ensures { IfSome result (λ code. ((cause ≡ 4) × TfmFault font.now (Scaled 1000) (BadIndex code))
        ⊎ ((cause ≡ 5) × TfmFault font.now (Scaled 1000) (ChainCycle code))) }
{
    match read_tfm_wanted(alloc, font, DESIGN_SIZE, None) {
        Err(error) if error.number() == cause => character_of(error),
        Err(_) | Ok(_) => None,
    }
}

// Adds the character at fault in a font's file with these bytes, where one is.
fn push_character_at_fault(out: &mut Text, run: Refusal<'_>, font: &[u8]) {
    let Status::BadTfm { cause, .. } = run.status else {
        return;
    };
    if let Some(code) = character_at_fault(run.alloc, font, *cause) {
        out.push(b": character ");
        push_character(out, code);
    }
}

// The name of the file of the font of a number, counted from 0.
fn file_of_font<C: Cabinet>(
    alloc: Global,
    list: &str,
    number: u32,
    cabinet: &mut C,
) -> Result<String, Unsaid>
    ensures holds { C.holds cabinet.new ≡ C.holds cabinet.old }
{
    let read = fetched_list(alloc, cabinet, list)?;
    let line = read.list.lines.get(number as usize).ok_or(Unsaid)?;
    tfm_name(alloc, &line.name)
}

// Adds the line for a font's file with these bytes.
fn push_font_file(out: &mut Text, run: Refusal<'_>, file: &str, font: &[u8]) {
    out.push_all(&[file.as_bytes(), b": "]);
    out.push_explanation(run.alloc, run.status);
    push_character_at_fault(out, run, font);
    out.push(b"\n");
}

/// Adds the line for the font of a number, counted from 0, whose TFM file has a fault: the file's name, and the
/// character, where one is at fault.
pub fn explain_font<C: Cabinet>(
    out: &mut Text,
    run: Refusal<'_>,
    list: &str,
    number: u32,
    cabinet: &mut C,
) -> Result<(), Unsaid>
    ensures holds { C.holds cabinet.new ≡ C.holds cabinet.old }
{
    let file = file_of_font(run.alloc, list, number, cabinet)?;
    let font = fetched(run.alloc, cabinet, &file, MAX_TFM)?;
    push_font_file(out, run, &file, font.as_slice());
    Ok(())
}

// Whether a line of a list is that of the font of this name.
fn is_of_font(line: &[u8], font: &[u8]) -> bool {
    let mut fields = line
        .split(|byte| *byte == b' ')
        .filter(|field| !field.is_empty());
    fields.next() == Some(b"font".as_slice()) && fields.next() == Some(font)
}

// The first line of a list for the font of this name.
fn line_of_font<'a>(list: &'a [u8], font: &[u8]) -> Option<ListLine<'a>> {
    let mut lines = list.split(|byte| *byte == b'\n');
    let index = lines.position(|line| is_of_font(line, font))?;
    line_of(list, index.saturating_add(1))
}

/// Adds the lines for a TFM file that cannot be read, by the first line of the list that names its font.
pub fn explain_unread<C: Cabinet>(
    out: &mut Text,
    run: Refusal<'_>,
    list: &str,
    cabinet: &mut C,
) -> Result<(), Unsaid>
    ensures holds { C.holds cabinet.new ≡ C.holds cabinet.old }
{
    let Status::ReadFault { name } = run.status else {
        return Err(Unsaid);
    };
    let font = name.as_slice().strip_suffix(TFM_ENDING).ok_or(Unsaid)?;
    let bytes = fetched(run.alloc, cabinet, list, MAX_LIST_BYTES)?;
    let line = line_of_font(bytes.as_slice(), font).ok_or(Unsaid)?;
    let fetches = b"; examples/fetch-fonts ";
    let copies = b" copies the TFM files of TeX's fonts";
    push_list_line(out, run, list, line, &[fetches, list.as_bytes(), copies]);
    Ok(())
}
