//! The commands `pick` and `join`: pages of DVI files, copied to a new one.
ghost use Rattle.std.specs.Prelude.{[], ◌≡◌, ◌≤◌, Err, IfOk, IfSome, List, None, Result, ℕ, length, map};
ghost use Rattle.mt_dviread.specs.Errors.{dvi_cause_number, fault_of};
ghost use Rattle.mt_words.specs.Limits.{max_joined};
ghost use Rattle.mt_dviops.specs.Copied.{Refusal};
ghost use Rattle.mt_dviops.specs.Refused.{Refuses};
ghost use Rattle.mathset.specs.CopySteps.{copy_by, files_step, join_refusal, join_step, joined_files};
ghost use Rattle.mathset.specs.CopySteps.{pick_refusal, pick_step, picked};
ghost use Rattle.mathset.specs.Product.{CopyValue};
ghost use Rattle.mathset.specs.Steps.{join_steps, pick_steps};
ghost use Rattle.mathset.specs.inner.Steps.{IsMade, IsProduct, IsStep};
ghost use Rattle.mt_status.specs.Origins.{IsPure};

use crate::dvi::dvi_refusal;
use crate::fetch::fetch_file;
use crate::fonts::read_font_set;
use mt_dviops::{FileBytes, OpError, append_files, select_pages};
use mt_dviread::{DviError, MAX_DVI};
use mt_family::FontSet;
use mt_outside::Cabinet;
use mt_scaled::Bytes;
use mt_status::{Much, Status};
use mt_words::{DviFiles, DviPages};
use std::alloc::Global;

// One of several files that is refused.
fn file_refusal(file: u32, error: DviError) -> Status
    ensures told { IfSome (fault_of error)
        (λ fault. result ≡ Status.BadFile file fault.at (dvi_cause_number fault.cause)) }
    ensures memory { fault_of error ≡ None → result ≡ Status.OutOfMemory }
{
    match error.place() {
        Some(offset) => Status::BadFile {
            file,
            offset,
            cause: error.number(),
        },
        None => Status::OutOfMemory,
    }
}

// Why joined files come to no file.
fn join_refusal(error: OpError) -> Status
    ensures { (copy : CopyValue) → (answer : Result (List ℕ) Refusal) → Refuses error answer
        → IsPure (copy_by join_refusal copy answer) (Err result) }
{
    match error {
        OpError::BadFile { file, cause } => file_refusal(file, cause),
        OpError::PageOutOfRange(page) => Status::BadPick { page },
        OpError::MagClash(file) => Status::MagClash { file },
        OpError::TooManyPages(count) => Status::TooMuch {
            kind: Much::Pages,
            count,
        },
        OpError::TooManyPlaces(count) => Status::TooMuch {
            kind: Much::Places,
            count,
        },
        OpError::TooLong(count) => Status::TooMuch {
            kind: Much::Bytes,
            count,
        },
        OpError::OutOfMemory => Status::OutOfMemory,
    }
}

// Why picked pages come to no file: a fault of the only file is that of `read`.
fn pick_refusal(error: OpError) -> Status
    ensures { (copy : CopyValue) → (answer : Result (List ℕ) Refusal) → Refuses error answer
        → IsPure (copy_by pick_refusal copy answer) (Err result) }
{
    match error {
        OpError::BadFile { cause, .. } => dvi_refusal(cause),
        OpError::OutOfMemory => Status::OutOfMemory,
        _ => join_refusal(error),
    }
}

// The file of these pages of a file.
fn picked(alloc: Global, pages: &[u32], fonts: &FontSet, bytes: &[u8]) -> Result<Bytes, Status>
    ensures is { IsProduct (picked pages.now fonts.now bytes.now) result }
{
    match select_pages(alloc, fonts, bytes, pages) {
        Ok(file) => Ok(file),
        Err(error) => Err(pick_refusal(error)),
    }
}

// The file of all pages of these files.
fn joined_files(alloc: Global, fonts: &FontSet, files: &FileBytes) -> Result<Bytes, Status>
    requires some { 1 ≤ length files.now }
    requires few { length files.now ≤ max_joined }
    ensures is { IsProduct (joined_files fonts.now files.now) result }
{
    match append_files(alloc, fonts, files) {
        Ok(file) => Ok(file),
        Err(error) => Err(join_refusal(error)),
    }
}

// Fetches the file and picks its pages.
fn pick_from<C: Cabinet>(
    alloc: Global,
    words: &DviPages<'_>,
    fonts: &FontSet,
    cabinet: &mut C,
) -> Result<Bytes, Status>
    ensures is { IsMade C.holds C.faults C.lost cabinet.old cabinet.new
        (pick_step words.now.dvi words.now.pages fonts.now) result }
{
    let bytes = fetch_file(alloc, cabinet, words.dvi, MAX_DVI)?;
    picked(alloc, words.pages.as_slice(), fonts, bytes.as_slice())
}

// Fetches the files of these names, in order.
fn fetch_files<C: Cabinet>(
    alloc: Global,
    names: &[&str],
    cabinet: &mut C,
) -> Result<FileBytes, Status>
    ensures is { IsStep C.holds C.faults C.lost cabinet.old cabinet.new
        (files_step [] (map (λ name. name.now) names.now)) result }
    ensures each { IfOk result (λ files. length files ≡ length names.now) }
{
    let mut files = Vec::new(alloc);
    for name in names {
        let bytes = fetch_file(alloc, cabinet, name, MAX_DVI)?;
        files.push(bytes)?;
    }
    Ok(FileBytes::from_vec(files))
}

// Fetches all files, and joins them then.
fn join_files<C: Cabinet>(
    alloc: Global,
    words: &DviFiles<'_>,
    fonts: &FontSet,
    cabinet: &mut C,
) -> Result<Bytes, Status>
    ensures is { IsMade C.holds C.faults C.lost cabinet.old cabinet.new
        (join_step words.now.files fonts.now) result }
{
    let files = fetch_files(alloc, words.files.as_slice(), cabinet)?;
    joined_files(alloc, fonts, &files)
}

/// Reads the font list, its fonts and the DVI file: what is made is the DVI file of the chosen pages.
///
/// # Errors
///
/// The first refusal of the font list, of its fonts in order and of the families; then `ReadFault`
/// or `TooLong` of the DVI file; `BadDvi` with the offset and the number of the file's first fault;
/// `BadPick` with the first page that the file does not have; `TooMuch` with more than 65,535 pages,
/// 2,000,000 places or 67,108,864 bytes in the new file. `OutOfMemory` where memory ran out.
pub fn pick<C: Cabinet>(
    alloc: Global,
    words: &DviPages<'_>,
    cabinet: &mut C,
) -> Result<Bytes, Status>
    ensures is { IsMade C.holds C.faults C.lost cabinet.old cabinet.new
        (pick_steps words.now) result }
{
    let fonts = read_font_set(alloc, words.fonts, cabinet)?;
    pick_from(alloc, words, &fonts, cabinet)
}

/// Reads the font list and its fonts, fetches the DVI files and reads them: what is made is the DVI
/// file of all their pages, in order.
///
/// # Errors
///
/// The first refusal of the font list, of its fonts in order and of the families; then the first
/// `ReadFault` or `TooLong` of the DVI files; `BadFile` with the first file at fault and its first
/// fault; `MagClash` with the first file that has another magnification than file 0; `TooMuch` as
/// in `pick`. `OutOfMemory` where memory ran out.
pub fn join<C: Cabinet>(
    alloc: Global,
    words: &DviFiles<'_>,
    cabinet: &mut C,
) -> Result<Bytes, Status>
    ensures is { IsMade C.holds C.faults C.lost cabinet.old cabinet.new
        (join_steps words.now) result }
{
    let fonts = read_font_set(alloc, words.fonts, cabinet)?;
    join_files(alloc, words, &fonts, cabinet)
}
