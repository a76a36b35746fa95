//! The command `read`: the pages of a DVI file.
ghost use Rattle.std.specs.Prelude.{◌≡◌, IfSome};
ghost use Rattle.mt_dvi.specs.File.{Fault};
ghost use Rattle.mt_dviread.specs.Errors.{fault_of};
ghost use Rattle.mathset.specs.DviSteps.{dvi_listing, dvi_refusal, dvi_step};
ghost use Rattle.mt_status.specs.Origins.{IsPure};
ghost use Rattle.mathset.specs.inner.Steps.{IsMade, IsStep, text_of};
ghost use Rattle.mathset.specs.Steps.{read_steps};

use crate::fetch::fetch_file;
use crate::fonts::read_font_set;
use mt_dviread::{DviError, MAX_DVI, read_dvi};
use mt_family::FontSet;
use mt_outside::Cabinet;
use mt_pages::listing;
use mt_scaled::Bytes;
use mt_status::Status;
use mt_words::DviSource;
use std::alloc::Global;

/// The status of a DVI file that is refused.
pub fn dvi_refusal(error: DviError) -> Status
    ensures told { IfSome (fault_of error) (λ fault. result ≡ dvi_refusal fault) }
    ensures memory { fault_of error ≡ None → result ≡ Status.OutOfMemory }
{
    match error.place() {
        Some(offset) => Status::BadDvi {
            offset,
            cause: error.number(),
        },
        None => Status::OutOfMemory,
    }
}

// The listing of a DVI file's pages.
fn dvi_listing(alloc: Global, fonts: &FontSet, bytes: &[u8]) -> Result<Bytes, Status>
    ensures is { IsPure (dvi_listing fonts.now bytes.now) (text_of result) }
{
    match read_dvi(alloc, fonts, bytes) {
        Ok(pages) => Ok(listing(alloc, &pages)?),
        Err(error) => Err(dvi_refusal(error)),
    }
}

fn read_file<C: Cabinet>(
    alloc: Global,
    name: &str,
    fonts: &FontSet,
    cabinet: &mut C,
) -> Result<Bytes, Status>
    ensures is { IsStep C.holds C.faults C.lost cabinet.old cabinet.new
        (dvi_step name.now fonts.now) (text_of result) }
{
    let bytes = fetch_file(alloc, cabinet, name, MAX_DVI)?;
    dvi_listing(alloc, fonts, bytes.as_slice())
}

/// Reads the font list, its fonts and the DVI file: what is made is the listing of the file's pages.
///
/// # Errors
///
/// The first refusal of the font list, of its fonts in order and of the families; then `ReadFault`
/// or `TooLong` of the DVI file; then `BadDvi` with the offset and the number of the file's first
/// fault. `OutOfMemory` where memory ran out.
pub fn read<C: Cabinet>(
    alloc: Global,
    words: &DviSource<'_>,
    cabinet: &mut C,
) -> Result<Bytes, Status>
    ensures is { IsMade C.holds C.faults C.lost cabinet.old cabinet.new
        (read_steps words.now) result }
{
    let fonts = read_font_set(alloc, words.fonts, cabinet)?;
    read_file(alloc, words.dvi, &fonts, cabinet)
}
