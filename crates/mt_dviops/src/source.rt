//! The files whose pages are copied.
ghost use Rattle.std.specs.Prelude.{◌≡◌, ◌≤◌, IfErr, IfOk, List, Ok, length};
ghost use Rattle.mt_dviops.specs.Copied.{file_answer, files_answer};
ghost use Rattle.mt_dviops.specs.Refused.{Refuses};
ghost use Rattle.mt_dviops.specs.Source.{SourceFile, source_file_of};
ghost use Rattle.mt_dviops.specs.inner.Copies.{Holds};
ghost use Rattle.mt_dviops.specs.inner.Chosen.{AllHold};

use crate::copies::Copies;
use crate::copy::copy_file;
use crate::error::OpError;
use mt_dviread::DviError;
use mt_family::FontSet;
use mt_scaled::{Bytes, Items};
use std::alloc::{AllocError, Global};

/// Files, each by its bytes.
pub type FileBytes = Items<Bytes>;

/// The pages of the file of this number.
pub fn copied_file<'a>(
    alloc: Global,
    fonts: &FontSet,
    file: u32,
    bytes: &'a [u8],
) -> Result<Copies<'a>, OpError>
    ensures is { IfOk result (λ copies. (source : SourceFile)
        × (source_file_of fonts.now bytes.now ≡ Ok source) × Holds fonts.now copies source) }
    ensures refused { IfErr result (λ error.
        Refuses error (file_answer file (source_file_of fonts.now bytes.now))) }
{
    match copy_file(alloc, fonts, bytes) {
        Ok(copies) => Ok(copies),
        Err(DviError::OutOfMemory) => Err(OpError::OutOfMemory),
        Err(cause) => Err(OpError::BadFile { file, cause }),
    }
}

/// The pages of at most 16 files, or the first fault of the first file that has one.
pub fn copied_files<'a>(
    alloc: Global,
    fonts: &FontSet,
    files: &'a [Bytes],
) -> Result<Vec<Copies<'a>>, OpError>
    requires { length files.now ≤ 16 }
    ensures is { IfOk result (λ copies. (sources : List SourceFile)
        × (files_answer fonts.now 0 files.now ≡ Ok sources) × AllHold fonts.now copies.items sources) }
    ensures count { IfOk result (λ copies. length copies.items ≡ length files.now) }
    ensures refused { IfErr result (λ error. Refuses error (files_answer fonts.now 0 files.now)) }
{
    let mut sources = Vec::with_capacity(alloc, files.len())?;
    for file in files {
        let number = sources.len() as u32;
        let source = copied_file(alloc, fonts, number, file.as_slice())?;
        sources.push(source).map_err(AllocError::from)?;
    }
    Ok(sources)
}
