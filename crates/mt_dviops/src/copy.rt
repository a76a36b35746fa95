//! One pass over a file, which copies its pages.
ghost use Rattle.std.specs.Prelude.{◌≡◌, Ok, Err, IfOk, IfErr, IfSome};
ghost use Rattle.mt_dviread.specs.Errors.{fault_of};
ghost use Rattle.mt_dviops.specs.Source.{SourceFile, source_file_of};
ghost use Rattle.mt_dviops.specs.inner.Copies.{Holds};

use crate::copies::Copies;
use crate::open::OpenCopies;
use mt_dviread::{DviError, OpenFile};
use mt_family::FontSet;
use std::alloc::Global;

/// Copies the pages of a file, in one pass over its bytes; the bodies are together not longer than the
/// file.
///
/// # Errors
///
/// The first fault of the file, with the offset of its opcode. `OutOfMemory` where memory ran out.
pub fn copy_file<'a>(
    alloc: Global,
    fonts: &FontSet,
    bytes: &'a [u8],
) -> Result<Copies<'a>, DviError>
    ensures is { IfOk result (λ copies. (source : SourceFile)
        × (source_file_of fonts.now bytes.now ≡ Ok source) × Holds fonts.now copies source) }
    ensures fault { IfErr result (λ error.
        IfSome (fault_of error) (λ fault. source_file_of fonts.now bytes.now ≡ Err fault)) }
{
    // What every set keeps is reported by its count of fonts.
    let _count = fonts.font_count();
    let mut file = OpenFile::at_start(alloc, bytes);
    let mut copied = OpenCopies::none(alloc, bytes.len())?;
    loop {
        copied.run(fonts, bytes, &mut file)?;
        let at = file.at();
        let rest = file.rest();
        let Some(deed) = file.next(alloc, fonts)? else {
            return Ok(Copies {
                bytes,
                mag: file.mag(),
                bodies: copied.bodies,
                pages: copied.pages,
            });
        };
        let opcode = &rest[..file.at() - at];
        copied.take(fonts, deed, at + 1, opcode, &file)?;
    }
}
