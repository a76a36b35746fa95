//! What is said of a DVI file that is refused: its name is before the explanation.
ghost use Rattle.std.specs.Prelude.{◌≡◌};

use crate::dvi_fonts::{FontFault, font_fault_at, push_font_fault};
use crate::files::fetched;
use crate::refusal::Refusal;
use crate::text::{Text, Unsaid};
use mt_dviread::{DviError, MAX_DVI};
use mt_outside::Cabinet;
use mt_status::DviFault;

// The offset of the opcode at fault, where its font is the cause.
fn font_offset(fault: DviFault) -> Option<u64> {
    match fault {
        DviFault::Byte(offset, cause) | DviFault::ByteOfFile(_, offset, cause) => {
            let is_of_font = cause == DviError::UnknownFont(offset).number();
            is_of_font.then_some(offset)
        }
        DviFault::Page | DviFault::Magnification(_) => None,
    }
}

// The number of the file that has a fault.
fn number_of(fault: DviFault) -> u32 {
    match fault {
        DviFault::Byte(..) | DviFault::Page => 0,
        DviFault::ByteOfFile(file, ..) | DviFault::Magnification(file) => file,
    }
}

// Adds what is said of a font, with the place in the file.
fn push_font(out: &mut Text, fault: DviFault, font: FontFault<'_>) {
    match fault {
        DviFault::Byte(offset, _) => {
            out.push(b"dvi byte ");
            out.push_number(offset);
        }
        DviFault::ByteOfFile(file, ..) => {
            out.push(b"file ");
            out.push_number(file);
        }
        DviFault::Page | DviFault::Magnification(_) => {}
    }
    out.push(b": ");
    push_font_fault(out, font);
}

/// Adds the line for a fault in one of the DVI files that the command line names.
pub fn explain_dvi<C: Cabinet>(
    out: &mut Text,
    run: Refusal<'_>,
    files: &[&str],
    fault: DviFault,
    cabinet: &mut C,
) -> Result<(), Unsaid>
    ensures holds { C.holds cabinet.new ≡ C.holds cabinet.old }
{
    let file = *files.get(number_of(fault) as usize).ok_or(Unsaid)?;
    out.push_all(&[file.as_bytes(), b": "]);
    let offset = font_offset(fault);
    let bytes = match offset {
        Some(_) => fetched(run.alloc, cabinet, file, MAX_DVI).ok(),
        None => None,
    };
    let font = match (&bytes, offset) {
        (Some(bytes), Some(offset)) => font_fault_at(bytes.as_slice(), offset),
        _ => None,
    };
    match font {
        Some(font) => push_font(out, fault, font),
        None => out.push_explanation(run.alloc, run.status),
    }
    if let (DviFault::Magnification(_), Some(first)) = (fault, files.first()) {
        out.push_all(&[b", ", first.as_bytes()]);
    }
    out.push(b"\n");
    Ok(())
}
