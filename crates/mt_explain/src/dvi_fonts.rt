//! The font that an opcode of a DVI file selects (tex.web, section 586).
ghost use Rattle.std.specs.Prelude.{◌≤◌, length};

use crate::fonts::push_points;
use crate::text::Text;
use mt_dvi::opcode::{FNT_DEF1, FNT_NUM_0, FNT1, PRE, XXX1};
use mt_dviread::opcode_at;

/// A font as a DVI file defines it.
#[derive(Clone, Copy)]
pub struct DefinedFont<'a> {
    // Its number in the file.
    number: u32,
    // Its size in scaled points.
    size: u32,
    // Its area and its name.
    name: &'a [u8],
}

// The first of these bytes, or all.
fn front(bytes: &[u8], count: usize) -> &[u8] {
    bytes.get(..count).unwrap_or(bytes)
}

// The bytes after the first so many.
fn behind(bytes: &[u8], count: usize) -> &[u8]
    ensures falls { length result.now ≤ length bytes.now }
{
    bytes.get(count..).unwrap_or(&[])
}

// The number that these bytes have, the most significant byte first.
fn unsigned(bytes: &[u8]) -> u32 {
    let mut number: u32 = 0;
    for byte in bytes {
        number = number.saturating_mul(256).saturating_add(u32::from(*byte));
    }
    number
}

// The number of the font that an opcode selects.
fn selected_number(code: u8, operands: &[u8]) -> Option<u32> {
    if code < FNT_NUM_0 || code >= XXX1 {
        None
    } else if code < FNT1 {
        Some(u32::from(code - FNT_NUM_0))
    } else {
        Some(unsigned(operands))
    }
}

// The font that an opcode defines: its number, and then a checksum, the size, the design size, and the lengths of the
// area and of the name.
fn defined_font(code: u8, operands: &[u8]) -> Option<DefinedFont<'_>> {
    if code < FNT_DEF1 || code >= PRE {
        return None;
    }
    let count = usize::from(code - FNT_DEF1) + 1;
    let fields = behind(operands, count);
    let names = behind(fields, 14);
    let lengths = front(behind(fields, 12), 2);
    let [area, length] = lengths else {
        return None;
    };
    Some(DefinedFont {
        number: unsigned(front(operands, count)),
        size: unsigned(front(behind(fields, 4), 4)),
        name: front(names, usize::from(*area) + usize::from(*length)),
    })
}

// The first definition of a number before an offset.
fn definition_before(bytes: &[u8], offset: u64, number: u32) -> Option<DefinedFont<'_>> {
    let mut rest = bytes;
    let mut at: u64 = 0;
    while let [_, later @ ..] = rest {
        if at >= offset {
            return None;
        }
        let opcode = opcode_at(rest, 0)?;
        let size = opcode.end.saturating_sub(1) as usize;
        match defined_font(opcode.code, front(later, size)) {
            Some(font) if font.number == number => return Some(font),
            _ => {}
        }
        at = at.saturating_add(opcode.end);
        rest = behind(later, size);
    }
    None
}

/// What is wrong with a font at a byte of a DVI file.
#[derive(Clone, Copy)]
pub enum FontFault<'a> {
    /// It is selected, and the file defines it, but the font list does not have it.
    Unlisted(DefinedFont<'a>),
    /// The font of this number is selected, and the file does not define it.
    Undefined(u32),
    /// The font of this number is defined again with another name or size.
    DefinedAgain(u32),
    /// A character is set without a font.
    NoFont,
}

/// What is wrong with the font of the opcode at an offset, where the opcode is refused for its font; `None` where there
/// is no opcode.
pub fn font_fault_at(bytes: &[u8], offset: u64) -> Option<FontFault<'_>> {
    let from = behind(bytes, offset as usize);
    let opcode = opcode_at(from, 0)?;
    let operands = front(behind(from, 1), opcode.end.saturating_sub(1) as usize);
    if let Some(number) = selected_number(opcode.code, operands) {
        return match definition_before(bytes, offset, number) {
            Some(font) => Some(FontFault::Unlisted(font)),
            None => Some(FontFault::Undefined(number)),
        };
    }
    match defined_font(opcode.code, operands) {
        Some(font) => Some(FontFault::DefinedAgain(font.number)),
        None => Some(FontFault::NoFont),
    }
}

// Adds what is wrong with the font of a number.
fn push_numbered(out: &mut Text, number: u32, fault: &[u8]) {
    out.push(b"font number ");
    out.push_number(number);
    out.push(fault)
}

/// Adds what is wrong with a font.
pub fn push_font_fault(out: &mut Text, fault: FontFault<'_>) {
    match fault {
        FontFault::Unlisted(font) => {
            out.push_all(&[b"font ", font.name, b" at "]);
            push_points(out, i64::from(font.size));
            out.push(b" is not in the list");
        }
        FontFault::Undefined(number) => push_numbered(out, number, b" is not defined"),
        FontFault::DefinedAgain(number) => {
            push_numbered(out, number, b" is defined again with another name or size")
        }
        FontFault::NoFont => out.push(b"no font is selected"),
    }
}
