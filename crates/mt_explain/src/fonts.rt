//! Families, fonts and characters in words.
use crate::text::Text;
use mt_family::{FontLine, FontList, Size};
use mt_status::{Characters, NamedFamily};
use mt_tfm::Wanted;

/// The scaled points of 1pt.
pub const POINT: i64 = 65_536;

/// The size of a font that is wanted at its design size.
pub const DESIGN_SIZE: Wanted = Wanted::Scaled(1_000);

/// The most digits after the decimal point of a length in points (tex.web, section 103).
const MOST_DIGITS: u32 = 5;

// The size of a family in words.
fn size_text(size: Size) -> &'static [u8] {
    match size {
        Size::Text => b"text size",
        Size::Script => b"script size",
        Size::Scriptscript => b"scriptscript size",
    }
}

// Adds the digits after the decimal point of a length: the fewest that are read as the same length (tex.web,
// section 103).
fn push_fraction(out: &mut Text, part: i64) {
    let mut rest = part.saturating_mul(10).saturating_add(5);
    let mut unit: i64 = 10;
    for _ in 0..MOST_DIGITS {
        if unit > POINT {
            rest = rest.saturating_sub(17_232);
        }
        out.push_number(rest / POINT);
        rest = (rest % POINT).saturating_mul(10);
        unit = unit.saturating_mul(10);
        if rest <= unit {
            return;
        }
    }
}

/// Adds a length in points, a whole number without a decimal point.
pub fn push_points(out: &mut Text, length: i64) {
    out.push_number(length / POINT);
    if length % POINT > 0 {
        out.push(b".");
        push_fraction(out, length % POINT);
    }
    out.push(b"pt")
}

// Adds a font by its name and its size.
fn push_font(out: &mut Text, line: &FontLine) {
    out.push_all(&[b", ", line.name.as_slice()]);
    match line.wanted {
        Wanted::At(size) => {
            out.push(b" at ");
            push_points(out, size)
        }
        Wanted::Scaled(factor) => {
            out.push(b" scaled ");
            out.push_number(factor)
        }
    }
}

// The font line of a family at a size.
fn font_of(list: &FontList, named: NamedFamily) -> Option<&FontLine> {
    let mut lines = list.families.as_slice().iter();
    let line = lines.find(|line| line.fam == named.family)?;
    let [text, script, scriptscript] = line.fonts;
    let number = match named.size {
        Size::Text => text?,
        Size::Script => script?,
        Size::Scriptscript => scriptscript?,
    };
    list.lines.get(usize::from(number))
}

// Adds the characters that are named with a family.
fn push_characters(out: &mut Text, characters: Characters) {
    match characters {
        Characters::None => {},
        Characters::One(code) => {
            out.push_all(&[b", character "]);
            push_character(out, code)
        }
        Characters::Pair(first, second) => {
            out.push_all(&[b", characters "]);
            push_character(out, first);
            out.push(b" and ");
            push_character(out, second)
        }
    }
}

/// Adds a family, its size in words, its font where the list has one, and the characters that are named.
pub fn push_family(out: &mut Text, list: &FontList, named: NamedFamily) {
    out.push(b": family ");
    out.push_number(named.family);
    out.push_all(&[b" at ", size_text(named.size)]);
    if let Some(line) = font_of(list, named) {
        push_font(out, line);
    }
    push_characters(out, named.characters)
}

/// Adds a character as it prints, or in octal.
pub fn push_character(out: &mut Text, code: u8) {
    if code.is_ascii_graphic() {
        return out.push(&[code]);
    }
    out.push(b"'");
    out.push_number(code / 64);
    out.push_number(code / 8 % 8);
    out.push_number(code % 8)
}
