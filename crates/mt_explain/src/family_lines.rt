//! What is said of a family without a font, and the lines of a font list that give it its fonts.
ghost use Rattle.std.specs.Prelude.{◌≡◌};

use crate::files::{ListForms, ReadList, fetched_list};
use crate::fonts::{DESIGN_SIZE, POINT, push_family};
use crate::refusal::Refusal;
use crate::text::{Text, Unsaid};
use mt_family::{FontLine, FontList, MAX_FONTS};
use mt_outside::Cabinet;
use mt_status::NamedFamily;
use mt_tfm::Wanted;
use std::alloc::Global;

/// A font of Computer Modern, and its design size in points.
type DesignedFont = (&'static [u8], u32);

/// The fonts of a family of plain TeX. For a size that plain TeX does not have it is a smaller font of the same kind.
#[derive(Clone, Copy)]
struct PlainFamily {
    /// That of text size.
    text: DesignedFont,
    /// That of script size.
    script: DesignedFont,
    /// That of scriptscript size.
    scriptscript: DesignedFont,
    /// The skew character of these fonts, as a line of a font list gives it.
    skew: &'static [u8],
}

/// The families of plain TeX, and their skew characters (The TeXbook, appendix B).
#[rattlefmt::skip]
static PLAIN_FAMILIES: [PlainFamily; 8] = [
    PlainFamily { text: (b"cmr10", 10), script: (b"cmr7", 7), scriptscript: (b"cmr5", 5), skew: b"-" },
    PlainFamily { text: (b"cmmi10", 10), script: (b"cmmi7", 7), scriptscript: (b"cmmi5", 5), skew: b"127" },
    PlainFamily { text: (b"cmsy10", 10), script: (b"cmsy7", 7), scriptscript: (b"cmsy5", 5), skew: b"48" },
    PlainFamily { text: (b"cmex10", 10), script: (b"cmex10", 10), scriptscript: (b"cmex10", 10), skew: b"-" },
    PlainFamily { text: (b"cmti10", 10), script: (b"cmti7", 7), scriptscript: (b"cmti7", 7), skew: b"-" },
    PlainFamily { text: (b"cmsl10", 10), script: (b"cmsl8", 8), scriptscript: (b"cmsl8", 8), skew: b"-" },
    PlainFamily { text: (b"cmbx10", 10), script: (b"cmbx7", 7), scriptscript: (b"cmbx5", 5), skew: b"-" },
    PlainFamily { text: (b"cmtt10", 10), script: (b"cmtt8", 8), scriptscript: (b"cmtt8", 8), skew: b"-" },
];

// The size of a font of so many points, as a list of these forms gives it.
fn wanted_size(forms: ListForms, points: u32) -> Wanted {
    match forms {
        ListForms::First => Wanted::At(i64::from(points).saturating_mul(POINT)),
        ListForms::Second => DESIGN_SIZE,
    }
}

// Whether a line of a list wants a font of so many points at its design size.
fn is_design_size(wanted: Wanted, points: u32) -> bool {
    wanted == DESIGN_SIZE || wanted == wanted_size(ListForms::First, points)
}

// The number of a font at its design size in the list.
fn listed_number(lines: &[FontLine], name: &[u8], points: u32) -> Option<usize> {
    lines.iter().position(|line| line.name.as_slice() == name
        && is_design_size(line.wanted, points))
}

// Adds the line of a font.
fn push_font_line(out: &mut Text, name: &[u8], wanted: Wanted, skew: &[u8]) {
    out.push_all(&[b"font ", name]);
    match wanted {
        Wanted::At(size) => {
            out.push(b" ");
            out.push_number(size)
        }
        Wanted::Scaled(factor) => {
            out.push(b" scaled ");
            out.push_number(factor)
        }
    }
    out.push_all(&[b" ", skew, b"\n"]);
}

// The number of a font. Its line is added where neither the list nor the lines that were added before have it.
fn push_font_once(
    out: &mut Text,
    list: &ReadList,
    added: &mut Vec<&'static [u8]>,
    font: DesignedFont,
    skew: &[u8],
) -> Result<usize, Unsaid> {
    let (name, points) = font;
    let lines = list.list.lines.as_slice();
    if let Some(number) = listed_number(lines, name, points) {
        return Ok(number);
    }
    let first = lines.len();
    if let Some(place) = added.iter().position(|known| *known == name) {
        return Ok(first.saturating_add(place));
    }
    let number = first.saturating_add(added.len());
    push_font_line(out, name, wanted_size(list.forms, points), skew);
    added.push(name)?;
    Ok(number)
}

// Adds the lines of a family and of its fonts.
fn push_lines(
    alloc: Global,
    out: &mut Text,
    list: &ReadList,
    family: u8,
    plain: &PlainFamily,
) -> Result<(), Unsaid> {
    let mut added = Vec::new(alloc);
    let text = push_font_once(out, list, &mut added, plain.text, plain.skew)?;
    let script = push_font_once(out, list, &mut added, plain.script, plain.skew)?;
    let scriptscript = push_font_once(out, list, &mut added, plain.scriptscript, plain.skew)?;
    out.push(b"family ");
    out.push_number(family);
    for number in [text, script, scriptscript] {
        out.push(b" ");
        out.push_number(number);
    }
    out.push(b"\n");
    Ok(())
}

// Whether the list has a line for a family, or no room for three fonts more.
fn cannot_take(list: &FontList, family: u8) -> bool {
    list.lines.len().saturating_add(3) > MAX_FONTS
        || list
            .families
            .as_slice()
            .iter()
            .any(|line| line.fam == family)
}

/// Adds the lines that give a family its fonts, where the list of this name has no line for it and room for three fonts
/// more, and plain TeX has such a family.
pub fn push_family_lines(
    alloc: Global,
    out: &mut Text,
    name: &str,
    list: &ReadList,
    family: u8,
) -> Result<(), Unsaid> {
    match PLAIN_FAMILIES.get(usize::from(family)) {
        Some(plain) if !cannot_take(&list.list, family) => {
            out.push_all(&[b"add these lines to ", name.as_bytes(), b":\n"]);
            push_lines(alloc, out, list, family, plain)
        }
        _ => Ok(()),
    }
}

/// Adds the lines for a family that has no font, or an unsuitable one: the list's name, the family's font, and the
/// lines to be added.
pub fn explain_family<C: Cabinet>(
    out: &mut Text,
    run: Refusal<'_>,
    name: &str,
    named: NamedFamily,
    cabinet: &mut C,
) -> Result<(), Unsaid>
    ensures holds { C.holds cabinet.new ≡ C.holds cabinet.old }
{
    let list = fetched_list(run.alloc, cabinet, name)?;
    out.push_all(&[name.as_bytes(), b": "]);
    out.push_explanation(run.alloc, run.status);
    push_family(out, &list.list, named);
    out.push(b"\n");
    push_family_lines(run.alloc, out, name, &list, named.family)
}
