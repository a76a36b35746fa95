//! Sets of fonts, loaded from small files.
ghost use Rattle.std.specs.Prelude.{◌≤◌, All, IfOk, length};
ghost use Rattle.mt_family.specs.ListFacts.{IsFontLine};
ghost use Rattle.mt_family.specs.SetValue.{AreLoaded};

use mt_family::{FontLine, FontSet, Fonts, read_font_list};
use mt_tfm::read_tfm_wanted;
use std::alloc::{AllocError, Global};
use std::process::Abort;

// Font 3 is toym.
const LIST: &[u8] = b"mathset fonts 1
font toyr 655360 -
font toyr 458752 -
font toyr 327680 -
font toym 655360 -
family 2 0 0 0
family 3 0 0 0
";

// A font with one character, of code 97, half as wide and half as high as the font's size, and with
// 22 parameters, all 0 but the sixth: the quad is the font's size.
const FONT: [u8; 148] = [
    0, 37, 0, 2, 0, 97, 0, 97, 0, 2, 0, 2, 0, 1, 0, 1, 0, 0, 0, 0, 0, 0, 0, 22, 0, 0, 0, 0, 0, 160,
    0, 0, 1, 16, 0, 0, 0, 0, 0, 0, 0, 8, 0, 0, 0, 0, 0, 0, 0, 8, 0, 0, 0, 0, 0, 0, 0, 0, 0, 0, 0,
    0, 0, 0, 0, 0, 0, 0, 0, 0, 0, 0, 0, 0, 0, 0, 0, 0, 0, 0, 0, 16, 0, 0, 0, 0, 0, 0, 0, 0, 0, 0,
    0, 0, 0, 0, 0, 0, 0, 0, 0, 0, 0, 0, 0, 0, 0, 0, 0, 0, 0, 0, 0, 0, 0, 0, 0, 0, 0, 0, 0, 0, 0, 0,
    0, 0, 0, 0, 0, 0, 0, 0, 0, 0, 0, 0, 0, 0, 0, 0, 0, 0, 0, 0, 0, 0, 0, 0,
];

fn file_of<'a>(line: &FontLine, skewed: &'a [u8], plain: &'a [u8]) -> &'a [u8] {
    if line.skew.is_some() { skewed } else { plain }
}

/// The fonts of these lines: those with a skew character from one file, those without from another.
pub fn load(
    rt: &impl Abort,
    alloc: Global,
    lines: &[FontLine],
    skewed: &[u8],
    plain: &[u8],
) -> Result<Fonts, AllocError>
    requires { All IsFontLine lines.now }
    ensures { IfOk result (λ fonts. AreLoaded lines.now fonts) }
{
    let mut fonts = Vec::new(alloc);
    for line in lines {
        let file = file_of(line, skewed, plain);
        let font = read_tfm_wanted(alloc, file, line.wanted, line.skew).expect(rt, "a font");
        fonts.push(font)?;
    }
    Ok(Fonts::from_vec(fonts))
}

/// The set of a list, each of its fonts from one file.
pub fn fonts_of(rt: &impl Abort, alloc: Global, list: &[u8], file: &[u8]) -> FontSet
    requires { length list.now ≤ 65536 }
{
    let list = read_font_list(alloc, list).expect(rt, "a font list");
    let fonts = load(rt, alloc, list.lines.as_slice(), file, file).expect(rt, "memory");
    FontSet::build(alloc, list, fonts).expect(rt, "a set of fonts")
}

/// A set of four fonts with the letter a, of which font 3 is toym at 10pt.
pub fn four_fonts(rt: &impl Abort, alloc: Global) -> FontSet {
    fonts_of(rt, alloc, LIST, &FONT)
}
