//! Sample input: four small fonts, with the parameters and the characters that math needs, a font list
//! that names them, and sources of formulas, made from a seed.
#![tactic(auto)]

ghost use Rattle.std.specs.Prelude.{◌≡◌, ◌≤◌, IfOk, Ok, length};
ghost use Rattle.mt_samples.specs.Bytes.{toy_list_bytes};
ghost use Rattle.mt_samples.specs.Which.{toy_bytes, toy_table};
ghost use Rattle.mt_family.specs.Limits.{max_list_bytes};
ghost use Rattle.mt_family.specs.Lists.{font_list};
ghost use Rattle.mt_samples.specs.Lists.{toy_list};
ghost use Rattle.mt_samples.specs.Tables.{ReadsAs};

mod font_set;
mod fonts;
mod generator;

pub use font_set::toy_fonts;
use fonts::{extension_font, italic_font, roman_font, symbols_font};
pub use generator::{MAX_COUNT, generate};
use mt_scaled::Bytes;
use std::alloc::{AllocError, Global};

const LIST: &str = "mathset fonts 1
font toyr 655360 -
font toyr 458752 -
font toyr 327680 -
font toym 655360 127
font toym 458752 127
font toym 327680 127
font toys 655360 -
font toys 458752 -
font toys 327680 -
font toyx 655360 -
family 0 0 1 2
family 1 3 4 5
family 2 6 7 8
family 3 9 9 9
";

/// The toy fonts, of the families 0 to 3 (The TeXbook, chapter 17): roman, math italic, symbols and
/// extension. Their files are named toyr, toym, toys and toyx.
#[derive(Clone, Copy, Debug, PartialEq, Eq)]
pub enum Toy {
    /// Roman, toyr.
    Roman,
    /// Math italic, toym.
    Italic,
    /// Symbols, toys.
    Symbols,
    /// Large and extensible characters, toyx.
    Extension,
}

/// The TFM file of a toy font. It reads as the font's table in docs/FORMATS.md says at each of the
/// sizes 10pt, 7pt and 5pt.
///
/// # Errors
///
/// Only where there is no memory left.
pub fn toy_tfm(alloc: Global, which: Toy) -> Result<Bytes, AllocError>
    ensures reads { IfOk result (λ bytes. ReadsAs bytes (toy_table which)) }
    ensures is { IfOk result (λ bytes. bytes ≡ toy_bytes which) }
{
    match which {
        Toy::Roman => roman_font(alloc),
        Toy::Italic => italic_font(alloc),
        Toy::Symbols => symbols_font(alloc),
        Toy::Extension => extension_font(alloc),
    }
}

/// The list of the toy fonts: toyr, toym and toys at 10pt, 7pt and 5pt, toyx at 10pt, and families 0 to 3.
/// It has at most `MAX_LIST_BYTES` bytes, the limit of a font list.
///
/// # Errors
///
/// Only where there is no memory left.
pub fn toy_list(alloc: Global) -> Result<Bytes, AllocError>
    ensures reads { IfOk result (λ bytes. font_list bytes ≡ Ok toy_list) }
    ensures is { IfOk result (λ bytes. bytes ≡ toy_list_bytes) }
    ensures short { IfOk result (λ bytes. length bytes ≤ max_list_bytes) }
{
    Ok(Bytes::from_vec(Vec::from_slice(alloc, LIST.as_bytes())?))
}
