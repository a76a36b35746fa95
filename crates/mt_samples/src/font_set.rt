//! The toy fonts, read.
ghost use Rattle.std.specs.Prelude.{◌≡◌, All, IfOk, map};
ghost use Rattle.mt_family.specs.ListFacts.{IsFontLine};
ghost use Rattle.mt_samples.specs.FontSet.{toy_font, toy_named, toy_set};
ghost use Rattle.mt_samples.specs.Lists.{toy_list as toy_list_value};

use crate::{Toy, toy_list, toy_tfm};
use mt_family::{FontLine, FontList, FontSet, Fonts, ListError, SetError, read_font_list};
use mt_tfm::{Font, TfmError, read_tfm_wanted};
use std::alloc::{AllocError, Global};

// The toy font of a name in the list.
fn toy_named(name: &[u8]) -> Toy
    ensures { result ≡ toy_named name.now }
{
    match name {
        b"toyr" => Toy::Roman,
        b"toym" => Toy::Italic,
        b"toys" => Toy::Symbols,
        _ => Toy::Extension,
    }
}

fn read_list(alloc: Global) -> Result<FontList, AllocError>
    ensures { IfOk result (λ list. list ≡ toy_list_value) }
{
    let bytes = toy_list(alloc)?;
    match read_font_list(alloc, bytes.as_slice()) {
        Ok(list) => Ok(list),
        Err(ListError::OutOfMemory) => Err(AllocError),
        Err(_) => unreachable!(),
    }
}

fn read_font(alloc: Global, line: &FontLine) -> Result<Font, AllocError>
    requires { IsFontLine line.now }
    ensures { IfOk result (λ font. font ≡ toy_font line.now) }
{
    let bytes = toy_tfm(alloc, toy_named(line.name.as_slice()))?;
    match read_tfm_wanted(alloc, bytes.as_slice(), line.wanted, line.skew) {
        Ok(font) => Ok(font),
        Err(TfmError::OutOfMemory) => Err(AllocError),
        Err(_) => unreachable!(),
    }
}

fn read_fonts(alloc: Global, lines: &[FontLine]) -> Result<Fonts, AllocError>
    requires { All IsFontLine lines.now }
    ensures { IfOk result (λ fonts. fonts ≡ map toy_font lines.now) }
{
    let mut fonts = Vec::new(alloc);
    for line in lines {
        fonts.push(read_font(alloc, line)?)?;
    }
    Ok(Fonts::from_vec(fonts))
}

/// The toy fonts by family and size, read from their files.
///
/// # Errors
///
/// Only where there is no memory left.
pub fn toy_fonts(alloc: Global) -> Result<FontSet, AllocError>
    ensures { IfOk result (λ set. set ≡ toy_set) }
{
    let list = read_list(alloc)?;
    let fonts = read_fonts(alloc, list.lines.as_slice())?;
    match FontSet::build(alloc, list, fonts) {
        Ok(set) => Ok(set),
        Err(SetError::OutOfMemory) => Err(AllocError),
        Err(_) => unreachable!(),
    }
}
