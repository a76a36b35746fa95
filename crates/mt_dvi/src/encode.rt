//! The bytes of numbers, of pre and of the definitions of fonts (tex.web §586 to §589).
ghost use Rattle.std.specs.Prelude.{◌≡◌, ◌<◌, ◌≤◌, ◌+◌, ◌++◌, [], Some, length, OnOk};
ghost use Rattle.mt_family.specs.SetValue.{IsSet, name_in};
ghost use Rattle.mt_dvi.specs.Codes.{four_bytes, signed_of};
ghost use Rattle.mt_dvi.specs.Encoded.{definition_bytes, pre_bytes, scale_bytes, signed_bytes, two_bytes, twos_complement};
ghost use Rattle.mt_dvi.specs.Fonts.{definition_of};

use crate::fonts::font_of;
use crate::opcode::{FNT_DEF1, IDENTIFIER, PRE};
use mt_family::FontSet;
use mt_scaled::Name;
use std::alloc::AllocError;

// The unit is the fraction num / den of 10^-7 meters: these make it a scaled point.
const NUM: u32 = 25_400_000;

const DEN: u32 = 473_628_672;

/// Writes a number in two bytes.
pub fn two_bytes(out: &mut Vec<u8>, x: u16) -> Result<(), AllocError>
    ensures { OnOk result (out.new.items ≡ out.old.items ++ two_bytes x) }
{
    out.extend_from_slice(&x.to_be_bytes())?;
    Ok(())
}

/// Writes a number in four bytes.
pub fn four_bytes(out: &mut Vec<u8>, x: u32) -> Result<(), AllocError>
    ensures { OnOk result (out.new.items ≡ out.old.items ++ four_bytes x) }
{
    out.extend_from_slice(&x.to_be_bytes())?;
    Ok(())
}

/// The number that the two's complement of a signed number is in four bytes.
pub fn twos_complement(x: i32) -> u32
    ensures is { result ≡ twos_complement x }
    ensures means { signed_of 4 result ≡ x }
{
    if x < 0 {
        (i64::from(x) + 4_294_967_296) as u32
    } else {
        x as u32
    }
}

/// Writes a signed number in four bytes.
pub fn signed(out: &mut Vec<u8>, x: i32) -> Result<(), AllocError>
    ensures { OnOk result (out.new.items ≡ out.old.items ++ signed_bytes x) }
{
    four_bytes(out, twos_complement(x))
}

/// Writes the scaled point as the unit, and the magnification in thousandths.
pub fn scale(out: &mut Vec<u8>, mag: i32) -> Result<(), AllocError>
    ensures { OnOk result (out.new.items ≡ out.old.items ++ scale_bytes mag) }
{
    four_bytes(out, NUM)?;
    four_bytes(out, DEN)?;
    signed(out, mag)?;
    Ok(())
}

/// Writes pre, with this magnification in thousandths and an empty comment.
pub fn pre(out: &mut Vec<u8>, mag: i32) -> Result<(), AllocError>
    ensures { OnOk result (out.new.items ≡ out.old.items ++ pre_bytes mag) }
{
    out.extend_from_slice(&[PRE, IDENTIFIER])?;
    scale(out, mag)?;
    out.push(0)?;
    Ok(())
}

// The name of a font.
fn name_of(fonts: &FontSet, n: u16) -> &Name
    requires there { n < length fonts.now.fonts }
    requires set { IsSet fonts.now }
    ensures is { name_in fonts.now.lines n ≡ Some result.now }
    ensures short { length result.now ≤ 64 }
{
    fonts.name(n).unwrap()
}

// Writes fnt_def1: a font's number, its checksum, its size, its design size, no area, and its name.
fn define_as(
    out: &mut Vec<u8>,
    number: u8,
    checksum: u32,
    size: u32,
    design: u32,
    name: &[u8],
) -> Result<(), AllocError>
    requires { length name.now ≤ 64 }
    ensures is { OnOk result (out.new.items ≡ out.old.items ++ definition_bytes (record {
      number = number;
      checksum = checksum;
      size = size;
      design = design;
      area = [];
      name = name.now;
    })) }
    ensures short { OnOk result (length out.new.items ≤ length out.old.items + 80) }
{
    out.extend_from_slice(&[FNT_DEF1, number])?;
    four_bytes(out, checksum)?;
    four_bytes(out, size)?;
    four_bytes(out, design)?;
    out.extend_from_slice(&[0, name.len() as u8])?;
    out.extend_from_slice(name)?;
    Ok(())
}

/// Writes the definition of a font of the set: its number is that in the set, and its area is empty.
pub fn define(out: &mut Vec<u8>, fonts: &FontSet, n: u16) -> Result<(), AllocError>
    requires there { n < length fonts.now.fonts }
    requires set { IsSet fonts.now }
    ensures is { OnOk result (out.new.items
        ≡ out.old.items ++ definition_bytes (definition_of fonts.now n)) }
    ensures short { OnOk result (length out.new.items ≤ length out.old.items + 80) }
{
    let font = font_of(fonts, n);
    define_as(
        out,
        n as u8,
        font.checksum(),
        font.at() as u32,
        font.design() as u32,
        name_of(fonts, n).as_slice(),
    )
}
