//! The parts of a formula in front of tokens.
ghost use Rattle.std.specs.Prelude.{◌≡◌, ◌≤◌, ◌<◌, ◌^◌, length, IfOk};
ghost use Rattle.mt_scaled.specs.Number.{Within};
ghost use Rattle.mt_scan.specs.Delimiters.{character_delimiter, scan_delimiter};
ghost use Rattle.mt_scan.specs.Dimensions.{dimension, glue};
ghost use Rattle.mt_scan.specs.Meets.{Meets};
ghost use Rattle.mt_scan.specs.Numbers.{number_to, whole_number};
ghost use Rattle.mt_scan.specs.Parts.{after_blanks, after_spaces};

use crate::fault::Fault;
use crate::items;
use crate::scanned::Scanned;
use mt_plain::Codes;
use mt_rules::{Delim, Glue};
use mt_scaled::Units;
use mt_token::{OwnTokens, Token};

/// The tokens after Spaces.
pub fn after_spaces<'a>(tokens: &'a [Token]) -> &'a [Token]
    ensures is { result.now ≡ after_spaces tokens.now }
    ensures falls { length result.now ≤ length tokens.now }
{
    items::after_spaces(&OwnTokens, tokens)
}

/// The tokens after Spaces and `\relax`.
pub fn after_blanks<'a>(codes: &Codes, tokens: &'a [Token]) -> &'a [Token]
    ensures is { result.now ≡ after_blanks codes.now tokens.now }
    ensures falls { length result.now ≤ length tokens.now }
{
    items::after_blanks(codes, tokens)
}

/// A number: signs and Spaces, then digits to the base 10, 16 or 8 or a character, then one Space.
pub fn whole_number<'a>(tokens: &'a [Token]) -> Result<Scanned<'a, i64>, Fault>
    ensures is { Meets result (whole_number tokens.now) }
    ensures falls { IfOk result (λ part. length part.rest.now ≤ length tokens.now) }
{
    items::whole_number(&OwnTokens, tokens)
}

/// A number from 0 to a greatest.
pub fn number_to<'a>(most: u32, tokens: &'a [Token]) -> Result<Scanned<'a, u32>, Fault>
    ensures is { Meets result (number_to most tokens.now) }
    ensures falls { IfOk result (λ part. length part.rest.now ≤ length tokens.now) }
    ensures bound { IfOk result (λ part. part.value ≤ most) }
{
    items::number_to(&OwnTokens, most, tokens)
}

/// The delimiter of a character, which is the token before these. The fault is at that token where the character has
/// no delimiter code. The character is below 128.
pub fn character_delimiter<'a>(
    codes: &Codes,
    c: u8,
    after: &'a [Token],
) -> Result<Scanned<'a, Delim>, Fault>
    requires { c < 128 }
    ensures is { Meets result (character_delimiter codes.now c after.now) }
    ensures falls { IfOk result (λ part. length part.rest.now ≤ length after.now) }
{
    items::character_delimiter(codes, c, after)
}

/// Spaces and `\relax`, and then a character with a delimiter code, or `\delimiter` and a number.
pub fn scan_delimiter<'a>(codes: &Codes, tokens: &'a [Token]) -> Result<Scanned<'a, Delim>, Fault>
    ensures is { Meets result (scan_delimiter codes.now tokens.now) }
    ensures falls { IfOk result (λ part. length part.rest.now ≤ length tokens.now) }
{
    items::scan_delimiter(codes, tokens)
}

/// A dimension, in math units where these are asked for.
pub fn dimension<'a>(units: Units, mu: bool, tokens: &'a [Token]) -> Result<Scanned<'a, i64>, Fault>
    requires em { Within (2 ^ 31) units.em }
    requires ex { Within (2 ^ 31) units.ex }
    ensures is { Meets result (dimension units mu tokens.now) }
    ensures falls { IfOk result (λ part. length part.rest.now ≤ length tokens.now) }
{
    items::dimension(&OwnTokens, units, mu, tokens)
}

/// Glue, in math units where these are asked for. What it can stretch has no effect.
pub fn glue<'a>(units: Units, mu: bool, tokens: &'a [Token]) -> Result<Scanned<'a, Glue>, Fault>
    requires em { Within (2 ^ 31) units.em }
    requires ex { Within (2 ^ 31) units.ex }
    ensures is { Meets result (glue units mu tokens.now) }
    ensures falls { IfOk result (λ part. length part.rest.now ≤ length tokens.now) }
{
    items::glue(&OwnTokens, units, mu, tokens)
}
