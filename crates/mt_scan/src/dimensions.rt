//! Dimensions and glue.
ghost use Rattle.std.specs.Prelude.{◌≡◌, ◌≤◌, ◌^◌, length, IfOk, IfSome, map};
ghost use Rattle.mt_scaled.specs.Number.{Within};
ghost use Rattle.mt_scan.specs.Numbers.{with_sign};
ghost use Rattle.mt_scan.specs.Dimensions.{is_dimension, dimension_of, dimension_from, dimension};
ghost use Rattle.mt_scan.specs.Dimensions.{after_letters, amount, glue};
ghost use Rattle.mt_scan.specs.Meets.{MeetsBy, IsAfterBy};

use crate::decimals::{Decimal, bad_dimension, factor};
use crate::fault::Fault;
use crate::numbers::signs;
use crate::scanned::Scanned;
use crate::spaces::after_spaces;
use crate::units::{length_of, letter, measure};
use mt_rules::Glue;
use mt_scaled::{MAX_DIMEN, Unit, Units};
use mt_token::Lexicon;

// A length that a dimension may have; some must not be negative.
#[tactic(auto, using(std::proofs::lemmas::Int::ints))]
fn is_dimension(negative: bool, value: i64) -> bool
    ensures { result ≡ is_dimension negative value }
{
    if value >= 0 {
        value <= MAX_DIMEN
    } else {
        negative && value >= -MAX_DIMEN
    }
}

#[tactic(auto, using(std::proofs::lemmas::Int::ints))]
fn signed_length(minus: bool, value: i64) -> i64
    requires { Within (2 ^ 62) value }
    ensures { result ≡ with_sign minus value }
{
    if minus { -value } else { value }
}

// A dimension of this number of units and this sign, which begins where so many tokens are left, if it is in range.
fn dimension_of<'a, T, R: Lexicon<T>>(
    tables: &R,
    units: Units,
    negative: bool,
    first: usize,
    minus: bool,
    f: Decimal,
    unit: Unit,
    rest: &'a [T],
) -> Result<Scanned<'a, i64, T>, Fault>
    requires part { f.part ≤ 65536 }
    requires em { Within (2 ^ 31) units.em }
    requires ex { Within (2 ^ 31) units.ex }
    ensures is { MeetsBy (R.token tables.now) result (dimension_of units negative first minus f unit (map (R.token tables.now) rest.now)) }
    ensures falls { IfOk result (λ part. length part.rest.now ≤ length rest.now) }
{
    if f.whole > MAX_DIMEN as u64 {
        return Err(bad_dimension(first));
    }
    let value = signed_length(minus, length_of(units, unit, f));
    if is_dimension(negative, value) {
        Ok(Scanned { value, rest })
    } else {
        Err(bad_dimension(first))
    }
}

/// A dimension, in math units with `mu`. One below 0 is refused unless `negative` allows it.
pub fn dimension_from<'a, T, R: Lexicon<T>>(
    tables: &R,
    units: Units,
    mu: bool,
    negative: bool,
    tokens: &'a [T],
) -> Result<Scanned<'a, i64, T>, Fault>
    requires em { Within (2 ^ 31) units.em }
    requires ex { Within (2 ^ 31) units.ex }
    ensures is { MeetsBy (R.token tables.now) result (dimension_from units mu negative (map (R.token tables.now) tokens.now)) }
    ensures falls { IfOk result (λ part. length part.rest.now ≤ length tokens.now) }
{
    let sign = signs(tables, tokens);
    let count = factor(tables, sign.rest)?;
    let unit = measure(tables, mu, after_spaces(tables, count.rest))?;
    dimension_of(
        tables,
        units,
        negative,
        tokens.len(),
        sign.value,
        count.value,
        unit.value,
        unit.rest,
    )
}

/// A dimension, in math units where these are asked for.
pub fn dimension<'a, T, R: Lexicon<T>>(
    tables: &R,
    units: Units,
    mu: bool,
    tokens: &'a [T],
) -> Result<Scanned<'a, i64, T>, Fault>
    requires em { Within (2 ^ 31) units.em }
    requires ex { Within (2 ^ 31) units.ex }
    ensures is { MeetsBy (R.token tables.now) result (dimension units mu (map (R.token tables.now) tokens.now)) }
    ensures falls { IfOk result (λ part. length part.rest.now ≤ length tokens.now) }
{
    dimension_from(tables, units, mu, true, tokens)
}

// The tokens after a word in either case, if it is in front.
fn after_letters<'a, T, R: Lexicon<T>>(tables: &R, word: &[u8], tokens: &'a [T]) -> Option<&'a [T]>
    ensures is { IsAfterBy (R.token tables.now) result (after_letters word.now (map (R.token tables.now) tokens.now)) }
    ensures falls { IfSome result (λ rest. length rest.now ≤ length tokens.now) }
{
    let mut letters = word;
    let mut rest = tokens;
    while let [first, more @ ..] = letters {
        match rest {
            [token, after @ ..] if letter(tables, token) == *first => {
                letters = more;
                rest = after;
            }
            _ => return None,
        }
    }
    Some(rest)
}

// Spaces, a word and a dimension that is not negative; where the word is not there, nothing is read.
fn amount<'a, T, R: Lexicon<T>>(
    tables: &R,
    units: Units,
    word: &[u8],
    mu: bool,
    tokens: &'a [T],
) -> Result<Scanned<'a, i64, T>, Fault>
    requires em { Within (2 ^ 31) units.em }
    requires ex { Within (2 ^ 31) units.ex }
    ensures is { MeetsBy (R.token tables.now) result (amount units word.now mu (map (R.token tables.now) tokens.now)) }
    ensures falls { IfOk result (λ part. length part.rest.now ≤ length tokens.now) }
{
    match after_letters(tables, word, after_spaces(tables, tokens)) {
        None => Ok(Scanned {
            value: 0,
            rest: tokens,
        }),
        Some(rest) => dimension_from(tables, units, mu, false, rest),
    }
}

/// Glue, in math units where these are asked for. What it can stretch has no effect.
pub fn glue<'a, T, R: Lexicon<T>>(
    tables: &R,
    units: Units,
    mu: bool,
    tokens: &'a [T],
) -> Result<Scanned<'a, Glue, T>, Fault>
    requires em { Within (2 ^ 31) units.em }
    requires ex { Within (2 ^ 31) units.ex }
    ensures is { MeetsBy (R.token tables.now) result (glue units mu (map (R.token tables.now) tokens.now)) }
    ensures falls { IfOk result (λ part. length part.rest.now ≤ length tokens.now) }
{
    let width = dimension(tables, units, mu, tokens)?;
    let stretch = amount(tables, units, b"plus", mu, width.rest)?;
    let shrink = amount(tables, units, b"minus", mu, stretch.rest)?;
    Ok(Scanned {
        value: Glue {
            width: width.value,
            shrink: shrink.value,
        },
        rest: shrink.rest,
    })
}
