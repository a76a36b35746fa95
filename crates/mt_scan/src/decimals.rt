//! Decimal numbers.
ghost use Rattle.std.specs.Prelude.{◌≡◌, ◌≤◌, ◌+◌, ◌*◌, ◌/◌, length, take, IfOk, map};
ghost use Rattle.mt_scaled.specs.Number.{decimals_of, decimal_fraction};
ghost use Rattle.mt_scan.specs.declared.fault.ReadCause.TheVariants.{BadDimension};
ghost use Rattle.mt_scan.specs.Limits.{size_cap};
ghost use Rattle.mt_scan.specs.Dimensions.{decimals, is_point, after_whole, factor};
ghost use Rattle.mt_scan.specs.Meets.{MeetsBy};
ghost use Rattle.mt_scan.specs.CappedDecimals.{capped_decimal};

use crate::fault::{Fault, ReadCause};
use crate::numbers::{digit_of, digits};
use crate::scanned::Scanned;
use mt_token::Lexicon;

/// A decimal number.
#[derive(Clone, Copy, Debug, PartialEq, Eq)]
pub struct Decimal {
    /// Its whole part.
    pub whole: u64,
    /// Its fraction, as 65536ths.
    pub part: u64,
}

/// A dimension is at fault where so many tokens are left.
pub fn bad_dimension(left: usize) -> Fault
    ensures { result ≡ record { cause = BadDimension; left = left } }
{
    Fault {
        cause: ReadCause::BadDimension,
        left,
    }
}

// The tokens after the digits in front.
fn after_digits<'a, T, R: Lexicon<T>>(tables: &R, tokens: &'a [T]) -> &'a [T]
    ensures is { map (R.token tables.now) result.now ≡ (decimals (map (R.token tables.now) tokens.now)).rest }
    ensures falls { length result.now ≤ length tokens.now }
{
    let mut rest = tokens;
    while let [token, after @ ..] = rest {
        match digit_of(tables, 10, token) {
            Some(_) => rest = after,
            None => return rest,
        }
    }
    rest
}

// The first digits in front, at most so many, as a fraction in 2^-17ths.
fn fraction<T, R: Lexicon<T>>(tables: &R, count: u64, tokens: &[T]) -> u64
    ensures is { result ≡ decimals_of (take count (decimals (map (R.token tables.now) tokens.now)).digits) }
    ensures bound { result ≤ 131072 }
{
    if count == 0 {
        return 0;
    }
    match tokens {
        [token, after @ ..] => match digit_of(tables, 10, token) {
            Some(digit) => (fraction(tables, count - 1, after) + 131_072 * digit) / 10,
            None => 0,
        },
        [] => 0,
    }
}

// The digits in front as a fraction, in 2^-16ths.
fn rounded_fraction<T, R: Lexicon<T>>(tables: &R, tokens: &[T]) -> u64
    ensures is { result ≡ decimal_fraction (decimals (map (R.token tables.now) tokens.now)).digits }
    ensures bound { result ≤ 65536 }
{
    (fraction(tables, 17, tokens) + 1) / 2
}

fn is_point(c: u8) -> bool
    ensures { result ≡ is_point c }
{
    c == b'.' || c == b','
}

// What follows the digits of a whole part, if there were any.
fn after_whole<'a, T, R: Lexicon<T>>(
    tables: &R,
    some: bool,
    whole: u64,
    tokens: &'a [T],
) -> Result<Scanned<'a, Decimal, T>, Fault>
    requires { whole ≤ size_cap }
    ensures is { MeetsBy (R.token tables.now) result (after_whole some whole (map (R.token tables.now) tokens.now)) }
    ensures falls { IfOk result (λ read. length read.rest.now ≤ length tokens.now) }
    ensures whole { IfOk result (λ read. read.value.whole ≤ size_cap) }
    ensures part { IfOk result (λ read. read.value.part ≤ 65536) }
{
    match tokens {
        [token, after @ ..] if is_point(tables.code(token)) => Ok(Scanned {
            value: Decimal {
                whole,
                part: rounded_fraction(tables, after),
            },
            rest: after_digits(tables, after),
        }),
        _ => {
            if some {
                Ok(Scanned {
                    value: Decimal { whole, part: 0 },
                    rest: tokens,
                })
            } else {
                Err(bad_dimension(tokens.len()))
            }
        }
    }
}

/// Digits with at most one point, and at least one of them. A whole part above 2^31 - 1 counts as 2^31.
pub fn factor<'a, T, R: Lexicon<T>>(
    tables: &R,
    tokens: &'a [T],
) -> Result<Scanned<'a, Decimal, T>, Fault>
    ensures is { MeetsBy (R.token tables.now) result (capped_decimal (factor (map (R.token tables.now) tokens.now))) }
    ensures falls { IfOk result (λ read. length read.rest.now ≤ length tokens.now) }
    ensures whole { IfOk result (λ read. read.value.whole ≤ size_cap) }
    ensures part { IfOk result (λ read. read.value.part ≤ 65536) }
{
    let whole = digits(tables, 10, 0, tokens);
    after_whole(
        tables,
        whole.rest.len() < tokens.len(),
        whole.value,
        whole.rest,
    )
}
