//! Numbers.
ghost use Rattle.mt_token.specs.LentKinds.{owned_kind};
ghost use Rattle.std.specs.Prelude.{◌≡◌, ◌≤◌, ◌<◌, ◌*◌, ◌+◌, min, pos, false, length, IfOk, IfSome, map};
ghost use Rattle.mt_scan.specs.Limits.{max_number, size_cap};
ghost use Rattle.mt_scan.specs.Numbers.{turns_sign, sign_after, signs, with_sign, digit_value, digit_of};
ghost use Rattle.mt_scan.specs.Numbers.{digits, digits_in, quoted_kind, quoted_code, unsigned_number};
ghost use Rattle.mt_scan.specs.Numbers.{in_bound, whole_number, number_to};
ghost use Rattle.mt_scan.specs.declared.fault.ReadCause.TheVariants.{BadNumber};
ghost use Rattle.mt_scan.specs.Meets.{MeetsBy, capped, capped_digits};

use crate::fault::{Fault, ReadCause};
use crate::scanned::Scanned;
use crate::spaces::after_one_space;
use mt_token::{LentKind, Lexicon};

/// The greatest number that `\mathchar` and `\mathaccent` take.
pub const MAX_MATH_CHAR: u32 = 32_767;

/// All sizes above 2^31 - 1 count as this.
const SIZE_CAP: u64 = 2_147_483_648;

fn bad_number(left: usize) -> Fault
    ensures { result ≡ record { cause = BadNumber; left = left } }
{
    Fault {
        cause: ReadCause::BadNumber,
        left,
    }
}

fn turns_sign(kind: LentKind) -> Option<bool>
    ensures { result ≡ turns_sign (owned_kind kind.entry) }
{
    match kind {
        LentKind::Control(_) => None,
        LentKind::Space => Some(false),
        LentKind::Char(b'+') => Some(false),
        LentKind::Char(b'-') => Some(true),
        LentKind::Char(_) => None,
    }
}

fn sign_after(turn: bool, minus: bool) -> bool
    ensures { result ≡ sign_after turn minus }
{
    if turn { !minus } else { minus }
}

/// Whether there is a minus in front, by the signs and Spaces there.
pub fn signs<'a, T, R: Lexicon<T>>(tables: &R, tokens: &'a [T]) -> Scanned<'a, bool, T>
    ensures minus { result.value ≡ (signs false (map (R.token tables.now) tokens.now)).minus }
    ensures rest { map (R.token tables.now) result.rest.now ≡ (signs false (map (R.token tables.now) tokens.now)).rest }
    ensures falls { length result.rest.now ≤ length tokens.now }
{
    let mut minus = false;
    let mut rest = tokens;
    while let [token, after @ ..] = rest {
        match turns_sign(tables.lent(token)) {
            Some(turn) => {
                minus = sign_after(turn, minus);
                rest = after;
            }
            None => return Scanned { value: minus, rest },
        }
    }
    Scanned { value: minus, rest }
}

/// A size with a sign.
pub fn with_sign(minus: bool, size: u64) -> i64
    requires { size ≤ size_cap }
    ensures { result ≡ with_sign minus (pos size) }
{
    if minus { -(size as i64) } else { size as i64 }
}

fn digit_value(base: u64, c: u8) -> Option<u64>
    requires { base ≤ 16 }
    ensures is { result ≡ digit_value base c }
    ensures below { IfSome result (λ d. d < base) }
{
    match c {
        b'0'..=b'9' if u64::from(c) < 48 + base => Some(u64::from(c - b'0')),
        b'A'..=b'F' if base == 16 => Some(u64::from(c - b'A') + 10),
        _ => None,
    }
}

/// The value of a digit.
pub fn digit_of<T, R: Lexicon<T>>(tables: &R, base: u64, token: &T) -> Option<u64>
    requires { base ≤ 16 }
    ensures is { result ≡ digit_of base (R.token tables.now token.now) }
    ensures below { IfSome result (λ d. d < base) }
{
    digit_value(base, tables.code(token))
}

fn with_digit(base: u64, size: u64, digit: u64) -> u64
    requires base { base ≤ 16 }
    requires size { size ≤ size_cap }
    requires digit { digit < base }
    ensures is { result ≡ min (size * base + digit) size_cap }
    ensures bound { result ≤ size_cap }
{
    let more = size * base + digit;
    if more < SIZE_CAP { more } else { SIZE_CAP }
}

// The same as `digits`, a digit at a time.
fn capped_digits<'a, T, R: Lexicon<T>>(
    tables: &R,
    base: u64,
    first: u64,
    tokens: &'a [T],
) -> Scanned<'a, u64, T>
    requires base { base ≤ 16 }
    requires first { first ≤ size_cap }
    ensures value { result.value ≡ (capped_digits base first (map (R.token tables.now) tokens.now)).value }
    ensures rest { map (R.token tables.now) result.rest.now ≡ (capped_digits base first (map (R.token tables.now) tokens.now)).rest }
    ensures falls { length result.rest.now ≤ length tokens.now }
    ensures bound { result.value ≤ size_cap }
{
    let mut size = first;
    let mut rest = tokens;
    while let [token, after @ ..] = rest {
        match digit_of(tables, base, token) {
            Some(digit) => {
                size = with_digit(base, size, digit);
                rest = after;
            }
            None => return Scanned { value: size, rest },
        }
    }
    Scanned { value: size, rest }
}

/// The size that the digits in front make, after digits of another size.
pub fn digits<'a, T, R: Lexicon<T>>(
    tables: &R,
    base: u64,
    first: u64,
    tokens: &'a [T],
) -> Scanned<'a, u64, T>
    requires least { 1 ≤ base }
    requires base { base ≤ 16 }
    requires first { first ≤ max_number }
    ensures value { result.value ≡ min (digits base first (map (R.token tables.now) tokens.now)).value size_cap }
    ensures rest { map (R.token tables.now) result.rest.now ≡ (digits base first (map (R.token tables.now) tokens.now)).rest }
    ensures falls { length result.rest.now ≤ length tokens.now }
    ensures bound { result.value ≤ size_cap }
{
    capped_digits(tables, base, first, tokens)
}

// At least one digit.
fn digits_in<'a, T, R: Lexicon<T>>(
    tables: &R,
    base: u64,
    tokens: &'a [T],
) -> Result<Scanned<'a, u64, T>, Fault>
    requires least { 1 ≤ base }
    requires base { base ≤ 16 }
    ensures is { MeetsBy (R.token tables.now) result (capped (digits_in base (map (R.token tables.now) tokens.now))) }
    ensures falls { IfOk result (λ part. length part.rest.now ≤ length tokens.now) }
    ensures bound { IfOk result (λ part. part.value ≤ size_cap) }
{
    match tokens {
        [token, after @ ..] => match digit_of(tables, base, token) {
            Some(digit) => Ok(digits(tables, base, digit, after)),
            None => Err(bad_number(tokens.len())),
        },
        [] => Err(bad_number(0)),
    }
}

fn quoted_kind(kind: LentKind) -> Option<u8>
    ensures { result ≡ quoted_kind (owned_kind kind.entry) }
{
    match kind {
        LentKind::Char(c) => Some(c),
        LentKind::Control(name) => match name {
            [c] => Some(*c),
            _ => None,
        },
        LentKind::Space => None,
    }
}

// A character, or a control sequence of one character.
fn quoted_code<'a, T, R: Lexicon<T>>(
    tables: &R,
    tokens: &'a [T],
) -> Result<Scanned<'a, u64, T>, Fault>
    ensures is { MeetsBy (R.token tables.now) result (capped (quoted_code (map (R.token tables.now) tokens.now))) }
    ensures falls { IfOk result (λ part. length part.rest.now ≤ length tokens.now) }
    ensures bound { IfOk result (λ part. part.value ≤ size_cap) }
{
    match tokens {
        [token, after @ ..] => match quoted_kind(tables.lent(token)) {
            Some(c) => Ok(Scanned {
                value: u64::from(c),
                rest: after,
            }),
            None => Err(bad_number(tokens.len())),
        },
        [] => Err(bad_number(0)),
    }
}

fn unsigned_number<'a, T, R: Lexicon<T>>(
    tables: &R,
    tokens: &'a [T],
) -> Result<Scanned<'a, u64, T>, Fault>
    ensures is { MeetsBy (R.token tables.now) result (capped (unsigned_number (map (R.token tables.now) tokens.now))) }
    ensures falls { IfOk result (λ part. length part.rest.now ≤ length tokens.now) }
    ensures bound { IfOk result (λ part. part.value ≤ size_cap) }
{
    match tokens {
        [token, after @ ..] => match tables.code(token) {
            b'"' => digits_in(tables, 16, after),
            b'\'' => digits_in(tables, 8, after),
            b'`' => quoted_code(tables, after),
            _ => digits_in(tables, 10, tokens),
        },
        [] => Err(bad_number(0)),
    }
}

// A number of this size, which begins where so many tokens are left, if it is in range.
fn in_bound<'a, T, R: Lexicon<T>>(
    tables: &R,
    first: usize,
    minus: bool,
    size: u64,
    rest: &'a [T],
) -> Result<Scanned<'a, i64, T>, Fault>
    ensures is { MeetsBy (R.token tables.now) result (in_bound first minus size (map (R.token tables.now) rest.now)) }
    ensures falls { IfOk result (λ part. length part.rest.now ≤ length rest.now) }
{
    if size < SIZE_CAP {
        Ok(Scanned {
            value: with_sign(minus, size),
            rest: after_one_space(tables, rest),
        })
    } else {
        Err(bad_number(first))
    }
}

/// A number: signs and Spaces, then digits to the base 10, 16 or 8 or a character, then one Space.
pub fn whole_number<'a, T, R: Lexicon<T>>(
    tables: &R,
    tokens: &'a [T],
) -> Result<Scanned<'a, i64, T>, Fault>
    ensures is { MeetsBy (R.token tables.now) result (whole_number (map (R.token tables.now) tokens.now)) }
    ensures falls { IfOk result (λ part. length part.rest.now ≤ length tokens.now) }
{
    let sign = signs(tables, tokens);
    let size = unsigned_number(tables, sign.rest)?;
    in_bound(tables, tokens.len(), sign.value, size.value, size.rest)
}

/// A number from 0 to a greatest.
pub fn number_to<'a, T, R: Lexicon<T>>(
    tables: &R,
    most: u32,
    tokens: &'a [T],
) -> Result<Scanned<'a, u32, T>, Fault>
    ensures is { MeetsBy (R.token tables.now) result (number_to most (map (R.token tables.now) tokens.now)) }
    ensures falls { IfOk result (λ part. length part.rest.now ≤ length tokens.now) }
    ensures bound { IfOk result (λ part. part.value ≤ most) }
{
    let number = whole_number(tables, tokens)?;
    if 0 <= number.value && number.value <= i64::from(most) {
        Ok(Scanned {
            value: number.value as u32,
            rest: number.rest,
        })
    } else {
        Err(bad_number(tokens.len()))
    }
}
