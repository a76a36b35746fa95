//! Units of length.
ghost use Rattle.std.specs.Prelude.{◌≡◌, ◌≤◌, ◌<◌, ◌^◌, pos, ◌+ℤ◌, ◌*ℤ◌, ◌≤ℤ◌, length, IfOk, map};
ghost use Rattle.mt_scaled.specs.Number.{Within, max_dimen};
ghost use Rattle.mt_scaled.specs.Units.{factor_of, unit_length, font_length};
ghost use Rattle.mt_scan.specs.Dimensions.{small_letter, letter, measures, begins_measure, measure_of};
ghost use Rattle.mt_scan.specs.Dimensions.{after_first_letter, measure, by_factor, length_of};
ghost use Rattle.mt_scan.specs.Meets.{MeetsBy};

use crate::decimals::{Decimal, bad_dimension};
use crate::fault::Fault;
use crate::scanned::Scanned;
use crate::spaces::after_one_space;
use mt_scaled::{Unit, Units, unit_factor, xn_over_d};
use mt_token::Lexicon;

fn small_letter(c: u8) -> u8
    ensures { result ≡ small_letter c }
{
    match c {
        b'A'..=b'Z' => c + 32,
        b'a'..=b'z' => c,
        _ => 0,
    }
}

/// The letter that a token is, as a small one; 0 where it is none.
pub fn letter<T, R: Lexicon<T>>(tables: &R, token: &T) -> u8
    ensures { result ≡ letter (R.token tables.now token.now) }
{
    small_letter(tables.code(token))
}

fn begins_measure(mu: bool, a: u8) -> bool
    ensures { result ≡ begins_measure (measures mu) a }
{
    if mu {
        a == b'm'
    } else {
        matches!(a, b'p' | b'i' | b'c' | b'm' | b'b' | b'd' | b's' | b'e')
    }
}

fn measure_of(mu: bool, a: u8, b: u8) -> Option<Unit>
    ensures { result ≡ measure_of (measures mu) a b }
{
    if mu {
        return match (a, b) {
            (b'm', b'u') => Some(Unit::Mu),
            _ => None,
        };
    }
    match (a, b) {
        (b'p', b't') => Some(Unit::Pt),
        (b'i', b'n') => Some(Unit::In),
        (b'p', b'c') => Some(Unit::Pc),
        (b'c', b'm') => Some(Unit::Cm),
        (b'm', b'm') => Some(Unit::Mm),
        (b'b', b'p') => Some(Unit::Bp),
        (b'd', b'd') => Some(Unit::Dd),
        (b'c', b'c') => Some(Unit::Cc),
        (b's', b'p') => Some(Unit::Sp),
        (b'e', b'm') => Some(Unit::Em),
        (b'e', b'x') => Some(Unit::Ex),
        _ => None,
    }
}

fn after_first_letter<'a, T, R: Lexicon<T>>(
    tables: &R,
    mu: bool,
    a: u8,
    tokens: &'a [T],
) -> Result<Scanned<'a, Unit, T>, Fault>
    ensures is { MeetsBy (R.token tables.now) result (after_first_letter mu a (map (R.token tables.now) tokens.now)) }
    ensures falls { IfOk result (λ part. length part.rest.now ≤ length tokens.now) }
{
    match tokens {
        [token, after @ ..] => match measure_of(mu, a, letter(tables, token)) {
            Some(unit) => Ok(Scanned {
                value: unit,
                rest: after_one_space(tables, after),
            }),
            None => Err(bad_dimension(tokens.len())),
        },
        [] => Err(bad_dimension(0)),
    }
}

/// A unit of two letters: `mu` where math units are asked for, and elsewhere another.
pub fn measure<'a, T, R: Lexicon<T>>(
    tables: &R,
    mu: bool,
    tokens: &'a [T],
) -> Result<Scanned<'a, Unit, T>, Fault>
    ensures is { MeetsBy (R.token tables.now) result (measure mu (map (R.token tables.now) tokens.now)) }
    ensures falls { IfOk result (λ part. length part.rest.now ≤ length tokens.now) }
{
    match tokens {
        [token, after @ ..] => {
            let a = letter(tables, token);
            if begins_measure(mu, a) {
                after_first_letter(tables, mu, a, after)
            } else {
                Err(bad_dimension(tokens.len()))
            }
        }
        [] => Err(bad_dimension(0)),
    }
}

// A number of units in scaled points, where n points make d of the unit.
fn unit_length(whole: u64, part: u64, n: u64, d: u64) -> u64
    requires whole { whole ≤ max_dimen }
    requires part { part ≤ 65536 }
    requires n { n ≤ 14856 }
    requires d { 0 < d }
    requires small { d ≤ 7200 }
    ensures is { result ≡ unit_length whole part n d }
    ensures bound { result ≤ 2 ^ 62 }
{
    let product = whole * n;
    let quotient = product / d;
    let remainder = product % d;
    65536 * quotient + (n * part + 65536 * remainder) / d
}

fn natural(size: u64) -> i64
    requires { size ≤ 2 ^ 62 }
    ensures is { result ≡ pos size }
    ensures small { Within (2 ^ 62) result }
{
    size as i64
}

fn product(whole: i64, x: i64) -> i64
    requires whole { Within (2 ^ 30) whole }
    requires x { Within (2 ^ 31) x }
    ensures is { result ≡ whole *ℤ x }
    ensures small { Within (2 ^ 61) result }
{
    whole * x
}

#[tactic(auto, using(std::proofs::lemmas::Int::ints))]
fn sum(a: i64, b: i64) -> i64
    requires a { Within (2 ^ 61) a }
    requires b { Within (2 ^ 60) b }
    ensures is { result ≡ a +ℤ b }
    ensures small { Within (2 ^ 62) result }
{
    a + b
}

#[tactic(auto, using(std::proofs::lemmas::Int::ints))]
fn whole_of(whole: u64) -> i64
    requires { whole ≤ max_dimen }
    ensures is { result ≡ pos whole }
    ensures small { Within (2 ^ 30) result }
{
    whole as i64
}

#[tactic(auto, using(std::proofs::lemmas::Int::ints))]
fn part_of(part: u64) -> i64
    requires { part ≤ 65536 }
    ensures is { result ≡ pos part }
    ensures low { pos 0 ≤ℤ result }
    ensures high { result ≤ℤ pos (2 ^ 20) }
{
    part as i64
}

// A number of lengths of a font.
#[tactic(auto, using(std::proofs::lemmas::Int::ints))]
fn font_length(whole: u64, part: u64, x: i64) -> i64
    requires whole { whole ≤ max_dimen }
    requires part { part ≤ 65536 }
    requires x { Within (2 ^ 31) x }
    ensures is { result ≡ font_length whole part x }
    ensures small { Within (2 ^ 62) result }
{
    sum(
        product(whole_of(whole), x),
        xn_over_d(x, part_of(part), 65536),
    )
}

// So many of a unit with a factor (tex.web, section 458), or so many points where it has none.
#[tactic(auto, using(crate::proofs::Factors::has_small_factor))]
fn by_factor(unit: Unit, whole: u64, part: u64) -> i64
    requires whole { whole ≤ max_dimen }
    requires part { part ≤ 65536 }
    ensures is { result ≡ by_factor (factor_of unit) whole part }
    ensures small { Within (2 ^ 62) result }
{
    match unit_factor(unit) {
        Some((n, d)) => natural(unit_length(whole, part, n.unsigned_abs(), d.unsigned_abs())),
        None => natural(65536 * whole + part),
    }
}

/// So many units, in scaled points, or in 65536ths of a math unit.
pub fn length_of(units: Units, unit: Unit, f: Decimal) -> i64
    requires whole { f.whole ≤ max_dimen }
    requires part { f.part ≤ 65536 }
    requires em { Within (2 ^ 31) units.em }
    requires ex { Within (2 ^ 31) units.ex }
    ensures is { result ≡ length_of units unit f }
    ensures small { Within (2 ^ 62) result }
{
    let Decimal { whole, part } = f;
    match unit {
        Unit::Sp => natural(whole),
        Unit::Em => font_length(whole, part, units.em),
        Unit::Ex => font_length(whole, part, units.ex),
        Unit::Pt
        | Unit::In
        | Unit::Pc
        | Unit::Cm
        | Unit::Mm
        | Unit::Bp
        | Unit::Dd
        | Unit::Cc
        | Unit::Mu => by_factor(unit, whole, part),
    }
}
