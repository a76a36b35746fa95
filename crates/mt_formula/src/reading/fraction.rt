//! What a fraction word begins.
ghost use Rattle.std.specs.Prelude.{◌≡◌, ◌≤◌, ◌^◌, length, IfOk, map};
ghost use Rattle.mt_scaled.specs.Number.{Within};
ghost use Rattle.mt_arena.specs.declared.thing.Thing.TheVariants.{Fraction};
ghost use Rattle.mt_scan.specs.Meets.{MeetsBy};
ghost use Rattle.mt_formula.specs.Lists.{bar_thickness, with_bar, fraction_head};

use mt_arena::{FractionNoad, Span, Thing, short_thickness};
use mt_rules::Delim;
use mt_scaled::Units;
use mt_scan::items::{dimension, scan_delimiter};
use mt_scan::{Bar, Fault, Roles, Scanned, null_delim};
use std::alloc::AllocError;

/// What is before the denominator of a fraction.
#[derive(Clone, Copy, Debug, PartialEq, Eq)]
pub struct FractionHead {
    /// The thickness of the rule, `None` for that of the font.
    pub thickness: Option<i64>,
    /// The left delimiter.
    pub left: Delim,
    /// The right delimiter.
    pub right: Delim,
}

fn bar_thickness<'a, T, R: Roles<T>>(
    roles: &R,
    units: Units,
    bar: Bar,
    tokens: &'a [T],
) -> Result<Scanned<'a, Option<i64>, T>, Fault>
    requires em { Within (2 ^ 31) units.em }
    requires ex { Within (2 ^ 31) units.ex }
    ensures is { MeetsBy (R.token roles.now) result (bar_thickness units bar (map (R.token roles.now) tokens.now)) }
    ensures falls { IfOk result (λ part. length part.rest.now ≤ length tokens.now) }
{
    match bar {
        Bar::Own => Ok(Scanned {
            value: None,
            rest: tokens,
        }),
        Bar::None => Ok(Scanned {
            value: Some(0),
            rest: tokens,
        }),
        Bar::Given => {
            let amount = dimension(roles, units, false, tokens)?;
            Ok(Scanned {
                value: Some(amount.value),
                rest: amount.rest,
            })
        }
    }
}

fn with_bar<'a, T, R: Roles<T>>(
    roles: &R,
    units: Units,
    bar: Bar,
    left: Delim,
    right: Delim,
    tokens: &'a [T],
) -> Result<Scanned<'a, FractionHead, T>, Fault>
    requires em { Within (2 ^ 31) units.em }
    requires ex { Within (2 ^ 31) units.ex }
    ensures is { MeetsBy (R.token roles.now) result
        (with_bar units bar left right (map (R.token roles.now) tokens.now)) }
    ensures falls { IfOk result (λ part. length part.rest.now ≤ length tokens.now) }
{
    let thickness = bar_thickness(roles, units, bar, tokens)?;
    Ok(Scanned {
        value: FractionHead {
            thickness: thickness.value,
            left,
            right,
        },
        rest: thickness.rest,
    })
}

/// What follows a fraction word: two delimiters, a thickness, both or neither.
pub fn fraction_head<'a, T, R: Roles<T>>(
    roles: &R,
    units: Units,
    delims: bool,
    bar: Bar,
    tokens: &'a [T],
) -> Result<Scanned<'a, FractionHead, T>, Fault>
    requires em { Within (2 ^ 31) units.em }
    requires ex { Within (2 ^ 31) units.ex }
    ensures is { MeetsBy (R.token roles.now) result
        (fraction_head (R.codes roles.now) units delims bar (map (R.token roles.now) tokens.now)) }
    ensures falls { IfOk result (λ part. length part.rest.now ≤ length tokens.now) }
{
    if !delims {
        return with_bar(roles, units, bar, null_delim(), null_delim(), tokens);
    }
    let left = scan_delimiter(roles, tokens)?;
    let right = scan_delimiter(roles, left.rest)?;
    with_bar(roles, units, bar, left.value, right.value, right.rest)
}

/// The fraction of these two lists.
pub fn fraction_thing(head: FractionHead, num: Span, den: Span) -> Result<Thing, AllocError>
    ensures { IfOk result
        (λ thing. thing ≡ Fraction
        (record { thickness = head.thickness; left = head.left; right = head.right; num = num; den = den })) }
{
    Ok(Thing::Fraction(FractionNoad {
        thickness: short_thickness(head.thickness)?,
        left: head.left,
        right: head.right,
        num,
        den,
    }))
}
