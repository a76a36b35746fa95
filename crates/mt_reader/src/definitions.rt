//! Definitions outside of formulas (The TeXbook, chapter 20).
ghost use Rattle.std.specs.Prelude.{◌≡◌, ◌≤◌, ◌<◌, ◌+◌, ◌==◌, length, map, IfOk, true};
ghost use Rattle.mt_token.specs.Character.{character_code};
ghost use Rattle.mt_macro.specs.Parameters.{first_bad_parameter};
ghost use Rattle.mt_reader.specs.Definitions.{is_parameter, after_parameters, parameters};
ghost use Rattle.mt_reader.specs.Definitions.{checked_body, definition_body, definition_of_name};
ghost use Rattle.mt_reader.specs.Definitions.{macro_definition};
ghost use Rattle.mt_reader.specs.Naming.{control_name, is_control};
ghost use Rattle.mt_reader.specs.Lent.{MeetsOutside, MeetsDefinition, taken_tokens};
ghost use Rattle.mt_reader.specs.declared.outside_cause.OutsideCause.TheVariants.{BadDefinition};

use crate::dollars::{Taken, between_braces};
use crate::outside_cause::OutsideCause;
use mt_macro::items::{first_bad_parameter, is_open};
use mt_scan::Scanned;
use mt_token::{LentKind, Lexicon};

/// A cause, and how many tokens are left from its place on.
#[derive(Clone, Copy, Debug, PartialEq, Eq)]
pub struct OutsideFault {
    /// The cause.
    pub cause: OutsideCause,
    /// The tokens that are left.
    pub left: usize,
}

/// A definition: a name, a number of parameters and a body.
#[derive(Clone, Copy)]
pub struct MacroDefinition<'a, T> {
    /// The control sequence that is defined.
    pub name: &'a T,
    /// The number of parameters.
    pub params: u8,
    /// The body.
    pub body: &'a [T],
}

fn bad_definition(left: usize) -> OutsideFault
    ensures { result ≡ record { cause = BadDefinition; left = left } }
{
    OutsideFault {
        cause: OutsideCause::BadDefinition,
        left,
    }
}

// `#` where fewer than nine parameters are before it.
fn is_parameter<T, L: Lexicon<T>>(tables: &L, count: u8, token: &T) -> bool
    ensures { result ≡ is_parameter count (L.token tables.now token.now) }
{
    tables.code(token) == b'#' && count < 9
}

// The digit of the next parameter.
fn is_next_digit<T, L: Lexicon<T>>(tables: &L, count: u8, token: &T) -> bool
    requires { count < 9 }
    ensures { result ≡ character_code (L.token tables.now token.now).kind == 49 + count }
{
    tables.code(token) == b'1' + count
}

// A `{` must follow the parameters; it is left.
fn after_parameters<'a, T, L: Lexicon<T>>(
    tables: &L,
    count: u8,
    tokens: &'a [T],
) -> Result<Scanned<'a, u8, T>, OutsideFault>
    ensures is { MeetsOutside (L.token tables.now) result
        (after_parameters count (map (L.token tables.now) tokens.now)) }
    ensures falls { IfOk result (λ part. length part.rest.now ≤ length tokens.now) }
    ensures same { IfOk result (λ part. part.value ≡ count) }
{
    match tokens {
        [token, ..] if is_open(tables, token) => Ok(Scanned {
            value: count,
            rest: tokens,
        }),
        _ => Err(bad_definition(tokens.len())),
    }
}

// `#1#2` and so on in order, up to `#9`.
fn parameters<'a, T, L: Lexicon<T>>(
    tables: &L,
    tokens: &'a [T],
) -> Result<Scanned<'a, u8, T>, OutsideFault>
    ensures is { MeetsOutside (L.token tables.now) result (parameters 0 (map (L.token tables.now) tokens.now)) }
    ensures falls { IfOk result (λ part. length part.rest.now ≤ length tokens.now) }
    ensures few { IfOk result (λ part. part.value ≤ 9) }
{
    let mut count = 0;
    let mut rest = tokens;
    while let [token, after @ ..] = rest {
        if !is_parameter(tables, count, token) {
            return after_parameters(tables, count, rest);
        }
        match after {
            [digit, more @ ..] if is_next_digit(tables, count, digit) => {
                count += 1;
                rest = more;
            }
            _ => return Err(bad_definition(after.len())),
        }
    }
    Err(bad_definition(0))
}

// The body, by what is between its braces, where so many tokens are left after its `{`.
fn checked_body<'a, T, L: Lexicon<T>>(
    tables: &L,
    name: &'a T,
    params: u8,
    left: usize,
    taken: Taken<'a, T>,
) -> Result<Scanned<'a, MacroDefinition<'a, T>, T>, OutsideFault>
    requires { length taken.argument.now ≤ left }
    ensures is { MeetsDefinition (L.token tables.now) result
        (checked_body (control_name (L.token tables.now name.now).kind) params left
        (taken_tokens (L.token tables.now) taken.entry)
        (first_bad_parameter params (map (L.token tables.now) taken.entry.argument.now))) }
    ensures name { IfOk result (λ part. part.value.name.now ≡ name.now) }
    ensures falls { IfOk result (λ part. part.rest.now ≡ taken.entry.after.now) }
    ensures short { IfOk result (λ part. part.value.body.now ≡ taken.entry.argument.now) }
{
    match first_bad_parameter(tables, params, taken.argument) {
        None => Ok(Scanned {
            value: MacroDefinition {
                name,
                params,
                body: taken.argument,
            },
            rest: taken.after,
        }),
        Some(place) => Err(bad_definition(left - place)),
    }
}

// A body that begins with its `{`.
fn definition_body<'a, T, L: Lexicon<T>>(
    tables: &L,
    name: &'a T,
    params: u8,
    tokens: &'a [T],
) -> Result<Scanned<'a, MacroDefinition<'a, T>, T>, OutsideFault>
    ensures is { MeetsDefinition (L.token tables.now) result
        (definition_body (control_name (L.token tables.now name.now).kind) params
        (map (L.token tables.now) tokens.now)) }
    ensures name { IfOk result (λ part. part.value.name.now ≡ name.now) }
    ensures falls { IfOk result (λ part. length part.rest.now ≤ length tokens.now) }
    ensures short { IfOk result (λ part. length part.value.body.now ≤ length tokens.now) }
{
    match tokens {
        [_, inside @ ..] => match between_braces(tables, inside) {
            Some(taken) => checked_body(tables, name, params, inside.len(), taken),
            None => Err(OutsideFault {
                cause: OutsideCause::OpenBody,
                left: tokens.len(),
            }),
        },
        [] => Err(bad_definition(0)),
    }
}

// The definition of a name, by what follows the name.
fn definition_of_name<'a, T, L: Lexicon<T>>(
    tables: &L,
    name: &'a T,
    tokens: &'a [T],
) -> Result<Scanned<'a, MacroDefinition<'a, T>, T>, OutsideFault>
    ensures is { MeetsDefinition (L.token tables.now) result
        (definition_of_name (control_name (L.token tables.now name.now).kind)
        (map (L.token tables.now) tokens.now)) }
    ensures name { IfOk result (λ part. part.value.name.now ≡ name.now) }
    ensures falls { IfOk result (λ part. length part.rest.now ≤ length tokens.now) }
    ensures short { IfOk result (λ part. length part.value.body.now ≤ length tokens.now) }
{
    let params = parameters(tables, tokens)?;
    definition_body(tables, name, params.value, params.rest)
}

/// What follows `\def`: a control sequence, parameters, and a body between braces.
pub fn macro_definition<'a, T, L: Lexicon<T>>(
    tables: &L,
    tokens: &'a [T],
) -> Result<Scanned<'a, MacroDefinition<'a, T>, T>, OutsideFault>
    ensures is { MeetsDefinition (L.token tables.now) result
        (macro_definition (map (L.token tables.now) tokens.now)) }
    ensures name { IfOk result (λ part. is_control (L.token tables.now part.value.name.now).kind ≡ true) }
    ensures falls { IfOk result (λ part. length part.rest.now ≤ length tokens.now) }
    ensures short { IfOk result (λ part. length part.value.body.now ≤ length tokens.now) }
{
    match tokens {
        [token, rest @ ..] => match tables.lent(token) {
            LentKind::Control(_) => definition_of_name(tables, token, rest),
            _ => Err(bad_definition(tokens.len())),
        },
        [] => Err(bad_definition(0)),
    }
}
