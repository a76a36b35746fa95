//! How the rows of a vcenter atom begin and end.
ghost use Rattle.std.specs.Prelude.{◌≡◌, ◌≤◌, ◌<◌, ◌+◌, length, IfOk, map};
ghost use Rattle.mt_scan.specs.Parts.{opening};
ghost use Rattle.mt_scan.specs.Role.{is_math_shift};
ghost use Rattle.mt_scan.specs.Meets.{MeetsBy};
ghost use Rattle.mt_formula.specs.reading.Actions.{Opens};
ghost use Rattle.mt_formula.specs.reading.Rows.{next_row_begins, first_row_begins, later_row_begins};
ghost use Rattle.mt_formula.specs.reading.Rows.{row_opens};
ghost use Rattle.mt_formula.specs.Rows.{brace_closes};
ghost use Rattle.mt_scan.specs.Limits.{max_groups};

use crate::actions::groups::{check_level, missing_field, open_brace};
use mt_scan::items::after_spaces;
use mt_scan::{Fault, Role, Roles, Scanned};

// The tokens after a `$` that must be here and opens a group.
fn open_dollar<'a, T, R: Roles<T>>(
    roles: &R,
    level: usize,
    tokens: &'a [T],
) -> Result<&'a [T], Fault>
    ensures is { Opens (R.token roles.now) result
        (opening (R.codes roles.now) is_math_shift level (map (R.token roles.now) tokens.now)) }
    ensures falls { IfOk result (λ inside. length inside.now < length tokens.now) }
    ensures level { IfOk result (λ inside. level < max_groups) }
{
    match tokens {
        [token, inside @ ..] => match roles.role_of(token) {
            Role::Dollar => {
                check_level(level, tokens.len())?;
                Ok(inside)
            }
            _ => Err(missing_field(tokens.len())),
        },
        [] => Err(missing_field(0)),
    }
}

/// The tokens after the `{$` of a row.
pub fn open_row_list<'a, T, R: Roles<T>>(
    roles: &R,
    level: usize,
    tokens: &'a [T],
) -> Result<&'a [T], Fault>
    ensures is { Opens (R.token roles.now) result
        (row_opens (R.codes roles.now) level (map (R.token roles.now) tokens.now)) }
    ensures falls { IfOk result (λ inside. length inside.now < length tokens.now) }
    ensures level { IfOk result (λ inside. level + 1 < max_groups) }
{
    let after = open_brace(roles, level, tokens)?;
    open_dollar(roles, level + 1, after)
}

/// The tokens after a `}` that must be here.
pub fn close_brace<'a, T, R: Roles<T>>(roles: &R, tokens: &'a [T]) -> Result<&'a [T], Fault>
    ensures is { Opens (R.token roles.now) result
        (brace_closes (R.codes roles.now) (map (R.token roles.now) tokens.now)) }
    ensures falls { IfOk result (λ rest. length rest.now < length tokens.now) }
{
    match tokens {
        [token, rest @ ..] => match roles.role_of(token) {
            Role::CloseBrace => Ok(rest),
            _ => Err(missing_field(tokens.len())),
        },
        [] => Err(missing_field(0)),
    }
}

// A row must begin here.
fn next_row_begins<'a, T, R: Roles<T>>(
    roles: &R,
    tokens: &'a [T],
) -> Result<Scanned<'a, bool, T>, Fault>
    ensures is { MeetsBy (R.token roles.now) result
        (next_row_begins (R.codes roles.now) (map (R.token roles.now) tokens.now)) }
    ensures falls { IfOk result (λ part. length part.rest.now < length tokens.now) }
{
    match tokens {
        [token, rest @ ..] => match roles.role_of(token) {
            Role::HboxWord => Ok(Scanned { value: true, rest }),
            _ => Err(missing_field(tokens.len())),
        },
        [] => Err(missing_field(0)),
    }
}

/// Whether the first row begins here, or there is none.
pub fn first_row_begins<'a, T, R: Roles<T>>(
    roles: &R,
    tokens: &'a [T],
) -> Result<Scanned<'a, bool, T>, Fault>
    ensures is { MeetsBy (R.token roles.now) result
        (first_row_begins (R.codes roles.now) (map (R.token roles.now) tokens.now)) }
    ensures falls { IfOk result (λ part. length part.rest.now < length tokens.now) }
{
    match tokens {
        [token, rest @ ..] => match roles.role_of(token) {
            Role::CloseBrace => Ok(Scanned { value: false, rest }),
            Role::HboxWord => Ok(Scanned { value: true, rest }),
            _ => Err(missing_field(tokens.len())),
        },
        [] => Err(missing_field(0)),
    }
}

/// Whether another row begins here, or there are no more.
pub fn later_row_begins<'a, T, R: Roles<T>>(
    roles: &R,
    tokens: &'a [T],
) -> Result<Scanned<'a, bool, T>, Fault>
    ensures is { MeetsBy (R.token roles.now) result
        (later_row_begins (R.codes roles.now) (map (R.token roles.now) tokens.now)) }
    ensures falls { IfOk result (λ part. length part.rest.now < length tokens.now) }
{
    match tokens {
        [token, rest @ ..] => match roles.role_of(token) {
            Role::CloseBrace => Ok(Scanned { value: false, rest }),
            Role::HboxWord => Ok(Scanned { value: true, rest }),
            _ => next_row_begins(roles, after_spaces(roles, tokens)),
        },
        [] => Err(missing_field(0)),
    }
}
