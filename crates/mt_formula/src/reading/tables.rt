//! How tables go on.
ghost use Rattle.std.specs.Prelude.{◌≡◌, ◌≤◌, ◌<◌, ◌+◌, ◌^◌, length, IfOk, map};
ghost use Rattle.mt_scan.specs.declared.fault.ReadCause.TheVariants.{Unbalanced};
ghost use Rattle.mt_scan.specs.Limits.{max_groups};
ghost use Rattle.mt_scan.specs.Meets.{MeetsBy};
ghost use Rattle.mt_scan.specs.Parts.{Got};
ghost use Rattle.mt_formula.specs.Tables.{after_cell, brace_level, next_cell, row_or_end};

use crate::actions::table_form::{Column, TableForm, TableStep, next_column};
use mt_scan::items::after_spaces;
use mt_scan::{Fault, Preamble, ReadCause, Role, Roles, Scanned};

/// Whether the table ends here, at `}`, or another row begins. Spaces that may be before are to be
/// dropped first: a Space here is part of a row.
pub fn row_or_end<'a, T, R: Roles<T>>(roles: &R, tokens: &'a [T]) -> Scanned<'a, TableStep, T>
    ensures is { row_or_end (R.codes roles.now) (map (R.token roles.now) tokens.now)
        ≡ Got result.value (map (R.token roles.now) result.rest.now) }
    ensures falls { length result.rest.now ≤ length tokens.now }
{
    match tokens {
        [token, rest @ ..] => match roles.role_of(token) {
            Role::CloseBrace => Scanned {
                value: TableStep::Closes,
                rest,
            },
            _ => Scanned {
                value: TableStep::NextRow,
                rest: tokens,
            },
        },
        [] => Scanned {
            value: TableStep::NextRow,
            rest: tokens,
        },
    }
}

// Behind a `&`, the cell of this column.
fn next_cell<'a, T, R: Roles<T>>(
    roles: &R,
    column: Option<Column>,
    rest: &'a [T],
) -> Result<Scanned<'a, TableStep, T>, Fault>
    requires { length rest.now + 1 < 2 ^ 64 }
    ensures is { MeetsBy (R.token roles.now) result (next_cell column (map (R.token roles.now) rest.now)) }
    ensures falls { IfOk result (λ step. length step.rest.now ≤ length rest.now) }
{
    match column {
        Some(column) => Ok(Scanned {
            value: TableStep::NextCell(column),
            rest,
        }),
        None => Err(Fault {
            cause: ReadCause::ExtraCell,
            left: rest.len() + 1,
        }),
    }
}

fn unbalanced(left: usize) -> Fault
    ensures { result ≡ record { cause = Unbalanced; left = left } }
{
    Fault {
        cause: ReadCause::Unbalanced,
        left,
    }
}

/// How a table goes on after a cell of this column. The fault is `Unbalanced` where none of `&`,
/// `\cr` and `}` is there, `ExtraCell` where the table has no column after this one.
pub fn after_cell<'a, T, R: Roles<T>>(
    roles: &R,
    preamble: Preamble,
    column: Column,
    tokens: &'a [T],
) -> Result<Scanned<'a, TableStep, T>, Fault>
    ensures is { MeetsBy (R.token roles.now) result
        (after_cell (R.codes roles.now) preamble column (map (R.token roles.now) tokens.now)) }
    ensures falls { IfOk result (λ step. length step.rest.now < length tokens.now) }
{
    match tokens {
        [token, rest @ ..] => match roles.role_of(token) {
            Role::Tab => next_cell(roles, next_column(preamble, column), rest),
            Role::CrWord => Ok(row_or_end(roles, after_spaces(roles, rest))),
            Role::CloseBrace => Ok(Scanned {
                value: TableStep::Closes,
                rest,
            }),
            _ => Err(unbalanced(tokens.len())),
        },
        [] => Err(unbalanced(0)),
    }
}

/// How many groups are open where the `{` of a table is.
pub fn brace_level(form: TableForm, level: usize) -> usize
    requires { level ≤ max_groups }
    ensures { result ≡ brace_level form level }
{
    match form {
        TableForm::Spaced(_) => level + 1,
        TableForm::Enclosed(_, _) => level + 2,
    }
}
