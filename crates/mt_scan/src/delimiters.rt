//! Delimiters.
ghost use Rattle.std.specs.Prelude.{◌≡◌, ◌+◌, ◌^◌, ◌<◌, ◌≤◌, length, IfOk, map};
ghost use Rattle.mt_scan.specs.Delimiters.{character_delimiter, code_of_kind};
ghost use Rattle.mt_scan.specs.Delimiters.{delimiter_by_code, delimiter_here, scan_delimiter};
ghost use Rattle.mt_scan.specs.Meets.{MeetsBy};

use crate::fault::{Fault, ReadCause};
use crate::numbers::number_to;
use crate::role::Role;
use crate::roles::Roles;
use crate::scanned::Scanned;
use crate::spaces::after_blanks;
use crate::symbols::delim_of;
use mt_rules::Delim;
use mt_token::{LentKind, Lexicon};

/// The greatest number that `\delimiter` and `\radical` take.
pub const MAX_DELIMITER: u32 = 134_217_727;

fn code_of_kind<T, R: Roles<T>>(tables: &R, token: &T) -> Option<u32>
    ensures { result ≡ code_of_kind (R.codes tables.now) (R.token tables.now token.now).kind }
{
    match tables.lent(token) {
        LentKind::Control(_) => None,
        LentKind::Char(c) => tables.delcode(c),
        LentKind::Space => None,
    }
}

fn delimiter_by_code<'a, T, R: Lexicon<T>>(
    tables: &R,
    code: Option<u32>,
    rest: &'a [T],
) -> Result<Scanned<'a, Delim, T>, Fault>
    requires { length rest.now + 1 < 2 ^ 64 }
    ensures is { MeetsBy (R.token tables.now) result (delimiter_by_code code (map (R.token tables.now) rest.now)) }
    ensures falls { IfOk result (λ part. length part.rest.now ≤ length rest.now) }
{
    match code {
        Some(code) => Ok(Scanned {
            value: delim_of(code),
            rest,
        }),
        None => Err(Fault {
            cause: ReadCause::BadDelimiter,
            left: rest.len() + 1,
        }),
    }
}

/// The delimiter of a character, which is the item before these. The fault is at that item where the character has no
/// delimiter code.
///
/// The character is below 128, and the items after it are fewer than 2^64 - 1, so that they can be counted with the
/// item of the character. Every slice of items that take memory is so short.
pub fn character_delimiter<'a, T, R: Roles<T>>(
    tables: &R,
    c: u8,
    after: &'a [T],
) -> Result<Scanned<'a, Delim, T>, Fault>
    requires character { c < 128 }
    requires after { length after.now + 1 < 2 ^ 64 }
    ensures is { MeetsBy (R.token tables.now) result (character_delimiter (R.codes tables.now) c (map (R.token tables.now) after.now)) }
    ensures falls { IfOk result (λ part. length part.rest.now ≤ length after.now) }
{
    delimiter_by_code(tables, tables.delcode(c), after)
}

fn delimiter_here<'a, T, R: Roles<T>>(
    tables: &R,
    tokens: &'a [T],
) -> Result<Scanned<'a, Delim, T>, Fault>
    ensures is { MeetsBy (R.token tables.now) result (delimiter_here (R.codes tables.now) (map (R.token tables.now) tokens.now)) }
    ensures falls { IfOk result (λ part. length part.rest.now ≤ length tokens.now) }
{
    match tokens {
        [token, after @ ..] => match tables.role_of(token) {
            Role::DelimiterWord => {
                let code = number_to(tables, MAX_DELIMITER, after)?;
                Ok(Scanned {
                    value: delim_of(code.value),
                    rest: code.rest,
                })
            }
            _ => delimiter_by_code(tables, code_of_kind(tables, token), after),
        },
        [] => Err(Fault {
            cause: ReadCause::BadDelimiter,
            left: 0,
        }),
    }
}

/// Spaces and `\relax`, and then a character with a delimiter code, or `\delimiter` and a number.
pub fn scan_delimiter<'a, T, R: Roles<T>>(
    tables: &R,
    tokens: &'a [T],
) -> Result<Scanned<'a, Delim, T>, Fault>
    ensures is { MeetsBy (R.token tables.now) result (scan_delimiter (R.codes tables.now) (map (R.token tables.now) tokens.now)) }
    ensures falls { IfOk result (λ part. length part.rest.now ≤ length tokens.now) }
{
    delimiter_here(tables, after_blanks(tables, tokens))
}
