//! Groups that open.
ghost use Rattle.std.specs.Prelude.{◌≡◌, ◌<◌, length, IfOk, map};
ghost use Rattle.mt_scan.specs.Parts.{opening};
ghost use Rattle.mt_scan.specs.Role.{is_open_brace};
ghost use Rattle.mt_scan.specs.declared.fault.ReadCause.TheVariants.{MissingField};
ghost use Rattle.mt_formula.specs.reading.Actions.{AllowsGroup, Opens};
ghost use Rattle.mt_scan.specs.Limits.{max_groups};

use mt_scan::{Fault, ReadCause, Role, Roles};

/// The greatest number of groups that are open at a time.
const MAX_GROUPS: usize = 150;

/// The fault of a token that begins no field, row or group where one must be.
pub fn missing_field(left: usize) -> Fault
    ensures { result ≡ record { cause = MissingField; left = left } }
{
    Fault {
        cause: ReadCause::MissingField,
        left,
    }
}

/// Whether one more group may be open, of which the first token is where so many tokens are left.
pub fn check_level(level: usize, left: usize) -> Result<(), Fault>
    ensures { AllowsGroup result level left }
{
    if level < MAX_GROUPS {
        Ok(())
    } else {
        Err(Fault {
            cause: ReadCause::TooDeep,
            left,
        })
    }
}

/// The tokens after a `{` that must be here and opens a group.
pub fn open_brace<'a, T, R: Roles<T>>(
    roles: &R,
    level: usize,
    tokens: &'a [T],
) -> Result<&'a [T], Fault>
    ensures is { Opens (R.token roles.now) result
        (opening (R.codes roles.now) is_open_brace level (map (R.token roles.now) tokens.now)) }
    ensures falls { IfOk result (λ inside. length inside.now < length tokens.now) }
    ensures level { IfOk result (λ inside. level < max_groups) }
{
    match tokens {
        [token, inside @ ..] => match roles.role_of(token) {
            Role::OpenBrace => {
                check_level(level, tokens.len())?;
                Ok(inside)
            }
            _ => Err(missing_field(tokens.len())),
        },
        [] => Err(missing_field(0)),
    }
}
