//! Primes, and the argument after `^` (The TeXbook, chapter 18).
ghost use Rattle.std.specs.Prelude.{◌≡◌, ◌≤◌, ◌<◌, ◌+◌, ◌-◌, ℕ, length, take, drop, IfOk, IfSome, map};
ghost use Rattle.mt_scan.specs.Meets.{IsAfterBy};
ghost use Rattle.mt_plain.specs.CodeTables.{CodeTables};
ghost use Rattle.mt_scaled.specs.declared.unit.Units.{Units};
ghost use Rattle.mt_macro.specs.Braces.{group as braces};
ghost use Rattle.mt_formula.specs.Lists.{ItemRunReader};
ghost use Rattle.mt_formula.specs.Primes.{braced_argument, primes};
ghost use Rattle.mt_formula.specs.reading.Arguments.{TakesArgument, after_superscript, argument_in, argument_left};

use crate::actions::groups::{check_level, missing_field};
use crate::reading::context::Group;
use mt_macro::items::closing_brace;
use mt_scan::items::after_spaces;
use mt_scan::{Fault, Role, Roles, Scanned, Side};

/// The argument of a superscript that primes begin, which is read as a list to the end of its tokens.
#[derive(Drop)]
pub struct ScriptArgument<'a, T> {
    /// The groups round its items, and the family.
    pub group: Group,
    /// Its tokens.
    pub inside: &'a [T],
    /// What is behind its tokens.
    pub end: ArgumentEnd<'a, T>,
}

/// What is behind the tokens of an argument.
#[derive(Drop)]
pub enum ArgumentEnd<'a, T> {
    /// The tokens after the argument, and how many are behind its own: its `}` counts too.
    Closed {
        /// The tokens after the argument.
        after: &'a [T],
        /// How many tokens are behind its own.
        behind: usize,
    },
    /// Nothing, since its `}` is missing.
    Missing,
}

/// How many primes are in front, and the tokens after them.
pub fn primes<'a, T, R: Roles<T>>(roles: &R, tokens: &'a [T]) -> Scanned<'a, usize, T>
    ensures count { result.value ≡ (primes (R.codes roles.now) 0 (map (R.token roles.now) tokens.now)).count }
    ensures rest { map (R.token roles.now) result.rest.now
        ≡ (primes (R.codes roles.now) 0 (map (R.token roles.now) tokens.now)).rest }
    ensures falls { result.value + length result.rest.now ≤ length tokens.now }
{
    let mut count = 0;
    let mut rest = tokens;
    while let [token, after @ ..] = rest {
        match roles.role_of(token) {
            Role::Prime => {
                count += 1;
                rest = after;
            }
            _ => return Scanned { value: count, rest },
        }
    }
    Scanned { value: count, rest }
}

/// The tokens after `^` and Spaces, if a `^` is in front.
pub fn after_superscript<'a, T, R: Roles<T>>(roles: &R, tokens: &'a [T]) -> Option<&'a [T]>
    ensures is { IsAfterBy (R.token roles.now) result
        (after_superscript (R.codes roles.now) (map (R.token roles.now) tokens.now)) }
    ensures falls { IfSome result (λ after. length after.now < length tokens.now) }
{
    match tokens {
        [token, after @ ..] => match roles.role_of(token) {
            Role::Script(Side::Up) => Some(after_spaces(roles, after)),
            _ => None,
        },
        [] => None,
    }
}

fn first_tokens<'a, T, R: Roles<T>>(roles: &R, tokens: &'a [T], count: usize) -> &'a [T]
    requires { count ≤ length tokens.now }
    ensures is { map (R.token roles.now) result.now ≡ take count (map (R.token roles.now) tokens.now) }
    ensures length { length result.now ≡ count }
{
    &tokens[..count]
}

fn tokens_from<'a, T, R: Roles<T>>(roles: &R, tokens: &'a [T], start: usize) -> &'a [T]
    requires { start ≤ length tokens.now }
    ensures is { map (R.token roles.now) result.now ≡ drop start (map (R.token roles.now) tokens.now) }
    ensures length { length result.now ≡ length tokens.now - start }
{
    &tokens[start..]
}

// The argument of which the `{` is before the tokens.
fn braced_argument<'a, T, R: Roles<T>>(
    roles: &R,
    group: Group,
    tokens: &'a [T],
) -> ScriptArgument<'a, T>
    ensures is { (tables : CodeTables) (units : Units) (again : ItemRunReader) (count : ℕ)
        → braced_argument tables units again count group.level group.family (map (R.token roles.now) tokens.now)
        (braces 0 (map (R.token roles.now) tokens.now))
        ≡ argument_in (R.token roles.now) tables units again count result }
    ensures falls { length result.inside.now + argument_left result ≤ length tokens.now }
{
    match closing_brace(roles, tokens) {
        Some(index) => {
            let after = tokens_from(roles, tokens, index + 1);
            ScriptArgument {
                group,
                inside: first_tokens(roles, tokens, index),
                end: ArgumentEnd::Closed {
                    after,
                    behind: after.len() + 1,
                },
            }
        }
        None => ScriptArgument {
            group,
            inside: tokens,
            end: ArgumentEnd::Missing,
        },
    }
}

/// The argument in front, taken as for macros: one token, or what is between braces. The fault is `MissingField` where
/// none is there, `TooDeep` where its group is one too many.
pub fn argument_here<'a, T, R: Roles<T>>(
    roles: &R,
    group: Group,
    tokens: &'a [T],
) -> Result<ScriptArgument<'a, T>, Fault>
    ensures is { TakesArgument (R.token roles.now) result (R.codes roles.now) group.level group.family
        (map (R.token roles.now) tokens.now) }
    ensures falls { IfOk result (λ argument. length argument.inside.now + argument_left argument ≤ length tokens.now) }
{
    match tokens {
        [token, after @ ..] => match roles.role_of(token) {
            Role::CloseBrace => Err(missing_field(tokens.len())),
            Role::OpenBrace => {
                check_level(group.level, tokens.len())?;
                Ok(braced_argument(roles, group.inside(), after))
            }
            _ => Ok(ScriptArgument {
                group,
                inside: first_tokens(roles, tokens, 1),
                end: ArgumentEnd::Closed {
                    after,
                    behind: after.len(),
                },
            }),
        },
        [] => Err(missing_field(0)),
    }
}
