//! Spaces between tokens.
ghost use Rattle.std.specs.Prelude.{◌≡◌, ◌≤◌, length, map};
ghost use Rattle.mt_scan.specs.Parts.{after_spaces, after_one_space, after_blanks};

use crate::role::Role;
use crate::roles::Roles;
use mt_token::Lexicon;

/// The tokens after Spaces.
pub fn after_spaces<'a, T, R: Lexicon<T>>(tables: &R, tokens: &'a [T]) -> &'a [T]
    ensures is { map (R.token tables.now) result.now ≡ after_spaces (map (R.token tables.now) tokens.now) }
    ensures falls { length result.now ≤ length tokens.now }
{
    let mut rest = tokens;
    while let [token, after @ ..] = rest {
        if !tables.is_space(token) {
            return rest;
        }
        rest = after;
    }
    rest
}

/// The tokens after one Space, where there is one.
pub fn after_one_space<'a, T, R: Lexicon<T>>(tables: &R, tokens: &'a [T]) -> &'a [T]
    ensures is { map (R.token tables.now) result.now ≡ after_one_space (map (R.token tables.now) tokens.now) }
    ensures falls { length result.now ≤ length tokens.now }
{
    match tokens {
        [token, after @ ..] if tables.is_space(token) => after,
        _ => tokens,
    }
}

/// The tokens after Spaces and `\relax`.
pub fn after_blanks<'a, T, R: Roles<T>>(tables: &R, tokens: &'a [T]) -> &'a [T]
    ensures is { map (R.token tables.now) result.now ≡ after_blanks (R.codes tables.now) (map (R.token tables.now) tokens.now) }
    ensures falls { length result.now ≤ length tokens.now }
{
    let mut rest = tokens;
    while let [token, after @ ..] = rest {
        match tables.role_of(token) {
            Role::Blank => rest = after,
            _ => return rest,
        }
    }
    rest
}
