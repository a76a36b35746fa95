//! Items between braces, and those of a formula, between its dollars (The TeXbook, chapters 20 and 24).
ghost use Rattle.std.specs.Prelude.{◌≡◌, ◌≤◌, ◌<◌, ◌+◌, ◌*◌, ◌==◌, ◌&&◌, length, map, IfSome, IsTrue};
ghost use Rattle.mt_token.specs.declared.token.Token.{Token as TokenFields};
ghost use Rattle.mt_macro.specs.Braces.{group};
ghost use Rattle.mt_reader.specs.Dollars.{is_math_shift_token, begins_with_dollar, ends_formula};
ghost use Rattle.mt_reader.specs.Dollars.{after_end, up_to_end, begins_display, between_dollars};
ghost use Rattle.mt_reader.specs.Lent.{TakesAs};
ghost use Rattle.mt_reader.specs.Weights.{dollars};

use mt_macro::items::{closes_none, closing_brace, level_after};
use mt_token::Lexicon;

/// Items that were taken, and those after them.
#[derive(Clone, Copy)]
pub struct Taken<'a, T> {
    /// The items that were taken.
    pub argument: &'a [T],
    /// The items after them and after what ends them.
    pub after: &'a [T],
}

/// What is in a group after its `{`, and what follows the group; `None` where it does not end.
pub fn between_braces<'a, T, L: Lexicon<T>>(tables: &L, tokens: &'a [T]) -> Option<Taken<'a, T>>
    ensures is { TakesAs (L.token tables.now) result (group 0 (map (L.token tables.now) tokens.now)) }
    ensures falls { IfSome result (λ t. length t.argument.now + length t.after.now < length tokens.now) }
{
    match closing_brace(tables, tokens) {
        Some(index) => Some(Taken {
            argument: &tokens[..index],
            after: &tokens[index + 1..],
        }),
        None => None,
    }
}

fn is_dollar<T, L: Lexicon<T>>(tables: &L, token: &T) -> bool
    ensures { result ≡ is_math_shift_token (L.token tables.now token.now) }
{
    tables.code(token) == b'$'
}

fn begins_with_dollar<T, L: Lexicon<T>>(tables: &L, tokens: &[T]) -> bool
    ensures { result ≡ begins_with_dollar (map (L.token tables.now) tokens.now) }
{
    match tokens {
        [token, ..] => is_dollar(tables, token),
        [] => false,
    }
}

// A display ends at two adjacent dollars, another formula at one.
fn ends_formula<T, L: Lexicon<T>>(tables: &L, display: bool, token: &T, after: &[T]) -> bool
    ensures { result ≡ ends_formula display (L.token tables.now token.now) (map (L.token tables.now) after.now) }
{
    is_dollar(tables, token) && (!display || begins_with_dollar(tables, after))
}

// Whether a formula ends at a token, where so many groups are open.
fn ends_here<T, L: Lexicon<T>>(
    tables: &L,
    level: usize,
    display: bool,
    token: &T,
    after: &[T],
) -> bool
    ensures { result ≡ (level == 0)
        && ends_formula display (L.token tables.now token.now) (map (L.token tables.now) after.now) }
{
    level == 0 && ends_formula(tables, display, token, after)
}

// The tokens after the last dollar of a formula, by those after its first one at the end.
fn after_end<'a, T>(display: bool, after: &'a [T]) -> &'a [T]
    requires { IsTrue display → 0 < length after.now }
    ensures is { (token : T → TokenFields) → map token result.now ≡ after_end display (map token after.now) }
    ensures falls { length result.now + dollars display ≤ length after.now + 1 }
{
    match after {
        [_, rest @ ..] if display => rest,
        _ => after,
    }
}

// A formula up to its end outside of all groups; `None` without an end, or where a `}` closes no group.
fn up_to_end<'a, T, L: Lexicon<T>>(
    tables: &L,
    display: bool,
    tokens: &'a [T],
) -> Option<Taken<'a, T>>
    ensures is { TakesAs (L.token tables.now) result (up_to_end display 0 (map (L.token tables.now) tokens.now)) }
    ensures falls { IfSome result
        (λ t. length t.argument.now + length t.after.now + dollars display ≤ length tokens.now) }
{
    let mut level = 0;
    let mut at = 0;
    let mut rest = tokens;
    while let [token, after @ ..] = rest {
        if closes_none(tables, level, token) {
            return None;
        }
        if ends_here(tables, level, display, token, after) {
            return Some(Taken {
                argument: &tokens[..at],
                after: after_end(display, after),
            });
        }
        level = level_after(tables, level, token);
        at += 1;
        rest = after;
    }
    None
}

/// Whether two adjacent dollars open a display, by the tokens after the first one.
pub fn begins_display<T, L: Lexicon<T>>(tables: &L, tokens: &[T]) -> bool
    ensures { result ≡ begins_display (map (L.token tables.now) tokens.now) }
{
    begins_with_dollar(tables, tokens)
}

/// A formula after its first dollar, and the tokens after its last one; `None` where it has no end, or where a `}`
/// closes no group.
pub fn between_dollars<'a, T, L: Lexicon<T>>(tables: &L, tokens: &'a [T]) -> Option<Taken<'a, T>>
    ensures is { TakesAs (L.token tables.now) result (between_dollars (map (L.token tables.now) tokens.now)) }
    ensures falls { IfSome result (λ t. length t.argument.now + length t.after.now
        + 2 * dollars (begins_display (map (L.token tables.now) tokens.now)) ≤ length tokens.now + 1) }
{
    match tokens {
        [_, rest @ ..] if begins_display(tables, tokens) => up_to_end(tables, true, rest),
        _ => up_to_end(tables, false, tokens),
    }
}
