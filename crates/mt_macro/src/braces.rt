//! Braces and their partners, in lists of items that are read as tokens.
ghost use Rattle.std.specs.Prelude.{ℕ, take, drop, MatchOption, Some, None, ◌≡◌, ◌<◌, ◌≤◌, ◌+◌, ◌^◌, ◌==◌, ◌&&◌, length, map, if◌then◌else◌};
ghost use Rattle.std.specs.Prelude.{IfSome};
ghost use Rattle.mt_macro.specs.Braces.{is_open, is_close, level_after, group, first_unmatched};

use mt_token::Lexicon;

/// Whether an item is a `{`, which opens a group.
pub fn is_open<T, L: Lexicon<T>>(tables: &L, token: &T) -> bool
    ensures { result ≡ is_open (L.token tables.now token.now) }
{
    tables.code(token) == b'{'
}

/// Whether an item is a `}`, which closes a group.
pub fn is_close<T, L: Lexicon<T>>(tables: &L, token: &T) -> bool
    ensures { result ≡ is_close (L.token tables.now token.now) }
{
    tables.code(token) == b'}'
}

/// How many groups are open after an item, of those that are open before it.
pub fn level_after<T, L: Lexicon<T>>(tables: &L, level: usize, token: &T) -> usize
    requires { level + 1 < 2 ^ 64 }
    ensures is { result ≡ level_after level (L.token tables.now token.now) }
    ensures small { result ≤ level + 1 }
{
    if is_open(tables, token) {
        level + 1
    } else if is_close(tables, token) {
        level.saturating_sub(1)
    } else {
        level
    }
}

/// Whether an item is a `}` outside of all open groups.
pub fn closes_none<T, L: Lexicon<T>>(tables: &L, level: usize, token: &T) -> bool
    ensures { result ≡ (level == 0) && is_close (L.token tables.now token.now) }
{
    level == 0 && is_close(tables, token)
}

// The index of the outermost brace that is open, if the token there opens one.
fn outermost_at(level: usize, before: usize, index: usize) -> usize
    ensures { result ≡ if level == 0 then index else before }
{
    if level == 0 { index } else { before }
}

/// The index of the first brace without partner, counted from 0.
pub fn first_unmatched<T, L: Lexicon<T>>(tables: &L, list: &[T]) -> Option<usize>
    ensures is { result ≡ first_unmatched 0 (map (L.token tables.now) list.now) }
    ensures within { IfSome result (λ index. index < length list.now) }
{
    let mut level = 0;
    let mut outermost = 0;
    let mut index = 0;
    let mut rest = list;
    while let [token, after @ ..] = rest {
        if closes_none(tables, level, token) {
            return Some(index);
        }
        outermost = outermost_at(level, outermost, index);
        level = level_after(tables, level, token);
        index += 1;
        rest = after;
    }
    if level > 0 { Some(outermost) } else { None }
}

/// The index of the `}` that closes a group, of which the `{` is before the tokens.
pub fn closing_brace<T, L: Lexicon<T>>(tables: &L, tokens: &[T]) -> Option<usize>
    ensures within { (i : ℕ) → result ≡ Some i → i < length tokens.now }
    ensures is { MatchOption result (group 0 (map (L.token tables.now) tokens.now) ≡ None)
        (λ i. group 0 (map (L.token tables.now) tokens.now)
        ≡ Some (record {
          argument = take i (map (L.token tables.now) tokens.now);
          after = drop (i + 1) (map (L.token tables.now) tokens.now);
        })) }
{
    let mut level = 0;
    let mut index = 0;
    let mut rest = tokens;
    while let [token, after @ ..] = rest {
        if closes_none(tables, level, token) {
            return Some(index);
        }
        level = level_after(tables, level, token);
        index += 1;
        rest = after;
    }
    None
}
