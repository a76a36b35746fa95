//! Parameters in a body.
ghost use Rattle.std.specs.Prelude.{◌≡◌, ◌&&◌, not, map};
ghost use Rattle.mt_macro.specs.Parameters.{is_hash, begins_with_parameter, first_bad_parameter};

use mt_token::Lexicon;

/// Whether a token is `#`.
pub fn is_hash<T, L: Lexicon<T>>(tables: &L, token: &T) -> bool
    ensures { result ≡ is_hash (L.token tables.now token.now) }
{
    tables.code(token) == b'#'
}

// Whether a digit from 1 to the number of parameters is in front.
fn begins_with_parameter<T, L: Lexicon<T>>(tables: &L, params: u8, rest: &[T]) -> bool
    ensures { result ≡ begins_with_parameter params (map (L.token tables.now) rest.now) }
{
    match rest {
        [digit, ..] => {
            let c = tables.code(digit);
            c >= b'1' && c <= b'9' && u16::from(c) <= 48 + u16::from(params)
        }
        [] => false,
    }
}

// Whether a token is a `#` that no parameter's digit follows.
fn is_bad<T, L: Lexicon<T>>(tables: &L, params: u8, token: &T, after: &[T]) -> bool
    ensures { result ≡ is_hash (L.token tables.now token.now) && not (begins_with_parameter params (map (L.token tables.now) after.now)) }
{
    is_hash(tables, token) && !begins_with_parameter(tables, params, after)
}

/// The index of the first `#` in a body that no digit from 1 to `params` follows, counted from 0.
pub fn first_bad_parameter<T, L: Lexicon<T>>(tables: &L, params: u8, body: &[T]) -> Option<usize>
    ensures { result ≡ first_bad_parameter params (map (L.token tables.now) body.now) }
{
    let mut index = 0;
    let mut rest = body;
    while let [token, after @ ..] = rest {
        if is_bad(tables, params, token, after) {
            return Some(index);
        }
        index += 1;
        rest = after;
    }
    None
}
