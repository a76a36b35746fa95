//! The brace or the dollar that nothing matches, of a formula without end.
ghost use Rattle.std.specs.Prelude.{◌≡◌, None};
ghost use Rattle.std.specs.Option.{option_copied};
ghost use Rattle.mt_locate.specs.Unmatched.{unmatched_brace, unmatched_token};

use mt_macro::{is_close, is_open};
use mt_token::Token;

// The first `}` of these tokens that closes no group, or else the first `{` of the outermost group that is not closed.
fn unmatched_brace(tokens: &[Token]) -> Option<&Token>
    ensures { option_copied result ≡ unmatched_brace 0 None tokens.now }
{
    let mut level: usize = 0;
    let mut outermost = None;
    let mut rest = tokens;
    while let [token, after @ ..] = rest {
        if is_open(token) {
            if level == 0 {
                outermost = Some(token);
            }
            level += 1;
        } else if is_close(token) {
            if level == 0 {
                return Some(token);
            }
            level -= 1;
        }
        rest = after;
    }
    if level > 0 { outermost } else { None }
}

/// The token that nothing matches, of a formula without end whose first `$` has this index: a brace, or else the
/// `$`.
pub fn unmatched_token(tokens: &[Token], index: usize) -> Option<&Token>
    ensures { option_copied result ≡ unmatched_token tokens.now index }
{
    let dollar = tokens.get(index)?;
    match unmatched_brace(&tokens[index..]) {
        Some(brace) => Some(brace),
        None => Some(dollar),
    }
}
