//! Braces, parameters and macros in lists of tokens, each of which is read as itself.
ghost use Rattle.std.specs.Prelude.{◌≡◌, ◌<◌, ◌≤◌, ℕ, ◌+◌, ◌^◌, ◌==◌, ◌&&◌, length, take, drop};
ghost use Rattle.std.specs.Prelude.{None, Some, MatchOption, IsTrue, ◌↔◌};
ghost use Rattle.mt_macro.specs.Braces.{is_open, is_close, level_after, group};
ghost use Rattle.mt_macro.specs.Definition.{body_fault};
ghost use Rattle.mt_macro.specs.Expansion.{expansion, Expanded};
ghost use Rattle.mt_macro.specs.Parameters.{first_bad_parameter};

use crate::definition::MacroError;
use crate::table::Macros;
use crate::{braces, definition, expansion, parameters};
use mt_token::{OwnTokens, Token};

/// Whether a token opens a group.
pub fn is_open(token: &Token) -> bool
    ensures { result ≡ is_open token.now }
{
    braces::is_open(&OwnTokens, token)
}

/// Whether a token closes a group.
pub fn is_close(token: &Token) -> bool
    ensures { result ≡ is_close token.now }
{
    braces::is_close(&OwnTokens, token)
}

/// How many groups are open after a token.
pub fn level_after(level: usize, token: &Token) -> usize
    requires { level + 1 < 2 ^ 64 }
    ensures is { result ≡ level_after level token.now }
    ensures small { result ≤ level + 1 }
{
    braces::level_after(&OwnTokens, level, token)
}

/// Whether a token closes a group that is not open.
pub fn closes_none(level: usize, token: &Token) -> bool
    ensures { result ≡ (level == 0) && is_close token.now }
{
    braces::closes_none(&OwnTokens, level, token)
}

/// The index of the `}` that closes a group, of which the `{` is before the tokens.
pub fn closing_brace(tokens: &[Token]) -> Option<usize>
    ensures within { (i : ℕ) → result ≡ Some i → i < length tokens.now }
    ensures is { MatchOption result (group 0 tokens.now ≡ None)
        (λ i. group 0 tokens.now
        ≡ Some (record { argument = take i tokens.now; after = drop (i + 1) tokens.now })) }
{
    braces::closing_brace(&OwnTokens, tokens)
}

/// The index of the first `#` in a body that no digit from 1 to `params` follows, counted from 0.
pub fn first_bad_parameter(params: u8, body: &[Token]) -> Option<usize>
    ensures { result ≡ first_bad_parameter params body.now }
{
    parameters::first_bad_parameter(&OwnTokens, params, body)
}

/// Why a body is no body of a macro with so many parameters; `None` where it is one.
pub(crate) fn body_fault(params: u8, body: &[Token]) -> Option<MacroError>
    ensures { result ≡ body_fault params body.now }
{
    definition::body_fault(&OwnTokens, params, body)
}

/// Whether a list expands to itself: it has at most 50,000 tokens, no brace without partner, and no
/// macro. Then it need not be expanded.
pub fn expands_to_itself(macros: &Macros, list: &[Token]) -> bool
    ensures { IsTrue result ↔ (expansion macros.now list.now ≡ Expanded list.now) }
{
    expansion::expands_to_itself(macros, list)
}
