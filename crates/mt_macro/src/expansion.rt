//! Expansion: macros are replaced, one step after another, until none is left.
ghost use Rattle.std.specs.Prelude.{◌≡◌, ◌≤◌, ◌↔◌, IsTrue, length, map, Err, None};
ghost use Rattle.mt_macro.specs.Limits.{max_tokens};
ghost use Rattle.mt_macro.specs.Braces.{first_unmatched};
ghost use Rattle.mt_macro.specs.Expansion.{expansion, Expanded, Expands};
ghost use Rattle.mt_macro.specs.declared.expansion.ExpandError.TheVariants.{OutOfMemory};

use crate::bodies::{Bodies, has_macro};
use crate::braces::first_unmatched;
use crate::expander::{Expander, MAX_TOKENS};
use crate::table::Macros;
use mt_token::{Token, TokenList};
use std::alloc::{AllocError, Global};
use thiserror::Error;

/// Why a list was not expanded.
#[derive(Clone, Copy, Debug, PartialEq, Eq, Error)]
pub enum ExpandError {
    /// After this many steps the list has more than 50,000 tokens, or 20,000 steps have left a
    /// macro. The length is that of the list then.
    #[error("{length} tokens after {steps} steps")]
    Budget {
        /// The number of steps.
        steps: u32,
        /// The number of tokens after them.
        length: u64,
    },
    /// A macro lacks an argument. The index is the macro's in the list of that step, counted
    /// from 0.
    #[error("the macro at {0} lacks an argument")]
    MissingArgument(u32),
    /// The first brace of the list given that has no partner, by its index, counted from 0.
    #[error("the brace at {0} has no partner")]
    Unbalanced(u32),
    /// The list given has more than 50,000 tokens.
    #[error("the list is too long")]
    TooLong,
    /// Memory ran out.
    #[error("out of memory")]
    OutOfMemory,
}

impl From<AllocError> for ExpandError {
    ghost from_gives = { λ _ e. e ≡ OutOfMemory };

    fn from(_: AllocError) -> Self {
        ExpandError::OutOfMemory
    }
}

impl ExpandError {
    ghost use Rattle.mt_macro.specs.Errors.{expand_error_number, expand_error_place};

    /// The number of the error, from 1 in the order of the variants.
    pub fn number(self) -> u8
        ensures { result ≡ expand_error_number self }
    {
        match self {
            ExpandError::Budget { .. } => 1,
            ExpandError::MissingArgument(_) => 2,
            ExpandError::Unbalanced(_) => 3,
            ExpandError::TooLong => 4,
            ExpandError::OutOfMemory => 5,
        }
    }

    /// The index of the token at fault, where there is one.
    pub fn place(self) -> Option<u32>
        ensures { result ≡ expand_error_place self }
    {
        match self {
            ExpandError::MissingArgument(index) | ExpandError::Unbalanced(index) => Some(index),
            ExpandError::Budget { .. } | ExpandError::TooLong | ExpandError::OutOfMemory => None,
        }
    }
}

/// The list in which no macro is left. Each step replaces the leftmost macro, with its arguments,
/// by its body (The TeXbook, chapter 20).
///
/// # Errors
///
/// `TooLong`, then `Unbalanced`, of the list given. Then, by the steps, `Budget` and
/// `MissingArgument`: at a list of more than 50,000 tokens, and where a macro is left after 20,000
/// steps, with or without its arguments, it is `Budget`. `OutOfMemory` where memory ran out, and
/// neither `TooLong` nor `Unbalanced` applies.
pub fn expand(alloc: Global, macros: &Macros, list: &[Token]) -> Result<TokenList, ExpandError>
    ensures is { Expands result (expansion macros.now list.now) }
    ensures memory { result ≡ Err OutOfMemory
        → (length list.now ≤ max_tokens) × (first_unmatched 0 list.now ≡ None) }
{
    let mut expanded = Vec::new(alloc);
    Expander::new(alloc).expand(macros, list, &mut expanded)?;
    Ok(TokenList::from_vec(expanded))
}

/// Whether a list expands to itself: it has at most 50,000 tokens, no brace without partner, and no
/// macro. Then it need not be expanded.
pub fn expands_to_itself<T, B: Bodies<T>>(tables: &B, list: &[T]) -> bool
    ensures { IsTrue result ↔ (expansion (B.macros tables.now) (map (B.token tables.now) list.now)
        ≡ Expanded (map (B.token tables.now) list.now)) }
{
    first_unmatched(tables, list).is_none() && matched_expands_to_itself(tables, list)
}

/// Whether a list in which each brace has its partner expands to itself: it has at most 50,000 tokens, and no macro.
pub fn matched_expands_to_itself<T, B: Bodies<T>>(tables: &B, list: &[T]) -> bool
    requires { first_unmatched 0 (map (B.token tables.now) list.now) ≡ None }
    ensures { IsTrue result ↔ (expansion (B.macros tables.now) (map (B.token tables.now) list.now)
        ≡ Expanded (map (B.token tables.now) list.now)) }
{
    if list.len() > MAX_TOKENS {
        return false;
    }
    !has_macro(tables, list)
}
