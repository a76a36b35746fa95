//! Expansions in which each token has the span of its call.
ghost use Rattle.std.specs.Prelude.{◌≡◌, IfOk, Err};
ghost use Rattle.mt_macro.specs.PlacedExpansion.{at_call, placed_expansion, StopsAs};
ghost use Rattle.mt_macro.specs.Traced.{traced_tokens};
ghost use Rattle.mt_macro.specs.declared.expansion.ExpandError.TheVariants.{OutOfMemory};

use crate::expander::Expander;
use crate::expansion::ExpandError;
use crate::table::Macros;
use crate::traced::{Trace, TracedMacros, traced_list};
use mt_token::Token;
use std::alloc::{AllocError, Global};

/// The expansion of a list (The TeXbook, chapter 20) in which a token of a body has the span of the
/// token of the list that calls the macro, or calls the macro in the body of which the call is, and
/// so on.
///
/// # Errors
///
/// `AllocError` where memory ran out. The errors of [`crate::expand`] are in [`Trace::end`].
pub fn trace(alloc: Global, macros: &Macros, list: &[Token]) -> Result<Trace, AllocError>
    ensures is { IfOk result (λ t. StopsAs t.end (traced_tokens t.tokens.items)
        (placed_expansion at_call macros.now list.now)) }
    ensures memory { IfOk result (λ t. t.end ≡ Err OutOfMemory → ⊥) }
{
    let tables = TracedMacros::of(alloc, macros)?;
    let given = traced_list(alloc, list)?;
    let mut tokens = Vec::new(alloc);
    let end = Expander::new(alloc).expand(&tables, given.as_slice(), &mut tokens);
    match end {
        Err(ExpandError::OutOfMemory) => Err(AllocError),
        end => Ok(Trace { tokens, end }),
    }
}
