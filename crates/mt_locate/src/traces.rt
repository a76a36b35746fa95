//! The token of a formula at which a fault is, after its macros are expanded.
ghost use Rattle.std.specs.Prelude.{◌≡◌, ℕ, IfOk};
ghost use Rattle.mt_reader.specs.Stops.{formula_from};
ghost use Rattle.mt_locate.specs.Faults.{expanded_token, traced_token};

use crate::places::FaultyFormula;
use mt_macro::{ExpandError, Trace, Traced, trace};
use mt_reader::{Stop, StopFormula};
use mt_scaled::Items;
use mt_token::Token;
use std::alloc::{AllocError, Global};

/// Which tokens of an expansion are wanted.
#[derive(Clone, Copy, Debug, PartialEq, Eq)]
pub enum Wanted {
    /// All, without macros.
    Expanded,
    /// Those up to the macro that lacks an argument.
    ToMacro,
}

/// A formula at which reading stops, with its tokens as they are traced.
#[derive(Drop)]
pub struct TracedFormula<'a> {
    /// The formula in the source.
    pub formula: StopFormula<'a>,
    /// The tokens that are wanted.
    pub tokens: Items<Traced>,
}

/// The formula at which reading stops, traced; `None` where it has no end, or not the tokens that are wanted.
///
/// # Errors
///
/// `AllocError` where memory ran out.
pub fn traced_formula<'a>(
    alloc: Global,
    stop: &Stop<'a>,
    wanted: Wanted,
) -> Result<Option<TracedFormula<'a>>, AllocError>
    ensures { IfOk result (λ found. (index : ℕ) → traced_token found index
        ≡ expanded_token stop.now.tables.macros wanted (formula_from stop.now.from.now) index) }
{
    let Some(formula) = stop.formula() else {
        return Ok(None);
    };
    let Trace { tokens, end } = trace(alloc, &stop.tables.macros, formula.tokens)?;
    let tokens = Items::from_vec(tokens);
    let traced = TracedFormula { formula, tokens };
    match (end, wanted) {
        (Ok(()), Wanted::Expanded) | (Err(ExpandError::MissingArgument(_)), Wanted::ToMacro) => {
            Ok(Some(traced))
        }
        _ => Ok(None),
    }
}
