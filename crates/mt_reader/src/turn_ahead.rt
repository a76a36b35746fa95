//! What becomes of a token outside of formulas where more tokens may be behind those that are read.
ghost use Rattle.std.specs.Prelude.{◌≡◌, ◌≤◌, ◌<◌, ◌-◌, ◌^◌, ◌++◌, IsTrue, List, false, length, map};
ghost use Rattle.mt_scaled.specs.Number.{Within};
ghost use Rattle.mt_token.specs.declared.token.Token.{Token as TokenFields};
ghost use Rattle.mt_reader.specs.AheadTurns.{AreEnough, MeetsAhead, SameWhereNone, SpendsSome};
ghost use Rattle.mt_reader.specs.Documents.{turn_by};
ghost use Rattle.mt_reader.specs.DocumentTurns.{ends_page, state_of};
ghost use Rattle.mt_reader.specs.Limits.{max_total_tokens};
ghost use Rattle.mt_reader.specs.Views.{state_view};

use crate::definitions::macro_definition;
use crate::document_error::DocError;
use crate::document_state::DocumentState;
use crate::document_tables::DocumentTables;
use crate::document_turn::{AfterTurn, document_turn, formula_ahead};
use crate::expanded_items::ExpandedItems;
use crate::outside_role::OutsideRole;
use mt_scaled::Units;
use mt_token::Lexicon;

// Whether these tokens are enough for a turn that begins no formula.
fn are_enough<T, L: Lexicon<T>>(tables: &L, role: OutsideRole, tokens: &[T]) -> bool
    ensures { IsTrue result → AreEnough role (map (L.token tables.now) tokens.now) }
{
    match role {
        OutsideRole::Defines => macro_definition(tables, tokens).is_ok(),
        OutsideRole::SetsMathCode | OutsideRole::SetsDelimiterCode => false,
        OutsideRole::BeginsFormula => false,
        _ => true,
    }
}

// What becomes of a token outside of formulas that begins none, and of those after it.
fn other_turn_ahead<'a, T: Drop, K: DocumentTables<T>>(
    units: Units,
    state: &mut DocumentState<K>,
    expanded: &mut ExpandedItems<T>,
    whole: usize,
    role: OutsideRole,
    tokens: &'a [T],
) -> Result<Option<AfterTurn<'a, T>>, DocError>
    requires em { Within (2 ^ 31) units.em }
    requires ex { Within (2 ^ 31) units.ex }
    requires count { state.old.count < 2 ^ 32 - 1 }
    requires total { state.old.total ≤ max_total_tokens }
    requires whole { whole < 2 ^ 32 }
    requires tokens { length tokens.now < whole }
    requires page { ends_page role ≡ false }
    ensures is { (more : List TokenFields) → MeetsAhead (K.token state.new.tables) result
        (state_view K.codes K.macros state.new) whole more
        (turn_by units (state_of (state_view K.codes K.macros state.old))
        (map (K.token state.old.tables) tokens.now ++ more) role) }
    ensures same { SameWhereNone result state.old state.new }
    ensures spends { SpendsSome (K.token state.new.tables) result (state_view K.codes K.macros state.old)
        (state_view K.codes K.macros state.new) (map (K.token state.old.tables) tokens.now) }
    ensures names { K.names state.new.tables ≡ K.names state.old.tables }
{
    if !are_enough(state.tables(), role, tokens) {
        return Ok(None);
    }
    match document_turn(units, state, expanded, whole, role, tokens) {
        Ok(after) => Ok(Some(after)),
        Err(error) => Err(error),
    }
}

/// What becomes of a token outside of formulas, by what it is, and of those after it. So many tokens of the source are
/// read with these; `None` where more of them may be needed. The token ends no page.
pub fn turn_ahead<'a, T: Drop, K: DocumentTables<T>>(
    units: Units,
    state: &mut DocumentState<K>,
    expanded: &mut ExpandedItems<T>,
    whole: usize,
    role: OutsideRole,
    tokens: &'a [T],
) -> Result<Option<AfterTurn<'a, T>>, DocError>
    requires em { Within (2 ^ 31) units.em }
    requires ex { Within (2 ^ 31) units.ex }
    requires count { state.old.count < 2 ^ 32 - 1 }
    requires total { state.old.total ≤ max_total_tokens }
    requires whole { whole < 2 ^ 32 }
    requires tokens { length tokens.now < whole }
    requires page { ends_page role ≡ false }
    ensures is { (more : List TokenFields) → MeetsAhead (K.token state.new.tables) result
        (state_view K.codes K.macros state.new) whole more
        (turn_by units (state_of (state_view K.codes K.macros state.old))
        (map (K.token state.old.tables) tokens.now ++ more) role) }
    ensures same { SameWhereNone result state.old state.new }
    ensures spends { SpendsSome (K.token state.new.tables) result (state_view K.codes K.macros state.old)
        (state_view K.codes K.macros state.new) (map (K.token state.old.tables) tokens.now) }
    ensures names { K.names state.new.tables ≡ K.names state.old.tables }
{
    match role {
        OutsideRole::BeginsFormula => formula_ahead(units, state, expanded, tokens),
        _ => other_turn_ahead(units, state, expanded, whole, role, tokens),
    }
}
