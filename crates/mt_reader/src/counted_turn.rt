//! How many of the items that are ahead a turn leaves.
ghost use Rattle.std.specs.Prelude.{◌≡◌, ◌≤◌, ◌<◌, ◌-◌, ◌^◌, ◌++◌, List, false, length, map};
ghost use Rattle.mt_scaled.specs.Number.{Within};
ghost use Rattle.mt_token.specs.declared.token.Token.{Token as TokenFields};
ghost use Rattle.mt_reader.specs.CountedTurns.{IsCountedTurn, IsLastTurn, SameWhereWanting};
ghost use Rattle.mt_reader.specs.CountedTurns.{SpendsCounted, SpendsLast, counted};
ghost use Rattle.mt_reader.specs.Documents.{turn_by};
ghost use Rattle.mt_reader.specs.DocumentTurns.{ends_page, state_of};
ghost use Rattle.mt_reader.specs.Limits.{max_total_tokens};
ghost use Rattle.mt_reader.specs.Views.{state_view};

use crate::document_error::DocError;
use crate::document_state::DocumentState;
use crate::document_tables::DocumentTables;
use crate::document_turn::document_turn;
use crate::expanded_items::ExpandedItems;
use crate::outside_role::OutsideRole;
use crate::turn_ahead::turn_ahead;
use mt_scaled::Units;

/// What a turn leaves of the items that are ahead.
#[derive(Clone, Copy)]
pub enum CountedTurn {
    /// So many of them.
    Left(usize),
    /// None, where the document ends.
    Ended,
    /// They may not be enough for it, and nothing is changed.
    NotEnough,
}

fn counted(left: Option<usize>) -> CountedTurn
    ensures { result ≡ counted left }
{
    match left {
        Some(left) => CountedTurn::Left(left),
        None => CountedTurn::Ended,
    }
}

/// The turn of an item that ends no page, by what it is and by the items after it that are ahead. So many items of the
/// source were read with these.
pub fn counted_turn_ahead<T: Drop, K: DocumentTables<T>>(
    units: Units,
    state: &mut DocumentState<K>,
    expanded: &mut ExpandedItems<T>,
    whole: usize,
    role: OutsideRole,
    after: &[T],
) -> Result<CountedTurn, DocError>
    requires em { Within (2 ^ 31) units.em }
    requires ex { Within (2 ^ 31) units.ex }
    requires count { state.old.count < 2 ^ 32 - 1 }
    requires total { state.old.total ≤ max_total_tokens }
    requires whole { whole < 2 ^ 32 }
    requires tokens { length after.now < whole }
    requires page { ends_page role ≡ false }
    ensures is { (more : List TokenFields)
        → IsCountedTurn result (state_view K.codes K.macros state.new) whole
        (map (K.token state.old.tables) after.now) more
        (turn_by units (state_of (state_view K.codes K.macros state.old))
        (map (K.token state.old.tables) after.now ++ more) role) }
    ensures spends { SpendsCounted result (state_view K.codes K.macros state.old)
        (state_view K.codes K.macros state.new) (map (K.token state.old.tables) after.now) }
    ensures same { SameWhereWanting result state.old state.new }
    ensures names { K.names state.new.tables ≡ K.names state.old.tables }
{
    match turn_ahead(units, state, expanded, whole, role, after) {
        Ok(Some(turn)) => Ok(counted(turn.left())),
        Ok(None) => Ok(CountedTurn::NotEnough),
        Err(error) => Err(error),
    }
}

/// The turn of an item that ends no page, by what it is and by the items after it, which are the last ones of the source:
/// how many of them it leaves; `None` where the document ends. So many items of the source were read with these.
pub fn last_counted_turn<T: Drop, K: DocumentTables<T>>(
    units: Units,
    state: &mut DocumentState<K>,
    expanded: &mut ExpandedItems<T>,
    whole: usize,
    role: OutsideRole,
    after: &[T],
) -> Result<Option<usize>, DocError>
    requires em { Within (2 ^ 31) units.em }
    requires ex { Within (2 ^ 31) units.ex }
    requires count { state.old.count < 2 ^ 32 - 1 }
    requires total { state.old.total ≤ max_total_tokens }
    requires whole { whole < 2 ^ 32 }
    requires tokens { length after.now < whole }
    requires page { ends_page role ≡ false }
    ensures is { IsLastTurn result (state_view K.codes K.macros state.new) whole
        (map (K.token state.old.tables) after.now)
        (turn_by units (state_of (state_view K.codes K.macros state.old))
        (map (K.token state.old.tables) after.now) role) }
    ensures spends { SpendsLast result (state_view K.codes K.macros state.old)
        (state_view K.codes K.macros state.new) (map (K.token state.old.tables) after.now) }
    ensures names { K.names state.new.tables ≡ K.names state.old.tables }
{
    match document_turn(units, state, expanded, whole, role, after) {
        Ok(turn) => Ok(turn.left()),
        Err(error) => Err(error),
    }
}
