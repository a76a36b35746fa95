//! What becomes of a token outside of formulas, and of those after it.
ghost use Rattle.std.specs.Prelude.{◌≡◌, ℕ, ◌≤◌, ◌<◌, ◌+◌, ◌-◌, ◌^◌, None, OnErr, false, length, map};
ghost use Rattle.mt_scaled.specs.Number.{Within};
ghost use Rattle.mt_reader.specs.Answered.{definition_answered, math_code_answered, delcode_answered};
ghost use Rattle.mt_reader.specs.Definitions.{macro_definition};
ghost use Rattle.mt_reader.specs.Assignments.{math_code_assignment, delcode_assignment};
ghost use Rattle.mt_reader.specs.Documents.{after_definition, after_assignment, after_reading};
ghost use Rattle.mt_reader.specs.Documents.{after_expansion, formula_turn, is_page_limit, turn_by};
ghost use Rattle.mt_macro.specs.Braces.{first_unmatched};
ghost use Rattle.mt_macro.specs.Expansion.{Expanded, expansion};
ghost use Rattle.mt_formula.specs.Formulas.{reading};
ghost use Rattle.mt_reader.specs.AheadTurns.{IsFormulaFound, MeetsSome, SameWhereNone, SpendsSome};
ghost use Rattle.mt_reader.specs.Dollars.{between_dollars};
ghost use Rattle.mt_reader.specs.DocumentTurns.{state_of, MeetsTurn, Spends, ReadsOne};
ghost use Rattle.mt_reader.specs.DocumentTurns.{ends_page, expand_error, read_error};
ghost use Rattle.mt_reader.specs.Limits.{max_total_tokens};
ghost use Rattle.mt_reader.specs.StopReading.{KeepsTables};
ghost use Rattle.mt_reader.specs.Views.{state_view};
ghost use Rattle.mt_macro.specs.Limits.{max_tokens};

use crate::definitions::macro_definition;
use crate::document_error::DocError;
use crate::document_state::{DocumentState, MAX_DOCUMENT_PAGES};
use crate::document_tables::DocumentTables;
use crate::dollars::{Taken, begins_display, between_dollars};
use crate::expanded_items::ExpandedItems;
use crate::outside_cause::OutsideCause;
use crate::outside_role::OutsideRole;
use mt_formula::ReadError;
use mt_macro::{ExpandError, MacroError};
use mt_scaled::Units;

/// The greatest number of tokens of all formulas after expansion.
const MAX_TOTAL_TOKENS: u64 = 1_000_000;

/// The page that no formula begins.
const PAGE_TOO_MANY: u32 = MAX_DOCUMENT_PAGES + 1;

/// What is left after a turn.
#[derive(Clone, Copy)]
pub enum AfterTurn<'a, T> {
    /// These items.
    Left(&'a [T]),
    /// Nothing, where the document ends.
    Ended,
}

impl<T> AfterTurn<'_, T> {
    ghost use Rattle.mt_reader.specs.AheadTurns.{left_items};

    /// How many items are left; `None` where the document ends.
    pub fn left(self) -> Option<usize>
        ensures { result ≡ left_items self.entry }
    {
        match self {
            AfterTurn::Left(rest) => Some(rest.len()),
            AfterTurn::Ended => None,
        }
    }
}

// A fault outside of formulas, where so many of the source's tokens are left.
fn outside<K>(state: &DocumentState<K>, whole: usize, cause: OutsideCause, left: usize) -> DocError
    requires count { state.now.count < 2 ^ 32 - 1 }
    requires whole { whole < 2 ^ 32 }
    ensures { result ≡ DocError.Outside (state.now.count + 1) (whole - left) cause }
{
    DocError::Outside {
        n: state.next_number(),
        place: whole.saturating_sub(left) as u32,
        cause,
    }
}

// A fault at the token before these, where so many tokens of the source are read with these.
fn outside_before<T, K>(
    state: &DocumentState<K>,
    whole: usize,
    cause: OutsideCause,
    after: &[T],
) -> DocError
    requires count { state.now.count < 2 ^ 32 - 1 }
    requires whole { whole < 2 ^ 32 }
    requires after { length after.now < whole }
    ensures { result ≡ DocError.Outside (state.now.count + 1) (whole - (length after.now + 1)) cause }
{
    outside(state, whole, cause, after.len() + 1)
}

// What becomes of `\def` and the tokens after it.
fn definition_turn<'a, T, K: DocumentTables<T>>(
    state: &mut DocumentState<K>,
    whole: usize,
    tokens: &'a [T],
) -> Result<AfterTurn<'a, T>, DocError>
    requires count { state.old.count < 2 ^ 32 - 1 }
    requires total { state.old.total ≤ max_total_tokens }
    requires whole { whole < 2 ^ 32 }
    requires tokens { length tokens.now < whole }
    ensures is { MeetsTurn (K.token state.new.tables) result
        (state_view K.codes K.macros state.new) whole
        (after_definition (state_of (state_view K.codes K.macros state.old)) (length tokens.now + 1)
        (macro_definition (map (K.token state.old.tables) tokens.now))
        (definition_answered (map (K.token state.old.tables) tokens.now))) }
    ensures spends { Spends (K.token state.new.tables) result (state_view K.codes K.macros state.old)
        (state_view K.codes K.macros state.new) (map (K.token state.old.tables) tokens.now) }
    ensures names { K.names state.new.tables ≡ K.names state.old.tables }
    ensures keeps { OnErr result (KeepsTables (state_view K.codes K.macros state.old)
        (state_view K.codes K.macros state.new)) }
{
    match macro_definition(state.tables(), tokens) {
        Ok(part) => match state.define(&part.value) {
            Ok(()) => Ok(AfterTurn::Left(part.rest)),
            Err(MacroError::OutOfMemory) => Err(DocError::OutOfMemory),
            Err(_) => Err(outside_before(state, whole, OutsideCause::TooManyNames, tokens)),
        },
        Err(fault) => Err(outside(state, whole, fault.cause, fault.left)),
    }
}

// What becomes of `\mathcode` and the tokens after it.
fn math_code_turn<'a, T, K: DocumentTables<T>>(
    state: &mut DocumentState<K>,
    whole: usize,
    tokens: &'a [T],
) -> Result<AfterTurn<'a, T>, DocError>
    requires count { state.old.count < 2 ^ 32 - 1 }
    requires total { state.old.total ≤ max_total_tokens }
    requires whole { whole < 2 ^ 32 }
    requires tokens { length tokens.now < whole }
    ensures is { MeetsTurn (K.token state.new.tables) result
        (state_view K.codes K.macros state.new) whole
        (after_assignment (state_of (state_view K.codes K.macros state.old)) (length tokens.now + 1)
        (math_code_assignment (K.codes state.old.tables) (map (K.token state.old.tables) tokens.now))
        (math_code_answered (K.codes state.old.tables) (map (K.token state.old.tables) tokens.now))) }
    ensures spends { Spends (K.token state.new.tables) result (state_view K.codes K.macros state.old)
        (state_view K.codes K.macros state.new) (map (K.token state.old.tables) tokens.now) }
    ensures names { K.names state.new.tables ≡ K.names state.old.tables }
    ensures keeps { OnErr result (KeepsTables (state_view K.codes K.macros state.old)
        (state_view K.codes K.macros state.new)) }
{
    match state.assign_math_code(tokens) {
        Ok(rest) => Ok(AfterTurn::Left(rest)),
        Err(_) => Err(outside_before(state, whole, OutsideCause::BadAssignment, tokens)),
    }
}

// What becomes of `\delcode` and the tokens after it.
fn delcode_turn<'a, T, K: DocumentTables<T>>(
    state: &mut DocumentState<K>,
    whole: usize,
    tokens: &'a [T],
) -> Result<AfterTurn<'a, T>, DocError>
    requires count { state.old.count < 2 ^ 32 - 1 }
    requires total { state.old.total ≤ max_total_tokens }
    requires whole { whole < 2 ^ 32 }
    requires tokens { length tokens.now < whole }
    ensures is { MeetsTurn (K.token state.new.tables) result
        (state_view K.codes K.macros state.new) whole
        (after_assignment (state_of (state_view K.codes K.macros state.old)) (length tokens.now + 1)
        (delcode_assignment (K.codes state.old.tables) (map (K.token state.old.tables) tokens.now))
        (delcode_answered (K.codes state.old.tables) (map (K.token state.old.tables) tokens.now))) }
    ensures spends { Spends (K.token state.new.tables) result (state_view K.codes K.macros state.old)
        (state_view K.codes K.macros state.new) (map (K.token state.old.tables) tokens.now) }
    ensures names { K.names state.new.tables ≡ K.names state.old.tables }
    ensures keeps { OnErr result (KeepsTables (state_view K.codes K.macros state.old)
        (state_view K.codes K.macros state.new)) }
{
    match state.assign_delcode(tokens) {
        Ok(rest) => Ok(AfterTurn::Left(rest)),
        Err(_) => Err(outside_before(state, whole, OutsideCause::BadAssignment, tokens)),
    }
}

// Why a formula is not expanded.
fn expand_error(n: u32, cause: ExpandError) -> DocError
    ensures { result ≡ expand_error n cause }
{
    match cause {
        ExpandError::OutOfMemory => DocError::OutOfMemory,
        cause => DocError::Expand { n, cause },
    }
}

// Why a formula is not read.
fn read_error(n: u32, cause: ReadError) -> DocError
    ensures { result ≡ read_error n cause }
{
    match cause {
        ReadError::OutOfMemory => DocError::OutOfMemory,
        cause => DocError::Read { n, cause },
    }
}

// Reads a formula without macros, with which all formulas have so many tokens.
fn read_expanded<'a, T, K: DocumentTables<T>>(
    units: Units,
    state: &mut DocumentState<K>,
    display: bool,
    list: &[T],
    total: u64,
    rest: &'a [T],
) -> Result<AfterTurn<'a, T>, DocError>
    requires em { Within (2 ^ 31) units.em }
    requires ex { Within (2 ^ 31) units.ex }
    requires count { state.old.count < 2 ^ 32 - 1 }
    requires list { length list.now ≤ max_tokens }
    requires total { total ≤ max_total_tokens }
    ensures is { (whole : ℕ) → MeetsTurn (K.token state.new.tables) result
        (state_view K.codes K.macros state.new) whole
        (after_reading units (state_of (state_view K.codes K.macros state.old))
        display total (map (K.token state.old.tables) rest.now)
        (reading (K.codes state.old.tables) units display (map (K.token state.old.tables) list.now))) }
    ensures reads { ReadsOne (K.token state.new.tables) result (state_view K.codes K.macros state.old)
        (state_view K.codes K.macros state.new) display (map (K.token state.new.tables) rest.now) }
    ensures names { K.names state.new.tables ≡ K.names state.old.tables }
    ensures tables { state.new.tables ≡ state.old.tables }
{
    let n = state.next_number();
    match state.add_formula(units, display, list, total) {
        Ok(()) => Ok(AfterTurn::Left(rest)),
        Err(cause) => Err(read_error(n, cause)),
    }
}

// Counts the tokens of a formula without macros, and reads it.
fn count_expanded<'a, T, K: DocumentTables<T>>(
    units: Units,
    state: &mut DocumentState<K>,
    display: bool,
    list: &[T],
    rest: &'a [T],
) -> Result<AfterTurn<'a, T>, DocError>
    requires em { Within (2 ^ 31) units.em }
    requires ex { Within (2 ^ 31) units.ex }
    requires count { state.old.count < 2 ^ 32 - 1 }
    requires total { state.old.total ≤ max_total_tokens }
    requires list { length list.now ≤ max_tokens }
    ensures is { (whole : ℕ) → MeetsTurn (K.token state.new.tables) result
        (state_view K.codes K.macros state.new) whole
        (after_expansion units (state_of (state_view K.codes K.macros state.old)) display
        (map (K.token state.old.tables) rest.now)
        (Expanded (map (K.token state.old.tables) list.now))) }
    ensures reads { ReadsOne (K.token state.new.tables) result (state_view K.codes K.macros state.old)
        (state_view K.codes K.macros state.new) display (map (K.token state.new.tables) rest.now) }
    ensures names { K.names state.new.tables ≡ K.names state.old.tables }
    ensures tables { state.new.tables ≡ state.old.tables }
{
    let total = state.total_with(list);
    if total > MAX_TOTAL_TOKENS {
        return Err(DocError::Total {
            n: state.next_number(),
            count: total,
        });
    }
    read_expanded(units, state, display, list, total, rest)
}

// Expands a formula where there is something to expand, counts its tokens and reads it.
fn formula_between<'a, T: Drop, K: DocumentTables<T>>(
    units: Units,
    state: &mut DocumentState<K>,
    expanded: &mut ExpandedItems<T>,
    display: bool,
    taken: Taken<'a, T>,
) -> Result<AfterTurn<'a, T>, DocError>
    requires matched { first_unmatched 0 (map (K.token state.old.tables) taken.argument.now) ≡ None }
    requires em { Within (2 ^ 31) units.em }
    requires ex { Within (2 ^ 31) units.ex }
    requires count { state.old.count < 2 ^ 32 - 1 }
    requires total { state.old.total ≤ max_total_tokens }
    ensures is { (whole : ℕ) → MeetsTurn (K.token state.new.tables) result
        (state_view K.codes K.macros state.new) whole
        (after_expansion units (state_of (state_view K.codes K.macros state.old)) display
        (map (K.token state.old.tables) taken.entry.after.now)
        (expansion (K.macros state.old.tables) (map (K.token state.old.tables) taken.entry.argument.now))) }
    ensures reads { ReadsOne (K.token state.new.tables) result (state_view K.codes K.macros state.old)
        (state_view K.codes K.macros state.new) display (map (K.token state.new.tables) taken.entry.after.now) }
    ensures names { K.names state.new.tables ≡ K.names state.old.tables }
    ensures tables { state.new.tables ≡ state.old.tables }
{
    if state.is_expanded(taken.argument) {
        return count_expanded(units, state, display, taken.argument, taken.after);
    }
    match state.expand(expanded, taken.argument) {
        Ok(()) => count_expanded(units, state, display, expanded.items(), taken.after),
        Err(cause) => Err(expand_error(state.next_number(), cause)),
    }
}

/// What becomes of `$` and the tokens after it; `None` where the formula does not end among them.
pub fn formula_ahead<'a, T: Drop, K: DocumentTables<T>>(
    units: Units,
    state: &mut DocumentState<K>,
    expanded: &mut ExpandedItems<T>,
    tokens: &'a [T],
) -> Result<Option<AfterTurn<'a, T>>, DocError>
    requires em { Within (2 ^ 31) units.em }
    requires ex { Within (2 ^ 31) units.ex }
    requires count { state.old.count < 2 ^ 32 - 1 }
    requires total { state.old.total ≤ max_total_tokens }
    ensures is { (whole : ℕ) → MeetsSome (K.token state.new.tables) result
        (state_view K.codes K.macros state.new) whole
        (formula_turn units (state_of (state_view K.codes K.macros state.old))
        (map (K.token state.old.tables) tokens.now)
        (is_page_limit (state_of (state_view K.codes K.macros state.old)))) }
    ensures found { IsFormulaFound result (is_page_limit (state_of (state_view K.codes K.macros state.old)))
        (between_dollars (map (K.token state.old.tables) tokens.now)) }
    ensures same { SameWhereNone result state.old state.new }
    ensures spends { SpendsSome (K.token state.new.tables) result (state_view K.codes K.macros state.old)
        (state_view K.codes K.macros state.new) (map (K.token state.old.tables) tokens.now) }
    ensures names { K.names state.new.tables ≡ K.names state.old.tables }
    ensures tables { state.new.tables ≡ state.old.tables }
{
    if state.is_page_limit() {
        return Err(DocError::Pages(PAGE_TOO_MANY));
    }
    let display = begins_display(state.tables(), tokens);
    match between_dollars(state.tables(), tokens) {
        Some(taken) => match formula_between(units, state, expanded, display, taken) {
            Ok(after) => Ok(Some(after)),
            Err(error) => Err(error),
        },
        None => Ok(None),
    }
}

// What becomes of `$` and the tokens after it.
fn formula_turn<'a, T: Drop, K: DocumentTables<T>>(
    units: Units,
    state: &mut DocumentState<K>,
    expanded: &mut ExpandedItems<T>,
    whole: usize,
    tokens: &'a [T],
) -> Result<AfterTurn<'a, T>, DocError>
    requires em { Within (2 ^ 31) units.em }
    requires ex { Within (2 ^ 31) units.ex }
    requires count { state.old.count < 2 ^ 32 - 1 }
    requires total { state.old.total ≤ max_total_tokens }
    requires whole { whole < 2 ^ 32 }
    requires tokens { length tokens.now < whole }
    ensures is { MeetsTurn (K.token state.new.tables) result
        (state_view K.codes K.macros state.new) whole
        (formula_turn units (state_of (state_view K.codes K.macros state.old))
        (map (K.token state.old.tables) tokens.now)
        (is_page_limit (state_of (state_view K.codes K.macros state.old)))) }
    ensures spends { Spends (K.token state.new.tables) result (state_view K.codes K.macros state.old)
        (state_view K.codes K.macros state.new) (map (K.token state.old.tables) tokens.now) }
    ensures names { K.names state.new.tables ≡ K.names state.old.tables }
    ensures tables { state.new.tables ≡ state.old.tables }
{
    match formula_ahead(units, state, expanded, tokens) {
        Ok(Some(after)) => Ok(after),
        Ok(None) => Err(outside_before(state, whole, OutsideCause::OpenFormula, tokens)),
        Err(error) => Err(error),
    }
}

/// What becomes of a token outside of formulas, by what it is, and of those after it. So many tokens of the source are
/// read with these. The token ends no page.
pub fn document_turn<'a, T: Drop, K: DocumentTables<T>>(
    units: Units,
    state: &mut DocumentState<K>,
    expanded: &mut ExpandedItems<T>,
    whole: usize,
    role: OutsideRole,
    tokens: &'a [T],
) -> Result<AfterTurn<'a, T>, DocError>
    requires em { Within (2 ^ 31) units.em }
    requires ex { Within (2 ^ 31) units.ex }
    requires count { state.old.count < 2 ^ 32 - 1 }
    requires total { state.old.total ≤ max_total_tokens }
    requires whole { whole < 2 ^ 32 }
    requires tokens { length tokens.now < whole }
    requires page { ends_page role ≡ false }
    ensures is { MeetsTurn (K.token state.new.tables) result
        (state_view K.codes K.macros state.new) whole
        (turn_by units (state_of (state_view K.codes K.macros state.old))
        (map (K.token state.old.tables) tokens.now) role) }
    ensures spends { Spends (K.token state.new.tables) result (state_view K.codes K.macros state.old)
        (state_view K.codes K.macros state.new) (map (K.token state.old.tables) tokens.now) }
    ensures names { K.names state.new.tables ≡ K.names state.old.tables }
    ensures keeps { OnErr result (KeepsTables (state_view K.codes K.macros state.old)
        (state_view K.codes K.macros state.new)) }
{
    match role {
        OutsideRole::Passed => Ok(AfterTurn::Left(tokens)),
        OutsideRole::Defines => definition_turn(state, whole, tokens),
        OutsideRole::SetsMathCode => math_code_turn(state, whole, tokens),
        OutsideRole::SetsDelimiterCode => delcode_turn(state, whole, tokens),
        OutsideRole::BeginsFormula => formula_turn(units, state, expanded, whole, tokens),
        OutsideRole::EndsPage => unreachable!(),
        OutsideRole::EndsDocument => Ok(AfterTurn::Ended),
        OutsideRole::Misplaced => Err(outside_before(
            state,
            whole,
            OutsideCause::Misplaced,
            tokens,
        )),
    }
}
