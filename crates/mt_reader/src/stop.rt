//! Where the reading of a source stops: at its first fault, or where a formula begins.
ghost use Rattle.std.specs.Prelude.{◌≡◌, ◌≤◌, ◌<◌, ◌-◌, ◌^◌, IfOk, OnErr, OnOk, Some, drop, length};
ghost use Rattle.mt_scaled.specs.Number.{Within};
ghost use Rattle.mt_token.specs.Tokens.{max_source};
ghost use Rattle.mt_plain.specs.CodeTables.{plain_codes};
ghost use Rattle.mt_plain.specs.PlainMacros.{plain_table};
ghost use Rattle.mt_reader.specs.Documents.{turn_by};
ghost use Rattle.mt_reader.specs.DocumentTurns.{state_of};
ghost use Rattle.mt_reader.specs.Limits.{max_total_tokens};
ghost use Rattle.mt_reader.specs.Stops.{IsStop, definition_tokens, fault_cause, inside_of, is_wanted, stop};
ghost use Rattle.mt_reader.specs.Stops.{with_definition};
ghost use Rattle.mt_reader.specs.StopReading.{KeepsTables, MeetsStopTurn, SpendsStop};
ghost use Rattle.mt_reader.specs.Views.{token_view};

use crate::arena_page::ArenaPage;
use crate::document_error::DocError;
use crate::document_state::DocumentState;
use crate::document_turn::{AfterTurn, document_turn};
use crate::dollars::{begins_display, between_dollars};
use crate::expanded_items::ExpandedItems;
use crate::outside_role::{OutsideRole, outside_role};
use crate::token_tables::TokenTables;
use mt_scaled::Units;
use mt_token::{OwnTokens, Token};
use std::alloc::{AllocError, Global};

/// Why the reading of a source stops.
#[derive(Clone, Copy, Debug, PartialEq, Eq)]
pub enum StopCause {
    /// The formula that is looked for begins.
    Formula,
    /// The first fault of the source, which is never that memory ran out.
    Fault(DocError),
}

/// Where the reading of a source stops.
#[derive(Drop)]
pub struct Stop<'a> {
    /// Why it stops.
    pub cause: StopCause,
    /// The tokens of the source from the turn on at which it stops: from the first `$` of a formula, or from the token
    /// outside of formulas with which a definition, an assignment or a fault begins.
    pub from: &'a [Token],
    /// The codes of characters and the macros that are in force there.
    pub tables: TokenTables,
    /// The tokens of the source from each `\def` before it on, in order.
    pub definitions: Vec<&'a [Token]>,
}

/// The formula that begins where the reading of a source stops.
#[derive(Clone, Copy)]
pub struct StopFormula<'a> {
    /// Whether it is a display.
    pub display: bool,
    /// Its tokens, without its dollars.
    pub tokens: &'a [Token],
    /// The tokens of the source from its first closing `$` on.
    pub closing: &'a [Token],
}

// The tokens after the first dollars of a formula, by those after its first one.
fn inside_of<'a>(rest: &'a [Token]) -> &'a [Token]
    ensures { result.now ≡ inside_of rest.now }
{
    match rest {
        [_, inside @ ..] if begins_display(&OwnTokens, rest) => inside,
        _ => rest,
    }
}

// The tokens behind so many, or none.
fn behind<'a>(tokens: &'a [Token], count: usize) -> &'a [Token]
    ensures { result.now ≡ drop count tokens.now }
{
    tokens.get(count..).unwrap_or(&[])
}

impl<'a> Stop<'a> {
    ghost use Rattle.mt_reader.specs.Stops.{formula_from, formula_view};

    /// The formula that begins there; `None` where it has no end.
    pub fn formula(&self) -> Option<StopFormula<'a>>
        ensures { formula_view result ≡ formula_from self.now.from.now }
    {
        let [_, rest @ ..] = self.from else {
            return None;
        };
        let taken = between_dollars(&OwnTokens, rest)?;
        Some(StopFormula {
            display: begins_display(&OwnTokens, rest),
            tokens: taken.argument,
            closing: behind(inside_of(rest), taken.argument.len()),
        })
    }
}

// Whether the formula that is looked for begins at a token that is this outside of formulas.
fn is_wanted(state: &DocumentState<TokenTables>, formula: Option<u32>, role: OutsideRole) -> bool
    requires { state.now.count < 2 ^ 32 - 1 }
    ensures { result ≡ is_wanted formula state.now.count role }
{
    match (formula, role) {
        (Some(n), OutsideRole::BeginsFormula) => state.next_number() == n,
        _ => false,
    }
}

// Why reading stops at an error; the other errors say that memory ran out.
fn fault_cause(error: DocError) -> Result<StopCause, AllocError>
    ensures { IfOk result (λ cause. fault_cause error ≡ Some cause) }
{
    match error {
        DocError::OutOfMemory => Err(AllocError),
        fault => Ok(StopCause::Fault(fault)),
    }
}

// What becomes of a token that is this outside of formulas, and of those after it. The source has so many tokens.
fn turn<'a>(
    alloc: Global,
    units: Units,
    state: &mut DocumentState<TokenTables>,
    expanded: &mut ExpandedItems<Token>,
    whole: usize,
    role: OutsideRole,
    after: &'a [Token],
) -> Result<AfterTurn<'a, Token>, DocError>
    requires em { Within (2 ^ 31) units.em }
    requires ex { Within (2 ^ 31) units.ex }
    requires ended { state.old.ended < 2 ^ 32 - 1 }
    requires count { state.old.count < 2 ^ 32 - 1 }
    requires total { state.old.total ≤ max_total_tokens }
    requires whole { whole < 2 ^ 32 }
    requires tokens { length after.now < whole }
    ensures is { MeetsStopTurn result (token_view state.new) whole
        (turn_by units (state_of (token_view state.old)) after.now role) }
    ensures spends { SpendsStop result (token_view state.old) (token_view state.new) after.now }
    ensures keeps { OnErr result (KeepsTables (token_view state.old) (token_view state.new)) }
{
    if role.ends_page() {
        let mut spare = ArenaPage::new(alloc);
        let _ = state.take_page(alloc, &mut spare);
        return Ok(AfterTurn::Left(after));
    }
    document_turn(units, state, expanded, whole, role, after)
}

// Notes the tokens from a turn on, where it is a definition.
fn note_definition<'a>(
    definitions: &mut Vec<&'a [Token]>,
    from: &'a [Token],
    role: OutsideRole,
) -> Result<(), AllocError>
    ensures { OnOk result (definition_tokens definitions.new.items
        ≡ with_definition (definition_tokens definitions.old.items) from.now role) }
{
    match role {
        OutsideRole::Defines => definitions.push(from)?,
        _ => {}
    }
    Ok(())
}

/// Where the reading of a source by its tokens stops, with plain TeX's codes and macros and with those that it sets and
/// defines: at its first fault, or before that where the formula of this number begins, counted from 1, if one is looked
/// for. `None` where it is read to its end. `units` are what `em` and `ex` are, in scaled points, at most 2^31 in size; the
/// source has at most 4,194,304 tokens.
///
/// # Errors
///
/// `AllocError` where memory ran out.
pub fn read_to_stop<'a>(
    alloc: Global,
    units: Units,
    source: &'a [Token],
    formula: Option<u32>,
) -> Result<Option<Stop<'a>>, AllocError>
    requires em { Within (2 ^ 31) units.em }
    requires ex { Within (2 ^ 31) units.ex }
    requires source { length source.now ≤ max_source }
    ensures { IfOk result (λ found. IsStop found (stop units formula plain_codes plain_table source.now)) }
{
    let Ok(tables) = TokenTables::plain(alloc) else {
        return Err(AllocError);
    };
    let mut state = DocumentState::start(alloc, tables);
    let mut expanded = ExpandedItems::new(alloc);
    let mut definitions = Vec::new(alloc);
    let mut rest = source;
    while let [token, after @ ..] = rest {
        let role = outside_role(state.tables(), token);
        if is_wanted(&state, formula, role) {
            return Ok(Some(Stop {
                cause: StopCause::Formula,
                from: rest,
                tables: state.into_tables(),
                definitions,
            }));
        }
        match turn(
            alloc,
            units,
            &mut state,
            &mut expanded,
            source.len(),
            role,
            after,
        ) {
            Ok(AfterTurn::Left(left)) => {
                note_definition(&mut definitions, rest, role)?;
                rest = left;
            }
            Ok(AfterTurn::Ended) => return Ok(None),
            Err(error) => {
                return Ok(Some(Stop {
                    cause: fault_cause(error)?,
                    from: rest,
                    tables: state.into_tables(),
                    definitions,
                }));
            }
        }
    }
    Ok(None)
}
