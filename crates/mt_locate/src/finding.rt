//! Where in a source a refusal is.
ghost use Rattle.std.specs.Prelude.{◌≡◌, ◌^◌, ◌↔◌, ℕ, List, IfOk, IfSome, IsTrue, None, Ok, Some, true};
ghost use Rattle.std.specs.Option.{option_copied};
ghost use Rattle.mt_scaled.specs.Number.{Within};
ghost use Rattle.mt_scaled.specs.declared.unit.Units.{Units as UnitFields};
ghost use Rattle.mt_token.specs.declared.token.Token.{Token as TokenFields};
ghost use Rattle.mt_plain.specs.CodeTables.{plain_codes};
ghost use Rattle.mt_plain.specs.PlainMacros.{plain_table};
ghost use Rattle.mt_reader.specs.Stops.{IsReason, StopReason, formula_from, stop, stop_view};
ghost use Rattle.mt_locate.specs.Places.{IsAt, IsPlaceIn, byte_fault, byte_found};
ghost use Rattle.mt_locate.specs.Faults.{IsFaultAt, IsFaultFound, IsRead, IsUnread, expanded_token, fault_offset};
ghost use Rattle.mt_locate.specs.Faults.{formula_found, formula_offset, token_offset, traced_token};
ghost use Rattle.mt_locate.specs.Sought.{needs_reading, sought_of};
ghost use Rattle.mt_status.specs.declared.subject.Numbers.{Numbers as NumbersFields};
ghost use Rattle.mt_locate.specs.declared.sought.Sought.TheVariants.{Byte, Fault, Formula, Nothing};

use crate::definitions::definition_of;
use crate::fault_token::{FaultToken, fault_token, has_numbers};
use crate::places::{Definition, FaultyFormula, Located, located_at};
use crate::sought::{Sought, sought_of};
use crate::traces::{TracedFormula, Wanted, traced_formula};
use crate::unmatched::unmatched_token;
use mt_reader::{DocError, Stop, StopCause, read_to_stop};
use mt_scaled::{Name, Units};
use mt_status::{Notes, Status};
use mt_token::{Token, TokenError, first_fault, tokens};
use std::alloc::{AllocError, Global};

/// The greatest size of a unit of a font, in scaled points.
const MAX_UNIT: i64 = 2_147_483_648;

// The place of a byte that is not allowed where it is, by its offset and its cause; none where the tokens of the source do
// not end at it for this cause.
fn locate_byte(source: &[u8], offset: u64, cause: u8) -> Option<Located>
    ensures is { IfSome result (IsPlaceIn source.now) }
    ensures byte { IsAt result (byte_fault source.now) (byte_found source.now offset cause) }
{
    let fault = first_fault(source)?;
    let at = fault.place()?;
    if u64::from(at) == offset && fault.number() == cause {
        return located_at(source, at as usize, Some(DocError::Source(fault)));
    }
    None
}

// A fault at a token of the source, if there is one.
fn located_token(source: &[u8], token: Option<&Token>, fault: Option<DocError>) -> Option<Located>
    ensures is { IfSome result (IsPlaceIn source.now) }
    ensures at { IsAt result fault (token_offset source.now (option_copied token.entry)) }
{
    located_at(source, token?.start as usize, fault)
}

// A fault at a token of the source, of which a copy is noted.
fn located_with_token(
    alloc: Global,
    source: &[u8],
    token: Option<&Token>,
    fault: DocError,
) -> Result<Option<Located>, AllocError>
    ensures is { IfOk result (λ found. IfSome found (IsPlaceIn source.now)) }
    ensures at { IfOk result (λ found. IsAt found (Some fault) (token_offset source.now (option_copied token.entry))) }
{
    let (Some(found), Some(mut located)) = (token, located_token(source, token, Some(fault))) else {
        return Ok(None);
    };
    located.token = Some(found.copied(alloc)?);
    Ok(Some(located))
}

// A fault at a token of a traced formula, or at its closing `$`.
fn located_traced(
    alloc: Global,
    source: &[u8],
    traced: &TracedFormula<'_>,
    index: usize,
    fault: DocError,
) -> Result<Option<Located>, AllocError>
    ensures is { IfOk result (λ found. IfSome found (IsPlaceIn source.now)) }
    ensures at { IfOk result (λ found. IsAt found (Some fault) (token_offset source.now (traced_token (Some traced.now) index))) }
{
    match traced.tokens.as_slice().get(index) {
        Some(found) => located_with_token(alloc, source, Some(&found.token), fault),
        None => Ok(located_token(source, traced.formula.closing.first(), Some(fault))),
    }
}

// The name of the macro in whose body the token of an index is, or which lacks an argument there.
fn macro_name<'a>(
    stop: &'a Stop<'_>,
    traced: &'a TracedFormula<'_>,
    wanted: Wanted,
    index: usize,
) -> Option<&'a Name> {
    let token = traced.tokens.as_slice().get(index)?;
    match wanted {
        Wanted::Expanded => stop.tables.macros.name_of(token.body?),
        Wanted::ToMacro => token.token.kind.name(),
    }
}

// A fault at a token of the formula at which reading stops, after its macros are expanded.
fn locate_in_formula(
    alloc: Global,
    source: &[u8],
    fault: DocError,
    stop: Stop<'_>,
    wanted: Wanted,
    index: usize,
) -> Result<Option<Located>, AllocError>
    ensures is { IfOk result (λ found. IfSome found (IsPlaceIn source.now)) }
    ensures at { IfOk result (λ found. IsAt found (Some fault) (token_offset source.now
        (expanded_token stop.entry.tables.macros wanted (formula_from stop.entry.from.now) index))) }
{
    let Some(traced) = traced_formula(alloc, &stop, wanted)? else {
        return Ok(None);
    };
    let Some(mut located) = located_traced(alloc, source, &traced, index, fault)? else {
        return Ok(None);
    };
    let name = macro_name(&stop, &traced, wanted, index);
    located.definition = definition_of(alloc, stop.definitions.as_slice(), name)?;
    located.formula = Some(FaultyFormula {
        tokens: traced.tokens,
        index,
        is_display: traced.formula.display,
        tables: stop.tables,
    });
    Ok(Some(located))
}

// The fault at which the reading of these tokens stops.
fn locate_fault(
    alloc: Global,
    source: &[u8],
    tokens: &[Token],
    fault: DocError,
    stop: Stop<'_>,
) -> Result<Option<Located>, AllocError>
    ensures is { IfOk result (λ found. IfSome found (IsPlaceIn source.now)) }
    ensures at { (reason : StopReason) → IfOk result (λ found. IsAt found (Some fault)
        (fault_offset source.now tokens.now (stop_view reason stop.entry) fault)) }
{
    match fault_token(fault) {
        FaultToken::OfSource(index) => {
            located_with_token(alloc, source, tokens.get(index as usize), fault)
        }
        FaultToken::Unmatched(index) => {
            let token = unmatched_token(tokens, index as usize);
            located_with_token(alloc, source, token, fault)
        }
        FaultToken::Expanded(index) => {
            locate_in_formula(alloc, source, fault, stop, Wanted::Expanded, index as usize)
        }
        FaultToken::Macro(index) => {
            locate_in_formula(alloc, source, fault, stop, Wanted::ToMacro, index as usize)
        }
        FaultToken::First => Ok(located_token(source, stop.from.first(), Some(fault))),
        FaultToken::Nowhere => Ok(None),
    }
}

// What is found where reading stops: the fault, where it has the numbers that are sought, or the first `$` of a formula.
fn locate_stop(
    alloc: Global,
    source: &[u8],
    tokens: &[Token],
    sought: Sought,
    stop: Stop<'_>,
) -> Result<Option<Located>, AllocError>
    ensures is { IfOk result (λ found. IfSome found (IsPlaceIn source.now)) }
    ensures fault { (numbers : NumbersFields) → (reason : StopReason) → sought ≡ Fault numbers
        → IsReason stop.entry.cause reason → IfOk result (λ found. IsFaultAt found numbers source.now
        tokens.now (stop_view reason stop.entry) reason) }
    ensures formula { (n : ℕ) → (reason : StopReason) → sought ≡ Formula n → IsReason stop.entry.cause reason
        → IfOk result (λ found. IsAt found None
        (formula_offset source.now (stop_view reason stop.entry) reason)) }
{
    match (stop.cause, sought) {
        (StopCause::Fault(fault), Sought::Fault(numbers)) if has_numbers(numbers, fault) => {
            locate_fault(alloc, source, tokens, fault, stop)
        }
        (StopCause::Formula, Sought::Formula(_)) => {
            Ok(located_token(source, stop.from.first(), None))
        }
        _ => Ok(None),
    }
}

fn is_within(unit: i64) -> bool
    ensures { IsTrue result ↔ Within (2 ^ 31) unit }
{
    -MAX_UNIT <= unit && unit <= MAX_UNIT
}

// The units of a run, where they are within bounds.
fn usable(units: Option<Units>) -> Option<Units>
    ensures is { (own : UnitFields) → units ≡ Some own → Within (2 ^ 31) own.em → Within (2 ^ 31) own.ex
        → result ≡ Some own }
    ensures same { IfSome result (λ own. units ≡ Some own) }
    ensures em { IfSome result (λ own. Within (2 ^ 31) own.em) }
    ensures ex { IfSome result (λ own. Within (2 ^ 31) own.ex) }
{
    match units {
        Some(own) if is_within(own.em) && is_within(own.ex) => Some(own),
        _ => None,
    }
}

// What is found by reading the source.
fn locate_read(
    alloc: Global,
    source: &[u8],
    sought: Sought,
    units: Option<Units>,
) -> Result<Option<Located>, AllocError>
    ensures is { IfOk result (λ found. IfSome found (IsPlaceIn source.now)) }
    ensures fault { (own : UnitFields) → (tokens : List TokenFields) → IsRead units source.now own tokens
        → (numbers : NumbersFields) → sought ≡ Fault numbers
        → IfOk result (λ found. IsFaultFound found numbers source.now tokens
        (stop own None plain_codes plain_table tokens)) }
    ensures formula { (n : ℕ) → (own : UnitFields) → (tokens : List TokenFields) → IsRead units source.now own tokens
        → sought ≡ Formula n → IfOk result (λ found. IsAt found None
        (formula_found source.now (stop own (Some n) plain_codes plain_table tokens))) }
    ensures unread { IsUnread units source.now → IfOk result (λ found. found ≡ None) }
{
    let Some(units) = usable(units) else {
        return Ok(None);
    };
    let list = match tokens(alloc, source) {
        Ok(list) => list,
        Err(TokenError::OutOfMemory) => return Err(AllocError),
        Err(_) => return Ok(None),
    };
    let tokens = list.as_slice();
    match read_to_stop(alloc, units, tokens, sought.formula())? {
        Some(stop) => locate_stop(alloc, source, tokens, sought, stop),
        None => Ok(None),
    }
}

/// Where in a source the fault is for which a run ended with this status and these notes. A byte or a token outside of
/// formulas is where it is, and a formula without its end at the brace that nothing matches. A token of a formula after
/// expansion is where it is written, and one of a macro's body where the formula calls the macro; past the last one it is
/// the closing `$`. A macro that lacks an argument is where the formula calls it, or the macro in whose body it is. What is
/// wrong with a formula as a whole, a page too many and a place too many are at the first `$` of the formula. `None` where
/// the status has no place in a source, where the source does not have that fault, and where the noted units, which all
/// but a byte needs, are missing or more than 2^31 scaled points in size.
///
/// # Errors
///
/// `AllocError` where memory ran out.
pub fn locate(
    alloc: Global,
    source: &[u8],
    status: &Status,
    notes: Notes,
) -> Result<Option<Located>, AllocError>
    ensures is { IfOk result (λ found. IfSome found (IsPlaceIn source.now)) }
    ensures byte { (offset cause : ℕ) → sought_of status.now notes ≡ Byte offset cause
        → IfOk result (λ found. IsAt found (byte_fault source.now) (byte_found source.now offset cause)) }
    ensures fault { (own : UnitFields) → (tokens : List TokenFields) → IsRead notes.units source.now own tokens
        → (numbers : NumbersFields) → sought_of status.now notes ≡ Fault numbers
        → IfOk result (λ found. IsFaultFound found numbers source.now tokens
        (stop own None plain_codes plain_table tokens)) }
    ensures formula { (n : ℕ) → (own : UnitFields) → (tokens : List TokenFields) → IsRead notes.units source.now own tokens
        → sought_of status.now notes ≡ Formula n → IfOk result (λ found. IsAt found None
        (formula_found source.now (stop own (Some n) plain_codes plain_table tokens))) }
    ensures unread { needs_reading (sought_of status.now notes) ≡ true → IsUnread notes.units source.now
        → IfOk result (λ found. found ≡ None) }
    ensures nothing { sought_of status.now notes ≡ Nothing → result ≡ Ok None }
{
    let sought = sought_of(status, notes);
    match sought {
        Sought::Byte(offset, cause) => Ok(locate_byte(source, offset, cause)),
        Sought::Fault(_) | Sought::Formula(_) => locate_read(alloc, source, sought, notes.units),
        Sought::Nothing => Ok(None),
    }
}
