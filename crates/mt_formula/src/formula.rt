//! Formulas of items of any kind.
ghost use Rattle.std.specs.Prelude.{◌≡◌, ◌≤◌, ◌^◌, ◌+◌, ◌*◌, None, length, IfOk, OnOk, map};
ghost use Rattle.mt_scaled.specs.Number.{Within};
ghost use Rattle.mt_macro.specs.Limits.{max_tokens};
ghost use Rattle.mt_arena.specs.Arena.{Extends, sequence_in};
ghost use Rattle.mt_arena.specs.Keeping.{KeptList};
ghost use Rattle.mt_scan.specs.Parts.{Read, after_blanks, IsAnswered};
ghost use Rattle.mt_formula.specs.Answers.{IsFault};
ghost use Rattle.mt_formula.specs.Counts.{body_rows, formula_items, IsModestFormula};
ghost use Rattle.mt_formula.specs.Formulas.{ReadFault, reading_of};
ghost use Rattle.mt_formula.specs.Formulas.{reading};
ghost use Rattle.mt_formula.specs.Lists.{list};
ghost use Rattle.mt_formula.specs.Rules.{FormulaParts, is_at_left, body_ending};
ghost use Rattle.mt_formula.specs.Rules.{display_here, formula, list_formula};
ghost use Rattle.mt_formula.specs.Tags.{IsTagPlaced};
ghost use Rattle.mt_arena.specs.Formulas.{FormulaLists, formula_end, formula_in};
ghost use Rattle.mt_formula.specs.reading.Formulas.{ReadsFormulaInto, ReadsWhole};
ghost use Rattle.mt_formula.specs.reading.Reads.{ReadsInto, whole};
ghost use Rattle.mt_formula.specs.reading.Stops.{HasFault};

use crate::reading::context::{Grammar, Group};
use crate::reading::displays::read_display;
use crate::reading::ends::Ending;
use crate::reading::list::read_list;
use crate::reading::stop::Stop;
use crate::reading::whole_list::span_of;
use mt_arena::{Arena, Span, SpanBody, SpanFormula, SpanTag};
use mt_scaled::Units;
use mt_scan::items::after_blanks;
use mt_scan::{ReadCause, ReadError, Role, Roles, Scanned};

// Where the body of a formula ends.
fn body_ending(display: bool) -> Ending
    ensures { result ≡ body_ending display }
{
    if display {
        Ending::AtNumber
    } else {
        Ending::AtEnd
    }
}

fn is_at_left(role: Role) -> bool
    ensures { result ≡ is_at_left role }
{
    match role {
        Role::NumberWord(left) => left,
        _ => false,
    }
}

// A list that ends so, with no group round it.
fn read_outer<'a, T, R: Roles<T>>(
    arena: &mut Arena,
    grammar: Grammar<'_, R>,
    ending: Ending,
    tokens: &'a [T],
) -> Result<Scanned<'a, Span, T>, Stop>
    ensures is { ReadsInto (R.token grammar.entry.roles.now) sequence_in result arena.old arena.new
        (whole list (R.codes grammar.entry.roles.now) grammar.entry.units ending 0 None
        (map (R.token grammar.entry.roles.now) tokens.now)) }
    ensures within { IfOk result (λ part. part.value.end ≤ length arena.new.closed) }
    ensures lists { IfOk result (λ part. KeptList (sequence_in arena.new.closed part.value)) }
{
    let list = read_list(arena, grammar, Group::without_family(0), ending, tokens)?;
    Ok(Scanned {
        value: span_of(arena, list.value)?,
        rest: list.rest,
    })
}

// A list, and its number.
fn list_parts<T, R: Roles<T>>(
    arena: &mut Arena,
    grammar: Grammar<'_, R>,
    display: bool,
    tokens: &[T],
) -> Result<SpanFormula, Stop>
    ensures is { ReadsWhole formula_in result arena.old arena.new
        (whole list_formula (R.codes grammar.entry.roles.now) grammar.entry.units display
        (map (R.token grammar.entry.roles.now) tokens.now)) }
    ensures within { IfOk result (λ formula. formula_end formula ≤ length arena.new.closed) }
    ensures lists { IfOk result (FormulaLists arena.new.closed) }
{
    let body = read_outer(arena, grammar, body_ending(display), tokens)?;
    match body.rest {
        [token, rest @ ..] => {
            let side = read_outer(arena, grammar, Ending::AtEnd, rest)?;
            let tag = SpanTag {
                body: side.value,
                left: is_at_left(grammar.roles.role_of(token)),
            };
            Ok(SpanFormula {
                body: SpanBody::List(body.value),
                tag: Some(tag),
            })
        }
        [] => Ok(SpanFormula {
            body: SpanBody::List(body.value),
            tag: None,
        }),
    }
}

// The body of a display, and its number.
fn display_parts<T, R: Roles<T>>(
    arena: &mut Arena,
    grammar: Grammar<'_, R>,
    tokens: &[T],
) -> Result<SpanFormula, Stop>
    ensures is { ReadsWhole formula_in result arena.old arena.new
        (whole display_here (R.codes grammar.entry.roles.now) grammar.entry.units
        (map (R.token grammar.entry.roles.now) tokens.now)
        (after_blanks (R.codes grammar.entry.roles.now) (map (R.token grammar.entry.roles.now) tokens.now))) }
    ensures within { IfOk result (λ formula. formula_end formula ≤ length arena.new.closed) }
    ensures lists { IfOk result (FormulaLists arena.new.closed) }
{
    match after_blanks(grammar.roles, tokens) {
        [token, rest @ ..] => match grammar.roles.role_of(token) {
            Role::DisplayWord(preamble, left) => {
                let body = read_display(arena, grammar, preamble, left, rest)?;
                Ok(SpanFormula { body, tag: None })
            }
            _ => list_parts(arena, grammar, true, tokens),
        },
        [] => list_parts(arena, grammar, true, tokens),
    }
}

// The body of a formula, and its number.
fn formula_parts<T, R: Roles<T>>(
    arena: &mut Arena,
    grammar: Grammar<'_, R>,
    display: bool,
    tokens: &[T],
) -> Result<SpanFormula, Stop>
    ensures is { ReadsWhole formula_in result arena.old arena.new
        (whole formula (R.codes grammar.entry.roles.now) grammar.entry.units display
        (map (R.token grammar.entry.roles.now) tokens.now)) }
    ensures within { IfOk result (λ formula. formula_end formula ≤ length arena.new.closed) }
    ensures lists { IfOk result (FormulaLists arena.new.closed) }
{
    if display {
        display_parts(arena, grammar, tokens)
    } else {
        list_parts(arena, grammar, false, tokens)
    }
}

// The error of a cause at a place.
fn error_at(cause: ReadCause, place: u32) -> ReadError
    ensures { IsFault result (ReadFault cause place) }
{
    cause.at(place)
}

// The error of a formula of so many tokens.
fn error_of(stop: Stop, count: usize) -> ReadError
    requires { count ≤ 2 ^ 31 }
    ensures { (read : Read FormulaParts) → (answered : IsAnswered read)
        → HasFault stop read → IsFault result (reading_of count read answered) }
{
    match stop {
        Stop::Fault(fault) => error_at(fault.cause, count.saturating_sub(fault.left) as u32),
        Stop::OutOfMemory => ReadError::OutOfMemory,
    }
}

/// The body of a formula and its number, as of [`crate::read_formula`], read into an arena: as spans of its closed
/// lists. The lists that are closed before stay, and so do the open ones. The items are read as the tokens of the
/// formula.
///
/// # Errors
///
/// Those of [`crate::read_formula`]. What is in the arena after an error is not said.
pub fn read_spans<T, R: Roles<T>>(
    arena: &mut Arena,
    roles: &R,
    units: Units,
    display: bool,
    list: &[T],
) -> Result<SpanFormula, ReadError>
    requires length { length list.now ≤ 2 ^ 31 }
    requires em { Within (2 ^ 31) units.em }
    requires ex { Within (2 ^ 31) units.ex }
    ensures is { ReadsFormulaInto result arena.new
        (reading (R.codes roles.now) units display (map (R.token roles.now) list.now)) }
    ensures front { OnOk result (Extends arena.old.closed arena.new.closed) }
    ensures top { OnOk result (arena.new.top ≡ arena.old.top) }
    ensures below { OnOk result (arena.new.below ≡ arena.old.below) }
    ensures within { IfOk result (λ formula. formula_end formula ≤ length arena.new.closed) }
    ensures lists { IfOk result (FormulaLists arena.new.closed) }
    ensures items { IfOk result
        (λ formula. formula_items (formula_in arena.new.closed formula) ≤ 4 * length list.now + 8) }
    ensures rows { IfOk result (λ formula. body_rows (formula_in arena.new.closed formula).0 ≤ length list.now) }
    ensures modest { length list.now ≤ max_tokens → IfOk result
        (λ formula. IsModestFormula (formula_in arena.new.closed formula)) }
    ensures tags { IfOk result
        (λ formula. IsTagPlaced display (formula_in arena.new.closed formula).0
        (formula_in arena.new.closed formula).1) }
{
    let grammar = Grammar { roles, units };
    match formula_parts(arena, grammar, display, list) {
        Ok(formula) => Ok(formula),
        Err(stop) => Err(error_of(stop, list.len())),
    }
}
