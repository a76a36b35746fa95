//! Formulas of tokens.
ghost use Rattle.std.specs.Prelude.{◌≡◌, ◌≤◌, ◌^◌, ◌+◌, ◌*◌, length, IfOk, OnOk};
ghost use Rattle.mt_scaled.specs.Number.{Within};
ghost use Rattle.mt_macro.specs.Limits.{max_tokens};
ghost use Rattle.mt_arena.specs.Arena.{Extends};
ghost use Rattle.mt_arena.specs.Formulas.{FormulaLists, formula_end, formula_in};
ghost use Rattle.mt_formula.specs.Answers.{ReadsAs};
ghost use Rattle.mt_formula.specs.Counts.{body_rows, formula_items, IsModestFormula};
ghost use Rattle.mt_formula.specs.Formulas.{reading};
ghost use Rattle.mt_formula.specs.Tags.{IsTagPlaced};
ghost use Rattle.mt_formula.specs.reading.Formulas.{ReadsFormulaInto};

use crate::items;
use mt_arena::{Arena, SpanFormula, formula_of};
use mt_plain::Codes;
use mt_rules::{Body, Tag};
use mt_scaled::Units;
use mt_scan::ReadError;
use mt_token::Token;
use std::alloc::Global;

/// The body of a formula and its number, as of [`read_formula`], read into an arena: as spans of its closed lists. The
/// lists that are closed before stay, and so do the open ones.
///
/// # Errors
///
/// Those of [`read_formula`]. What is in the arena after an error is not said.
pub fn read_spans(
    arena: &mut Arena,
    codes: &Codes,
    units: Units,
    display: bool,
    list: &[Token],
) -> Result<SpanFormula, ReadError>
    requires length { length list.now ≤ 2 ^ 31 }
    requires em { Within (2 ^ 31) units.em }
    requires ex { Within (2 ^ 31) units.ex }
    ensures is { ReadsFormulaInto result arena.new (reading codes.now units display list.now) }
    ensures front { OnOk result (Extends arena.old.closed arena.new.closed) }
    ensures top { OnOk result (arena.new.top ≡ arena.old.top) }
    ensures below { OnOk result (arena.new.below ≡ arena.old.below) }
    ensures within { IfOk result (λ formula. formula_end formula ≤ length arena.new.closed) }
    ensures lists { IfOk result (FormulaLists arena.new.closed) }
    ensures items { IfOk result
        (λ formula. formula_items (formula_in arena.new.closed formula) ≤ 4 * length list.now + 8) }
    ensures rows { IfOk result (λ formula. body_rows (formula_in arena.new.closed formula).0 ≤ length list.now) }
    ensures modest { length list.now ≤ max_tokens → IfOk result
        (λ formula. IsModestFormula (formula_in arena.new.closed formula)) }
    ensures tags { IfOk result
        (λ formula. IsTagPlaced display (formula_in arena.new.closed formula).0
        (formula_in arena.new.closed formula).1) }
{
    items::read_spans(arena, codes, units, display, list)
}

/// The body of a formula, and what is set at its side as its number (The TeXbook, chapters 17, 18, 19
/// and 26). Only a display has such a number, given by `\eqno` or `\leqno`; a display of several lines
/// has none, since its rows have their own.
///
/// The tokens are those of the formula alone, without macros; `codes` are in force in it, and
/// `units` are what `em` and `ex` stand for, in scaled points.
///
/// # Errors
///
/// The first fault, by the index of its token. `OutOfMemory` where memory ran out.
pub fn read_formula(
    alloc: Global,
    codes: &Codes,
    units: Units,
    display: bool,
    list: &[Token],
) -> Result<(Body, Option<Tag>), ReadError>
    requires length { length list.now ≤ 2 ^ 31 }
    requires em { Within (2 ^ 31) units.em }
    requires ex { Within (2 ^ 31) units.ex }
    ensures is { ReadsAs result (reading codes.now units display list.now) }
    ensures items { IfOk result (λ formula. formula_items formula ≤ 4 * length list.now + 8) }
    ensures rows { IfOk result (λ formula. body_rows formula.0 ≤ length list.now) }
    ensures modest { length list.now ≤ max_tokens → IfOk result IsModestFormula }
    ensures tags { IfOk result (λ formula. IsTagPlaced display formula.0 formula.1) }
{
    let mut arena = Arena::new(alloc);
    let formula = read_spans(&mut arena, codes, units, display, list)?;
    Ok(formula_of(alloc, &arena, formula)?)
}
