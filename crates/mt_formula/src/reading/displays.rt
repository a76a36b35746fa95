//! Displays of several lines: their rows, which are all of the formula (plain TeX; The TeXbook,
//! chapter 19).
ghost use Rattle.std.specs.Prelude.{◌≡◌, ◌≤◌, ◌∷◌, ◌++◌, [], IfOk, OnOk, length, map};
ghost use Rattle.mt_arena.specs.Arena.{RowHeld, grid_in, rows_in};
ghost use Rattle.mt_arena.specs.Keeping.{GridLists, RowsLists};
ghost use Rattle.mt_rules.specs.Equations.{first_cell};
ghost use Rattle.mt_formula.specs.Displays.{cause_behind, display_body, display_rows, first_cells};
ghost use Rattle.mt_arena.specs.Formulas.{BodyLists, body_end, body_in};
ghost use Rattle.mt_formula.specs.reading.Formulas.{ReadsWhole};
ghost use Rattle.mt_formula.specs.reading.Reads.{Grows, whole};

use crate::reading::context::Grammar;
use crate::reading::list::read_table;
use crate::reading::stop::Stop;
use mt_arena::{Arena, Span, SpanBody, Thing, next_cell, next_cells};
use mt_scan::items::after_blanks;
use mt_scan::{Preamble, ReadCause, Role, Roles};
use std::alloc::AllocError;

// Puts the first of these cells behind the rows of the innermost open list.
fn push_first_cell(arena: &mut Arena, cells: Span) -> Result<(), AllocError>
    requires { cells.end ≤ length arena.old.closed }
    ensures top { OnOk result
        (arena.new.top ≡ arena.old.top ++ RowHeld (first_cell (rows_in arena.old.closed cells)) ∷ []) }
    ensures below { arena.new.below ≡ arena.old.below }
    ensures closed { arena.new.closed ≡ arena.old.closed }
{
    let mut rest = cells;
    let cell = next_cell(arena, &mut rest);
    arena.push(Thing::Row(cell))
}

// The one cell of each row of a table.
fn first_cells(arena: &mut Arena, rows: Span) -> Result<Span, AllocError>
    requires { rows.end ≤ length arena.old.closed }
    ensures is { IfOk result (λ lines. rows_in arena.new.closed lines ≡ first_cells (grid_in arena.old.closed rows)) }
    ensures within { IfOk result (λ lines. lines.end ≤ length arena.new.closed) }
    ensures lists { IfOk result (λ lines. RowsLists (rows_in arena.new.closed lines)) }
    ensures grows { OnOk result (Grows arena.old arena.new) }
{
    arena.begin()?;
    let mut rest = rows;
    while let Some(cells) = next_cells(arena, &mut rest) {
        push_first_cell(arena, cells)?;
    }
    arena.close()
}

// The body that these rows of a table are.
fn display_body(
    arena: &mut Arena,
    preamble: Preamble,
    left: bool,
    rows: Span,
) -> Result<SpanBody, AllocError>
    requires within { rows.end ≤ length arena.old.closed }
    requires lists { GridLists (grid_in arena.old.closed rows) }
    ensures is { IfOk result
        (λ body. body_in arena.new.closed body ≡ display_body preamble left (grid_in arena.old.closed rows)) }
    ensures within { IfOk result (λ body. body_end body ≤ length arena.new.closed) }
    ensures lists { IfOk result (BodyLists arena.new.closed) }
    ensures grows { OnOk result (Grows arena.old arena.new) }
{
    match preamble {
        Preamble::Lines => Ok(SpanBody::Lines(first_cells(arena, rows)?)),
        _ => Ok(SpanBody::Equations { left, rows }),
    }
}

// The cause of a fault at a token after the rows.
fn cause_behind(role: Role) -> ReadCause
    ensures { result ≡ cause_behind role }
{
    match role {
        Role::Unknown | Role::HboxWord => ReadCause::UnknownName,
        Role::CloseBrace
        | Role::Tab
        | Role::Misplaced
        | Role::Dollar
        | Role::CrWord
        | Role::OfWord
        | Role::MiddleWord
        | Role::RightWord => ReadCause::Unbalanced,
        Role::LimitsWord(_) => ReadCause::MisplacedLimits,
        _ => ReadCause::MisplacedNumber,
    }
}

/// The body of a display of several lines with these columns after its word, where its numbers
/// are at the left or not. `Stop::Fault` also where more than Spaces and `\relax` follows its rows.
pub fn read_display<T, R: Roles<T>>(
    arena: &mut Arena,
    grammar: Grammar<'_, R>,
    preamble: Preamble,
    left: bool,
    tokens: &[T],
) -> Result<SpanBody, Stop>
    ensures is { ReadsWhole body_in result arena.old arena.new
        (whole display_rows (R.codes grammar.entry.roles.now) grammar.entry.units preamble left
        (map (R.token grammar.entry.roles.now) tokens.now)) }
    ensures within { IfOk result (λ body. body_end body ≤ length arena.new.closed) }
    ensures lists { IfOk result (BodyLists arena.new.closed) }
{
    let rows = read_table(arena, grammar, preamble, 1, tokens)?;
    let behind = after_blanks(grammar.roles, rows.rest);
    match behind {
        [token, ..] => Err(Stop::at(cause_behind(grammar.roles.role_of(token)), behind.len())),
        [] => Ok(display_body(arena, preamble, left, rows.value)?),
    }
}
