//! The equations of a display (plain TeX's `\eqalignno`; The TeXbook, chapter 19).
ghost use Rattle.std.specs.Prelude.{◌≡◌, ◌≤◌, length};
ghost use Rattle.mt_arena.specs.Arena.{rows_in, sequence_in};
ghost use Rattle.mt_arena.specs.Keeping.{KeptList};
ghost use Rattle.mt_rules.specs.Equations.{equation_of, first_cell, other_cells};
ghost use Rattle.mt_arena.specs.Formulas.{EquationLists, equation_end, equation_in};

use crate::{Arena, Span, next_row};

/// The lists of an equation in an arena. An absent one is empty.
#[derive(Clone, Copy)]
pub struct EquationSpans {
    /// The left side.
    pub first: Span,
    /// The right side.
    pub second: Span,
    /// The number.
    pub number: Span,
}

/// Takes off the next one of these cells, and answers its list; an empty one where there is none.
pub fn next_cell(arena: &Arena, cells: &mut Span) -> Span
    requires { cells.old.end ≤ length arena.now.closed }
    ensures is { sequence_in arena.now.closed result ≡ first_cell (rows_in arena.now.closed cells.old) }
    ensures rest { rows_in arena.now.closed cells.new ≡ other_cells (rows_in arena.now.closed cells.old) }
    ensures within { result.end ≤ length arena.now.closed }
    ensures lists { KeptList (sequence_in arena.now.closed result) }
    ensures end { cells.new.end ≡ cells.old.end }
{
    match next_row(arena, cells) {
        Some(cell) => cell,
        None => Span { start: 0, end: 0 },
    }
}

/// The equation of these cells: its left side, its right side and its number.
pub fn equation_spans(arena: &Arena, cells: Span) -> EquationSpans
    requires { cells.end ≤ length arena.now.closed }
    ensures is { equation_in arena.now.closed result ≡ equation_of (rows_in arena.now.closed cells) }
    ensures within { equation_end result ≤ length arena.now.closed }
    ensures lists { EquationLists arena.now.closed result }
{
    let mut rest = cells;
    let first = next_cell(arena, &mut rest);
    let second = next_cell(arena, &mut rest);
    let number = next_cell(arena, &mut rest);
    EquationSpans {
        first,
        second,
        number,
    }
}
