//! Rows in an arena, one by one: those of a field, and those of a table.
ghost use Rattle.std.specs.Prelude.{◌≡◌, ◌≤◌, IfNone, IfSome, MatchOption, length};
ghost use Rattle.mt_rules.specs.Sequence.{MoreRows, MoreTableRows, NoRows, NoTableRows};
ghost use Rattle.mt_arena.specs.Arena.{grid_in, rows_in, sequence_in};
ghost use Rattle.mt_arena.specs.Keeping.{KeptList};

use crate::{Arena, Span, Thing};

/// Takes off the next one of these rows, or of the cells of a row of a table, and answers its list; `None` where there
/// is none. Things that are no rows are passed over.
pub fn next_row(arena: &Arena, rows: &mut Span) -> Option<Span>
    requires { rows.old.end ≤ length arena.now.closed }
    ensures is { MatchOption result (rows_in arena.now.closed rows.old ≡ NoRows)
        (λ list. rows_in arena.now.closed rows.old
        ≡ MoreRows (sequence_in arena.now.closed list) (rows_in arena.now.closed rows.new)) }
    ensures within { IfSome result (λ list. list.end ≤ length arena.now.closed) }
    ensures lists { IfSome result (λ list. KeptList (sequence_in arena.now.closed list)) }
    ensures none { IfNone result (rows_in arena.now.closed rows.new ≡ NoRows) }
    ensures end { rows.new.end ≡ rows.old.end }
{
    while rows.start < rows.end {
        let thing = arena.thing(rows.start as usize);
        rows.start += 1;
        if let Thing::Row(list) = thing {
            return Some(*list);
        }
    }
    None
}

/// Takes off the next one of these rows of a table, and answers its cells; `None` where there is none. Things that are
/// no rows of a table are passed over.
pub fn next_cells(arena: &Arena, rows: &mut Span) -> Option<Span>
    requires { rows.old.end ≤ length arena.now.closed }
    ensures is { MatchOption result (grid_in arena.now.closed rows.old ≡ NoTableRows)
        (λ cells. grid_in arena.now.closed rows.old
        ≡ MoreTableRows (rows_in arena.now.closed cells) (grid_in arena.now.closed rows.new)) }
    ensures within { IfSome result (λ cells. cells.end ≤ length arena.now.closed) }
    ensures end { rows.new.end ≡ rows.old.end }
{
    while rows.start < rows.end {
        let thing = arena.thing(rows.start as usize);
        rows.start += 1;
        if let Thing::Cells(cells) = thing {
            return Some(*cells);
        }
    }
    None
}
