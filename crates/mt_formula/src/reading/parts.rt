//! What is in a list before, or put round it after, what is written there.
ghost use Rattle.std.specs.Prelude.{◌≡◌, IfOk, OnOk, List, true};
ghost use Rattle.mt_arena.specs.Arena.{Held, as_sequence, sequence_in};
ghost use Rattle.mt_formula.specs.Atoms.{prime_items};
ghost use Rattle.mt_formula.specs.Tables.{cell_list, cell_start, displayed_group};
ghost use Rattle.mt_formula.specs.reading.Inside.{are_inside};
ghost use Rattle.mt_formula.specs.reading.Noads.{KeptLast, last_in};
ghost use Rattle.mt_formula.specs.reading.Reads.{Grows, Opens};
ghost use Rattle.mt_formula.specs.reading.WholeLists.{KeptSpan, KeptWhole, list_in};

use crate::actions::table_form::Column;
use crate::reading::noads::{plain_noad, prime_noad};
use crate::reading::whole_list::{WholeList, close_list, group_noad, span_of};
use mt_arena::{Arena, Cell, Noad, Span, Thing};
use mt_rules::{Class, Kind, Style};
use std::alloc::AllocError;

/// Opens a list that begins with so many primes.
pub fn begin_primes(arena: &mut Arena, count: usize) -> Result<(), AllocError>
    ensures opens { OnOk result (Opens arena.old arena.new) }
    ensures is { OnOk result (as_sequence arena.new.top ≡ prime_items count) }
    ensures inside { OnOk result (are_inside arena.new.top ≡ true) }
{
    arena.begin()?;
    for _put in 0..count {
        arena.push(Thing::Atom(prime_noad()))?;
    }
    Ok(())
}

/// The atom at hand in a cell of this column before what is written there.
pub fn cell_start(column: Column) -> Option<Noad>
    ensures is { (es : List Held) → last_in es result ≡ cell_start column }
    ensures kept { (es : List Held) → KeptLast es result }
{
    match column {
        Column::Plain | Column::LeftSide => None,
        Column::RightSide => {
            let empty = Cell::List(Span { start: 0, end: 0 });
            Some(plain_noad(Kind::Plain(Class::Ord), empty))
        }
    }
}

// `\displaystyle`, and this list as a group.
fn displayed_group(arena: &mut Arena, list: WholeList) -> Result<Span, AllocError>
    requires { KeptWhole arena.old.closed list }
    ensures is { IfOk result (λ span. sequence_in arena.new.closed span ≡ displayed_group (list_in arena.old.closed list)) }
    ensures kept { IfOk result (KeptSpan arena.new.closed) }
    ensures grows { OnOk result (Grows arena.old arena.new) }
{
    let group = group_noad(arena, list)?;
    arena.begin()?;
    arena.push(Thing::Style(Style::D))?;
    close_list(arena, &Some(group))
}

/// The list of a cell of this column, of all that is in it.
pub fn cell_list(arena: &mut Arena, column: Column, list: WholeList) -> Result<Span, AllocError>
    requires { KeptWhole arena.old.closed list }
    ensures is { IfOk result (λ span. sequence_in arena.new.closed span ≡ cell_list column (list_in arena.old.closed list)) }
    ensures kept { IfOk result (KeptSpan arena.new.closed) }
    ensures grows { OnOk result (Grows arena.old arena.new) }
{
    match column {
        Column::Plain => span_of(arena, list),
        Column::LeftSide | Column::RightSide => displayed_group(arena, list),
    }
}
