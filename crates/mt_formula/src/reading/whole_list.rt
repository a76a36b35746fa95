//! Lists that are read whole, and what they are as a part of an atom.
ghost use Rattle.std.specs.Prelude.{◌≡◌, IfOk, IfSome, OnOk, true};
ghost use Rattle.std.specs.Option.{option_map};
ghost use Rattle.mt_arena.specs.Arena.{as_sequence, cell_part, sequence_in};
ghost use Rattle.mt_formula.specs.Atoms.{append, group_atom, last_atom_items, nucleus_of, only_atom};
ghost use Rattle.mt_formula.specs.reading.Inside.{are_inside};
ghost use Rattle.mt_formula.specs.reading.Noads.{KeptField, KeptLast, KeptNoad, OpenNoad, last_held, last_in, noad_in};
ghost use Rattle.mt_formula.specs.reading.Reads.{Adds, Closes, Grows};
ghost use Rattle.mt_formula.specs.reading.WholeLists.{KeptSpan, KeptWhole, list_in};

use crate::reading::noads::{is_accent, is_bare, plain_noad};
use mt_arena::{Arena, Cell, Noad, Span, Thing};
use mt_rules::{Class, Kind};
use std::alloc::AllocError;

/// A list that is read whole.
#[derive(Clone, Copy)]
pub enum WholeList {
    /// One atom, which is not in the arena yet.
    Alone(Noad),
    /// The things of a span.
    Spanned(Span),
}

/// Puts the atom at hand behind the items of the innermost open list.
pub fn push_last(arena: &mut Arena, last: &Option<Noad>) -> Result<(), AllocError>
    requires { KeptLast arena.old.closed last.now }
    ensures adds { OnOk result (Adds arena.old arena.new (last_held arena.old.closed last.now)) }
    ensures closed { arena.new.closed ≡ arena.old.closed }
{
    match last {
        Some(noad) => arena.push(Thing::Atom(*noad)),
        None => Ok(()),
    }
}

/// Closes the innermost open list, of which this is the last atom.
pub fn close_list(arena: &mut Arena, last: &Option<Noad>) -> Result<Span, AllocError>
    requires last { KeptLast arena.old.closed last.now }
    requires inside { are_inside arena.old.top ≡ true }
    ensures is { IfOk result (λ span. sequence_in arena.new.closed span
        ≡ append (as_sequence arena.old.top) (last_atom_items (last_in arena.old.closed last.now))) }
    ensures kept { IfOk result (KeptSpan arena.new.closed) }
    ensures closes { OnOk result (Closes arena.old arena.new) }
{
    push_last(arena, last)?;
    arena.close()
}

/// Takes the innermost open list, of which this is the last atom, as a list that is read whole.
pub fn finish_list(arena: &mut Arena, last: &Option<Noad>) -> Result<WholeList, AllocError>
    requires last { KeptLast arena.old.closed last.now }
    requires inside { are_inside arena.old.top ≡ true }
    ensures is { IfOk result (λ list. list_in arena.new.closed list
        ≡ append (as_sequence arena.old.top) (last_atom_items (last_in arena.old.closed last.now))) }
    ensures kept { IfOk result (KeptWhole arena.new.closed) }
    ensures closes { OnOk result (Closes arena.old arena.new) }
{
    if let Some(noad) = last {
        if arena.is_open_list_empty() {
            arena.join();
            return Ok(WholeList::Alone(*noad));
        }
    }
    Ok(WholeList::Spanned(close_list(arena, last)?))
}

/// The span of a list.
pub fn span_of(arena: &mut Arena, list: WholeList) -> Result<Span, AllocError>
    requires { KeptWhole arena.old.closed list }
    ensures is { IfOk result (λ span. sequence_in arena.new.closed span ≡ list_in arena.old.closed list) }
    ensures kept { IfOk result (KeptSpan arena.new.closed) }
    ensures grows { OnOk result (Grows arena.old arena.new) }
{
    match list {
        WholeList::Spanned(span) => Ok(span),
        WholeList::Alone(noad) => {
            arena.begin()?;
            close_list(arena, &Some(noad))
        }
    }
}

// The atom that the things of a span are, where they are one atom.
fn atom_of_span(arena: &Arena, span: Span) -> Option<Noad>
    requires { KeptSpan arena.now.closed span }
    ensures is { option_map (noad_in arena.now.closed) result ≡ only_atom (sequence_in arena.now.closed span) }
    ensures kept { IfSome result (KeptNoad arena.now.closed) }
{
    if span.end.saturating_sub(span.start) != 1 {
        return None;
    }
    match arena.thing(span.start as usize) {
        Thing::Atom(noad) => Some(*noad),
        _ => None,
    }
}

/// The atom that a list is, where it is one atom.
pub fn only_noad(arena: &Arena, list: WholeList) -> Option<Noad>
    requires { KeptWhole arena.now.closed list }
    ensures is { option_map (noad_in arena.now.closed) result ≡ only_atom (list_in arena.now.closed list) }
    ensures kept { IfSome result (KeptNoad arena.now.closed) }
{
    match list {
        WholeList::Alone(noad) => Some(noad),
        WholeList::Spanned(span) => atom_of_span(arena, span),
    }
}

/// The field that a group of this list is: the nucleus of its one Ord atom without scripts, where that is a field,
/// or else the list.
pub fn nucleus_of(arena: &mut Arena, list: WholeList) -> Result<Cell, AllocError>
    requires { KeptWhole arena.old.closed list }
    ensures is { IfOk result (λ cell. cell_part arena.new.closed cell ≡ nucleus_of (list_in arena.old.closed list)) }
    ensures kept { IfOk result (KeptField arena.new.closed) }
    ensures grows { OnOk result (Grows arena.old arena.new) }
{
    match only_noad(arena, list) {
        Some(noad) if is_bare(&noad) => Ok(noad.nucleus),
        _ => Ok(Cell::List(span_of(arena, list)?)),
    }
}

/// The atom that a group of this list is: its one accent atom, or an Ord.
pub fn group_noad(arena: &mut Arena, list: WholeList) -> Result<Noad, AllocError>
    requires { KeptWhole arena.old.closed list }
    ensures is { IfOk result (λ noad. noad_in arena.new.closed noad ≡ group_atom (list_in arena.old.closed list)) }
    ensures kept { IfOk result (OpenNoad arena.new.closed) }
    ensures grows { OnOk result (Grows arena.old arena.new) }
{
    match only_noad(arena, list) {
        Some(noad) if is_accent(&noad) => Ok(noad),
        _ => Ok(plain_noad(Kind::Plain(Class::Ord), nucleus_of(arena, list)?)),
    }
}
