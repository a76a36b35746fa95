//! Lists of one atom alone. Their row is that of the atom, so they need no passes. Where the atom is an ordinary symbol,
//! their clean box is that of the symbol.
ghost use Rattle.std.specs.Prelude.{◌≡◌, IfSome};
ghost use Rattle.mt_rules.specs.Sequence.{End, More};
ghost use Rattle.mt_family.specs.SetValue.{SetValue};
ghost use Rattle.mt_rules.specs.Nuclei.{clean_list, clean_symbol};
ghost use Rattle.mt_rules.specs.declared.style.Style.{Style};
ghost use Rattle.mt_arena.specs.Arena.{sequence_in};
ghost use Rattle.mt_convert.specs.inner.Fields.{list_content};
ghost use Rattle.mt_convert.specs.inner.Spans.{ModestAtom, ModestSpan, atom_in};

use crate::flat::joining::first_symbol;
use mt_arena::{Arena, Noad, Span, Thing};
use mt_rules::Symbol;

// The atom of a list that has nothing else.
pub(crate) fn lone_atom(arena: &Arena, list: Span) -> Option<Noad>
    requires { ModestSpan arena.now.closed list }
    ensures is { IfSome result (λ atom. sequence_in arena.now.closed list ≡ More (atom_in arena.now.closed atom) End) }
    ensures modest { IfSome result (ModestAtom arena.now.closed) }
{
    if list.end.saturating_sub(list.start) != 1 {
        return None;
    }
    match arena.thing(list.start as usize) {
        Thing::Atom(atom) => Some(*atom),
        _ => None,
    }
}

// The symbol of a list that has an ordinary one without scripts and nothing else.
pub(crate) fn lone_symbol(arena: &Arena, list: Span) -> Option<Symbol>
    requires { ModestSpan arena.now.closed list }
    ensures { IfSome result (λ symbol. (fonts : SetValue) (style : Style)
        → clean_list (list_content fonts (sequence_in arena.now.closed list)) style ≡ clean_symbol fonts style symbol) }
{
    match lone_atom(arena, list) {
        Some(atom) => first_symbol(None, &atom),
        None => None,
    }
}
