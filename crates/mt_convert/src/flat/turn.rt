//! One turn at the front of a list in an arena (The TeXbook, Appendix G, rules 2 to 4 and 14).
ghost use Rattle.std.specs.Prelude.{◌≡◌, Bool, IfOk, IfSome, List, OnOk};
ghost use Rattle.mt_arena.specs.Arena.{Held, value_in};
ghost use Rattle.mt_arena.specs.Rest.{more_of, rest_in, IsFree, KeptItem, KeptRest};
ghost use Rattle.mt_arena.specs.declared.thing.Thing.TheVariants.{Atom as AtomThing};
ghost use Rattle.mt_convert.specs.inner.Boundaries.{LeavesBy, RestOfList};
ghost use Rattle.mt_convert.specs.inner.Spans.{passed_in, turn_of_held};
ghost use Rattle.mt_convert.specs.inner.Turns.{kern_of, turned_by};

use crate::flat::current::Current;
use crate::flat::front::{begins_with_space, choose, join, next_symbol};
use crate::flat::joining::{first_symbol, pair_of_fonts, symbol_pair};
use crate::flat::passed::{Joined, JoiningRole};
use mt_arena::{Arena, Noad, Rest, Thing};
use mt_family::{FontSet, Size};
use mt_rules::Symbol;
use mt_tfm::Pair;
use std::alloc::AllocError;

// Passes the front, which was just taken off the rest, on to be set, with what joining makes of it, or rewrites the
// rest, which is then looked at again.
pub(crate) fn turn(
    fonts: &FontSet,
    arena: &Arena,
    current: Current,
    front: &Thing,
    rest: &mut Rest,
) -> Result<Option<Joined>, AllocError>
    requires front { KeptItem arena.now.closed front.now }
    requires kept { KeptRest arena.now.closed rest.old }
    requires free { IsFree rest.old }
    ensures turns { IfOk result (λ passed. turned_by (passed_in arena.now.closed front.now) passed (rest_in arena.now.closed rest.new)
        ≡ turn_of_held fonts.now current (value_in arena.now.closed front.now) (rest_in arena.now.closed rest.old)) }
    ensures boundaries { IfOk result (λ passed. (enclosed : Bool) →
        RestOfList enclosed (more_of (value_in arena.now.closed front.now) (rest_in arena.now.closed rest.old))
        → LeavesBy (passed_in arena.now.closed front.now) enclosed passed (rest_in arena.now.closed rest.new)) }
    ensures kern { IfOk result (λ passed. IfSome passed (λ joined. (es : List Held)
        → joined.kern ≡ kern_of (passed_in es front.now joined))) }
    ensures kept { OnOk result (KeptRest arena.now.closed rest.new) }
{
    match front {
        Thing::Atom(noad) => Ok(turn_atom(fonts, arena, current, noad, rest)),
        Thing::Choice(spans) => {
            choose(rest, current.style, *spans)?;
            Ok(None)
        }
        Thing::Nonscript => {
            if current.style.size() != Size::Text && begins_with_space(arena, rest) {
                rest.pop(arena);
            }
            Ok(Some(Joined::ALONE))
        }
        Thing::Fraction(_)
        | Thing::Left(_)
        | Thing::Middle(_)
        | Thing::Right(_)
        | Thing::Style(_)
        | Thing::MuSpace(_)
        | Thing::Space(_)
        | Thing::MuKern(_)
        | Thing::Kern(_) => Ok(Some(Joined::ALONE)),
        // These are no items.
        Thing::Row(_) | Thing::Cells(_) | Thing::Root(_) => Ok(None),
    }
}

// An atom passes, or a ligature makes it and the next one a single atom.
fn turn_atom(
    fonts: &FontSet,
    arena: &Arena,
    current: Current,
    noad: &Noad,
    rest: &mut Rest,
) -> Option<Joined>
    requires front { KeptItem arena.now.closed (AtomThing noad.now) }
    requires kept { KeptRest arena.now.closed rest.old }
    ensures turns { turned_by (passed_in arena.now.closed (AtomThing noad.now)) result (rest_in arena.now.closed rest.new)
        ≡ turn_of_held fonts.now current (value_in arena.now.closed (AtomThing noad.now)) (rest_in arena.now.closed rest.old) }
    ensures boundaries { (enclosed : Bool) → RestOfList enclosed (rest_in arena.now.closed rest.old)
        → LeavesBy (passed_in arena.now.closed (AtomThing noad.now)) enclosed result (rest_in arena.now.closed rest.new) }
    ensures kept { KeptRest arena.now.closed rest.new }
{
    let Some(first) = first_symbol(current.last, noad) else {
        return Some(Joined::ALONE);
    };
    let Some(pair) = symbol_pair(Some(first), next_symbol(arena, rest)) else {
        return Some(Joined::ALONE);
    };
    match pair_of_fonts(fonts, current.style, pair) {
        None => Some(Joined::ALONE),
        Some(Pair::None) => Some(Joined::TEXT),
        Some(Pair::Kern(amount)) => Some(Joined {
            kern: Some(amount),
            ..Joined::TEXT
        }),
        Some(Pair::Smart) => {
            let role = JoiningRole::Smart {
                first: pair.first,
                second: pair.second,
            };
            Some(Joined { role, kern: None })
        }
        Some(Pair::Join(code)) => {
            let symbol = Symbol {
                fam: pair.fam,
                code,
            };
            join(arena, rest, symbol);
            None
        }
    }
}
