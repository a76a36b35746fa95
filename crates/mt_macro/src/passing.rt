//! Items that name no macro.
ghost use Rattle.std.specs.Prelude.{◌≡◌, ◌<◌, ◌^◌, ◌++◌, ◌∷◌, [], IfOk, OnOk, length, map};
ghost use Rattle.mt_macro.specs.Origins.{put_as};
ghost use Rattle.mt_macro.specs.inner.Runs.{sources, left_of, read_at, IsCallIn, call_at, AreLeft};
ghost use Rattle.mt_macro.specs.inner.Passing.{PushesPlain, TakesMacro};

use crate::bodies::{Bodies, Call, Found};
use crate::run::Place;
use crate::stack::{Parts, Rest, item_at, items_in, items_of, next_basic, put_from};
use std::alloc::{AllocError, Global};

/// The next macro.
#[derive(Drop)]
pub struct NextMacro<'a, T> {
    /// The macro.
    pub found: Found,
    /// The index of its call, as that of a body.
    pub call: usize,
    /// The item that names it.
    pub item: &'a T,
    /// The call of the body that this item is from, if it is not of the list given.
    pub origin: Option<Call<'a, T>>,
}

// The call of the body that the items of a run are from.
fn origin_of<'a, T, B: Bodies<T>>(tables: &B, list: &'a [T], place: Place) -> Option<Call<'a, T>>
    requires { IsCallIn list.now place }
    ensures { put_as (B.token tables.now) (B.placed tables.now) result
        ≡ read_at (B.token tables.now) (B.placed tables.now) list.now place }
{
    match place {
        Place::Body(called) => Some(Call {
            body: called.number,
            item: item_at(list, called.call),
        }),
        Place::Given | Place::Argument(_) | Place::Remainder(_) => None,
    }
}

// The index of the call, of a macro at an index of a place.
fn call_at(place: Place, index: usize) -> usize
    ensures { result ≡ call_at place index }
{
    match place {
        Place::Body(called) => called.call,
        Place::Given | Place::Argument(_) | Place::Remainder(_) => index,
    }
}

/// Puts an item at the end once more.
pub fn push_again<T: Drop, B: Bodies<T>>(
    tables: &B,
    alloc: Global,
    item: &T,
    origin: &Option<Call<'_, T>>,
    out: &mut Vec<T>,
) -> Result<(), AllocError>
    ensures { OnOk result (map (B.token tables.now) out.new.items
        ≡ map (B.token tables.now) out.old.items
        ++ put_as (B.token tables.now) (B.placed tables.now) origin.now item.now ∷ []) }
{
    out.push(tables.put(alloc, item, origin)?)?;
    Ok(())
}

// How many items are before the first macro of a list, and this macro, if there is one.
#[derive(Clone, Copy)]
struct PlainFront {
    count: usize,
    stop: Option<Found>,
}

// Puts the items before the first macro at the end.
fn push_plain<T: Drop, B: Bodies<T>>(
    tables: &B,
    alloc: Global,
    items: &[T],
    origin: &Option<Call<'_, T>>,
    out: &mut Vec<T>,
) -> Result<PlainFront, AllocError>
    ensures { IfOk result (λ front. PushesPlain (B.macros tables.now) (B.body tables.now)
        (map (put_as (B.token tables.now) (B.placed tables.now) origin.now) items.now) front
        (map (B.token tables.now) out.old.items) (map (B.token tables.now) out.new.items)) }
{
    let mut count = 0;
    let mut rest = items;
    while let [item, after @ ..] = rest {
        if let Some(found) = tables.macro_at(item) {
            return Ok(PlainFront {
                count,
                stop: Some(found),
            });
        }
        push_again(tables, alloc, item, origin, out)?;
        count += 1;
        rest = after;
    }
    Ok(PlainFront { count, stop: None })
}

/// Passes the items up to the next macro, and takes this macro, if there is one.
pub fn next_macro<'a, T: Drop, B: Bodies<T>>(
    tables: &'a B,
    alloc: Global,
    list: &'a [T],
    parts: &Parts,
    rest: &mut Rest,
    out: &mut Vec<T>,
) -> Result<Option<NextMacro<'a, T>>, AllocError>
    requires left { AreLeft (sources (B.token tables.now) (B.placed tables.now) (B.body tables.now) list.now)
        parts.now.runs.items rest.old }
    requires short { length (left_of (sources (B.token tables.now) (B.placed tables.now) (B.body tables.now) list.now)
        parts.now.runs.items rest.old) < 2 ^ 62 }
    ensures { IfOk result (λ next. TakesMacro (B.token tables.now) (B.macros tables.now)
        (B.placed tables.now) (B.body tables.now)
        (sources (B.token tables.now) (B.placed tables.now) (B.body tables.now) list.now) parts.now.runs.items rest.old rest.new
        (map (B.token tables.now) out.old.items) (map (B.token tables.now) out.new.items) next) }
{
    while let Some(run) = next_basic(tables, list, parts, rest)? {
        let items = items_in(items_of(tables, list, run.place), run.start, run.end);
        let origin = origin_of(tables, list, run.place);
        let front = push_plain(tables, alloc, items, &origin, out)?;
        if let Some(found) = front.stop {
            let index = run.start + front.count;
            put_from(tables, list, parts, run, index + 1, rest)?;
            return Ok(Some(NextMacro {
                found,
                call: call_at(run.place, index),
                item: item_at(items, front.count),
                origin,
            }));
        }
    }
    Ok(None)
}
