//! A body with arguments in place of its parameters.
ghost use Rattle.std.specs.Prelude.{◌≡◌, ◌<◌, ◌≤◌, ◌+◌, ◌-◌, ◌^◌, ◌++◌, IsTrue, IfSome, OnOk, [], length, map, get_or};
ghost use Rattle.mt_token.specs.Character.{character_code};
ghost use Rattle.mt_macro.specs.inner.Bodies.{begins_parameter, has_no_token, next_parameter};
ghost use Rattle.mt_macro.specs.inner.Ends.{joined};
ghost use Rattle.mt_macro.specs.inner.Runs.{sources, called_body, meanings, left_of, part, all_tokens, AreGiven, AreShort, AreRuns, AreLeft};
ghost use Rattle.mt_macro.specs.inner.Fillings.{Fills, Puts};

use crate::bodies::Bodies;
use crate::parameters::is_hash;
use crate::run::{Called, Place, Run};
use crate::stack::{Parts, Rest, item_at, items_in};
use mt_token::Lexicon;
use std::alloc::AllocError;

// The index of a parameter's argument, by its digit.
fn index_of<T, L: Lexicon<T>>(tables: &L, digit: &T) -> usize
    ensures { result ≡ character_code (L.token tables.now digit.now).kind - 49 }
{
    usize::from(tables.code(digit).saturating_sub(b'1'))
}

// Whether there are no items.
fn has_none<T, L: Lexicon<T>>(tables: &L, items: &[T]) -> bool
    ensures is { result ≡ has_no_token (map (L.token tables.now) items.now) }
{
    items.is_empty()
}

// Whether an item is a `#` before another item.
fn begins_parameter<T, L: Lexicon<T>>(tables: &L, item: &T, after: &[T]) -> bool
    ensures { result ≡ begins_parameter (L.token tables.now item.now)
        (map (L.token tables.now) after.now) }
{
    is_hash(tables, item) && !has_none(tables, after)
}

// The index of the first `#` that an item follows.
fn next_parameter<T, L: Lexicon<T>>(tables: &L, items: &[T]) -> Option<usize>
    ensures is { result ≡ next_parameter (map (L.token tables.now) items.now) }
    ensures within { IfSome result (λ index. index + 1 < length items.now) }
{
    let mut index = 0;
    let mut rest = items;
    while let [item, after @ ..] = rest {
        if begins_parameter(tables, item, after) {
            return Some(index);
        }
        index += 1;
        rest = after;
    }
    None
}

/// Fills a list with the runs of a body with arguments in place of its parameters.
pub fn fill<T, B: Bodies<T>>(
    tables: &B,
    list: &[T],
    parts: &Parts,
    called: Called,
    taken: &[Run],
    filled: &mut Rest,
) -> Result<(), AllocError>
    requires given { AreGiven (sources (B.token tables.now) (B.placed tables.now) (B.body tables.now) list.now)
        (meanings (sources (B.token tables.now) (B.placed tables.now) (B.body tables.now) list.now) parts.now.runs.items)
        taken.now }
    requires short { AreShort taken.now }
    requires call { called.call < length list.now }
    ensures { OnOk result (Fills (sources (B.token tables.now) (B.placed tables.now) (B.body tables.now) list.now)
        (meanings (sources (B.token tables.now) (B.placed tables.now) (B.body tables.now) list.now) parts.now.runs.items)
        (called_body (B.placed tables.now) (map (B.token tables.now) list.now) (B.body tables.now) called)
        taken.now filled.new) }
{
    filled.runs.clear();
    filled.count = 0;
    let body = tables.body(called.number);
    let mut at = 0;
    while let Some(index) = next_parameter(tables, items_in(body, at, body.len())) {
        put_items(tables, list, parts, called, at, at + index, filled)?;
        let digit = index_of(tables, item_at(body, at + index + 1));
        put_given(tables, list, parts, taken, digit, filled)?;
        at += index + 2;
    }
    put_items(tables, list, parts, called, at, body.len(), filled)
}

// Puts items of a body at the end.
fn put_items<T, B: Bodies<T>>(
    tables: &B,
    list: &[T],
    parts: &Parts,
    called: Called,
    start: usize,
    end: usize,
    filled: &mut Rest,
) -> Result<(), AllocError>
    requires within { end ≤ length (B.body tables.now called.number) }
    requires call { called.call < length list.now }
    requires room { filled.old.count + (end - start) < 2 ^ 64 }
    ensures { OnOk result (Puts (sources (B.token tables.now) (B.placed tables.now) (B.body tables.now) list.now)
        (meanings (sources (B.token tables.now) (B.placed tables.now) (B.body tables.now) list.now) parts.now.runs.items)
        filled.old filled.new (part start end (called_body (B.placed tables.now) (map (B.token tables.now) list.now)
        (B.body tables.now) called))) }
{
    if start >= end {
        return Ok(());
    }
    filled.runs.push(Run {
        place: Place::Body(called),
        start,
        end,
    })?;
    filled.count += end - start;
    Ok(())
}

// The argument with an index.
fn argument_at(taken: &[Run], index: usize) -> Run
    requires { index < length taken.now }
    ensures { result ≡ get_or taken.now index result }
{
    taken[index]
}

// Puts a parameter's argument at the end.
fn put_given<T, B: Bodies<T>>(
    tables: &B,
    list: &[T],
    parts: &Parts,
    taken: &[Run],
    index: usize,
    filled: &mut Rest,
) -> Result<(), AllocError>
    requires given { AreGiven (sources (B.token tables.now) (B.placed tables.now) (B.body tables.now) list.now)
        (meanings (sources (B.token tables.now) (B.placed tables.now) (B.body tables.now) list.now) parts.now.runs.items)
        taken.now }
    requires short { AreShort taken.now }
    requires room { filled.old.count < 2 ^ 63 + 2 ^ 62 }
    ensures { OnOk result (Puts (sources (B.token tables.now) (B.placed tables.now) (B.body tables.now) list.now)
        (meanings (sources (B.token tables.now) (B.placed tables.now) (B.body tables.now) list.now) parts.now.runs.items)
        filled.old filled.new
        (get_or (all_tokens (sources (B.token tables.now) (B.placed tables.now) (B.body tables.now) list.now)
        (meanings (sources (B.token tables.now) (B.placed tables.now) (B.body tables.now) list.now) parts.now.runs.items)
        taken.now) index [])) }
{
    if index >= taken.len() {
        return Ok(());
    }
    let run = argument_at(taken, index);
    let count = run.len();
    if count == 0 {
        return Ok(());
    }
    filled.runs.push(run)?;
    filled.count += count;
    Ok(())
}

/// Puts runs, such as those of a filled body, before the rest.
pub fn put_filled<T, B: Bodies<T>>(
    tables: &B,
    list: &[T],
    parts: &Parts,
    filled: &mut Rest,
    rest: &mut Rest,
) -> Result<(), AllocError>
    requires left { AreLeft (sources (B.token tables.now) (B.placed tables.now) (B.body tables.now) list.now)
        parts.now.runs.items rest.old }
    requires runs { AreRuns (sources (B.token tables.now) (B.placed tables.now) (B.body tables.now) list.now)
        (meanings (sources (B.token tables.now) (B.placed tables.now) (B.body tables.now) list.now) parts.now.runs.items)
        filled.old.runs.items }
    requires short { length (left_of (sources (B.token tables.now) (B.placed tables.now) (B.body tables.now) list.now)
        parts.now.runs.items rest.old)
        + length (joined (all_tokens (sources (B.token tables.now) (B.placed tables.now) (B.body tables.now) list.now)
        (meanings (sources (B.token tables.now) (B.placed tables.now) (B.body tables.now) list.now) parts.now.runs.items)
        filled.old.runs.items)) < 2 ^ 63 }
    ensures left { OnOk result (AreLeft (sources (B.token tables.now) (B.placed tables.now) (B.body tables.now) list.now)
        parts.now.runs.items rest.new) }
    ensures is { OnOk result (left_of (sources (B.token tables.now) (B.placed tables.now) (B.body tables.now) list.now)
        parts.now.runs.items rest.new
        ≡ joined (all_tokens (sources (B.token tables.now) (B.placed tables.now) (B.body tables.now) list.now)
        (meanings (sources (B.token tables.now) (B.placed tables.now) (B.body tables.now) list.now) parts.now.runs.items)
        filled.old.runs.items)
        ++ left_of (sources (B.token tables.now) (B.placed tables.now) (B.body tables.now) list.now) parts.now.runs.items
        rest.old) }
{
    while let Some(run) = filled.runs.pop() {
        rest.runs.push(run)?;
        rest.count += run.len();
    }
    Ok(())
}
