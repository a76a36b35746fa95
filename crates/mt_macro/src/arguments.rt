//! The arguments of a macro.
ghost use Rattle.std.specs.Prelude.{◌≡◌, ◌<◌, ◌≤◌, ◌+◌, ◌^◌, [], IfOk, OnOk, length, take, map, get_or};
ghost use Rattle.mt_macro.specs.Braces.{group};
ghost use Rattle.mt_macro.specs.Arguments.{argument, arguments};
ghost use Rattle.mt_macro.specs.inner.Ends.{AreEnds};
ghost use Rattle.mt_macro.specs.inner.Lengths.{IsWhole, IsBasic};
ghost use Rattle.mt_macro.specs.inner.Runs.{sources, meanings, run_tokens, left_of, IsRun, AreParts, AreLeft, TakesRun, TakesRuns};
ghost use Rattle.mt_macro.specs.inner.Runs.{IsEndsOf, ClosesRun, Pushes, PushesAll};

use crate::bodies::Bodies;
use crate::braces::{is_close, is_open};
use crate::closing::{Closing, ends_from, leave_group};
use crate::run::{Place, Run};
use crate::stack::{Parts, Rest, items_in, items_of, next_run, next_token, put_from};
use std::alloc::AllocError;

// Where a run leaves a group in which so many groups are open before it.
fn closing_of<T, B: Bodies<T>>(
    tables: &B,
    list: &[T],
    ends: &[u32],
    parts: &Parts,
    run: Run,
    level: usize,
) -> Closing
    requires ends { AreEnds (map (B.token tables.now) list.now) ends.now }
    requires run { IsRun (sources (B.token tables.now) (B.placed tables.now) (B.body tables.now) list.now)
        (meanings (sources (B.token tables.now) (B.placed tables.now) (B.body tables.now) list.now) parts.now.runs.items)
        run }
    requires whole { IsWhole run.place }
    requires short { level + length (run_tokens (sources (B.token tables.now) (B.placed tables.now) (B.body tables.now)
        list.now) (meanings (sources (B.token tables.now) (B.placed tables.now) (B.body tables.now) list.now)
        parts.now.runs.items) run) < 2 ^ 63 }
    ensures { ClosesRun (sources (B.token tables.now) (B.placed tables.now) (B.body tables.now) list.now)
        (meanings (sources (B.token tables.now) (B.placed tables.now) (B.body tables.now) list.now) parts.now.runs.items)
        level run result }
{
    if run.is_opened() {
        Closing::Open(level)
    } else {
        leave_group(
            tables,
            items_in(items_of(tables, list, run.place), run.start, run.end),
            ends_in(ends, run),
            level,
        )
    }
}

// The ends that are known from the first item of a run on.
fn ends_in(ends: &[u32], run: Run) -> &[u32]
    ensures { IsEndsOf ends.now run result.now }
{
    match run.place {
        Place::Given => ends_from(ends, run.start),
        Place::Body(_) | Place::Argument(_) | Place::Remainder(_) => &[],
    }
}

// Puts a run behind the parts of an argument.
fn push_part<T, B: Bodies<T>>(
    tables: &B,
    list: &[T],
    parts: &mut Parts,
    run: Run,
) -> Result<(), AllocError>
    requires parts { AreParts (sources (B.token tables.now) (B.placed tables.now) (B.body tables.now) list.now) []
        parts.old.runs.items }
    requires run { IsRun (sources (B.token tables.now) (B.placed tables.now) (B.body tables.now) list.now)
        (meanings (sources (B.token tables.now) (B.placed tables.now) (B.body tables.now) list.now) parts.old.runs.items)
        run }
    requires whole { IsWhole run.place }
    ensures { OnOk result (Pushes (sources (B.token tables.now) (B.placed tables.now) (B.body tables.now) list.now)
        parts.old.runs.items parts.new.runs.items run) }
{
    parts.runs.push(run)?;
    Ok(())
}

// The argument that parts make, from the first of them on, with the number of its tokens.
fn argument_of(parts: &Parts, first: usize, count: usize) -> Run
    ensures one { first + 1 ≡ length parts.now.runs.items → result ≡ get_or parts.now.runs.items
        first result }
    ensures more { (first + 1 ≡ length parts.now.runs.items → ⊥)
        → result ≡ record {
          place = Place.Argument count;
          start = first;
          end = length
              parts.now.runs.items;
        } }
{
    if first < parts.runs.len() && parts.runs.len() - first == 1 {
        parts.runs[first]
    } else {
        Run {
            place: Place::Argument(count),
            start: first,
            end: parts.runs.len(),
        }
    }
}

// Puts the items of a run before an index behind the parts of an argument.
fn push_before<T, B: Bodies<T>>(
    tables: &B,
    list: &[T],
    parts: &mut Parts,
    run: Run,
    index: usize,
) -> Result<(), AllocError>
    requires parts { AreParts (sources (B.token tables.now) (B.placed tables.now) (B.body tables.now) list.now) []
        parts.old.runs.items }
    requires run { IsRun (sources (B.token tables.now) (B.placed tables.now) (B.body tables.now) list.now)
        (meanings (sources (B.token tables.now) (B.placed tables.now) (B.body tables.now) list.now) parts.old.runs.items)
        run }
    requires basic { IsBasic run.place }
    requires index { index < length (run_tokens (sources (B.token tables.now) (B.placed tables.now) (B.body tables.now)
        list.now) (meanings (sources (B.token tables.now) (B.placed tables.now) (B.body tables.now) list.now)
        parts.old.runs.items) run) }
    ensures { OnOk result (PushesAll (sources (B.token tables.now) (B.placed tables.now) (B.body tables.now) list.now)
        parts.old.runs.items parts.new.runs.items
        (take index (run_tokens (sources (B.token tables.now) (B.placed tables.now) (B.body tables.now) list.now)
        (meanings (sources (B.token tables.now) (B.placed tables.now) (B.body tables.now) list.now) parts.old.runs.items)
        run))) }
{
    if index == 0 {
        return Ok(());
    }
    let before = Run {
        place: run.place,
        start: run.start,
        end: run.start + index,
    };
    push_part(tables, list, parts, before)
}

// Takes the rest of a group, with the brace that closes it; the brace is left out of the argument.
fn take_group<T, B: Bodies<T>>(
    tables: &B,
    list: &[T],
    ends: &[u32],
    parts: &mut Parts,
    rest: &mut Rest,
) -> Result<Option<Run>, AllocError>
    requires ends { AreEnds (map (B.token tables.now) list.now) ends.now }
    requires left { AreLeft (sources (B.token tables.now) (B.placed tables.now) (B.body tables.now) list.now)
        parts.old.runs.items rest.old }
    requires short { length (left_of (sources (B.token tables.now) (B.placed tables.now) (B.body tables.now) list.now)
        parts.old.runs.items rest.old) < 2 ^ 31 }
    ensures { IfOk result (λ taken. TakesRun (sources (B.token tables.now) (B.placed tables.now) (B.body tables.now)
        list.now) parts.old.runs.items parts.new.runs.items rest.old rest.new
        (group 0 (left_of (sources (B.token tables.now) (B.placed tables.now) (B.body tables.now) list.now)
        parts.old.runs.items rest.old)) taken) }
{
    let first = parts.runs.len();
    let mut level = 0;
    let mut count = 0;
    while let Some(run) = next_run(tables, list, parts, rest)? {
        match closing_of(tables, list, ends, parts, run, level) {
            Closing::At(index) => {
                push_before(tables, list, parts, run, index)?;
                put_from(tables, list, parts, run, run.start + index + 1, rest)?;
                return Ok(Some(argument_of(parts, first, count + index)));
            }
            Closing::Open(next) => {
                push_part(tables, list, parts, run)?;
                count += run.len();
                level = next;
            }
        }
    }
    Ok(None)
}

// Takes Spaces, and then a token or a group.
fn take_argument<T, B: Bodies<T>>(
    tables: &B,
    list: &[T],
    ends: &[u32],
    parts: &mut Parts,
    rest: &mut Rest,
) -> Result<Option<Run>, AllocError>
    requires ends { AreEnds (map (B.token tables.now) list.now) ends.now }
    requires left { AreLeft (sources (B.token tables.now) (B.placed tables.now) (B.body tables.now) list.now)
        parts.old.runs.items rest.old }
    requires short { length (left_of (sources (B.token tables.now) (B.placed tables.now) (B.body tables.now) list.now)
        parts.old.runs.items rest.old) < 2 ^ 31 }
    ensures { IfOk result (λ taken. TakesRun (sources (B.token tables.now) (B.placed tables.now) (B.body tables.now)
        list.now) parts.old.runs.items parts.new.runs.items rest.old rest.new
        (argument (left_of (sources (B.token tables.now) (B.placed tables.now) (B.body tables.now) list.now)
        parts.old.runs.items rest.old)) taken) }
{
    while let Some(one) = next_token(tables, list, parts, rest)? {
        if is_open(tables, one.item) {
            return take_group(tables, list, ends, parts, rest);
        }
        if is_close(tables, one.item) {
            return Ok(None);
        }
        if !tables.is_space(one.item) {
            return Ok(Some(one.run));
        }
    }
    Ok(None)
}

/// Takes so many arguments; whether none is missing.
pub fn take_arguments<T, B: Bodies<T>>(
    tables: &B,
    list: &[T],
    ends: &[u32],
    parts: &mut Parts,
    rest: &mut Rest,
    params: u8,
    taken: &mut Vec<Run>,
) -> Result<bool, AllocError>
    requires ends { AreEnds (map (B.token tables.now) list.now) ends.now }
    requires left { AreLeft (sources (B.token tables.now) (B.placed tables.now) (B.body tables.now) list.now)
        parts.old.runs.items rest.old }
    requires short { length (left_of (sources (B.token tables.now) (B.placed tables.now) (B.body tables.now) list.now)
        parts.old.runs.items rest.old) < 2 ^ 31 }
    ensures { IfOk result (λ all. TakesRuns (sources (B.token tables.now) (B.placed tables.now) (B.body tables.now)
        list.now) parts.old.runs.items parts.new.runs.items rest.old rest.new
        (arguments params (left_of (sources (B.token tables.now) (B.placed tables.now) (B.body tables.now) list.now)
        parts.old.runs.items rest.old)) taken.new.items all) }
{
    taken.clear();
    let mut left = params;
    while left > 0 {
        left -= 1;
        match take_argument(tables, list, ends, parts, rest)? {
            Some(argument) => taken.push(argument)?,
            None => return Ok(false),
        }
    }
    Ok(true)
}
