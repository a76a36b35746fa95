//! A stack of runs: the tokens that are left to read.
ghost use Rattle.std.specs.Prelude.{◌≡◌, ◌<◌, ◌≤◌, ◌^◌, ◌∷◌, [], ◌++◌, ◌+◌, ◌-◌, true, IfOk, OnOk, length, map, get_or};
ghost use Rattle.mt_macro.specs.inner.Lengths.{run_len, depth, is_opened, IsBasic};
ghost use Rattle.mt_macro.specs.inner.Runs.{sources, meanings, left_of, part, place_tokens, read_at, IsRun, AreParts, AreRuns, AreLeft};
ghost use Rattle.mt_macro.specs.inner.Runs.{Opens, Gives, GivesBasic, GivesTokenIf};

use crate::bodies::Bodies;
use crate::run::{Place, Run};
use std::alloc::AllocError;

/// The parts of arguments; each may have some of those before it.
#[derive(Drop)]
pub struct Parts {
    /// The parts.
    pub runs: Vec<Run>,
}

/// The tokens that are left: those of runs, the next one last.
#[derive(Drop)]
pub struct Rest {
    /// The runs.
    pub runs: Vec<Run>,
    /// How many tokens they have.
    pub count: usize,
}

/// The next item that is left, and a run of it alone.
#[derive(Drop)]
pub struct Single<'a, T> {
    /// The item.
    pub item: &'a T,
    /// The run.
    pub run: Run,
}

/// The items of the list given or of a body; none where the items are parts of an argument.
pub fn items_of<'a, T, B: Bodies<T>>(tables: &'a B, list: &'a [T], place: Place) -> &'a [T]
    ensures { map (read_at (B.token tables.now) (B.placed tables.now) list.now place) result.now
        ≡ place_tokens (sources (B.token tables.now) (B.placed tables.now) (B.body tables.now) list.now) place }
{
    match place {
        Place::Given => list,
        Place::Body(called) => tables.body(called.number),
        Place::Argument(_) | Place::Remainder(_) => &[],
    }
}

// The part with an index.
fn part_of(parts: &Parts, index: usize) -> Run
    requires { index < length parts.now.runs.items }
    ensures { result ≡ get_or parts.now.runs.items index result }
{
    parts.runs[index]
}

/// The item with an index.
pub fn item_at<T>(items: &[T], index: usize) -> &T
    requires { index < length items.now }
    ensures { result.now ≡ get_or items.now index result.now }
{
    &items[index]
}

/// The items from an index up to another.
pub fn items_in<T>(items: &[T], start: usize, end: usize) -> &[T]
    requires { (start ≤ end) × (end ≤ length items.now) }
    ensures { result.now ≡ part start end items.now }
{
    &items[start..end]
}

// How many tokens a run has after its first part.
fn left_after(run: Run, first: Run) -> usize
    ensures { result ≡ run_len run - run_len first }
{
    run.len().saturating_sub(first.len())
}

// A number of tokens without those of a run.
fn less(count: usize, run: Run) -> usize
    ensures { result ≡ count - run_len run }
{
    count.saturating_sub(run.len())
}

// A number of tokens with those of a run, but for its first part.
fn put_back(count: usize, run: Run, first: Run) -> usize
    requires { count + (run_len run - run_len first) < 2 ^ 64 }
    ensures { result ≡ count + (run_len run - run_len first) }
{
    count + left_after(run, first)
}

// The first part of an argument; a run of the others is put on the stack.
fn open<T, B: Bodies<T>>(
    tables: &B,
    list: &[T],
    parts: &Parts,
    run: Run,
    runs: &mut Vec<Run>,
) -> Result<Run, AllocError>
    requires parts { AreParts (sources (B.token tables.now) (B.placed tables.now) (B.body tables.now) list.now) []
        parts.now.runs.items }
    requires runs { AreRuns (sources (B.token tables.now) (B.placed tables.now) (B.body tables.now) list.now)
        (meanings (sources (B.token tables.now) (B.placed tables.now) (B.body tables.now) list.now) parts.now.runs.items)
        runs.old.items }
    requires run { IsRun (sources (B.token tables.now) (B.placed tables.now) (B.body tables.now) list.now)
        (meanings (sources (B.token tables.now) (B.placed tables.now) (B.body tables.now) list.now) parts.now.runs.items)
        run }
    requires opened { is_opened run.place ≡ true }
    ensures is { IfOk result (λ first. Opens (sources (B.token tables.now) (B.placed tables.now) (B.body tables.now)
        list.now) parts.now.runs.items runs.old.items runs.new.items run first) }
    ensures older { IfOk result (λ first. depth first < depth run) }
{
    let first = part_of(parts, run.start);
    let count = left_after(run, first);
    if run.start + 1 < run.end {
        runs.push(Run {
            place: Place::Remainder(count),
            start: run.start + 1,
            end: run.end,
        })?;
    }
    Ok(first)
}

// A run, or its first part where it is what is left of an argument.
fn first_whole<T, B: Bodies<T>>(
    tables: &B,
    list: &[T],
    parts: &Parts,
    run: Run,
    runs: &mut Vec<Run>,
) -> Result<Run, AllocError>
    requires parts { AreParts (sources (B.token tables.now) (B.placed tables.now) (B.body tables.now) list.now) []
        parts.now.runs.items }
    requires runs { AreRuns (sources (B.token tables.now) (B.placed tables.now) (B.body tables.now) list.now)
        (meanings (sources (B.token tables.now) (B.placed tables.now) (B.body tables.now) list.now) parts.now.runs.items)
        runs.old.items }
    requires run { IsRun (sources (B.token tables.now) (B.placed tables.now) (B.body tables.now) list.now)
        (meanings (sources (B.token tables.now) (B.placed tables.now) (B.body tables.now) list.now) parts.now.runs.items)
        run }
    ensures { IfOk result (λ first. Opens (sources (B.token tables.now) (B.placed tables.now) (B.body tables.now)
        list.now) parts.now.runs.items runs.old.items runs.new.items run first) }
{
    if run.is_remainder() {
        open(tables, list, parts, run, runs)
    } else {
        Ok(run)
    }
}

/// Takes the next run: a whole argument, or items of the list given or of a body.
pub fn next_run<T, B: Bodies<T>>(
    tables: &B,
    list: &[T],
    parts: &Parts,
    rest: &mut Rest,
) -> Result<Option<Run>, AllocError>
    requires { AreLeft (sources (B.token tables.now) (B.placed tables.now) (B.body tables.now) list.now)
        parts.now.runs.items rest.old }
    ensures { IfOk result (λ found. Gives (sources (B.token tables.now) (B.placed tables.now) (B.body tables.now)
        list.now) parts.now.runs.items rest.old rest.new found) }
{
    match rest.runs.pop() {
        Some(run) => {
            let first = first_whole(tables, list, parts, run, &mut rest.runs)?;
            rest.count = less(rest.count, first);
            Ok(Some(first))
        }
        None => Ok(None),
    }
}

/// Takes the next items of the list given or of a body.
pub fn next_basic<T, B: Bodies<T>>(
    tables: &B,
    list: &[T],
    parts: &Parts,
    rest: &mut Rest,
) -> Result<Option<Run>, AllocError>
    requires left { AreLeft (sources (B.token tables.now) (B.placed tables.now) (B.body tables.now) list.now)
        parts.now.runs.items rest.old }
    requires short { length (left_of (sources (B.token tables.now) (B.placed tables.now) (B.body tables.now) list.now)
        parts.now.runs.items rest.old) < 2 ^ 63 }
    ensures { IfOk result (λ found. GivesBasic (sources (B.token tables.now) (B.placed tables.now) (B.body tables.now)
        list.now) parts.now.runs.items rest.old rest.new found) }
{
    let Some(mut run) = next_run(tables, list, parts, rest)? else {
        return Ok(None);
    };
    while run.is_opened() {
        let first = open(tables, list, parts, run, &mut rest.runs)?;
        rest.count = put_back(rest.count, run, first);
        run = first;
    }
    Ok(Some(run))
}

/// Takes the next item.
pub fn next_token<'a, T, B: Bodies<T>>(
    tables: &'a B,
    list: &'a [T],
    parts: &Parts,
    rest: &mut Rest,
) -> Result<Option<Single<'a, T>>, AllocError>
    requires left { AreLeft (sources (B.token tables.now) (B.placed tables.now) (B.body tables.now) list.now)
        parts.now.runs.items rest.old }
    requires short { length (left_of (sources (B.token tables.now) (B.placed tables.now) (B.body tables.now) list.now)
        parts.now.runs.items rest.old) < 2 ^ 63 }
    ensures { IfOk result (λ found. GivesTokenIf (read_at (B.token tables.now) (B.placed tables.now) list.now)
        (sources (B.token tables.now) (B.placed tables.now) (B.body tables.now) list.now) parts.now.runs.items rest.old
        rest.new found) }
{
    let Some(run) = next_basic(tables, list, parts, rest)? else {
        return Ok(None);
    };
    put_from(tables, list, parts, run, run.start + 1, rest)?;
    Ok(Some(first_single(tables, list, run)))
}

// The first item of a run.
fn first_single<'a, T, B: Bodies<T>>(tables: &'a B, list: &'a [T], run: Run) -> Single<'a, T>
    requires { run.start < length (place_tokens (sources (B.token tables.now) (B.placed tables.now) (B.body tables.now)
        list.now) run.place) }
    ensures run { result.run ≡ record { place = run.place; start = run.start; end = run.start + 1 } }
    ensures item { part run.start (run.start + 1)
        (place_tokens (sources (B.token tables.now) (B.placed tables.now) (B.body tables.now) list.now) run.place) ≡
        read_at (B.token tables.now) (B.placed tables.now) list.now run.place result.item.now ∷ [] }
{
    let items = items_of(tables, list, run.place);
    Single {
        item: item_at(items, run.start),
        run: Run {
            place: run.place,
            start: run.start,
            end: run.start + 1,
        },
    }
}

/// Puts the items of a run from an index on before the rest.
pub fn put_from<T, B: Bodies<T>>(
    tables: &B,
    list: &[T],
    parts: &Parts,
    run: Run,
    from: usize,
    rest: &mut Rest,
) -> Result<(), AllocError>
    requires left { AreLeft (sources (B.token tables.now) (B.placed tables.now) (B.body tables.now) list.now)
        parts.now.runs.items rest.old }
    requires run { IsRun (sources (B.token tables.now) (B.placed tables.now) (B.body tables.now) list.now)
        (meanings (sources (B.token tables.now) (B.placed tables.now) (B.body tables.now) list.now) parts.now.runs.items)
        run }
    requires basic { IsBasic run.place }
    requires from { run.start ≤ from }
    requires short { length (left_of (sources (B.token tables.now) (B.placed tables.now) (B.body tables.now) list.now)
        parts.now.runs.items rest.old) + (run.end - from) < 2 ^ 63 }
    ensures left { OnOk result (AreLeft (sources (B.token tables.now) (B.placed tables.now) (B.body tables.now) list.now)
        parts.now.runs.items rest.new) }
    ensures is { OnOk result (left_of (sources (B.token tables.now) (B.placed tables.now) (B.body tables.now) list.now)
        parts.now.runs.items rest.new
        ≡ part from run.end (place_tokens (sources (B.token tables.now) (B.placed tables.now) (B.body tables.now)
        list.now) run.place) ++ left_of (sources (B.token tables.now) (B.placed tables.now) (B.body tables.now) list.now)
        parts.now.runs.items rest.old) }
{
    if from >= run.end {
        return Ok(());
    }
    rest.runs.push(Run {
        place: run.place,
        start: from,
        end: run.end,
    })?;
    rest.count += run.end - from;
    Ok(())
}
