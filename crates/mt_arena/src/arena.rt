//! The things of a formula's lists, one behind another.
ghost use Rattle.std.specs.Prelude.{◌≡◌, ◌↔◌, true, reverse, ◌≤◌, ◌<◌, ◌++◌, ◌∷◌, [], Some, OnOk, OnErr, IfOk, IfSome, IfNone, length, take, drop, slice_get};
ghost use Rattle.mt_arena.specs.Arena.{empty_arena, first_open, other_open, held_in, value_in, thing_end};
ghost use Rattle.mt_arena.specs.inner.Backward.{first_start};
ghost use Rattle.mt_arena.specs.Keeping.{HeldLists, AllLists};

use crate::{Span, Thing};
use std::alloc::{AllocError, Global};
use std::marker::Model;

/// Math lists, each behind the lists inside it, and the items of the lists that are open, which means that more items
/// may come. One list is always open, and lists are opened inside it and closed again.
///
/// Every list in it, at all levels, is a math list (`IsMathList` of mt_rules).
#[derive(Drop)]
pub struct Arena {
    // of the lists that are closed
    things: Vec<Thing>,
    // of the open lists, from the outside in
    pending: Vec<Thing>,
    // where each open list but the outermost one begins in `pending`
    starts: Vec<usize>,
}

impl Model for Arena {
    ghost use Rattle.mt_arena.specs.Arena.{ArenaValue};

    ghost Value = { ArenaValue };

    ghost use Rattle.mt_rules.specs.nesting.Steps.{BuildStep};
    ghost use Rattle.mt_arena.specs.inner.Coding.{arena_steps, arena_from, arena_from-steps};
    ghost use Rattle.std.specs.Prelude.{List};
    ghost use Rattle.std.specs.Coded.{codes, code_by};

    ghost coded = { code_by (List (List BuildStep) × List (List (List BuildStep))) (Prim.hlevel codes) arena_steps arena_from arena_from-steps };

    ghost use Rattle.mt_arena.specs.inner.Backward.{value_of_arena, IsArena};

    ghost view = { value_of_arena };

    ghost invariant = { IsArena };
}

impl Arena {
    /// Without any list but the open one, which has no items. It allocates nothing.
    pub fn new(alloc: Global) -> Arena
        ensures { result ≡ empty_arena }
    {
        Arena {
            things: Vec::new(alloc),
            pending: Vec::new(alloc),
            starts: Vec::new(alloc),
        }
    }

    /// The same, with room for so many things of closed lists and as many of open ones.
    pub fn with_capacity(alloc: Global, things: usize) -> Result<Arena, AllocError>
        ensures { IfOk result (λ arena. arena ≡ empty_arena) }
    {
        Ok(Arena {
            things: Vec::with_capacity(alloc, things)?,
            pending: Vec::with_capacity(alloc, things)?,
            starts: Vec::with_capacity(alloc, things)?,
        })
    }

    /// Opens a list inside the innermost open list, or rows, or a row of cells. On an error nothing has changed.
    pub fn begin(&mut self) -> Result<(), AllocError>
        ensures top { OnOk result (self.new.top ≡ []) }
        ensures below { OnOk result (self.new.below ≡ self.old.top ∷ self.old.below) }
        ensures closed { self.new.closed ≡ self.old.closed }
        ensures err { OnErr result (self.new ≡ self.old) }
    {
        self.starts.push(self.pending.len())?;
        Ok(())
    }

    /// Adds an item to the innermost open list. The lists in it are closed. On an error nothing has changed.
    pub fn push(&mut self, thing: Thing) -> Result<(), AllocError>
        requires within { thing_end thing ≤ length self.old.closed }
        requires lists { HeldLists (value_in self.old.closed thing) }
        ensures is { OnOk result (self.new.top ≡ self.old.top ++ value_in self.old.closed thing ∷ []) }
        ensures below { self.new.below ≡ self.old.below }
        ensures closed { self.new.closed ≡ self.old.closed }
        ensures err { OnErr result (self.new ≡ self.old) }
    {
        self.pending.push(thing)?;
        Ok(())
    }

    /// Takes the last item off the innermost open list, or answers `None` where it has none.
    pub fn pop(&mut self) -> Option<Thing>
        ensures is { IfSome result (λ t. self.old.top ≡ self.new.top ++ value_in self.old.closed t ∷ []) }
        ensures within { IfSome result (λ t. thing_end t ≤ length self.old.closed) }
        ensures lists { IfSome result (λ t. HeldLists (value_in self.old.closed t)) }
        ensures none { IfNone result ((self.old.top ≡ []) × (self.new ≡ self.old)) }
        ensures below { self.new.below ≡ self.old.below }
        ensures closed { self.new.closed ≡ self.old.closed }
    {
        if self.pending.len() <= last_start(&self.starts) {
            return None;
        }
        self.pending.pop()
    }

    /// Closes the innermost open list: from now on its items are the things of the span that it answers. The outermost
    /// list is open again at once, without items. Want of memory is also answered where a place is 2^32 or more. On an
    /// error nothing has changed.
    pub fn close(&mut self) -> Result<Span, AllocError>
        ensures closed { OnOk result (self.new.closed ≡ self.old.closed ++ self.old.top) }
        ensures top { OnOk result (self.new.top ≡ first_open self.old.below) }
        ensures below { OnOk result (self.new.below ≡ other_open self.old.below) }
        ensures is { IfOk result (λ s. held_in self.new.closed s ≡ self.old.top) }
        ensures within { IfOk result (λ s. s.end ≤ length self.new.closed) }
        ensures lists { AllLists self.old.top }
        ensures err { OnErr result (self.new ≡ self.old) }
    {
        let start = last_start(&self.starts);
        let first = self.things.len();
        let span = span_between(first, first + (self.pending.len() - start))?;
        move_items(&mut self.things, &mut self.pending, start)?;
        drop_last(&mut self.starts);
        Ok(span)
    }

    /// Whether the innermost open list has no items.
    pub fn is_open_list_empty(&self) -> bool
        ensures { (result ≡ true) ↔ (self.now.top ≡ []) }
    {
        self.pending.len() <= last_start(&self.starts)
    }

    /// Puts the items of the innermost open list behind those of the list in which it was opened, which is then the
    /// innermost one. Where no list was opened, nothing changes.
    pub fn join(&mut self)
        ensures top { self.new.top ≡ first_open self.old.below ++ self.old.top }
        ensures below { self.new.below ≡ other_open self.old.below }
        ensures closed { self.new.closed ≡ self.old.closed }
    {
        drop_last(&mut self.starts);
    }

    /// Adds a thing that is in no list, as a root, and answers its place. What it holds is in the arena already.
    /// Want of memory is also answered where the place is 2^32 or more. On an error nothing has changed.
    pub fn insert(&mut self, thing: Thing) -> Result<u32, AllocError>
        requires within { thing_end thing ≤ length self.old.closed }
        requires lists { HeldLists (value_in self.old.closed thing) }
        ensures closed { OnOk result (self.new.closed ≡ self.old.closed ++ value_in self.old.closed thing ∷ []) }
        ensures is { IfOk result (λ n. n ≡ length self.old.closed) }
        ensures top { self.new.top ≡ self.old.top }
        ensures below { self.new.below ≡ self.old.below }
        ensures err { OnErr result (self.new ≡ self.old) }
    {
        let Ok(at) = u32::try_from(self.things.len()) else {
            return Err(AllocError);
        };
        self.things.push(thing)?;
        Ok(at)
    }

    /// Drops all lists, the open ones too, and keeps the memory for those that come.
    pub fn clear(&mut self)
        ensures { self.new ≡ empty_arena }
    {
        self.things.clear();
        self.pending.clear();
        self.starts.clear();
    }

    /// The thing at a place, counted from 0. What it holds is before it.
    pub fn thing(&self, at: usize) -> &Thing
        requires { at < length self.now.closed }
        ensures is { slice_get self.now.closed at ≡ Some (value_in self.now.closed result.now) }
        ensures before { thing_end result.now ≤ at }
        ensures lists { HeldLists (value_in self.now.closed result.now) }
    {
        &self.things[at]
    }
}

// Where the innermost open list begins.
fn last_start(starts: &[usize]) -> usize
    ensures { result ≡ first_start (reverse starts.now) }
{
    match starts.last() {
        Some(start) => *start,
        None => 0,
    }
}

fn drop_last(starts: &mut Vec<usize>)
    ensures { reverse starts.new.items ≡ drop 1 (reverse starts.old.items) }
{
    starts.pop();
}

// Moves the items from `start` on behind the things.
fn move_items(
    things: &mut Vec<Thing>,
    pending: &mut Vec<Thing>,
    start: usize,
) -> Result<(), AllocError>
    requires { start ≤ length pending.old.items }
    ensures things { OnOk result (things.new.items ≡ things.old.items ++ drop start pending.old.items) }
    ensures pending { OnOk result (pending.new.items ≡ take start pending.old.items) }
    ensures things_err { OnErr result (things.new.items ≡ things.old.items) }
    ensures pending_err { OnErr result (pending.new.items ≡ pending.old.items) }
{
    things.extend_from_slice(&pending[start..])?;
    pending.truncate(start);
    Ok(())
}

fn span_between(start: usize, end: usize) -> Result<Span, AllocError>
    ensures start { IfOk result (λ s. s.start ≡ start) }
    ensures end { IfOk result (λ s. s.end ≡ end) }
{
    let Ok(start) = u32::try_from(start) else {
        return Err(AllocError);
    };
    let Ok(end) = u32::try_from(end) else {
        return Err(AllocError);
    };
    Ok(Span { start, end })
}
