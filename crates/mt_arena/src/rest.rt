//! What is left of a list, with what is left of choices' lists in front of it.
ghost use Rattle.std.specs.Prelude.{◌≡◌, ◌≤◌, ℕ, List, OnOk, OnErr, IfSome, MatchOption, length};
ghost use Rattle.mt_rules.specs.Sequence.{End};
ghost use Rattle.mt_arena.specs.Arena.{Held, sequence_in, value_in};
ghost use Rattle.mt_arena.specs.Rest.{append_list, more_of, is_item, rest_in, ranges_in, stacked_on, IsFree, KeptItem, KeptRest, SpansWithin};

use crate::{Arena, Span, Thing};
use std::alloc::{AllocError, Global};

/// What is left of a list while it is passed over item by item.
///
/// A choice puts one of its lists in front of what is left (tex.web, section 731), and joining puts an item there. So
/// what is left is one item perhaps, the list that is passed over, and what is left of the lists round it.
#[derive(Drop)]
pub struct Rest {
    // put back, or joined: before all others
    front: Option<Thing>,
    // of the list that is passed over
    at: Span,
    // of the lists round it, the outermost list first
    outer: Vec<Span>,
}

impl Rest {
    /// All of a list. It allocates nothing.
    pub fn of(alloc: Global, span: Span) -> Rest
        ensures is { (es : List Held) → rest_in es result ≡ sequence_in es span }
        ensures kept { (es : List Held) → span.end ≤ length es → KeptRest es result }
    {
        Rest {
            front: None,
            at: span,
            outer: Vec::new(alloc),
        }
    }

    /// Takes off the next item, or answers `None` at the end.
    pub fn pop(&mut self, arena: &Arena) -> Option<Thing>
        requires { KeptRest arena.now.closed self.old }
        ensures is { MatchOption result
            ((rest_in arena.now.closed self.old ≡ End) × (rest_in arena.now.closed self.new ≡ End))
            (λ t. rest_in arena.now.closed self.old ≡ more_of (value_in arena.now.closed t) (rest_in arena.now.closed self.new)) }
        ensures item { IfSome result (KeptItem arena.now.closed) }
        ensures free { IsFree self.new }
        ensures kept { KeptRest arena.now.closed self.new }
    {
        if let Some(front) = self.front {
            self.front = None;
            return Some(front);
        }
        next_of_all(arena, &mut self.at, &mut self.outer)
    }

    /// The next item, which stays, or `None` at the end.
    pub fn peek(&mut self, arena: &Arena) -> Option<Thing>
        requires { KeptRest arena.now.closed self.old }
        ensures is { MatchOption result (rest_in arena.now.closed self.old ≡ End)
            (λ t. (s : _) × (rest_in arena.now.closed self.old ≡ more_of (value_in arena.now.closed t) s)) }
        ensures item { IfSome result (KeptItem arena.now.closed) }
        ensures same { rest_in arena.now.closed self.new ≡ rest_in arena.now.closed self.old }
        ensures kept { KeptRest arena.now.closed self.new }
    {
        let next = self.pop(arena);
        self.front = next;
        next
    }

    /// Puts an item before the rest, where none was put since the last `pop`.
    pub fn push(&mut self, thing: Thing)
        requires { IsFree self.old }
        ensures is { (es : List Held) → rest_in es self.new ≡ more_of (value_in es thing) (rest_in es self.old) }
        ensures kept { (es : List Held) → KeptItem es thing → KeptRest es self.old → KeptRest es self.new }
    {
        self.front = Some(thing);
    }

    /// Puts a list before the rest, where no item was put since the last `pop`. On an error nothing has changed.
    pub fn enter(&mut self, span: Span) -> Result<(), AllocError>
        requires { IsFree self.old }
        ensures is { OnOk result ((es : List Held) → rest_in es self.new ≡ append_list (sequence_in es span) (rest_in es self.old)) }
        ensures kept { (es : List Held) → span.end ≤ length es → KeptRest es self.old → KeptRest es self.new }
        ensures free { IsFree self.new }
        ensures err { OnErr result ((es : List Held) → rest_in es self.new ≡ rest_in es self.old) }
    {
        put_round(&mut self.outer, self.at)?;
        self.at = span;
        Ok(())
    }
}

fn is_item(thing: &Thing) -> bool
    ensures { result ≡ is_item thing.now }
{
    !matches!(thing, Thing::Row(_) | Thing::Cells(_) | Thing::Root(_))
}

// Takes off the next item of a range.
fn next_of(arena: &Arena, at: &mut Span) -> Option<Thing>
    requires { at.old.end ≤ length arena.now.closed }
    ensures is { MatchOption result
        ((sequence_in arena.now.closed at.old ≡ End) × (sequence_in arena.now.closed at.new ≡ End))
        (λ t. sequence_in arena.now.closed at.old ≡ more_of (value_in arena.now.closed t) (sequence_in arena.now.closed at.new)) }
    ensures item { IfSome result (KeptItem arena.now.closed) }
    ensures end { at.new.end ≡ at.old.end }
{
    while at.start < at.end {
        let thing = arena.thing(at.start as usize);
        at.start += 1;
        if is_item(thing) {
            return Some(*thing);
        }
    }
    None
}

// Takes off the next item of a range, or else of those round it.
fn next_of_all(arena: &Arena, at: &mut Span, outer: &mut Vec<Span>) -> Option<Thing>
    requires at { at.old.end ≤ length arena.now.closed }
    requires outer { SpansWithin (length arena.now.closed) outer.old.items }
    ensures is { MatchOption result
        ((ranges_in arena.now.closed at.old outer.old.items ≡ End) × (ranges_in arena.now.closed at.new outer.new.items ≡ End))
        (λ t. ranges_in arena.now.closed at.old outer.old.items
        ≡ more_of (value_in arena.now.closed t) (ranges_in arena.now.closed at.new outer.new.items)) }
    ensures item { IfSome result (KeptItem arena.now.closed) }
    ensures at { at.new.end ≤ length arena.now.closed }
    ensures outer { SpansWithin (length arena.now.closed) outer.new.items }
{
    loop {
        if let Some(thing) = next_of(arena, at) {
            return Some(thing);
        }
        let Some(next) = outer.pop() else {
            return None;
        };
        *at = next;
    }
}

// Puts a range to those that are round a list. One that has ended is left out, so that they stay few.
fn put_round(outer: &mut Vec<Span>, at: Span) -> Result<(), AllocError>
    ensures is { OnOk result ((es : List Held) → stacked_on es outer.new.items End ≡ ranges_in es at outer.old.items) }
    ensures within { OnOk result ((n : ℕ) → at.end ≤ n → SpansWithin n outer.old.items → SpansWithin n outer.new.items) }
    ensures err { OnErr result (outer.new.items ≡ outer.old.items) }
{
    if at.start >= at.end {
        return Ok(());
    }
    outer.push(at)?;
    Ok(())
}
