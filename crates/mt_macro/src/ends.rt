//! The ends of the groups of a list.
ghost use Rattle.std.specs.Prelude.{◌≡◌, ◌<◌, ◌≤◌, ◌^◌, IfOk, ◌∷◌, length, drop, map};
ghost use Rattle.mt_macro.specs.Limits.{max_tokens};
ghost use Rattle.mt_macro.specs.inner.Ends.{IsEnd, AreEnds};

use crate::braces::{is_close, is_open};
use crate::stack::item_at;
use mt_token::Lexicon;
use std::alloc::{AllocError, Global};

/// The greatest number of items of which no ends are known: a few are soon looked through.
const FEW: usize = 500;

/// The ends of the groups of a list, or of none where it is short.
pub fn known_ends<T, L: Lexicon<T>>(
    alloc: Global,
    tables: &L,
    list: &[T],
) -> Result<Vec<u32>, AllocError>
    requires { length list.now ≤ max_tokens }
    ensures { IfOk result (λ ends. AreEnds (map (L.token tables.now) list.now) ends.items) }
{
    if list.len() > FEW {
        ends_of(alloc, tables, list)
    } else {
        Ok(Vec::new(alloc))
    }
}

// For each item of a list the distance to the `}` that ends the group in which it is, where there
// is one; a `}` is in the group that it ends.
fn ends_of<T, L: Lexicon<T>>(alloc: Global, tables: &L, list: &[T]) -> Result<Vec<u32>, AllocError>
    requires { length list.now < 2 ^ 31 }
    ensures { IfOk result (λ ends. AreEnds (map (L.token tables.now) list.now) ends.items) }
{
    let mut ends = vec![in alloc; 0u32; list.len()]?;
    let mut index = list.len();
    while index > 0 {
        index -= 1;
        ends[index] = end_before(
            tables,
            item_at(list, index),
            &list[index + 1..],
            &ends[index + 1..],
        );
    }
    Ok(ends)
}

// The end at an item, by the items after it and their ends. A `{` begins a group that ends where
// the items after it say; the group in which it is goes on after that.
fn end_before<T, L: Lexicon<T>>(tables: &L, item: &T, after: &[T], ends: &[u32]) -> u32
    requires ends { AreEnds (map (L.token tables.now) after.now) ends.now }
    requires all { length ends.now ≡ length after.now }
    requires short { length after.now < 2 ^ 31 }
    ensures { IsEnd result (L.token tables.now item.now ∷ map (L.token tables.now) after.now) }
{
    if is_close(tables, item) {
        return 0;
    }
    let first = end_at(tables, after, ends, 0);
    if is_open(tables, item) {
        let second = end_at(tables, after, ends, first as usize + 1);
        return capped(first as u64 + second as u64 + 2);
    }
    capped(first as u64 + 1)
}

// A distance, or one greater than that of all items.
fn capped(end: u64) -> u32
    ensures { result < 2 ^ 31 → result ≡ end }
{
    if end < u32::MAX as u64 {
        end as u32
    } else {
        u32::MAX
    }
}

// The end at an index.
fn end_at<T, L: Lexicon<T>>(tables: &L, after: &[T], ends: &[u32], index: usize) -> u32
    requires ends { AreEnds (map (L.token tables.now) after.now) ends.now }
    requires all { length ends.now ≡ length after.now }
    ensures { IsEnd result (drop index (map (L.token tables.now) after.now)) }
{
    if index < ends.len() {
        ends[index]
    } else {
        u32::MAX
    }
}
