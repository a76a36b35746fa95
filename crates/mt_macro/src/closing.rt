//! Where lists leave the group in which they are.
ghost use Rattle.std.specs.Prelude.{◌≡◌, ◌<◌, ◌+◌, ◌^◌, IfSome, Some, true, length, drop, map};
ghost use Rattle.mt_macro.specs.Braces.{is_open};
ghost use Rattle.mt_macro.specs.inner.Ends.{end_index, AreEnds};
ghost use Rattle.mt_macro.specs.inner.Closings.{Closes};

use crate::braces::{closes_none, is_open, level_after};
use mt_token::Lexicon;

/// Where items leave the group in which they are.
#[derive(Clone, Copy, Debug)]
pub enum Closing {
    /// The index of the `}` that ends the group.
    At(usize),
    /// How many groups are open inside the group after the items.
    Open(usize),
}

/// Where items leave a group in which so many groups are open before them. A group in it of which
/// the end is known is passed over at once.
pub fn leave_group<T, L: Lexicon<T>>(
    tables: &L,
    items: &[T],
    ends: &[u32],
    before: usize,
) -> Closing
    requires short { before + length items.now < 2 ^ 63 }
    requires ends { AreEnds (map (L.token tables.now) items.now) ends.now }
    ensures { Closes before (map (L.token tables.now) items.now) result }
{
    let mut rest = items;
    let mut known = ends;
    let mut index = 0;
    let mut level = before;
    while let [item, after @ ..] = rest {
        if closes_none(tables, level, item) {
            return Closing::At(index);
        }
        known = ends_from(known, 1);
        match end_of_group(tables, item, after, known) {
            Some(end) => {
                known = ends_from(known, end + 1);
                rest = &after[end + 1..];
                index += end + 2;
            }
            None => {
                level = level_after(tables, level, item);
                rest = after;
                index += 1;
            }
        }
    }
    Closing::Open(level)
}

// The index of the `}` of the group that an item opens, in the items after it, where it is known.
fn end_of_group<T, L: Lexicon<T>>(tables: &L, item: &T, after: &[T], ends: &[u32]) -> Option<usize>
    requires { AreEnds (map (L.token tables.now) after.now) ends.now }
    ensures { IfSome result (λ e. (is_open (L.token tables.now item.now) ≡ true) ×
        (e < length after.now)
        × (end_index 0 (map (L.token tables.now) after.now) ≡ Some e)) }
{
    match ends {
        [end, ..] if is_open(tables, item) && (*end as usize) < after.len() => Some(*end as usize),
        _ => None,
    }
}

/// The ends from an index on.
pub fn ends_from(ends: &[u32], index: usize) -> &[u32]
    ensures { result.now ≡ drop index ends.now }
{
    if index < ends.len() {
        &ends[index..]
    } else {
        &[]
    }
}
