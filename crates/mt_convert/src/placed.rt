//! The items of a list between the two passes, whose pieces are on a stack.
ghost use Rattle.std.specs.Prelude.{◌≡◌, ◌≤◌, ◌-◌, ◌^◌, drop, length};
ghost use Rattle.mt_pieces.specs.declared.items.PlacedItem.TheVariants.{Set};
ghost use Rattle.mt_convert.specs.inner.Placed.{placed_left, placed_right, reaching};

use mt_pieces::{Pieces, PlacedItem};
use mt_rules::Class;
use mt_scaled::{Items, Length};

// Such items, in order.
pub(crate) type PlacedList = Items<PlacedItem>;

// Such items with their final classes, and how far the atoms reach, at least 0.
#[derive(Drop)]
pub(crate) struct PlacedHalves {
    pub(crate) items: PlacedList,
    pub(crate) height: Length,
    pub(crate) depth: Length,
}

// The class that an item counts as for the atom at its left.
pub(crate) fn class_to_left(item: PlacedItem) -> Option<Class>
    ensures { result ≡ placed_left item }
{
    match item {
        PlacedItem::Set { class, .. } => Some(class),
        PlacedItem::Left(_) => Some(Class::Open),
        PlacedItem::Middle(_) | PlacedItem::Right(_) => Some(Class::Close),
        _ => None,
    }
}

// The class that it counts as for the atom at its right.
pub(crate) fn class_to_right(item: PlacedItem) -> Option<Class>
    ensures { result ≡ placed_right item }
{
    match item {
        PlacedItem::Set { class, .. } => Some(class),
        PlacedItem::Left(_) | PlacedItem::Middle(_) => Some(Class::Open),
        PlacedItem::Right(_) => Some(Class::Close),
        _ => None,
    }
}

// An atom of this class, whose pieces are those from number `first` on.
pub(crate) fn placed_after(pieces: &Pieces, first: usize, class: Class) -> PlacedItem
    ensures { result ≡ Set class (length pieces.now - first) }
{
    PlacedItem::Set {
        class,
        count: pieces.len().saturating_sub(first),
    }
}

// The items whose pieces are those from number `first` on, and how far these reach.
pub(crate) fn with_reach(pieces: &Pieces, first: usize, items: PlacedList) -> PlacedHalves
    requires few { length (drop first pieces.now) ≤ 2 ^ 21 }
    ensures { result ≡ reaching items (drop first pieces.now) }
{
    let extents = pieces.reach(first);
    PlacedHalves {
        items,
        height: Length { sp: extents.height },
        depth: Length { sp: extents.depth },
    }
}
