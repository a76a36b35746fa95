//! The end of the first pass: final classes (The TeXbook, Appendix G, rules 5 and 6).
ghost use Rattle.std.specs.Prelude.{◌≡◌, List};
ghost use Rattle.mt_box.specs.Rows.{PieceValue};
ghost use Rattle.mt_convert.specs.Halves.{settle};
ghost use Rattle.mt_convert.specs.inner.Placed.{placed_values, reaching};
ghost use Rattle.mt_convert.specs.inner.Settling.{CanFinish, Finishes, settled_item, settled_items};

use crate::placed::{PlacedList, class_to_left};
use mt_pieces::PlacedItem;
use mt_rules::Class;
use mt_spacing::settled;

// The list between the passes, of items with the classes that they have got from the left.
pub(crate) fn finish(mut items: Vec<PlacedItem>) -> PlacedList
    ensures { (row : List PieceValue) → CanFinish items.items row
        → Finishes (reaching result row) row (settle (placed_values items.items row)) }
{
    settle_all(&mut items);
    PlacedList::from_vec(items)
}

// Each class settles by that of the next atom, from the right.
fn settle_all(items: &mut Vec<PlacedItem>)
    ensures { items.new.items ≡ settled_items items.old.items }
{
    let mut after = None;
    for i in (0..items.len()).rev() {
        let item = &mut items[i];
        let next = class_to_left(*item).or(after);
        settle_item(item, after);
        after = next;
    }
}

fn settle_item(item: &mut PlacedItem, after: Option<Class>)
    ensures { item.new ≡ settled_item item.old after }
{
    if let PlacedItem::Set { class, .. } = item {
        *class = settled(*class, after);
    }
}
