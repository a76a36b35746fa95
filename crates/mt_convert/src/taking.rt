//! The rows of a list between the two passes taken from a stack of pieces.
ghost use Rattle.std.specs.Prelude.{◌≡◌, ◌≤◌, ◌++◌, ℕ, IfOk, List, OnOk, length};
ghost use Rattle.mt_box.specs.Rows.{PieceValue};
ghost use Rattle.mt_convert.specs.Halfway.{HalvesFit, halves_value};
ghost use Rattle.mt_convert.specs.inner.Placed.{IsPlaced, placed_count, placed_halves, placed_length};
ghost use Rattle.mt_convert.specs.inner.Taken.{IsTaken, AreTaken};

use crate::half::{Half, HalfList};
use crate::halfway::Halfway;
use crate::placed::PlacedHalves;
use mt_pieces::{Pieces, PlacedItem};
use std::alloc::{AllocError, Global};

// The list with its rows, whose pieces these are.
pub(crate) fn halfway_of(
    alloc: Global,
    pieces: Pieces,
    halves: PlacedHalves,
) -> Result<Halfway, AllocError>
    requires placed { IsPlaced halves pieces }
    ensures is { IfOk result (λ h. halves_value h ≡ placed_halves halves pieces) }
    ensures fits { IfOk result (λ h. (n : ℕ) → 1 ≤ n → HalvesFit n h.items) }
{
    let items = take_halves(alloc, pieces, halves.items.as_slice())?;
    Ok(Halfway {
        items: HalfList::from_vec(items),
        height: halves.height.sp,
        depth: halves.depth.sp,
    })
}

// The items with their rows, from the last one on.
fn take_halves(
    alloc: Global,
    mut pieces: Pieces,
    items: &[PlacedItem],
) -> Result<Vec<Half>, AllocError>
    requires { placed_count items.now ≡ length pieces }
    ensures { IfOk result (λ halves. AreTaken halves.items items.now pieces) }
{
    let mut halves = Vec::with_capacity(alloc, items.len())?;
    for i in (0..items.len()).rev() {
        let half = take_half(alloc, &mut pieces, items[i])?;
        halves.push(half)?;
    }
    halves.reverse();
    Ok(halves)
}

// An item with its row, whose pieces are the last ones.
fn take_half(alloc: Global, pieces: &mut Pieces, item: PlacedItem) -> Result<Half, AllocError>
    ensures is { (front row : List PieceValue) → pieces.old ≡ front ++ row → placed_length item ≡ length row
        → IfOk result (λ h. IsTaken h item row) }
    ensures others { (front row : List PieceValue) → pieces.old ≡ front ++ row → placed_length item ≡ length row → OnOk result (pieces.new ≡ front) }
{
    match item {
        PlacedItem::Set { class, count } => {
            let first = pieces.len().saturating_sub(count);
            let row = pieces.take_row(alloc, first)?;
            Ok(Half::Set { class, row })
        }
        PlacedItem::Left(delim) => Ok(Half::Left(delim)),
        PlacedItem::Middle(delim) => Ok(Half::Middle(delim)),
        PlacedItem::Right(delim) => Ok(Half::Right(delim)),
        PlacedItem::Style(style) => Ok(Half::Style(style)),
        PlacedItem::Kern(amount) => Ok(Half::Kern(amount)),
        PlacedItem::Space(glue) => Ok(Half::Space(glue)),
    }
}
