//! The rows of a list between the two passes put on a stack of pieces.
ghost use Rattle.std.specs.Prelude.{◌^◌, IfOk, Ok};
ghost use Rattle.mt_convert.specs.Halfway.{HalfFits, HalvesFit, halves_value};
ghost use Rattle.mt_convert.specs.inner.Placed.{HalvesOn};
ghost use Rattle.mt_convert.specs.inner.Put.{ArePut, IsPut};

use crate::half::{Half, HalfList};
use crate::halfway::Halfway;
use crate::placed::{PlacedHalves, PlacedList};
use mt_pieces::{Pieces, PlacedItem};
use mt_scaled::Length;
use std::alloc::{AllocError, Global};

// The items of the list, whose pieces come behind the others.
pub(crate) fn put_halfway(
    alloc: Global,
    pieces: &mut Pieces,
    half: Halfway,
) -> Result<PlacedHalves, AllocError>
    ensures { IfOk result (λ h. HalvesOn h pieces.old pieces.new (Ok (halves_value half))) }
{
    let items = put_items(alloc, pieces, half.items)?;
    Ok(PlacedHalves {
        items: PlacedList::from_vec(items),
        height: Length { sp: half.height },
        depth: Length { sp: half.depth },
    })
}

fn put_items(
    alloc: Global,
    pieces: &mut Pieces,
    items: HalfList,
) -> Result<Vec<PlacedItem>, AllocError>
    requires { HalvesFit (2 ^ 16) items }
    ensures { IfOk result (λ hs. ArePut hs.items items pieces.old pieces.new) }
{
    let mut placed = Vec::with_capacity(alloc, items.len())?;
    for item in items.into_vec() {
        let half = put_item(pieces, item)?;
        placed.push(half)?;
    }
    Ok(placed)
}

// An item; the pieces of its row come behind the others.
fn put_item(pieces: &mut Pieces, item: Half) -> Result<PlacedItem, AllocError>
    requires { HalfFits (2 ^ 16) item }
    ensures { IfOk result (λ h. IsPut h item pieces.old pieces.new) }
{
    match item {
        Half::Set { class, row } => {
            let count = row.len();
            pieces.put_row(row)?;
            Ok(PlacedItem::Set { class, count })
        }
        Half::Left(delim) => Ok(PlacedItem::Left(delim)),
        Half::Middle(delim) => Ok(PlacedItem::Middle(delim)),
        Half::Right(delim) => Ok(PlacedItem::Right(delim)),
        Half::Style(style) => Ok(PlacedItem::Style(style)),
        Half::Kern(amount) => Ok(PlacedItem::Kern(amount)),
        Half::Space(glue) => Ok(PlacedItem::Space(glue)),
    }
}
