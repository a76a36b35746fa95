//! Places in a text.
ghost use Rattle.std.specs.Prelude.{◌≡◌, ◌≤◌, ◌↔◌, IfSome, IsSome, length};
ghost use Rattle.mt_explain.specs.Places.{IsPlaceIn};

use crate::position::{Position, position_at};

/// A byte of a text, or its end.
#[derive(Clone, Copy, Debug, PartialEq, Eq)]
pub struct Place {
    /// The offset of the byte.
    pub offset: usize,
    /// Its line and its column.
    pub position: Position,
}

/// The place of an offset; `None` past the end.
pub fn place_at(text: &[u8], offset: usize) -> Option<Place>
    ensures is { IfSome result (λ place. IsPlaceIn text.now place) }
    ensures at { IfSome result (λ place. place.offset ≡ offset) }
    ensures found { IsSome result ↔ (offset ≤ length text.now) }
{
    if offset > text.len() {
        return None;
    }
    Some(Place {
        offset,
        position: position_at(text, offset),
    })
}
