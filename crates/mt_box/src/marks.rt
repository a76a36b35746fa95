//! Layouts that are being made: their marks, on one list.
mod centring;
mod moves;
mod numbering;
mod row;
mod stack;
mod starts;

pub use centring::recentre_layer;
pub use moves::{Move, cut};
pub(crate) use row::RowReach;
pub use row::{
    RowPart, RowPiece, extents_beside, pack_parts, pack_parts_to, parts_extents, parts_shrink,
};
pub use stack::Marks;
