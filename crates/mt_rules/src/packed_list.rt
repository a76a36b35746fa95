//! Lists of boxes.

use mt_box::Packed;
use mt_scaled::Items;

/// Boxes, in order.
pub type PackedList = Items<Packed>;
