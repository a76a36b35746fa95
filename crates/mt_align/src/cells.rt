//! The cells of a table, as boxes and by what they reach.

use mt_box::Extents;
use mt_rules::PackedList;
use mt_scaled::Items;

/// The cells of a row of a table, packed, from left to right.
pub type CellRow = PackedList;

/// The rows of a table, from the top downward. Rows may have different numbers of cells.
pub type CellRows = Items<CellRow>;

/// What the cells of a row of a table reach, from left to right.
pub type CellExtents = Items<Extents>;

/// What the cells of each row of a table reach, from the top row downward.
pub type TableExtents = Items<CellExtents>;
