//! Lines of a page, and the numbers of displays.

use mt_box::{Packed, Row};
use mt_scaled::Items;

/// A box on a line of its own. Its left end is at `shift`, in scaled points.
#[derive(Drop)]
pub struct Line {
    /// How far the box is to the right of the page's origin.
    pub shift: i64,
    /// What is there.
    pub body: Packed,
}

/// Lines, from the top of a page downward.
pub type Lines = Items<Line>;

/// The number of a display.
#[derive(Drop)]
pub struct Numbered {
    /// The row of the number, set in text style.
    pub row: Row,
    /// Whether it is at the left (`\leqno`), and not at the right (`\eqno`).
    pub left: bool,
}
