//! The items of a list between the two passes.

use mt_box::Row;
use mt_rules::{Class, Delim, Glue, Style};
use mt_scaled::Items;

/// An item of a list between the two passes. Lengths are scaled points.
#[derive(Drop)]
pub enum Half {
    /// An atom or a fraction that was set.
    Set {
        /// Its final class.
        class: Class,
        /// Its row.
        row: Row,
    },
    /// A left boundary.
    Left(Delim),
    /// A middle: a right boundary to its left, and a left one to its right.
    Middle(Delim),
    /// A right boundary.
    Right(Delim),
    /// The style of what follows.
    Style(Style),
    /// A kern.
    Kern(i64),
    /// A space.
    Space(Glue),
}

/// Items between the two passes, in order.
pub type HalfList = Items<Half>;
