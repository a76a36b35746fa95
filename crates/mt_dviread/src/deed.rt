//! What an operation does to the pages of a file.

use mt_box::Place;

/// What an operation of a DVI file does to its pages (tex.web §585 to §590).
#[derive(Clone, Copy, Debug, PartialEq, Eq)]
pub enum Deed {
    /// Nothing: it is pre, post, a font's definition, or a nop outside of the pages.
    Passes,
    /// bop: a page begins.
    BeginsPage,
    /// eop: the page ends.
    EndsPage,
    /// fnt_num or fnt: a font is selected in the page.
    Selects,
    /// Any other operation of the page, with the place that it fills, if any.
    Performs(Option<Place>),
}

/// A place that a character fills, and how far it reaches, in scaled points.
#[derive(Clone, Copy, Debug, PartialEq, Eq)]
pub struct Mark {
    /// The place.
    pub place: Place,
    /// Where it ends to the right of the page's origin.
    pub right: i64,
    /// Where it ends below the page's origin.
    pub lower: i64,
}
