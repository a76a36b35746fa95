//! The items of lists whose rows are pieces, and the memory of their lists.
ghost use Rattle.std.specs.Prelude.{◌≡◌, []};

use crate::pieces::Pieces;
use mt_rules::{Class, Delim, Glue, Style};
use std::alloc::{AllocError, Global};

/// An item of a math list that is set: its pieces are behind those of the item before it. Lengths are scaled points.
#[derive(Clone, Copy)]
pub enum PlacedItem {
    /// An atom or a fraction.
    Set {
        /// Its class.
        class: Class,
        /// How many pieces its row has.
        count: usize,
    },
    /// A left boundary.
    Left(Delim),
    /// A middle.
    Middle(Delim),
    /// A right boundary.
    Right(Delim),
    /// The style of what follows.
    Style(Style),
    /// A kern.
    Kern(i64),
    /// A space.
    Space(Glue),
}

impl Pieces {
    /// An empty list for the items of a list, with the memory of one that [`Pieces::keep_items`] took, if there is one.
    /// Pieces stay.
    pub fn take_items(&mut self, alloc: Global) -> Vec<PlacedItem>
        ensures same { self.new ≡ self.old }
        ensures is { result.items ≡ [] }
    {
        match self.items.pop() {
            Some(mut items) => {
                items.clear();
                items
            }
            None => Vec::new(alloc),
        }
    }

    /// Takes a list of items, whose memory is kept for [`Pieces::take_items`]. Pieces stay.
    pub fn keep_items(&mut self, items: Vec<PlacedItem>) -> Result<(), AllocError>
        ensures { self.new ≡ self.old }
    {
        self.items.push(items)?;
        Ok(())
    }
}
