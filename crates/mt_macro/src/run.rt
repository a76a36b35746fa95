//! Runs of items: parts of the list that is given, of bodies and of arguments.
ghost use Rattle.std.specs.Prelude.{◌≡◌};
ghost use Rattle.mt_macro.specs.inner.Lengths.{run_len, is_opened, is_remainder};

/// Where the items of a run are.
#[derive(Clone, Copy, Debug)]
pub enum Place {
    /// In the list that is given.
    Given,
    /// In the body of a macro that is called.
    Body(Called),
    /// A whole argument, of so many tokens; its parts are among those that are kept.
    Argument(usize),
    /// What is left of an argument, so many tokens, after its first parts.
    Remainder(usize),
}

/// A body that is put where its macro is called.
#[derive(Clone, Copy, Debug)]
pub struct Called {
    /// The number of the body.
    pub number: usize,
    /// The index, in the list that is given, of the item that calls the macro, or calls the macro in
    /// the body of which its call is, and so on.
    pub call: usize,
}

/// A run of items, by the index of its first one and the index past its last one: in the list given
/// or a body the indexes of items, in an argument those of its parts.
#[derive(Clone, Copy, Debug)]
pub struct Run {
    /// Where they are.
    pub place: Place,
    /// The index of the first one.
    pub start: usize,
    /// The index past the last one.
    pub end: usize,
}

impl Run {
    /// How many tokens it has.
    pub fn len(&self) -> usize
        ensures { result ≡ run_len self.now }
    {
        match self.place {
            Place::Given | Place::Body(_) => self.end.saturating_sub(self.start),
            Place::Argument(count) | Place::Remainder(count) => count,
        }
    }

    /// Whether its items are parts of an argument.
    pub fn is_opened(&self) -> bool
        ensures { result ≡ is_opened self.now.place }
    {
        matches!(self.place, Place::Argument(_) | Place::Remainder(_))
    }

    /// Whether it is what is left of an argument.
    pub fn is_remainder(&self) -> bool
        ensures { result ≡ is_remainder self.now.place }
    {
        matches!(self.place, Place::Remainder(_))
    }
}
