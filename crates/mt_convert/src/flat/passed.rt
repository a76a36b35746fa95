//! What joining makes of the items that a list in an arena passes on to be set.

/// What the list round an atom makes of its symbol.
#[derive(Clone, Copy)]
pub(crate) enum JoiningRole {
    /// Nothing.
    Ordinary,
    /// It belongs to a text: in a font with spaces it has no italic correction.
    Text,
    /// With the next symbol it forms a ligature that is not set.
    Smart {
        /// The code of its character.
        first: u8,
        /// The code of the next symbol's character.
        second: u8,
    },
}

/// What joining makes of an item that passes on to be set.
#[derive(Clone, Copy)]
pub(crate) struct Joined {
    /// What it makes of an atom's symbol.
    pub(crate) role: JoiningRole,
    /// The kern between the item and the next atom.
    pub(crate) kern: Option<i64>,
}

impl Joined {
    /// An item that is not joined.
    pub(crate) const ALONE: Joined = Joined {
        role: JoiningRole::Ordinary,
        kern: None,
    };

    /// An atom of a text.
    pub(crate) const TEXT: Joined = Joined {
        role: JoiningRole::Text,
        kern: None,
    };
}
