//! The classes of atoms.

/// The class of an atom, by which it is spaced (The TeXbook, chapter 17).
#[derive(Clone, Copy, Debug, PartialEq, Eq)]
pub enum Class {
    /// Ordinary, as a letter.
    Ord,
    /// A large operator, as a sum.
    Op,
    /// A binary operation, as a plus.
    Bin,
    /// A relation, as an equals sign.
    Rel,
    /// An opening, as a left parenthesis.
    Open,
    /// A closing, as a right parenthesis.
    Close,
    /// Punctuation, as a comma.
    Punct,
    /// An inner formula, as a fraction.
    Inner,
}
