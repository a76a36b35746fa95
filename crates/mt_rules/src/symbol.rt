//! Characters of families, delimiters and spaces.

/// A character of a family: of the font that the family has at the size of its place.
#[derive(Clone, Copy, Debug, PartialEq, Eq)]
pub struct Symbol {
    /// The number of the family.
    pub fam: u8,
    /// The code of the character in its font.
    pub code: u8,
}

/// A delimiter: the characters from which its small and its large variants are sought (The TeXbook, chapter 17).
/// A pair of zeros stands for no character.
#[derive(Clone, Copy, Debug, PartialEq, Eq)]
pub struct Delim {
    /// Where the small variants start.
    pub small: Symbol,
    /// Where the large variants start.
    pub large: Symbol,
}

/// A space with what it can shrink. Both are scaled points, or 65536ths of a math unit (mu) where it is given in mu.
#[derive(Clone, Copy, Debug, PartialEq, Eq)]
pub struct Glue {
    /// The natural width.
    pub width: i64,
    /// By how much it can shrink.
    pub shrink: i64,
}
