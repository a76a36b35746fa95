//! The kinds of atoms.

use crate::{Class, Delim, Symbol};

/// Where the scripts of a large operator are (The TeXbook, Appendix G, rule 13).
#[derive(Clone, Copy, Debug, PartialEq, Eq)]
pub enum Limits {
    /// Above and below it in display style, beside it otherwise.
    Default,
    /// Above and below it.
    Always,
    /// Beside it.
    Never,
}

/// How an atom is built round its nucleus (The TeXbook, chapter 17).
#[derive(Clone, Copy, Debug, PartialEq, Eq)]
pub enum Kind {
    /// The nucleus alone, as an atom of this class.
    Plain(Class),
    /// Under a radical sign.
    Radical(Delim),
    /// Under an accent.
    Accent(Symbol),
    /// Under a rule.
    Over,
    /// Over a rule.
    Under,
    /// Rows, one below another, or a table, centred on the axis.
    Vcenter,
    /// The nucleus alone, and of its box only what the flags say is left (plain TeX's `\phantom`, `\hphantom`,
    /// `\vphantom` and `\smash`).
    Veil {
        /// Whether it keeps its width.
        width: bool,
        /// Whether it keeps its height and depth.
        height: bool,
        /// Whether it keeps its marks.
        marks: bool,
    },
}
