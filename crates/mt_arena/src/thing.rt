//! What is in an arena.

use mt_rules::{Delim, Kind, Limits, Look, Style, Symbol};

/// A list in an arena: the things at the places from `start` on, before `end`. A span that ends before it starts is
/// an empty list.
#[derive(Clone, Copy)]
pub struct Span {
    /// The place of its first thing.
    pub start: u32,
    /// The place behind its last thing.
    pub end: u32,
}

/// What the nucleus or a script of an atom holds, as `Field` of mt_rules.
#[derive(Clone, Copy)]
pub enum Cell {
    /// Nothing.
    Empty,
    /// A character.
    Sym(Symbol),
    /// A formula.
    List(Span),
    /// Formulas one below another: the rows ([`Thing::Row`]) of the span.
    Rows(Span),
    /// A table: its rows ([`Thing::Cells`]) are those of the span.
    Table(Look, Span),
    /// A root: the place of a [`Thing::Root`].
    Root(u32),
    /// A delimiter of a fixed size.
    Big {
        /// The delimiter.
        delim: Delim,
        /// How large, 0 to 3, as plain TeX's `\big`, `\Big`, `\bigg` and `\Bigg`.
        level: u8,
    },
}

/// An atom: a nucleus with its scripts (tex.web, section 681).
#[derive(Clone, Copy)]
pub struct Noad {
    /// How it is built.
    pub kind: Kind,
    /// Where the scripts of an operator are.
    pub limits: Limits,
    /// The nucleus.
    pub nucleus: Cell,
    /// The superscript.
    pub sup: Cell,
    /// The subscript.
    pub sub: Cell,
}

/// A space with what it can shrink, as `Glue` of mt_rules, in 32 bits. Both are scaled points, or 65536ths of a math
/// unit (mu) where it is given in mu.
#[derive(Clone, Copy)]
pub struct ShortGlue {
    /// The natural width.
    pub width: i32,
    /// By how much it can shrink.
    pub shrink: i32,
}

/// One formula over another (tex.web, section 683).
#[derive(Clone, Copy)]
pub struct FractionNoad {
    /// The thickness of the rule in scaled points; `None` for that of the font.
    pub thickness: Option<i32>,
    /// The delimiter before it.
    pub left: Delim,
    /// The delimiter after it.
    pub right: Delim,
    /// The numerator.
    pub num: Span,
    /// The denominator.
    pub den: Span,
}

/// Four lists, for display, text, script and scriptscript style (tex.web, section 689).
#[derive(Clone, Copy)]
pub struct ChoiceSpans {
    /// For display style.
    pub display: Span,
    /// For text style.
    pub text: Span,
    /// For script style.
    pub script: Span,
    /// For scriptscript style.
    pub small: Span,
}

/// A radical with a degree: what is over the beginning of its sign, and what is under it.
#[derive(Clone, Copy)]
pub struct RootParts {
    /// The degree, which is over the beginning of the sign.
    pub degree: Span,
    /// The nucleus.
    pub body: Cell,
}

/// What is at a place of an arena: an item of a list, as `Item` of mt_rules, or one of the last three, which are
/// no items. Lengths are scaled points, or 65536ths of a math unit (mu) where the name says so.
#[derive(Clone, Copy)]
pub enum Thing {
    /// An atom.
    Atom(Noad),
    /// A fraction, which is spaced as an inner formula.
    Fraction(FractionNoad),
    /// A left boundary, as of `\left`.
    Left(Delim),
    /// A middle, as of e-TeX's `\middle`: a delimiter between the boundaries.
    Middle(Delim),
    /// A right boundary, as of `\right`.
    Right(Delim),
    /// The style of what follows in the list.
    Style(Style),
    /// Four lists of which the style chooses one.
    Choice(ChoiceSpans),
    /// A space in mu.
    MuSpace(ShortGlue),
    /// A space.
    Space(ShortGlue),
    /// A kern in mu.
    MuKern(i32),
    /// A kern.
    Kern(i32),
    /// At script and scriptscript size it takes away the next item, where that is a space, a kern or another of these.
    Nonscript,
    /// One of the rows of a field, or a cell of a table; no item.
    Row(Span),
    /// The cells of a row of a table; no item.
    Cells(Span),
    /// A root; no item.
    Root(RootParts),
}
