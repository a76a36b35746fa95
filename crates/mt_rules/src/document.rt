//! Formulas, and the pages that they are on.

use crate::{MathList, RowList};
use mt_scaled::Items;

/// What is set at the side of a displayed formula, as its number.
#[derive(Drop)]
pub struct Tag {
    /// A formula in text style.
    pub body: MathList,
    /// Whether it is at the left.
    pub left: bool,
}

/// A row of a display of equations. Each cell is set in text style; a side that the source has begins with a change to
/// display style. A cell that the source leaves out is an empty list.
#[derive(Drop)]
pub struct Equation {
    /// The left side, which ends where the right side of each row begins.
    pub first: MathList,
    /// The right side.
    pub second: MathList,
    /// The number at the side, a list in text style.
    pub number: MathList,
}

/// The rows of a display of equations, in order.
pub type EquationList = Items<Equation>;

/// What is set as a formula (The TeXbook, chapter 19).
#[derive(Drop)]
pub enum Body {
    /// A list.
    List(MathList),
    /// A display of equations with numbers, one below another: plain TeX's `\eqalignno` and
    /// `\leqalignno`.
    Equations {
        /// Whether the numbers are at the left.
        left: bool,
        /// The equations, from the top down.
        rows: EquationList,
    },
    /// A display of lists in display style, one below another: plain TeX's `\displaylines`.
    Lines(RowList),
}

/// A formula of a document.
#[derive(Drop)]
pub struct Formula {
    /// Its number in the document, from 1.
    pub number: u32,
    /// Whether it is displayed.
    pub display: bool,
    /// What is set.
    pub body: Body,
    /// The number that is set beside it, if it has one. It is only beside a list.
    pub tag: Option<Tag>,
}

/// The formulas of a page, in order.
pub type Page = Items<Formula>;

/// The pages of a document, in order.
pub type Document = Items<Page>;
